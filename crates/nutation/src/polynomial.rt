// Polynomials in the time, highest power first, each product rounded: RULES, "Places". For this crate alone.
ghost use Rattle.std.specs.Prelude.{◌≡◌, ◌+◌, ◌-◌, ◌*◌, ◌<◌, ◌^◌, nat_abs, ◌+ℤ◌, ◌*ℤ◌};
ghost use Rattle.integers.specs.Division.{rounded};
ghost use Rattle.nutation.specs.Nutation.{polynomial};
ghost use Rattle.nutation.specs.Machine.Reduced.{By, centuries, reach};

use arith::muldiv::mul_div_round;

// One step: c and the product of v by n/d.
pub fn next(c: i64, v: i64, n: i64, d: u64) -> i64
    requires { By n d × (nat_abs c + centuries * nat_abs v < 2 ^ 63 - 1) }
    ensures { result ≡ c +ℤ rounded (v *ℤ n) d }
{
    c + mul_div_round(v, n, d)
}

// With these coefficients, from the constant one up.
pub fn polynomial(n: i64, d: u64, c: &[i64]) -> i64
    requires { By n d × (reach centuries c.now < 2 ^ 63 - 1) }
    ensures { result ≡ polynomial n d c.now }
{
    let mut v = 0;
    for a in c.iter().rev() {
        v = next(*a, v, n, d);
    }
    v
}
