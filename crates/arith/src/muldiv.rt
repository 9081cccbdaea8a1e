// Products that pass 64 bits, divided and rounded. For the crates above.
ghost use Rattle.std.specs.Prelude.{◌≡◌, ◌+◌, ◌-◌, ◌*◌, ◌/◌, ◌%◌, ◌<◌, ◌≤◌, ◌^◌, pos, nat_abs, ◌*ℤ◌};
ghost use Rattle.integers.specs.Division.{rounded};
ghost use Rattle.units.specs.Units.{U};
ghost use Rattle.arith.specs.Machine.Digits.{base};

use crate::round::nearest;
use crate::signed::{of_parts, signs_differ};
use units::U;

// The base of the digits of a long division, 2^16, and its powers.
const BASE: u64 = 65536;

const BASE_2: u64 = BASE * BASE;

const BASE_3: u64 = BASE * BASE_2;

#[derive(Clone, Copy)]
pub struct Quot {
    pub q: u64,
    pub r: u64,
}

// One digit more: (q, r) are the quotient and the rest of the digits so far, times b.
fn step(q: u64, r: u64, g: u64, b: u64, d: u64) -> Quot
    requires { (r < d) × (d ≤ 2 ^ 47) × (b ≤ 2 ^ 47) × (g < base) × ((q * d + r) * base + g * b < d * 2 ^ 64) }
    ensures { (result.q ≡ ((q * d + r) * base + g * b) / d) × (result.r ≡ ((q * d + r) * base + g * b) % d) }
{
    let x = r * BASE + g * b;
    Quot {
        q: q * BASE + x / d,
        r: x % d,
    }
}

// a·b by d: the quotient and the rest.
fn mul_div(a: u64, b: u64, d: u64) -> Quot
    requires { (0 < d) × (d ≤ 2 ^ 47) × (b ≤ 2 ^ 47) × (a * b < d * 2 ^ 64) }
    ensures { (result.q ≡ a * b / d) × (result.r ≡ a * b % d) }
{
    let s3 = step(0, 0, a / BASE_3, b, d);
    let s2 = step(s3.q, s3.r, a / BASE_2 % BASE, b, d);
    let s1 = step(s2.q, s2.r, a / BASE % BASE, b, d);
    step(s1.q, s1.r, a % BASE, b, d)
}

// a·b / d rounded. A quotient of 128 bits would be shorter; by a divisor that is no constant it is a call of `__udivti3`, a name that an archive
// for C then asks of its user.
pub fn mul_div_round(a: i64, b: i64, d: u64) -> i64
    requires { (0 < d) × (d ≤ 2 ^ 47) × (nat_abs b ≤ 2 ^ 47) × (nat_abs a * nat_abs b < d * (2 ^ 63 - 1)) }
    ensures { result ≡ rounded (a *ℤ b) d }
{
    let neg = signs_differ(a, b);
    let z = mul_div(a.unsigned_abs(), b.unsigned_abs(), d);
    of_parts(neg, nearest(neg, z.q, z.r, d))
}

// m·k by U: the quotient and the rest. m is split at U.
pub fn product_by_unit(m: u64, k: u64) -> Quot
    requires { k ≤ U }
    ensures { (result.q ≡ m * k / U) × (result.r ≡ m * k % U) }
{
    let p = m % U * k;
    Quot {
        q: m / U * k + p / U,
        r: p % U,
    }
}

// a·c / U rounded, for a cosine c. U is a constant, so that no division runs.
pub fn scale(a: i64, c: i64) -> i64
    requires { (nat_abs a < 2 ^ 63) × (nat_abs c ≤ U) }
    ensures { result ≡ rounded (a *ℤ c) U }
{
    let neg = signs_differ(a, c);
    let z = product_by_unit(a.unsigned_abs(), c.unsigned_abs());
    of_parts(neg, nearest(neg, z.q, z.r, U))
}

// a·x / (s·t) rounded, for a divisor that may pass 64 bits; t has to be even.
pub fn mul_div_round_wide(a: u64, x: u64, s: u64, t: u64) -> i64
    requires { (0 < s) × (0 < t) × (t % 2 ≡ 0) × (a * s < 2 ^ 64) × (a * x < s * (2 ^ 63 - 1)) }
    ensures { result ≡ rounded (pos a *ℤ pos x) (s * t) }
{
    let e = x / s * a + x % s * a / s;
    nearest(false, e / t, e % t, t) as i64
}
