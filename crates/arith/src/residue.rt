// The remainder that is never negative: RULES, "Units and rounding". For the crates above.
ghost use Rattle.std.specs.Prelude.{◌≡◌, ◌<◌};
ghost use Rattle.integers.specs.Division.{modulo};

// Not `rem_euclid`: the divisor may be one that an i64 does not hold.
#[tactic(auto, unfolding(integers::specs::Division::modulo))]
pub fn residue(n: i64, d: u64) -> u64
    requires { 0 < d }
    ensures { result ≡ modulo n d }
{
    if n < 0 {
        d - 1 - !n as u64 % d
    } else {
        n as u64 % d
    }
}
