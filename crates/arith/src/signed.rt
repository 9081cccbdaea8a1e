// For this crate and those above: a signed number from its sign and its magnitude, and as a natural one.
ghost use Rattle.std.specs.Prelude.{◌≡◌, ◌<◌, ◌^◌};
ghost use Rattle.integers.specs.Signs.{negative, sgn, differ};
ghost use Rattle.arith.specs.Naturals.{natural_or};

#[tactic(auto, unfolding(integers::specs::Signs::sgn))]
pub fn of_parts(neg: bool, m: u64) -> i64
    requires { m < 2 ^ 63 }
    ensures { result ≡ sgn neg m }
{
    let a = m as i64;
    if neg { -a } else { a }
}

// Whether a·b is negative, or would be if it were not 0.
#[tactic(auto, unfolding(integers::specs::Signs::negative, integers::specs::Signs::differ))]
pub fn signs_differ(a: i64, b: i64) -> bool
    ensures { result ≡ differ (negative a) (negative b) }
{
    (a < 0) != (b < 0)
}

// x where it is not negative, else `other`: a number that the caller's test of the range refuses.
#[tactic(auto, unfolding(crate::specs::Naturals::natural_or))]
pub fn natural_or(x: i64, other: u64) -> u64
    ensures { result ≡ natural_or x other }
{
    u64::try_from(x).unwrap_or(other)
}
