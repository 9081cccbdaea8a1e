// The working cosine and sine, equal to the rules to the last unit, and a term of a series: RULES, "Working cosine and sums".
#![tactic(auto)]

pub mod parity;
pub mod parts;
pub mod term;
pub mod working;

ghost use Rattle.std.specs.Prelude.{◌≡◌};
ghost use Rattle.cosine.specs.Cosine.{cosine as cosine·of, sine as sine·of};

use arith::residue::residue;
use units::TURN;
use working::{cosine_at, sine_at};

// The cosine of any angle in 10^-16 radian, in 10^-9.
pub fn cosine(x: i64) -> i64
    ensures { result ≡ cosine·of x }
{
    cosine_at(residue(x, TURN))
}

// The sine of any angle in 10^-16 radian, in 10^-9.
pub fn sine(x: i64) -> i64
    ensures { result ≡ sine·of x }
{
    sine_at(residue(x, TURN))
}
