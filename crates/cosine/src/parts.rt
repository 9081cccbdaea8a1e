// An angle that is a whole number of parts: RULES, "Units and rounding". For the crates above.
ghost use Rattle.std.specs.Prelude.{◌≡◌, pos, ◌*ℤ◌};
ghost use Rattle.integers.specs.Division.{modulo};
ghost use Rattle.units.specs.Units.{turn, angle_per_part};

use crate::term::{CUT, CUTS};
use arith::residue::residue;
use units::{ANGLE_PER_PART, TURN};

// n parts as an angle, less whole turns. The product with n would pass 64 bits: its whole cuts are reduced apart from the rest.
pub fn parts_angle(n: i64) -> u64
    ensures { result ≡ modulo (pos angle_per_part *ℤ n) turn }
{
    let m = residue(n, TURN);
    let h = ANGLE_PER_PART * (m / CUT);
    let l = ANGLE_PER_PART * (m % CUT);
    (h % CUTS * CUT + l) % TURN
}
