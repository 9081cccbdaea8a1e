// Direction and latitude of a vector, in hundredths of an arcsecond, and the angle of a number of units: RULES, "Places".
#![tactic(auto)]

ghost use Rattle.std.specs.Prelude.{◌≡◌, ◌+◌, ◌-◌, ◌*◌, ◌<◌, ◌≤◌, ◌^◌, pos, nat_abs, ◌+ℤ◌, ◌*ℤ◌};
ghost use Rattle.units.specs.Units.{turn};
ghost use Rattle.direction.specs.Angles.{units_angle};
ghost use Rattle.direction.specs.Direction.{quarter_steps, turn_steps, steps_angle, not_past, in_quarter, direction, latitude};

use arith::compare::product_le;
use arith::muldiv::mul_div_round;
use cosine::working::cosine_sine;
use roots::length;
use units::TURN;

// Hundredths of an arcsecond in a quarter turn, and in a turn.
const QUARTER_STEPS: u64 = 90 * 3600 * 100;

pub const TURN_STEPS: u64 = 4 * QUARTER_STEPS;

// A turn is so many angles for each of its steps, and this rest.
const ANGLES_A_STEP: u64 = TURN / TURN_STEPS;

const ANGLES_LEFT: u64 = TURN % TURN_STEPS;

// The rest is rounded over twice the steps, as the rules round.
const TWO_TURNS: u64 = 2 * TURN_STEPS;

// The turn as a signed number.
const SIGNED_TURN: i64 = TURN as i64;

// The angle of s units, of which a turn has `units`, in 10^-16 radian. The turn comes first: a second factor has at most 47 bits.
pub fn units_angle(s: i64, units: u64) -> i64
    requires { (0 < units) × (units ≤ 2 ^ 47) × (nat_abs s ≤ 2 ^ 47) × (nat_abs s * turn < units * (2 ^ 63 - 1)) }
    ensures { result ≡ units_angle units s }
{
    mul_div_round(SIGNED_TURN, s, units)
}

// The angle of k hundredths of an arcsecond.
fn step_angle(k: u64) -> u64
    requires { k ≤ turn_steps }
    ensures { pos result ≡ steps_angle (pos k) }
{
    k * ANGLES_A_STEP + (2 * (k * ANGLES_LEFT) + TURN_STEPS) / TWO_TURNS
}

// A vector in the first quarter.
#[derive(Clone, Copy)]
struct Turned {
    x: u64,
    y: u64,
    ghost small: { (x < 2 ^ 47) × (y < 2 ^ 47) },
}

impl Turned {
    // Whether x times the sine is at most y times the cosine, at the angle of k.
    fn is_not_past(self, k: u64) -> bool
        requires { k ≤ quarter_steps }
        ensures { result ≡ not_past (pos self.x) (pos self.y) k }
    {
        let t = cosine_sine(step_angle(k));
        product_le(self.x, t.sin as u64, self.y, t.cos as u64)
    }

    // The greatest step that is not past the vector, by halving: `least` is not past it, and `most` and all steps beyond are.
    // A loop and not `partition_point`, which searches a slice: the steps are numbers, of which no table is held.
    fn step(self) -> u64
        ensures { (result ≡ in_quarter (pos self.x) (pos self.y)) × (result < quarter_steps) }
    {
        let mut least: u64 = 0;
        let mut most: u64 = QUARTER_STEPS;
        while 1 < most - least {
            let middle = least + (most - least) / 2;
            if self.is_not_past(middle) {
                least = middle;
            } else {
                most = middle;
            }
        }
        least
    }

    // The direction that was its own before some quarter turns.
    fn after(self, turns: u64) -> i64
        requires { turns < 4 }
        ensures { result ≡ pos (turns * quarter_steps + in_quarter (pos self.x) (pos self.y)) }
    {
        (turns * QUARTER_STEPS + self.step()) as i64
    }
}

// The direction of (x, y).
pub fn direction_of(x: i64, y: i64) -> i64
    requires { (nat_abs x < 2 ^ 47) × (nat_abs y < 2 ^ 47) }
    ensures { result ≡ pos (direction x y) }
{
    let a = x.unsigned_abs();
    let b = y.unsigned_abs();
    if x > 0 && y >= 0 {
        Turned { x: a, y: b }.after(0)
    } else if y > 0 {
        Turned { x: b, y: a }.after(1)
    } else if x < 0 {
        Turned { x: a, y: b }.after(2)
    } else if y < 0 {
        Turned { x: b, y: a }.after(3)
    } else {
        0
    }
}

// The latitude of (x, y, z).
pub fn latitude_of(x: i64, y: i64, z: i64) -> i64
    requires { (nat_abs (x *ℤ x +ℤ y *ℤ y) < 2 ^ 92) × (nat_abs z < 2 ^ 47) }
    ensures { result ≡ latitude x y z }
{
    let flat = length(x, y, 0) as i64;
    let up = z.unsigned_abs() as i64;
    let k = direction_of(flat, up);
    if z < 0 { -k } else { k }
}
