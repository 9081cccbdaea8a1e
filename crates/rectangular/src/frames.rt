// The frames of a place: RULES, "The frame of the catalogues". A heliocentric vector is turned from the theory's frame into that of the catalogues.
ghost use Rattle.std.specs.Prelude.{◌≡◌, true, ◌≤◌, ◌^◌, nat_abs};
ghost use Rattle.rectangular.specs.Rectangular.{place as place_of};
ghost use Rattle.rectangular.specs.Sight.{radius_usable};
ghost use Rattle.rectangular.specs.Frames.{about_z, share, turned as turned_of, in_frame};
ghost use Rattle.rectangular.specs.Machine.Components.{Components};

use crate::{Frame, Vector, place};
use arith::muldiv::mul_div_round;
use units::Coordinates;

// specs/Frames.antt has the same constants under the same names: the small angles of the turn, in units of which FRAME_UNIT make a radian.
const ABOUT_X: i64 = 188593;

const ABOUT_Y: i64 = 190889;

const ABOUT_Z: i64 = 440291;

const FRAME_UNIT: u64 = 1000000000000;

// A constant times a component, rounded to the part.
fn share(m: i64, v: i64) -> i64
    requires { (nat_abs m ≤ about_z) × (nat_abs v ≤ 2 ^ 43) }
    ensures { (result ≡ share m v) × (nat_abs result ≤ 2 ^ 43) }
{
    mul_div_round(m, v, FRAME_UNIT)
}

// A heliocentric vector in the frame of the catalogues.
#[tactic(auto, unfolding(crate::specs::Frames::turned))]
pub fn turned(v: Vector) -> Vector
    requires { Components (2 ^ 43) v }
    ensures { result ≡ turned_of v }
{
    Vector {
        x: v.x + share(ABOUT_Z, v.y) + share(-ABOUT_Y, v.z),
        y: share(-ABOUT_Z, v.x) + v.y + share(ABOUT_X, v.z),
        z: share(ABOUT_Y, v.x) + share(-ABOUT_X, v.y) + v.z,
    }
}

// A body's place in a frame, where its R is usable.
pub fn place_in(frame: Frame, c: Coordinates) -> Vector
    requires { radius_usable c.radius ≡ true }
    ensures { (result ≡ in_frame frame (place_of c)) × Components (2 ^ 44) result }
{
    let v = place(c);
    match frame {
        Frame::Theory => v,
        Frame::Catalogues => turned(v),
    }
}
