// A planet seen from Earth: whether both places are usable, and the view then.
ghost use Rattle.std.specs.Prelude.{◌≡◌, true, ◌&&◌, ◌<◌, ◌^◌};
ghost use Rattle.rectangular.specs.Sight.{radius_usable, usable as usable_of, sight_from, sight as sight_of};
ghost use Rattle.rectangular.specs.Machine.Components.{Components};

use crate::frames::place_in;
use crate::{Frame, Vector, View, geocentric, length};
use units::{Coordinates, PARTS};

// specs/Sight.antt has the same constants under the same names.

// A usable R is from 0.1 to 64 AU.
const LEAST_RADIUS: i64 = PARTS as i64 / 10;

const GREATEST_RADIUS: i64 = 64 * PARTS as i64;

// A usable D is at least 0.1 AU, and DISTANCE_FACTOR times D at least the sum of both R.
const LEAST_DISTANCE: u64 = PARTS / 10;

const DISTANCE_FACTOR: u64 = 16;

#[tactic(auto, unfolding(crate::specs::Sight::radius_usable))]
fn usable_radius(radius: i64) -> bool
    ensures { result ≡ radius_usable radius }
{
    (LEAST_RADIUS..=GREATEST_RADIUS).contains(&radius)
}

// The planet's R, then Earth's.
fn usable_radii(planet: i64, earth: i64) -> bool
    ensures { result ≡ (radius_usable planet && radius_usable earth) }
{
    usable_radius(planet) && usable_radius(earth)
}

// For two R that are usable. Here and in `seen` a contract says that they are, and no type: they are fields of `Coordinates`, which may be any numbers.
fn usable_distance(planet: i64, earth: i64, distance: u64) -> bool
    requires { (radius_usable planet ≡ true) × (radius_usable earth ≡ true) × (distance < 2 ^ 46) }
    ensures { result ≡ usable_of planet earth distance }
{
    LEAST_DISTANCE <= distance && planet + earth <= (DISTANCE_FACTOR * distance) as i64
}

// For two R that are usable, and both vectors in one frame: the geocentric vector and D, if D is usable.
fn seen(planet: i64, earth: i64, p: Vector, e: Vector) -> Option<View>
    requires { (radius_usable planet ≡ true) × (radius_usable earth ≡ true) × Components (2 ^ 44) p × Components (2 ^ 44) e }
    ensures { result ≡ sight_from planet earth p e }
{
    let vector = geocentric(p, e);
    let distance = length(vector);
    if !usable_distance(planet, earth, distance) {
        return None;
    }
    Some(View {
        earth: e,
        vector,
        distance,
    })
}

// Both bodies in one frame. Both R are tested before the vectors are worked.
pub fn sight(frame: Frame, planet: Coordinates, earth: Coordinates) -> Option<View>
    ensures { result ≡ sight_of frame planet earth }
{
    if !usable_radii(planet.radius, earth.radius) {
        return None;
    }
    let p = place_in(frame, planet);
    let e = place_in(frame, earth);
    seen(planet.radius, earth.radius, p, e)
}
