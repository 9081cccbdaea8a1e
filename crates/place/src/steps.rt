// The steps to an apparent place. For this crate alone.
ghost use Rattle.std.specs.Prelude.{◌≡◌, ◌<◌, ◌≤◌, ◌^◌, pos, nat_abs};
ghost use Rattle.rectangular.specs.Machine.Components.{Components};
ghost use Rattle.integers.specs.Division.{modulo};
ghost use Rattle.units.specs.Units.{turn, t_limit};
ghost use Rattle.direction.specs.Direction.{turn_steps, steps_angle};
ghost use Rattle.place.specs.Apparent.{earlier as earlier_of, rebuilt, to_equator as to_equator_of, apparent as apparent_of};
ghost use Rattle.place.specs.Apparent.{equatorial as equatorial_of};
ghost use Rattle.place.specs.Machine.Reach.{reach, equator_reach};

use crate::light_time::light;
use crate::{Apparent, Equatorial};
use arith::muldiv::scale;
use arith::residue::residue;
use cosine::working::cosine_sine;
use direction::{TURN_STEPS, direction_of, latitude_of, units_angle};
use nutation::angles_at;
use rectangular::{Vector, from_angles, length};
use units::{Instant, TURN};

// The instant at which light left that is seen at t from a distance.
pub fn earlier(t: Instant, distance: u64) -> Instant
    requires { (nat_abs t.ms ≤ t_limit) × (distance < 2 ^ 46) }
    ensures { result ≡ earlier_of t distance }
{
    Instant {
        ms: t.ms - light(distance),
    }
}

// A vector turned to the true equator, by the cosine and the sine of the obliquity.
fn to_equator(v: Vector, obliquity: u64) -> Vector
    requires { Components (2 ^ 61) v × (obliquity < 2 ^ 63) }
    ensures { result ≡ to_equator_of (pos obliquity) v }
{
    let e = cosine_sine(obliquity);
    Vector {
        x: v.x,
        y: scale(v.y, e.cos) - scale(v.z, e.sin),
        z: scale(v.y, e.sin) + scale(v.z, e.cos),
    }
}

// The angle of k hundredths of an arcsecond, less its whole turns.
fn angle_of(k: i64) -> u64
    requires { nat_abs k ≤ turn_steps }
    ensures { result ≡ modulo (steps_angle k) turn }
{
    residue(units_angle(k, TURN_STEPS), TURN)
}

// A vector rebuilt from its direction and latitude, the nutation's angle added to the longitude.
fn rebuild(v: Vector, nutation: i64) -> Vector
    requires { Components reach v }
    ensures { result ≡ rebuilt nutation v }
{
    let k = direction_of(v.x, v.y);
    let h = latitude_of(v.x, v.y, v.z);
    let b = angle_of(h);
    let a = angle_of(k);
    let n = residue(nutation, TURN);
    let r = length(v) as i64;
    from_angles(r, b, (a + n) % TURN)
}

// Rebuilt and turned to the equator, by the angles of the nutation in longitude and of the true obliquity.
fn apparent_vector(v: Vector, nutation: i64, obliquity: i64) -> Vector
    requires { Components reach v }
    ensures { result ≡ to_equator_of obliquity (rebuilt nutation v) }
{
    let w = rebuild(v, nutation);
    to_equator(w, residue(obliquity, TURN))
}

// The apparent equatorial vector of a geocentric one, with the nutation and the obliquity that it was turned by.
pub fn apparent(t: Instant, v: Vector) -> Apparent
    requires { (nat_abs t.ms ≤ t_limit) × Components reach v }
    ensures { result ≡ apparent_of t v }
{
    let a = angles_at(t.ms);
    let vector = apparent_vector(v, a.nutation, a.obliquity);
    Apparent {
        vector,
        nutation: a.nutation,
        obliquity: a.obliquity,
    }
}

// The two directions of an equatorial vector, with a distance.
pub fn equatorial(v: Vector, distance: u64) -> Equatorial
    requires { Components equator_reach v × (distance < 2 ^ 46) }
    ensures { result ≡ equatorial_of v distance }
{
    Equatorial {
        right_ascension: direction_of(v.x, v.y),
        declination: latitude_of(v.x, v.y, v.z),
        distance: distance as i64,
    }
}
