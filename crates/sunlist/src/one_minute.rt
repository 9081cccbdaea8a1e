// One minute decided. For list.rt.
ghost use Rattle.std.specs.Prelude.{◌≡◌, true, ◌≤◌, ◌<◌, ◌^◌, nat_abs};
ghost use Rattle.units.specs.Units.{U};
ghost use Rattle.rectangular.specs.Sight.{places_usable, view};
ghost use Rattle.rectangular.specs.Machine.Components.{Components};
ghost use Rattle.separation.specs.Arcminutes.{greatest_keep_out};
ghost use Rattle.separation.specs.Listed.{squared_separation, threshold as threshold_of};
ghost use Rattle.sunlist.specs.Minute.{figures as figures_of, decide as decide_of};

use crate::{Decision, Figures};
use cosine::working::sine_at;
use rectangular::from_earth::sight;
use rectangular::{Frame, Vector, View, geocentric, length, sun, unit};
use units::{Coordinates, TURN};

// Arcminutes in a turn, as in separation/specs/Arcminutes.antt, and half arcminutes.
const ARCMINUTES: u64 = 21600;

const HALF_ARCMINUTES: u64 = 2 * ARCMINUTES;

// A turn has so many units of angle for each half arcminute, and this rest.
const ANGLES_A_HALF: u64 = TURN / HALF_ARCMINUTES;

const ANGLES_LEFT: u64 = TURN % HALF_ARCMINUTES;

// Four times the squared sine of half of k + 1 arcminutes, the half angle rounded.
fn threshold(k: u64) -> i64
    requires { k ≤ greatest_keep_out }
    ensures { result ≡ threshold_of k }
{
    let n = k + 1;
    let s = sine_at(n * ANGLES_A_HALF + (n * ANGLES_LEFT + ARCMINUTES) / HALF_ARCMINUTES);
    4 * (s * s)
}

// The squared difference of two unit vectors.
fn separation(u: Vector, v: Vector) -> i64
    requires { Components U u × Components U v × (nat_abs (squared_separation u v) < 2 ^ 63) }
    ensures { result ≡ squared_separation u v }
{
    let w = geocentric(u, v);
    w.x * w.x + w.y * w.y + w.z * w.z
}

// The figures of a minute whose view is usable.
fn figures(planet: Coordinates, earth: Coordinates, v: View, k: u64) -> Figures
    requires { (k ≤ greatest_keep_out) × (places_usable planet earth ≡ true) × (v ≡ view planet earth) }
    ensures { result ≡ figures_of k planet earth }
{
    let s = sun(v.earth);
    let to_sun = unit(s, length(s));
    let to_planet = unit(v.vector, v.distance);
    let q = separation(to_sun, to_planet);
    let t = threshold(k);
    Figures {
        separation: q,
        threshold: t,
        distance: v.distance,
        planet: planet.radius,
        earth: earth.radius,
    }
}

// Listed, clear or not usable, for a keep-out of k arcminutes, in the frame of the theory.
pub fn decide(planet: Coordinates, earth: Coordinates, k: u64) -> Decision
    requires { k ≤ greatest_keep_out }
    ensures { result ≡ decide_of k planet earth }
{
    match sight(Frame::Theory, planet, earth) {
        None => Decision::Unusable,
        Some(v) => {
            let f = figures(planet, earth, v, k);
            let q = f.separation;
            let t = f.threshold;
            if q <= t {
                return Decision::Listed(f);
            }
            Decision::Clear(f)
        }
    }
}
