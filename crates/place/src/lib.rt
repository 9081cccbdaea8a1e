// The apparent equatorial place of a planet from two packed series, and the mount's answer: RULES, "Places".
#![tactic(auto)]

ghost use Rattle.std.specs.Prelude.{◌≡◌};
ghost use Rattle.place.specs.Place.{place_answer};
ghost use Rattle.place.specs.Mount.{mount_answer};

mod bodies;
mod doubles;
pub mod light_time;
mod steps;

use crate::bodies::sighting;
use crate::doubles::figures;
use crate::steps::{apparent, equatorial};
use rectangular::Vector;
use units::{Instant, Refusal};

// The geocentric vector of a planet when the light left, and D when it arrives, in parts.
#[derive(Clone, Copy)]
pub struct Geocentric {
    pub vector: Vector,
    pub distance: u64,
}

// The apparent equatorial vector, in parts, with the nutation in longitude and the true obliquity as angles, in 10^-16 radian.
#[derive(Clone, Copy)]
pub struct Apparent {
    pub vector: Vector,
    pub nutation: i64,
    pub obliquity: i64,
}

// Hundredths of an arcsecond in a degree; specs/Mount.antt has the same name.
pub const HUNDREDTHS_PER_DEGREE: u64 = 360000;

// Right ascension and declination in hundredths of an arcsecond, the distance in parts.
#[derive(Clone, Copy)]
pub struct Equatorial {
    pub right_ascension: i64,
    pub declination: i64,
    pub distance: i64,
}

// The mount's figures: degrees, degrees and AU.
#[derive(Clone, Copy)]
pub struct MountPlace {
    pub right_ascension: f64,
    pub declination: f64,
    pub distance: f64,
}

// The apparent place of a planet at an instant, in the frame of the catalogues, from the packed series of planet and Earth. The answer's distance is that at t.
pub fn apparent_place(planet: &[u8], earth: &[u8], t: Instant) -> Result<Equatorial, Refusal>
    ensures { result ≡ place_answer planet.now earth.now t }
{
    let g = sighting(planet, earth, t)?;
    let a = apparent(t, g.vector);
    Ok(equatorial(a.vector, g.distance))
}

// The same for a mount.
pub fn mount_place(planet: &[u8], earth: &[u8], t: Instant) -> Result<MountPlace, Refusal>
    ensures { result ≡ mount_answer planet.now earth.now t }
{
    let p = apparent_place(planet, earth, t)?;
    Ok(figures(p))
}
