// The mount's figures from whole numbers. All of this is for lib.rt.
ghost use Rattle.std.specs.Prelude.{◌≡◌, ◌≤◌, ◌^◌, nat_abs};
ghost use Rattle.place.specs.Mount.{degrees as degrees_of, astronomical_units, mount_place, Small};

use crate::{Equatorial, MountPlace};

// The divisors of the rules as doubles: 360000.0 hundredths of an arcsecond in a degree, 1e11 parts in an AU.
const HUNDREDTHS_PER_DEGREE: f64 = crate::HUNDREDTHS_PER_DEGREE as f64;

const PARTS: f64 = units::PARTS as f64;

// From hundredths of an arcsecond.
fn degrees(k: i64) -> f64
    requires { nat_abs k ≤ 2 ^ 52 }
    ensures { result ≡ degrees_of k }
{
    k as f64 / HUNDREDTHS_PER_DEGREE
}

// From parts.
fn units_of_distance(d: i64) -> f64
    requires { nat_abs d ≤ 2 ^ 52 }
    ensures { result ≡ astronomical_units d }
{
    d as f64 / PARTS
}

// Both angles and the distance of a place.
pub fn figures(p: Equatorial) -> MountPlace
    requires { Small p }
    ensures { result ≡ mount_place p }
{
    MountPlace {
        right_ascension: degrees(p.right_ascension),
        declination: degrees(p.declination),
        distance: units_of_distance(p.distance),
    }
}
