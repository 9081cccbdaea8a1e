// Nutation and obliquity at an instant: RULES, "Places".
#![tactic(auto)]

pub mod moon;
mod polynomial;
pub mod rows;

ghost use Rattle.std.specs.Prelude.{◌≡◌, ◌≤◌, ◌^◌, nat_abs};
ghost use Rattle.units.specs.Units.{t_limit};
ghost use Rattle.nutation.specs.Nutation.{mean_obliquity, nutation_angle, obliquity_angle};

use crate::polynomial::polynomial;
use crate::rows::nutation_at;
use direction::units_angle;
use units::MILLENNIUM;

// A century in milliseconds: by t over it is by 10t/T.
const CENTURY: u64 = MILLENNIUM / 10;

// The units in a turn, 10^-8 arcsecond for the arguments and 10^-5 for the sums.
const ARGUMENT_TURN: u64 = 360 * 3600 * 100000000;

const SUM_TURN: u64 = 360 * 3600 * 100000;

// The coefficients of the mean obliquity, from the constant one up.
const OBLIQUITY: [i64; 4] = [8438144800, -46815000, -5900, 181300];

// D, M, M', F and the longitude of the node, in 10^-8 arcsecond: five fields and not an array, since the rules and the definitions know them by name.
#[derive(Clone, Copy)]
pub struct Arguments {
    pub elongation: i64,
    pub sun: i64,
    pub moon: i64,
    pub latitude: i64,
    pub node: i64,
}

// The nutation in longitude and in obliquity, in 10^-5 arcsecond.
#[derive(Clone, Copy)]
pub struct Nutation {
    pub longitude: i64,
    pub obliquity: i64,
}

// The angle of the nutation in longitude and that of the true obliquity, in 10^-16 radian.
#[derive(Clone, Copy)]
pub struct Angles {
    pub nutation: i64,
    pub obliquity: i64,
}

// Here and in `moon` and `rows`, t is a number whose limit each contract names, and not a type of its own: a caller has the number, and that it is in range.

// The mean obliquity at t milliseconds, in 10^-5 arcsecond: its polynomial is in tau, so by t/T.
pub fn mean_obliquity_at(t: i64) -> i64
    requires { nat_abs t ≤ t_limit }
    ensures { (result ≡ mean_obliquity t) × (nat_abs result ≤ 2 ^ 34) }
{
    polynomial(t, MILLENNIUM, &OBLIQUITY)
}

// The nutation in longitude and the true obliquity at t milliseconds, as angles in 10^-16 radian.
pub fn angles_at(t: i64) -> Angles
    requires { nat_abs t ≤ t_limit }
    ensures { (result.nutation ≡ nutation_angle t) × (result.obliquity ≡ obliquity_angle t) }
{
    let n = nutation_at(t);
    let obliquity = mean_obliquity_at(t) + n.obliquity;
    Angles {
        nutation: units_angle(n.longitude, SUM_TURN),
        obliquity: units_angle(obliquity, SUM_TURN),
    }
}
