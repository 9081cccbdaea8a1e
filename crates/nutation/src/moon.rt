// The five arguments at t milliseconds: RULES, "Places". For this crate, and for the tests of inner rules.
ghost use Rattle.std.specs.Prelude.{◌≡◌, ◌-◌, ◌<◌, ◌≤◌, ◌^◌, nat_abs};
ghost use Rattle.units.specs.Units.{t_limit};
ghost use Rattle.nutation.specs.Nutation.{argument, mean_elongation, sun_anomaly, moon_anomaly, latitude_argument, moon_node};
ghost use Rattle.nutation.specs.Machine.Reduced.{centuries, reach, less_turns, At};

use crate::polynomial::polynomial;
use crate::{ARGUMENT_TURN, Arguments, CENTURY};
use arith::residue::residue;

// The coefficients of the five, from the constant one up.
const ELONGATION: [i64; 5] = [
    107226073512000,
    160296160146030000,
    -586810000,
    659500,
    -3184,
];

const SUN: [i64; 4] = [128710479304800, 12959658104740000, -55290000, 14700];

const MOON: [i64; 5] = [
    48586828096800,
    171791592347280000,
    3238930000,
    5165100,
    -24470,
];

const LATITUDE: [i64; 5] = [
    33577955755200,
    173952726309830000,
    -1225050000,
    -102100,
    417,
];

const NODE: [i64; 5] = [45016039814400, -696289026560000, 747420000, 770200, -5939];

// The argument with these coefficients. By 10t/T is by t over a century.
fn argument_at(t: i64, c: &[i64]) -> i64
    requires { (nat_abs t ≤ t_limit) × (reach centuries c.now < 2 ^ 63 - 1) }
    ensures { result ≡ argument t c.now }
{
    polynomial(t, CENTURY, c)
}

// The five at t with their whole turns, as their polynomials give them.
pub fn arguments_with_turns(t: i64) -> Arguments
    requires { nat_abs t ≤ t_limit }
    ensures { (result.elongation ≡ mean_elongation t) × (result.sun ≡ sun_anomaly t) × (result.moon ≡ moon_anomaly t) × (result.latitude ≡ latitude_argument t)
        × (result.node ≡ moon_node t) }
{
    Arguments {
        elongation: argument_at(t, &ELONGATION),
        sun: argument_at(t, &SUN),
        moon: argument_at(t, &MOON),
        latitude: argument_at(t, &LATITUDE),
        node: argument_at(t, &NODE),
    }
}

// An argument less its whole turns.
fn less_turns(a: i64) -> i64
    ensures { result ≡ less_turns a }
{
    residue(a, ARGUMENT_TURN) as i64
}

// Each of the five so.
fn each_less_turns(a: Arguments) -> Arguments
    ensures { (result.elongation ≡ less_turns a.elongation) × (result.sun ≡ less_turns a.sun) × (result.moon ≡ less_turns a.moon)
        × (result.latitude ≡ less_turns a.latitude) × (result.node ≡ less_turns a.node) }
{
    Arguments {
        elongation: less_turns(a.elongation),
        sun: less_turns(a.sun),
        moon: less_turns(a.moon),
        latitude: less_turns(a.latitude),
        node: less_turns(a.node),
    }
}

// The five at t, less their whole turns.
pub fn arguments_at(t: i64) -> Arguments
    requires { nat_abs t ≤ t_limit }
    ensures { At t result }
{
    each_less_turns(arguments_with_turns(t))
}
