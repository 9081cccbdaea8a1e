// Inner rules as C functions, for tests alone: no library or program holds this crate. Each takes every number; one past its range counts as 0.
#![tactic(auto)]

mod terms;

ghost use Rattle.std.specs.Prelude.{◌≡◌, ◌≤◌, pos, nat_abs};
ghost use Rattle.cosine.specs.Cosine.{cosine as cosine·of, sine as sine·of};
ghost use Rattle.direction.specs.Direction.{direction as direction·of, latitude as latitude·of};
ghost use Rattle.rectangular.specs.Vectors.{length as length·of};
ghost use Rattle.units.specs.Units.{t_limit};
ghost use Rattle.cosine.specs.Terms.{term_angle, term_value};
ghost use Rattle.rectangular.specs.Frames.{turned as turned·of};
ghost use Rattle.rectangular.specs.Sight.{sight as sight·of};
ghost use Rattle.rectangular.specs.Machine.Components.{Components};
ghost use Rattle.nutation.specs.Nutation.{mean_elongation, sun_anomaly, moon_anomaly, latitude_argument, moon_node};
ghost use Rattle.nutation.specs.Nutation.{longitude_nutation, obliquity_nutation, mean_obliquity, nutation_angle, obliquity_angle};
ghost use Rattle.place.specs.Apparent.{light_time};
ghost use Rattle.inner_rules.specs.Inner.{held, reach, turn_reach, a_last, b_last, c_last, held_vector, frame_of, vector_figures, shown};

use crate::terms::figures_of;
use cosine::{cosine, sine};
use direction::{direction_of, latitude_of};
use nutation::moon::arguments_with_turns;
use nutation::rows::nutation_at;
use nutation::{Arguments, angles_at, mean_obliquity_at};
use place::light_time::light;
use rectangular::frames::turned;
use rectangular::from_earth::sight;
use rectangular::{Frame, Vector, View, length};
use units::{A_LIMIT, B_LIMIT, C_LIMIT, Coordinates, T_LIMIT};

// The greatest component of a vector, and the greatest length, that is taken; the greatest component that is turned; the greatest |a|, b and |c|:
// specs/Inner.antt.
const REACH: u64 = 35184372088832;

const TURN_REACH: u64 = 8796093022208;

const A_LAST: u64 = A_LIMIT - 1;

const B_LAST: u64 = B_LIMIT - 1;

const C_LAST: u64 = C_LIMIT - 1;

// The angle of a term, in 10^-16 radian and less than a turn, and its value in parts.
#[repr(C)]
#[derive(Clone, Copy)]
pub struct TermFigures {
    pub angle: u64,
    pub value: i64,
}

// The nutation in longitude and in obliquity and the mean obliquity, in 10^-5 arcsecond, and the angles of the nutation in longitude and of the
// true obliquity, in 10^-16 radian.
#[repr(C)]
#[derive(Clone, Copy)]
pub struct NutationFigures {
    pub longitude: i64,
    pub obliquity: i64,
    pub mean: i64,
    pub longitude_angle: i64,
    pub true_angle: i64,
}

// D, M, M', F and the longitude of the node, in 10^-8 arcsecond.
#[repr(C)]
#[derive(Clone, Copy)]
pub struct ArgumentFigures {
    pub elongation: i64,
    pub sun: i64,
    pub moon: i64,
    pub latitude: i64,
    pub node: i64,
}

// The components of a vector, in parts.
#[repr(C)]
#[derive(Clone, Copy)]
pub struct VectorFigures {
    pub x: i64,
    pub y: i64,
    pub z: i64,
}

// Of a usable sight: 1, Earth's place, the planet's geocentric vector and its length D, in parts. Else nothing but 0.
#[repr(C)]
#[derive(Clone, Copy)]
pub struct SightFigures {
    pub usable: u64,
    pub earth_x: i64,
    pub earth_y: i64,
    pub earth_z: i64,
    pub x: i64,
    pub y: i64,
    pub z: i64,
    pub distance: u64,
}

// x, or 0 where its magnitude is past the last allowed.
#[tactic(auto, unfolding(crate::specs::Inner::held))]
fn held(x: i64, last: u64) -> i64
    ensures { (result ≡ held last x) × (nat_abs result ≤ last) }
{
    if x.unsigned_abs() <= last { x } else { 0 }
}

// The vector of three numbers, each so held.
fn held_vector(x: i64, y: i64, z: i64, last: u64) -> Vector
    ensures { (result ≡ held_vector last x y z) × Components last result }
{
    Vector {
        x: held(x, last),
        y: held(y, last),
        z: held(z, last),
    }
}

// The frame of the theory for 0, else that of the catalogues.
fn frame_of(turned: u64) -> Frame
    ensures { result ≡ frame_of turned }
{
    if turned == 0 {
        Frame::Theory
    } else {
        Frame::Catalogues
    }
}

// A sight as numbers.
impl From<Option<View>> for SightFigures {
    ghost from_gives = { λ s figures. figures ≡ shown s };

    #[tactic(auto, unfolding(crate::specs::Inner::shown))]
    fn from(s: Option<View>) -> SightFigures {
        match s {
            None => SightFigures {
                usable: 0,
                earth_x: 0,
                earth_y: 0,
                earth_z: 0,
                x: 0,
                y: 0,
                z: 0,
                distance: 0,
            },
            Some(v) => SightFigures {
                usable: 1,
                earth_x: v.earth.x,
                earth_y: v.earth.y,
                earth_z: v.earth.z,
                x: v.vector.x,
                y: v.vector.y,
                z: v.vector.z,
                distance: v.distance,
            },
        }
    }
}

impl From<Vector> for VectorFigures {
    ghost from_gives = { λ v figures. figures ≡ vector_figures v };

    #[tactic(auto, unfolding(crate::specs::Inner::vector_figures))]
    fn from(v: Vector) -> VectorFigures {
        VectorFigures {
            x: v.x,
            y: v.y,
            z: v.z,
        }
    }
}

impl From<Arguments> for ArgumentFigures {
    ghost from_gives = { λ a figures. (figures.elongation ≡ a.elongation) × (figures.sun ≡ a.sun) × (figures.moon ≡ a.moon)
        × (figures.latitude ≡ a.latitude) × (figures.node ≡ a.node) };

    fn from(a: Arguments) -> ArgumentFigures {
        ArgumentFigures {
            elongation: a.elongation,
            sun: a.sun,
            moon: a.moon,
            latitude: a.latitude,
            node: a.node,
        }
    }
}

#[unsafe(no_mangle)]
pub extern "C" fn stephylax_test_cosine(x: i64) -> i64
    ensures { result ≡ cosine·of x }
{
    cosine(x)
}

#[unsafe(no_mangle)]
pub extern "C" fn stephylax_test_sine(x: i64) -> i64
    ensures { result ≡ sine·of x }
{
    sine(x)
}

// The floor of the length of (x, y, z).
#[unsafe(no_mangle)]
pub extern "C" fn stephylax_test_root(x: i64, y: i64, z: i64) -> u64
    ensures { result ≡ length·of (held_vector reach x y z) }
{
    length(held_vector(x, y, z, REACH))
}

#[unsafe(no_mangle)]
pub extern "C" fn stephylax_test_direction(x: i64, y: i64) -> i64
    ensures { result ≡ pos (direction·of (held reach x) (held reach y)) }
{
    direction_of(held(x, REACH), held(y, REACH))
}

#[unsafe(no_mangle)]
pub extern "C" fn stephylax_test_latitude(x: i64, y: i64, z: i64) -> i64
    ensures { result ≡ latitude·of (held reach x) (held reach y) (held reach z) }
{
    latitude_of(held(x, REACH), held(y, REACH), held(z, REACH))
}

// b by its magnitude.
#[unsafe(no_mangle)]
pub extern "C" fn stephylax_test_term(a: i64, b: i64, c: i64, t: i64) -> TermFigures
    ensures { (result.angle ≡ term_angle (nat_abs (held b_last b)) (held c_last c) (held t_limit t))
        × (result.value ≡ term_value (held a_last a) (nat_abs (held b_last b)) (held c_last c) (held t_limit t)) }
{
    let a1 = held(a, A_LAST);
    let b1 = held(b, B_LAST);
    let c1 = held(c, C_LAST);
    let t1 = held(t, T_LIMIT);
    figures_of(a1, b1.unsigned_abs(), c1, t1)
}

#[unsafe(no_mangle)]
pub extern "C" fn stephylax_test_nutation(t: i64) -> NutationFigures
    ensures { (result.longitude ≡ longitude_nutation (held t_limit t)) × (result.obliquity ≡ obliquity_nutation (held t_limit t))
        × (result.mean ≡ mean_obliquity (held t_limit t)) × (result.longitude_angle ≡ nutation_angle (held t_limit t))
        × (result.true_angle ≡ obliquity_angle (held t_limit t)) }
{
    let at = held(t, T_LIMIT);
    let n = nutation_at(at);
    let mean = mean_obliquity_at(at);
    let angles = angles_at(at);
    NutationFigures {
        longitude: n.longitude,
        obliquity: n.obliquity,
        mean,
        longitude_angle: angles.nutation,
        true_angle: angles.obliquity,
    }
}

#[unsafe(no_mangle)]
pub extern "C" fn stephylax_test_arguments(t: i64) -> ArgumentFigures
    ensures { (result.elongation ≡ mean_elongation (held t_limit t)) × (result.sun ≡ sun_anomaly (held t_limit t))
        × (result.moon ≡ moon_anomaly (held t_limit t)) × (result.latitude ≡ latitude_argument (held t_limit t)) × (result.node ≡ moon_node (held t_limit t)) }
{
    ArgumentFigures::from(arguments_with_turns(held(t, T_LIMIT)))
}

// The light time of a distance in parts, by its magnitude, in milliseconds.
#[unsafe(no_mangle)]
pub extern "C" fn stephylax_test_light(distance: i64) -> i64
    ensures { result ≡ light_time (nat_abs (held reach distance)) }
{
    let d = held(distance, REACH);
    light(d.unsigned_abs())
}

// A vector in the frame of the catalogues.
#[unsafe(no_mangle)]
pub extern "C" fn stephylax_test_turned(x: i64, y: i64, z: i64) -> VectorFigures
    ensures { result ≡ vector_figures (turned·of (held_vector turn_reach x y z)) }
{
    VectorFigures::from(turned(held_vector(x, y, z, TURN_REACH)))
}

// From L, B and R of the planet, then of Earth: the sight of the Sun list where `turned` is 0, else that of a place.
#[unsafe(no_mangle)]
pub extern "C" fn stephylax_test_sight(
    turned: u64,
    l: i64,
    b: i64,
    r: i64,
    earth_l: i64,
    earth_b: i64,
    earth_r: i64,
) -> SightFigures
    ensures { result ≡ shown (sight·of (frame_of turned) (record { longitude = l; latitude = b; radius = r })
        (record { longitude = earth_l; latitude = earth_b; radius = earth_r })) }
{
    let planet = Coordinates {
        longitude: l,
        latitude: b,
        radius: r,
    };
    let earth = Coordinates {
        longitude: earth_l,
        latitude: earth_b,
        radius: earth_r,
    };
    SightFigures::from(sight(frame_of(turned), planet, earth))
}
