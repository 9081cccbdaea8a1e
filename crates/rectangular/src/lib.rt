// Rectangular places from L, B and R, vectors, and a planet seen from Earth: RULES, "Places".
#![tactic(auto)]

ghost use Rattle.std.specs.Prelude.{◌≡◌, ◌<◌, ◌^◌, pos, nat_abs};
ghost use Rattle.rectangular.specs.Rectangular.{rectangular, place as place_of};
ghost use Rattle.rectangular.specs.Vectors.{geocentric as geocentric_of, sun as sun_of, length as length_of, unit as unit_of};
ghost use Rattle.rectangular.specs.Machine.Components.{Components};

pub mod frames;
pub mod from_earth;

use arith::muldiv::{mul_div_round, scale};
use cosine::parts::parts_angle;
use cosine::working::cosine_sine;
use units::{Coordinates, U};

// U as the multiplier of a signed product.
const UNIT: i64 = U as i64;

// Three components: in parts for a place, over U for a unit vector.
// How large they are, `Components` says in each contract, and not a ghost field: the bound differs from call to call, and the definitions make vectors
// of any size.
#[derive(Clone, Copy)]
pub struct Vector {
    pub x: i64,
    pub y: i64,
    pub z: i64,
}

// The frame that a place is in: that of the theory whose series are summed, or that of star catalogues.
#[derive(Clone, Copy)]
pub enum Frame {
    Theory,
    Catalogues,
}

// What is seen of a planet at one instant, in one frame: Earth's own place, the planet's geocentric vector and its length D, all in parts.
#[derive(Clone, Copy)]
pub struct View {
    pub earth: Vector,
    pub vector: Vector,
    pub distance: u64,
}

// From a radius and the angles of B and L, in 10^-16 radian.
pub fn from_angles(radius: i64, latitude: u64, longitude: u64) -> Vector
    requires { (nat_abs radius < 2 ^ 63) × (latitude < 2 ^ 63) × (longitude < 2 ^ 63) }
    ensures { result ≡ rectangular radius (pos latitude) (pos longitude) }
{
    let b = cosine_sine(latitude);
    let l = cosine_sine(longitude);
    let flat = scale(radius, b.cos);
    let x = scale(flat, l.cos);
    let y = scale(flat, l.sin);
    let z = scale(radius, b.sin);
    Vector { x, y, z }
}

// From L, B and R. A whole turn of an angle changes nothing.
fn place(c: Coordinates) -> Vector
    requires { nat_abs c.radius < 2 ^ 63 }
    ensures { result ≡ place_of c }
{
    let b = parts_angle(c.latitude);
    let l = parts_angle(c.longitude);
    from_angles(c.radius, b, l)
}

#[tactic(auto, unfolding(crate::specs::Vectors::geocentric))]
pub fn geocentric(planet: Vector, earth: Vector) -> Vector
    requires { Components (2 ^ 61) planet × Components (2 ^ 61) earth }
    ensures { result ≡ geocentric_of planet earth }
{
    Vector {
        x: planet.x - earth.x,
        y: planet.y - earth.y,
        z: planet.z - earth.z,
    }
}

#[tactic(auto, unfolding(crate::specs::Vectors::sun))]
pub fn sun(earth: Vector) -> Vector
    requires { Components (2 ^ 61) earth }
    ensures { result ≡ sun_of earth }
{
    Vector {
        x: -earth.x,
        y: -earth.y,
        z: -earth.z,
    }
}

pub fn length(v: Vector) -> u64
    requires { Components (2 ^ 45) v }
    ensures { (result ≡ length_of v) × (result < 2 ^ 46) }
{
    roots::length(v.x, v.y, v.z)
}

// v with its length l.
pub fn unit(v: Vector, l: u64) -> Vector
    requires { (l ≡ length_of v) × (0 < l) × Components (2 ^ 45) v }
    ensures { result ≡ unit_of v }
{
    let x = mul_div_round(UNIT, v.x, l);
    let y = mul_div_round(UNIT, v.y, l);
    let z = mul_div_round(UNIT, v.z, l);
    Vector { x, y, z }
}
