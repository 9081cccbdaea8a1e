// The lines of a place, written into a buffer. For answer.rt; lib.rt takes the room.
ghost use Rattle.std.specs.Prelude.{◌≡◌, ◌+◌, ◌^◌, ◌<◌, ◌≤◌, ◌++◌, nat_abs, length};
ghost use Rattle.decimals.specs.Decimals.{most_digits};
ghost use Rattle.place.specs.Mount.{Small};
ghost use Rattle.position_lines.specs.Lines.{line_text, angle_text, distance_text, place_text, name_most, numbers_most, line_most, place_most};

use decimals::LINE_FEED;
use decimals::buffer::Buffer;
use place::{Equatorial, HUNDREDTHS_PER_DEGREE};

// specs/Lines.antt has these under the same names.

// The digits after the point of a degree, and of an AU.
const DEGREE_PLACES: u32 = 7;

const DISTANCE_PLACES: u32 = 11;

// Room for a line, and for the three lines or for a refusal, which is shorter.
const LINE_MOST: usize = 90;

pub const PLACE_MOST: usize = 3 * LINE_MOST;

// A degree in the last of its decimals: ten to their number.
const DEGREE: u64 = 10000000;

// A degree in the last of its decimals and in hundredths of an arcsecond, both over a common divisor, so that an angle times the first fits 64 bits.
const COMMON: u64 = 20000;

const DECIMALS: u64 = DEGREE / COMMON;

const HUNDREDTHS: u64 = HUNDREDTHS_PER_DEGREE / COMMON;

// A name, n over ten to the number of places with the sign of k, a unit of measure, and k.
fn put_line<const N: usize>(
    name: &[u8],
    k: i64,
    places: u32,
    n: u64,
    measure: &[u8],
    out: &mut Buffer<N>,
)
    requires fits { places < most_digits }
    requires room { length out.old + (length name.now + (numbers_most + places) + length measure.now) ≤ N }
    ensures { out.new ≡ out.old ++ line_text name.now k places n measure.now }
{
    out.put(name);
    out.put_fraction(k < 0, n, places);
    out.put(measure);
    out.put_signed(k);
    out.put_byte(LINE_FEED);
}

// Hundredths of an arcsecond, in degrees and as they are.
fn put_angle<const N: usize>(name: &[u8], k: i64, out: &mut Buffer<N>)
    requires size { nat_abs k ≤ 2 ^ 52 }
    requires name { length name.now ≤ name_most }
    requires room { length out.old + line_most ≤ N }
    ensures { out.new ≡ out.old ++ angle_text name.now k }
{
    let n = (DECIMALS * k.unsigned_abs() + HUNDREDTHS / 2) / HUNDREDTHS;
    put_line(name, k, DEGREE_PLACES, n, b" degrees, ", out);
}

// Parts, in AU and as they are.
fn put_distance<const N: usize>(d: i64, out: &mut Buffer<N>)
    requires { length out.old + line_most ≤ N }
    ensures { out.new ≡ out.old ++ distance_text d }
{
    put_line(
        b"distance ",
        d,
        DISTANCE_PLACES,
        d.unsigned_abs(),
        b" AU, ",
        out,
    );
}

// The three lines.
pub fn put_place<const N: usize>(p: Equatorial, out: &mut Buffer<N>)
    requires small { Small p }
    requires room { length out.old + place_most ≤ N }
    ensures { out.new ≡ out.old ++ place_text p }
{
    put_angle(b"right ascension ", p.right_ascension, out);
    put_angle(b"declination ", p.declination, out);
    put_distance(p.distance, out);
}
