// Whole numbers as decimals, written into a buffer; and texts and decimals, written into a lent slice of any length. For crates above.
ghost use Rattle.std.specs.Prelude.{◌≡◌, [], ◌+◌, ◌^◌, ◌≤◌, ◌<◌, ◌++◌, length};
ghost use Rattle.decimals.specs.Decimals.{zero_digit, most_digits, decimal, last_digits, written, signed_decimal, fraction};
ghost use Rattle.decimals.specs.Writing.{Put};

use crate::buffer::Buffer;
use crate::{MINUS_SIGN, MOST_DIGITS, POINT, ZERO_DIGIT};

// A digit's byte.
fn digit(d: u64) -> u8
    requires { d < 10 }
    ensures { result ≡ zero_digit + d }
{
    ZERO_DIGIT + d as u8
}

impl<const N: usize> Buffer<N> {
    // Writes the decimal digits of a number that has at most so many.
    pub fn put_decimal(&mut self, n: u64, places: usize)
        requires { length self.old + places ≤ N }
        ensures { self.new ≡ self.old ++ decimal places n }
    {
        if places == 0 {
            return;
        }
        if 10 <= n {
            self.put_decimal(n / 10, places - 1);
        }
        self.put_byte(digit(n % 10));
    }

    // Writes a minus, or nothing.
    fn put_sign(&mut self, below: bool)
        requires { length self.old < N }
        ensures { self.new ≡ self.old ++ written below [] }
    {
        if below {
            self.put_byte(MINUS_SIGN);
        }
    }

    // Writes a whole number with its sign.
    pub fn put_signed(&mut self, z: i64)
        requires { length self.old + (1 + most_digits) ≤ N }
        ensures { self.new ≡ self.old ++ signed_decimal z }
    {
        self.put_sign(z < 0);
        self.put_decimal(z.unsigned_abs(), MOST_DIGITS);
    }

    // Writes the last digits of a number, leading zeros too.
    fn put_last(&mut self, n: u64, places: u32)
        requires fits { places < most_digits }
        requires room { length self.old + places ≤ N }
        ensures { self.new ≡ self.old ++ last_digits places n }
    {
        for k in (0..places).rev() {
            self.put_byte(digit(n / 10u64.pow(k) % 10));
        }
    }

    // Writes a sign and n over ten to the number of places, with a decimal point.
    pub fn put_fraction(&mut self, below: bool, n: u64, places: u32)
        requires fits { places < most_digits }
        requires room { length self.old + (2 + most_digits + places) ≤ N }
        ensures { self.new ≡ self.old ++ fraction below places n }
    {
        self.put_sign(below);
        self.put_decimal(n / 10u64.pow(places), MOST_DIGITS);
        self.put_byte(POINT);
        self.put_last(n, places);
    }
}

// Into a lent slice, from `at` on: each function answers the place after what it wrote, and the other bytes stay.

// Room for a number with its sign, and for one with a decimal point, which has fewer places than 64 bits have digits.
const SIGNED_MOST: usize = 1 + MOST_DIGITS;

const FRACTION_MOST: usize = 1 + 2 * MOST_DIGITS;

// Writes a text.
pub fn put_bytes(text: &[u8], out: &mut [u8], at: usize) -> usize
    requires { at + length text.now ≤ length out.old }
    ensures { Put out.old at text.now result out.new }
{
    let end = at + text.len();
    out[at..end].copy_from_slice(text);
    end
}

// Writes the decimal digits of a number that has at most so many.
pub fn put_decimal(n: u64, places: usize, out: &mut [u8], at: usize) -> usize
    requires { at + places ≤ length out.old }
    ensures { Put out.old at (decimal places n) result out.new }
{
    let mut digits = Buffer::<MOST_DIGITS>::new();
    digits.put_decimal(n, places.min(MOST_DIGITS));
    digits.put_into(out, at)
}

// Writes a whole number with its sign.
pub fn put_signed(z: i64, out: &mut [u8], at: usize) -> usize
    requires { at + (1 + most_digits) ≤ length out.old }
    ensures { Put out.old at (signed_decimal z) result out.new }
{
    let mut number = Buffer::<SIGNED_MOST>::new();
    number.put_signed(z);
    number.put_into(out, at)
}

// Writes a sign and n over unit, which is ten to the number of places, with a decimal point.
pub fn put_fraction(
    below: bool,
    n: u64,
    places: usize,
    unit: u64,
    out: &mut [u8],
    at: usize,
) -> usize
    requires { (unit ≡ 10 ^ places) × (at + (2 + most_digits + places) ≤ length out.old) }
    ensures { Put out.old at (fraction below places n) result out.new }
{
    let mut decimal = Buffer::<FRACTION_MOST>::new();
    decimal.put_fraction(below, n, places as u32);
    decimal.put_into(out, at)
}
