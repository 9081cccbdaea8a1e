// Digits and decimals: their lengths, and writing them into a buffer with room. For this crate alone.
// The buffer is lent by the caller and of any length, so it is a slice with the place in it beside: decimals::Buffer has its room in its type.
ghost use Rattle.std.specs.Prelude.{◌≡◌, [], ◌∷◌, length, ◌+◌, ◌≤◌};
ghost use Rattle.series_lines.specs.Grammar.{sign, digits, decimal};
ghost use Rattle.printer.specs.Printer.{last_digits, further_digits, plain_decimal};
ghost use Rattle.printer.specs.Machine.Writing.{Room, Wrote, whole_text, further_most, whole_most, decimal_most};

use series_lines::lexer::PART_DIGITS;
use units::PARTS;

// The point of a decimal and the digits after it: those of a number below PARTS.
const FRACTION: usize = 1 + PART_DIGITS as usize;

// The digit 0.
const ZERO: u64 = b'0' as u64;

// How many digits a number has after its first.
fn further_digits(v: u64) -> usize
    ensures { (result ≡ further_digits v) × (result ≤ further_most) }
{
    let mut x = v;
    let mut n = 0;
    // No `for`: the number tells where its digits end. packed_numbers::groups_of is like it, but its groups are another written form.
    while 10 <= x {
        x /= 10;
        n += 1;
    }
    n
}

pub fn put_byte(byte: u8, out: &mut [u8], at: usize) -> usize
    requires { Room (byte ∷ []) at out.old }
    ensures { Wrote (byte ∷ []) at out.old result out.new }
{
    out[at] = byte;
    at + 1
}

// Writes the last n digits of a number, from the last to the first.
fn put_digits(v: u64, n: usize, out: &mut [u8], at: usize) -> usize
    requires { at + n ≤ length out.old }
    ensures { Wrote (digits (last_digits n v)) at out.old result out.new }
{
    let mut x = v;
    for i in (0..n).rev() {
        out[at + i] = (ZERO + x % 10) as u8;
        x /= 10;
    }
    at + n
}

// A whole number with no needless leading zero.
pub fn whole_length(v: u64) -> usize
    ensures { (result ≡ length (whole_text v)) × (result ≤ whole_most) }
{
    further_digits(v) + 1
}

pub fn put_whole(v: u64, out: &mut [u8], at: usize) -> usize
    requires { Room (whole_text v) at out.old }
    ensures { Wrote (whole_text v) at out.old result out.new }
{
    put_digits(v, whole_length(v), out, at)
}

fn put_sign(minus: bool, out: &mut [u8], at: usize) -> usize
    requires { Room (sign minus) at out.old }
    ensures { Wrote (sign minus) at out.old result out.new }
{
    if minus {
        return put_byte(b'-', out, at);
    }
    at
}

// A number of parts as a decimal, with a minus or none.
pub fn decimal_length(minus: bool, v: u64) -> usize
    ensures { (result ≡ length (decimal (plain_decimal minus v))) × (result ≤ decimal_most) }
{
    let n = whole_length(v / PARTS) + FRACTION;
    if minus {
        return n + 1;
    }
    n
}

pub fn put_decimal(minus: bool, v: u64, out: &mut [u8], at: usize) -> usize
    requires { Room (decimal (plain_decimal minus v)) at out.old }
    ensures { Wrote (decimal (plain_decimal minus v)) at out.old result out.new }
{
    let whole = put_sign(minus, out, at);
    let point = put_whole(v / PARTS, out, whole);
    let part = put_byte(b'.', out, point);
    put_digits(v, PART_DIGITS as usize, out, part)
}
