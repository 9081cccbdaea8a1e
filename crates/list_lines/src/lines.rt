// The line of a run, written into a buffer. All of this is for answer.rt. A run is two numbers, as C has it in its list.
ghost use Rattle.std.specs.Prelude.{◌≡◌, ◌+◌, ◌≤◌, ◌<◌, ◌++◌, length};
ghost use Rattle.list_lines.specs.Lines.{day, two_digits, clock_text, minutes_text, clocks_text, run_text};
ghost use Rattle.list_lines.specs.Lines.{minutes_most, clocks_most, run_most};

use decimals::buffer::Buffer;
use decimals::{MOST_DIGITS, ZERO_DIGIT};

// The minutes of an hour and of a day; specs/Lines.antt has the same names.
const HOUR: u64 = 60;

const DAY: u64 = 24 * HOUR;

// Room for any line; likewise.
pub const RUN_MOST: usize = 61;

// A number below a hundred as two digits.
fn put_two<const N: usize>(n: u64, out: &mut Buffer<N>)
    requires small { n < 100 }
    requires room { length out.old + 2 ≤ N }
    ensures { out.new ≡ out.old ++ two_digits n }
{
    out.put_byte(ZERO_DIGIT + (n / 10) as u8);
    out.put_byte(ZERO_DIGIT + (n % 10) as u8);
}

// A minute of the day as hour and minute.
fn put_clock<const N: usize>(m: u64, out: &mut Buffer<N>)
    requires small { m < day }
    requires room { length out.old + 5 ≤ N }
    ensures { out.new ≡ out.old ++ clock_text m }
{
    put_two(m / HOUR, out);
    out.put(b":");
    put_two(m % HOUR, out);
}

// The minutes of a run.
fn put_minutes<const N: usize>(first: u64, last: u64, out: &mut Buffer<N>)
    requires { length out.old + minutes_most ≤ N }
    ensures { out.new ≡ out.old ++ minutes_text first last }
{
    out.put_decimal(first, MOST_DIGITS);
    out.put(b" to ");
    out.put_decimal(last, MOST_DIGITS);
    out.put(b", ");
}

// Their clock times, where minute 0 is at this minute of the day.
fn put_clocks<const N: usize>(start: u64, first: u64, last: u64, out: &mut Buffer<N>)
    requires { length out.old + clocks_most ≤ N }
    ensures { out.new ≡ out.old ++ clocks_text start first last }
{
    put_clock((start % DAY + first % DAY) % DAY, out);
    out.put(b" to ");
    put_clock((start % DAY + last % DAY) % DAY, out);
    out.put(b"\n");
}

// One run: "12 to 40, 00:12 to 00:40".
pub fn put_run<const N: usize>(start: u64, first: u64, last: u64, out: &mut Buffer<N>)
    requires { length out.old + run_most ≤ N }
    ensures { out.new ≡ out.old ++ run_text start first last }
{
    put_minutes(first, last, out);
    put_clocks(start, first, last, out);
}
