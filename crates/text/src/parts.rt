// The digits after a decimal's point, which most bytes of a text are, taken in a run: the loop holds only what a digit changes.
ghost use Rattle.std.specs.Prelude.{◌≡◌, true};
ghost use Rattle.text.specs.Machine.Parts.{AfterPoint, GoesOn};

use series_lines::lexer::{PART_DIGITS, SPOT_POINT};
use series_lines::parts::take_digits;
use series_lines::passed::Passed;
use series_lines::{LAST_OFFSET, Line, READING, Reader};

// The reader stands after a point and can count all the parts.
#[inline(always)]
fn after_point(r: Reader) -> bool
    ensures { result ≡ true → AfterPoint r }
{
    r.status == READING
        && r.place == 0
        && r.at <= LAST_OFFSET - PART_DIGITS as usize
        && SPOT_POINT <= r.line.spot
}

// The parts that stand from an index on.
#[inline(always)]
pub fn take_parts(r: Reader, text: &[u8], from: usize) -> Passed<Reader>
    ensures { GoesOn r text.now from result.state result.next }
{
    if !after_point(r) {
        return Passed {
            state: r,
            next: from,
        };
    }
    let digits = take_digits(r.line, text, from);
    let n = digits.next - from;
    let line = Line {
        spot: r.line.spot + n as u64,
        value: digits.state,
        ..r.line
    };
    Passed {
        state: r.in_line(line, r.at + n),
        next: digits.next,
    }
}
