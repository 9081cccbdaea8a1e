// A whole number of an argument, read from its bytes.
ghost use Rattle.std.specs.Prelude.{◌≡◌, ◌<◌, IfSome};
ghost use Rattle.decimals.specs.Numerals.{Decided};
ghost use Rattle.decimals.specs.Machine.Reading.{too_great, all_digits};

use crate::{MINUS_SIGN, NINE_DIGIT, ZERO_DIGIT};

// Past every number that is read; specs/Machine/Reading.antt has the same name.
const TOO_GREAT: u64 = 1000000000;

// The value of a text of digits, if it is below that.
fn digits(text: &[u8]) -> Option<u64>
    ensures value { result ≡ all_digits text.now }
    ensures small { IfSome result (λ v. v < too_great) }
{
    if text.is_empty() {
        return None;
    }
    let mut value: u64 = 0;
    for b in text {
        if *b < ZERO_DIGIT || NINE_DIGIT < *b || TOO_GREAT / 10 <= value {
            return None;
        }
        value = 10 * value + (*b - ZERO_DIGIT) as u64;
    }
    Some(value)
}

// A text as a number: digits, and a minus in front or none.
pub fn number_of(text: &[u8]) -> Option<i64>
    ensures { Decided text.now result }
{
    if text.is_empty() {
        return None;
    }
    if text[0] == MINUS_SIGN {
        return Some(-(digits(&text[1..])? as i64));
    }
    Some(digits(text)? as i64)
}
