// A line of three numbers, read byte by byte. `Line`, `Fault` and `start` are for the program `date` too, the rest is for lib.rt.
ghost use Rattle.std.specs.Prelude.{◌≡◌};
ghost use Rattle.date_lines.specs.Lines.{waiting, fresh, greatest, number_read, ended, at_space, at_minus, at_digit, take, reading};

use arith::signed::of_parts;
use calendar::Date;
use decimals::{MINUS_SIGN, NINE_DIGIT, ZERO_DIGIT};

// specs/Lines.antt has the same constants under the same names.

// The byte that parts two numbers.
const SPACE: u8 = 32;

// The magnitudes of the least and of the greatest number of 64 bits, and the greatest that has room for one more digit.
const LEAST_SIZE: u64 = 9223372036854775808;

const GREATEST_SIZE: u64 = LEAST_SIZE - 1;

const DIGIT_LIMIT: u64 = GREATEST_SIZE / 10;

// What may be wrong with a line.
#[derive(Clone, Copy)]
pub enum Fault {
    // There is nothing on it.
    Empty,
    // A byte that no number has there.
    Byte,
    // A space that does not part two numbers.
    Space,
    // A number past 64 bits.
    Large,
    // Fewer than three numbers.
    Few,
    // More.
    Many,
}

// What a line without a fault has said so far: how many of its numbers have ended; the year and the month once they have; and of the number
// that is being read whether it has a minus, and its magnitude once it has a digit.
#[derive(Clone, Copy)]
pub struct Line {
    pub count: u64,
    pub year: i64,
    pub month: i64,
    pub minus: bool,
    pub value: Option<u64>,
}

// A line with so many numbers ended, of which these are the year and the month, and nothing of the next.
fn waiting(count: u64, year: i64, month: i64) -> Line
    ensures { result ≡ waiting count year month }
{
    Line {
        count,
        year,
        month,
        minus: false,
        value: None,
    }
}

// A line before its first byte.
pub fn start() -> Result<Line, Fault>
    ensures { result ≡ fresh }
{
    Ok(waiting(0, 0, 0))
}

// The greatest magnitude that a number of 64 bits may have.
#[tactic(auto, unfolding(crate::specs::Lines::greatest))]
fn greatest(minus: bool) -> u64
    ensures { result ≡ greatest minus }
{
    if minus {
        return LEAST_SIZE;
    }
    GREATEST_SIZE
}

// The number with this sign and magnitude, if it has 64 bits.
#[tactic(auto, using(crate::proofs::LeastNumber::greatest_most, crate::proofs::LeastNumber::least), unfolding(crate::specs::Lines::number_read))]
fn number(minus: bool, value: u64) -> Result<i64, Fault>
    ensures { result ≡ number_read minus value }
{
    if greatest(minus) < value {
        return Err(Fault::Large);
    }
    if value == LEAST_SIZE {
        return Ok(i64::MIN);
    }
    Ok(of_parts(minus, value))
}

impl Line {
    // A number that has ended: the year, the month, or the day, after which nothing may come.
    fn end_number(self, n: i64) -> Line
        ensures { result ≡ ended self n }
    {
        match self.count {
            0 => waiting(1, n, 0),
            1 => waiting(2, self.year, n),
            _ => waiting(3, self.year, self.month),
        }
    }

    #[tactic(auto, unfolding(crate::specs::Lines::at_space, crate::specs::Lines::number_read))]
    fn take_space(self) -> Result<Line, Fault>
        ensures { result ≡ at_space self }
    {
        let Some(value) = self.value else {
            if self.minus {
                return Err(Fault::Byte);
            }
            return Err(Fault::Space);
        };
        Ok(self.end_number(number(self.minus, value)?))
    }

    #[tactic(auto, unfolding(crate::specs::Lines::at_minus))]
    fn take_minus(self) -> Result<Line, Fault>
        ensures { result ≡ at_minus self }
    {
        if self.minus || self.value.is_some() {
            return Err(Fault::Byte);
        }
        Ok(Line {
            minus: true,
            ..self
        })
    }

    #[tactic(auto, unfolding(crate::specs::Lines::at_digit))]
    fn take_digit(self, b: u8) -> Result<Line, Fault>
        ensures { result ≡ at_digit self b }
    {
        if b < ZERO_DIGIT || NINE_DIGIT < b {
            return Err(Fault::Byte);
        }
        let value = self.value.unwrap_or(0);
        if DIGIT_LIMIT < value {
            return Err(Fault::Large);
        }
        Ok(Line {
            value: Some(10 * value + (b - ZERO_DIGIT) as u64),
            ..self
        })
    }
}

// One byte of the line; a fault stays.
#[tactic(auto, unfolding(crate::specs::Lines::take))]
pub fn take_byte(line: Result<Line, Fault>, b: u8) -> Result<Line, Fault>
    ensures { result ≡ take line b }
{
    let s = line?;
    if b == SPACE {
        return s.take_space();
    }
    if 2 < s.count {
        return Err(Fault::Many);
    }
    if b == MINUS_SIGN {
        return s.take_minus();
    }
    s.take_digit(b)
}

// What a whole line says: its three numbers, or its first fault.
#[tactic(auto, unfolding(crate::specs::Lines::reading, crate::specs::Lines::number_read))]
pub fn whole(line: Result<Line, Fault>) -> Result<Date, Fault>
    ensures { result ≡ reading line }
{
    let s = line?;
    let Some(value) = s.value else {
        if s.minus {
            return Err(Fault::Byte);
        }
        if s.count == 0 {
            return Err(Fault::Empty);
        }
        return Err(Fault::Space);
    };
    let day = number(s.minus, value)?;
    if s.count < 2 {
        return Err(Fault::Few);
    }
    Ok(Date {
        year: s.year,
        month: s.month,
        day,
    })
}
