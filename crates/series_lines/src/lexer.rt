// One line of a text, a byte at a time. For the readers, which give the value of a digit.
ghost use Rattle.std.specs.Prelude.{◌≡◌, ◌<◌, ◌-◌};
ghost use Rattle.series_lines.specs.Lexer.{fresh, takes_digit, with_digit, with_point, with_space, with_minus, whole_count, whole_term};

use crate::Line;
use limits::Sizes;

// The digits of a count and of a decimal; specs/Grammar.antt has the same names.
pub const COUNT_DIGITS: u64 = 4;

pub const WHOLE_DIGITS: u64 = 6;

pub const PART_DIGITS: u64 = 11;

// Where the next byte of a line stands; specs/Lexer.antt has the same names. A digit moves it by one.
pub const SPOT_DECIMAL: u64 = 0;

pub const SPOT_POINT: u64 = WHOLE_DIGITS + 1;

pub const SPOT_DONE: u64 = SPOT_POINT + PART_DIGITS;

pub const SPOT_COUNT: u64 = 20;

pub const SPOT_AFTER: u64 = 30;

pub const SPOT_BAD: u64 = 31;

// Before the last digit of a decimal, and after the last digit that a count may have.
pub const SPOT_LAST: u64 = SPOT_DONE - 1;

const SPOT_FULL: u64 = SPOT_COUNT + COUNT_DIGITS;

// After the first digit of a decimal, and of a count.
const SPOT_DIGIT: u64 = SPOT_DECIMAL + 1;

const SPOT_MORE: u64 = SPOT_COUNT + 1;

// A value that no line has: a digit more might not fit.
pub const VALUE_LIMIT: u64 = 1000000000000000000;

// A line of which nothing is read.
pub fn fresh_line(spot: u64) -> Line
    ensures { result ≡ fresh spot }
{
    Line {
        spot,
        field: 0,
        minus: 0,
        value: 0,
        minusa: 0,
        a: 0,
        minusb: 0,
        b: 0,
    }
}

impl Line {
    // The sizes of the numbers of a whole line's term.
    pub fn sizes(self) -> Sizes
        ensures { result ≡ record { a = self.a; b = self.b; c = self.value } }
    {
        Sizes {
            a: self.a,
            b: self.b,
            c: self.value,
        }
    }
}

// A digit d goes on. Here and below the hints put the steps over a digit into the loops of the readers.
#[tactic(auto, using(std::proofs::lemmas::Bool::Decides::nat_tests), unfolding(crate::specs::Lexer::takes_digit, crate::specs::Lexer::whole_digit))]
#[inline(always)]
fn takes_digit(spot: u64, minus: u64, value: u64, d: u64) -> bool
    requires { d < 10 }
    ensures { result ≡ takes_digit spot minus value d }
{
    value < VALUE_LIMIT
        && match spot {
            SPOT_DECIMAL | SPOT_COUNT | SPOT_POINT..SPOT_LAST => true,
            SPOT_DIGIT..WHOLE_DIGITS | SPOT_MORE..SPOT_FULL => 0 < value,
            SPOT_LAST => minus == 0 || 0 < value + d,
            _ => false,
        }
}

// A digit.
#[tactic(auto, using(crate::proofs::Digits::small, crate::proofs::Digits::early), unfolding(crate::specs::Lexer::with_digit))]
#[inline(always)]
pub fn with_digit(l: Line, d: u64) -> Line
    requires { d < 10 }
    ensures { result ≡ with_digit l d }
{
    if takes_digit(l.spot, l.minus, l.value, d) {
        return Line {
            spot: l.spot + 1,
            value: 10 * l.value + d,
            ..l
        };
    }
    fresh_line(SPOT_BAD)
}

// A point, after whole digits.
#[tactic(auto, using(std::proofs::lemmas::Bool::Decides::nat_tests), unfolding(crate::specs::Lexer::with_point))]
pub fn with_point(l: Line) -> Line
    ensures { result ≡ with_point l }
{
    match l.spot {
        SPOT_DIGIT..=WHOLE_DIGITS => Line {
            spot: SPOT_POINT,
            ..l
        },
        _ => fresh_line(SPOT_BAD),
    }
}

// A space, before a decimal, or after the first or the second, which then is kept.
#[tactic(auto, using(std::proofs::lemmas::Bool::Decides::nat_tests), unfolding(crate::specs::Lexer::with_space))]
pub fn with_space(l: Line) -> Line
    ensures { result ≡ with_space l }
{
    match l.spot {
        SPOT_DECIMAL if l.minus == 0 => l,
        SPOT_DONE if l.field < 2 => Line {
            spot: SPOT_DECIMAL,
            field: l.field + 1,
            minus: 0,
            value: 0,
            minusa: l.minusb,
            a: l.b,
            minusb: l.minus,
            b: l.value,
        },
        _ => fresh_line(SPOT_BAD),
    }
}

// A minus, before a decimal.
#[tactic(auto, using(std::proofs::lemmas::Bool::Decides::nat_tests), unfolding(crate::specs::Lexer::with_minus))]
pub fn with_minus(l: Line) -> Line
    ensures { result ≡ with_minus l }
{
    if l.spot == SPOT_DECIMAL && l.minus == 0 {
        return Line { minus: 1, ..l };
    }
    fresh_line(SPOT_BAD)
}

// One byte of a line before its line feed.
#[tactic(auto, using(std::proofs::lemmas::Bool::Decides::nat_tests), unfolding(crate::specs::Lexer::lex))]
#[inline(always)]
pub fn lex(l: Line, byte: u8) -> Line
    ensures { result ≡ Rattle.series_lines.specs.Lexer.lex l byte }
{
    match byte {
        b'0'..=b'9' => with_digit(l, u64::from(byte - b'0')),
        b'.' => with_point(l),
        b' ' => with_space(l),
        b'-' => with_minus(l),
        _ => fresh_line(SPOT_BAD),
    }
}

// The line feed may come after the digits of a count.
#[tactic(auto, using(std::proofs::lemmas::Bool::Decides::nat_tests), unfolding(crate::specs::Lexer::whole_count))]
pub fn whole_count(l: Line) -> bool
    ensures { result ≡ whole_count l }
{
    matches!(l.spot, SPOT_MORE..=SPOT_FULL)
}

// And after the third decimal.
#[tactic(auto, using(std::proofs::lemmas::Bool::Decides::nat_tests), unfolding(crate::specs::Lexer::whole_term))]
pub fn whole_term(l: Line) -> bool
    ensures { result ≡ whole_term l }
{
    l.spot == SPOT_DONE && l.field == 2
}
