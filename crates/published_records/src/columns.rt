// What stands in each column of a record.
ghost use Rattle.std.specs.Prelude.{◌≡◌};
ghost use Rattle.published_records.specs.Rows.{heading_column, decimal_column, term_column};
ghost use Rattle.published_records.specs.Machine.Parts.{decimal_left};

use crate::Column;
use series_lines::lexer::PART_DIGITS;

// The columns of a heading; specs/Layout.antt has the same names.
pub const VERSION_COLUMN: u64 = 18;

pub const COORDINATE_COLUMN: u64 = 42;

pub const POWER_COLUMN: u64 = 60;

pub const COUNT_FIRST: u64 = 61;

pub const COUNT_LAST: u64 = 67;

// The columns of a term; specs/Layout.antt has the same names. They are constants and no table of fields: a range in a pattern names constants.
pub const NUMBER_FIRST: u64 = 6;

pub const NUMBER_LAST: u64 = 10;

pub const A_FIRST: u64 = 80;

pub const A_LAST: u64 = 97;

pub const B_FIRST: u64 = 98;

pub const B_LAST: u64 = 111;

pub const C_FIRST: u64 = 112;

pub const C_LAST: u64 = 131;

// In a heading.
#[tactic(auto, unfolding(crate::specs::Rows::heading_column))]
pub fn heading_column(c: u64) -> Column
    ensures { result ≡ heading_column c }
{
    match c {
        VERSION_COLUMN | COORDINATE_COLUMN | POWER_COLUMN => Column::Digit,
        COUNT_FIRST..=COUNT_LAST => Column::Count(COUNT_LAST - c),
        _ => Column::Filler,
    }
}

// In the field of a decimal, with m columns after this one.
#[tactic(auto, unfolding(crate::specs::Rows::decimal_column))]
fn decimal_column(m: u64) -> Column
    ensures { result ≡ decimal_column m }
{
    match m {
        ..PART_DIGITS => Column::Part,
        PART_DIGITS => Column::Point,
        _ => Column::Whole(m - PART_DIGITS - 1),
    }
}

// So many columns of a decimal's field stand after column c of a term record, where c is in one.
#[tactic(auto, unfolding(crate::specs::Machine::Parts::decimal_left))]
pub(crate) fn decimal_left(c: u64) -> Option<u64>
    ensures { result ≡ decimal_left c }
{
    match c {
        A_FIRST..=A_LAST => Some(A_LAST - c),
        B_FIRST..=B_LAST => Some(B_LAST - c),
        C_FIRST..=C_LAST => Some(C_LAST - c),
        _ => None,
    }
}

// In a term record.
#[tactic(auto, unfolding(crate::specs::Rows::term_column, crate::specs::Machine::Parts::decimal_left))]
pub fn term_column(c: u64) -> Column
    ensures { result ≡ term_column c }
{
    match c {
        ..NUMBER_FIRST => Column::Filler,
        NUMBER_FIRST..=NUMBER_LAST => Column::Count(NUMBER_LAST - c),
        ..A_FIRST => Column::Filler,
        _ => match decimal_left(c) {
            Some(m) => decimal_column(m),
            None => Column::Blank,
        },
    }
}
