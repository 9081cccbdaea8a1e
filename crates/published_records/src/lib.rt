// One record of a published VSOP87D file, a byte at a time (RULES, "Published files"). For the crate published.
#![tactic(auto)]

pub mod columns;
mod figures;
mod fillers;
mod indents;
mod parts;
pub mod rows;
pub mod runs;

use series_lines::Line;

// The two records of a file.
#[derive(Clone, Copy, PartialEq, Eq)]
pub enum Kind {
    Heading,
    Term,
}

// What stands in a column: any byte, a single digit, a digit of a count or of a decimal's whole part (with so many such columns after it), a
// decimal's point, a digit after it, or a space.
#[derive(Clone, Copy)]
pub enum Column {
    Filler,
    Digit,
    Count(u64),
    Whole(u64),
    Point,
    Part,
    Blank,
}

// A record as far as it is read: the column of the next byte, the figure so far with those before it as a line of a series text has them,
// the digits of a heading, and a term's running number. Numbers, since C holds a row within stephylax_published.
#[repr(C)]
#[derive(Clone, Copy)]
pub struct Row {
    pub column: u64,
    pub line: Line,
    pub version: u64,
    pub coordinate: u64,
    pub power: u64,
    pub number: u64,
}
