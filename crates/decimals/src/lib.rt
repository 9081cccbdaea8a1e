// A buffer for what is printed; whole numbers as decimals, written into it or into a lent slice, and read. All of this is for crates above.
#![tactic(auto)]

pub mod buffer;
pub mod reading;
pub mod writing;

// specs/Decimals.antt has the same constants under the same names.

// The bytes of a decimal.
pub const MINUS_SIGN: u8 = 45;

const POINT: u8 = 46;

pub const ZERO_DIGIT: u8 = 48;

pub const NINE_DIGIT: u8 = ZERO_DIGIT + 9;

// The digits that a number of 64 bits may have.
pub const MOST_DIGITS: usize = 20;

// The byte that ends a line; specs/Texts.antt has the same name.
pub const LINE_FEED: u8 = 10;
