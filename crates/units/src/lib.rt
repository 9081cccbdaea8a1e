// What every crate above shares: the constants of the rules, the instant, the coordinates of a body, and the refusals.
#![tactic(auto)]

ghost use Rattle.std.specs.Prelude.{◌≡◌};
ghost use Rattle.units.specs.Units.{in_limit, near as near_of};
ghost use Rattle.units.specs.Refusals.{number, figure, of_number, whole, fault_number, Numbered};

// specs/Units.antt has these constants under the same names.

// The unit of a cosine.
pub const U: u64 = 1000000000;

// Parts (10^-11 radian or AU) in a radian or an AU.
pub const PARTS: u64 = 100000000000;

// A minute in milliseconds.
pub const MINUTE_MS: u64 = 60000;

// T, a millennium in milliseconds.
pub const MILLENNIUM: u64 = 31557600000000;

// The greatest |tau|.
pub const TAU_LIMIT: u64 = 4;

// The greatest |t|, in milliseconds.
pub const T_LIMIT: u64 = TAU_LIMIT * MILLENNIUM;

// The near range, up to which every series may be asked: |tau|, and |t| in milliseconds.
pub const NEAR_TAU: u64 = 2;

pub const NEAR_LIMIT: u64 = NEAR_TAU * MILLENNIUM;

// A quarter turn, in 10^-16 radian.
pub const QUARTER: u64 = 15707963267948966;

// A whole turn, likewise.
pub const TURN: u64 = 4 * QUARTER;

// How many 10^-16 radian a part has.
pub const ANGLE_PER_PART: u64 = 100000;

// The step from an angle to the working angle w.
pub const ANGLE_STEP: u64 = 10000000;

// The limits of a term's a, b and c, in parts.
pub const A_LIMIT: u64 = 100000 * PARTS;

pub const B_LIMIT: u64 = 10 * PARTS;

pub const C_LIMIT: u64 = 1000000 * PARTS;

// The most terms that a block has.
pub const BLOCK_LIMIT: u64 = 4096;

// The most terms that a series has.
pub const SERIES_LIMIT: u64 = 8192;

// The greatest total |a| of a block.
pub const TOTAL_LIMIT: u64 = 100000 * PARTS;

// The blocks of a coordinate, one for each power.
pub const POWERS: u64 = 6;

// The blocks of a series.
pub const BLOCK_COUNT: u64 = 3 * POWERS;

// The promised distance of a working cosine from the reference, in 1/U.
pub const COSINE_DISTANCE: u64 = 3;

// The coarseness rule: the factor of a power, the share of a part of |a|, what a coordinate begins with, and the limit.
pub const COARSE_TAU: u64 = 2;

pub const COARSE_SHARE: u64 = 2 * COSINE_DISTANCE;

pub const COARSE_BASE: u64 = 32 * U;

pub const COARSE_LIMIT: u64 = 200000000000000;

// What makes a series good for the wide range: the greatest total |a| of a block, and what the coarseness rule has there for the factor of a power
// and for what a coordinate begins with.
pub const WIDE_TOTAL: u64 = 50000 * PARTS;

pub const WIDE_TAU: u64 = 4;

pub const WIDE_BASE: u64 = 342 * U;

// An instant of TD: whole milliseconds from 2000-01-01 12h, negative before.
#[derive(Clone, Copy)]
pub struct Instant {
    pub ms: i64,
}

// Whether an instant is within its limit.
#[tactic(auto, unfolding(crate::specs::Units::within))]
pub fn in_limit(t: Instant) -> bool
    ensures { result ≡ in_limit t.ms }
{
    t.ms.unsigned_abs() <= T_LIMIT
}

// Whether it is within two millennia, where every series may be asked.
#[tactic(auto, unfolding(crate::specs::Units::within))]
pub fn near(t: Instant) -> bool
    ensures { result ≡ near_of t.ms }
{
    t.ms.unsigned_abs() <= NEAR_LIMIT
}

// L, B and R of a body at an instant, in parts (10^-11 radian or AU). A longitude keeps its whole turns.
#[derive(Clone, Copy)]
pub struct Coordinates {
    pub longitude: i64,
    pub latitude: i64,
    pub radius: i64,
}

// Why a call gives no answer, in the order of its numbers. One more refusal wants (CONTRIBUTING.md has the whole list, with the documents):
// - its case here, the constant of its number, and an arm in `number` and in `figure` below; a case of `Fault` too where a reader of series gives it;
// - the same in specs/Refusals.antt, and a line in proofs/Refusals.antt;
// - its words, in `words` of the crate refusal_words, in specs/ and in src/;
// - a line in the table of include/stephylax.h, and its name in the enum there;
// - its line in the host's table, host/src/refusal.rs, its line in the help, and its name and words in python/stephylax.py.
#[derive(Clone, Copy)]
pub enum Refusal {
    // 1: the first field of a date that does not exist, 1 year, 2 month, 3 day, 4 ms; 5 a day number.
    NoSuchDate(u64),
    // 2: an instant past the limit.
    PastLimit(Instant),
    // 3: the offset of a byte of a text or a published file that cannot continue its line.
    BadByte(usize),
    // 4: the offset where a number or a count passes its limit, or a packed number goes past nine groups.
    OverLimit(usize),
    // 5: the offset where a block's total passes its limit.
    TotalOverLimit(usize),
    // 6: the offset where the series becomes too coarse.
    TooCoarse(usize),
    // 7: the length that the output would need; in a text or a published file the offset.
    NoRoom(usize),
    // 8: the length of an input that ended too early.
    EndedEarly(usize),
    // 9: the offset of a byte that follows block 18.
    ByteAfterEnd(usize),
    // 10: the offset of a packed number that is not in its shortest form.
    NotShortest(usize),
    // 11: the minute at which a place is not usable, else 0.
    NotUsable(u64),
    // 12: keep-out or minutes outside their range.
    BadWindow,
    // 13: the offset of the line feed of a heading that is out of order, of no block or of another version.
    BadHeading(usize),
    // 14: the offset of the line feed of a record whose running number is wrong.
    BadNumber(usize),
    // 17: an instant beyond two millennia, with a series that is not good for the wide range.
    TooFar(Instant),
}

// The number of each refusal, which users see and a reader that has stopped holds; specs/Refusals.antt has the same names.
pub const NO_SUCH_DATE: u64 = 1;

pub const PAST_LIMIT: u64 = 2;

pub const BAD_BYTE: u64 = 3;

pub const OVER_LIMIT: u64 = 4;

pub const TOTAL_OVER_LIMIT: u64 = 5;

pub const TOO_COARSE: u64 = 6;

pub const NO_ROOM: u64 = 7;

pub const ENDED_EARLY: u64 = 8;

pub const BYTE_AFTER_END: u64 = 9;

pub const NOT_SHORTEST: u64 = 10;

pub const NOT_USABLE: u64 = 11;

pub const BAD_WINDOW: u64 = 12;

pub const BAD_HEADING: u64 = 13;

pub const BAD_NUMBER: u64 = 14;

pub const TOO_FAR: u64 = 17;

// What comes with a refusal: a count (of bytes, of fields, of minutes), or an instant.
#[derive(Clone, Copy)]
pub enum Figure {
    Count(u64),
    Time(Instant),
}

impl Refusal {
    pub fn number(self) -> u64
        ensures { result ≡ number self }
    {
        match self {
            Refusal::NoSuchDate(_) => NO_SUCH_DATE,
            Refusal::PastLimit(_) => PAST_LIMIT,
            Refusal::BadByte(_) => BAD_BYTE,
            Refusal::OverLimit(_) => OVER_LIMIT,
            Refusal::TotalOverLimit(_) => TOTAL_OVER_LIMIT,
            Refusal::TooCoarse(_) => TOO_COARSE,
            Refusal::NoRoom(_) => NO_ROOM,
            Refusal::EndedEarly(_) => ENDED_EARLY,
            Refusal::ByteAfterEnd(_) => BYTE_AFTER_END,
            Refusal::NotShortest(_) => NOT_SHORTEST,
            Refusal::NotUsable(_) => NOT_USABLE,
            Refusal::BadWindow => BAD_WINDOW,
            Refusal::BadHeading(_) => BAD_HEADING,
            Refusal::BadNumber(_) => BAD_NUMBER,
            Refusal::TooFar(_) => TOO_FAR,
        }
    }

    pub fn figure(self) -> Figure
        ensures { whole result ≡ figure self }
    {
        match self {
            Refusal::NoSuchDate(count) | Refusal::NotUsable(count) => Figure::Count(count),
            Refusal::PastLimit(t) | Refusal::TooFar(t) => Figure::Time(t),
            Refusal::BadWindow => Figure::Count(0),
            Refusal::BadByte(at)
            | Refusal::OverLimit(at)
            | Refusal::TotalOverLimit(at)
            | Refusal::TooCoarse(at)
            | Refusal::NoRoom(at)
            | Refusal::EndedEarly(at)
            | Refusal::ByteAfterEnd(at)
            | Refusal::NotShortest(at)
            | Refusal::BadHeading(at)
            | Refusal::BadNumber(at) => Figure::Count(at as u64),
        }
    }

    // The inverse of `number` for the refusals that readers of series give, at an offset. Any other number is read as BAD_BYTE: no reader that
    // the library made holds one, only a state that a caller made up.
    pub fn of_number(number: u64, at: usize) -> Refusal
        ensures { result ≡ of_number number at }
    {
        Fault::try_from(number).unwrap_or(Fault::BadByte).at(at)
    }
}

// What a reader of series refuses. The refusal stands at an offset of its input, and a reader that has stopped holds the number and the offset.
#[derive(Clone, Copy, PartialEq, Eq)]
pub enum Fault {
    BadByte = BAD_BYTE as isize,
    OverLimit = OVER_LIMIT as isize,
    TotalOverLimit = TOTAL_OVER_LIMIT as isize,
    TooCoarse = TOO_COARSE as isize,
    NoRoom = NO_ROOM as isize,
    EndedEarly = ENDED_EARLY as isize,
    ByteAfterEnd = BYTE_AFTER_END as isize,
    BadHeading = BAD_HEADING as isize,
    BadNumber = BAD_NUMBER as isize,
}

// A number that no fault has.
#[derive(Clone, Copy)]
pub struct NoFault(pub u64);

impl Fault {
    // The number of its refusal.
    pub fn number(self) -> u64
        ensures { result ≡ fault_number self }
    {
        self as u64
    }

    // Its refusal at an offset.
    #[tactic(auto, unfolding(crate::specs::Refusals::of_number))]
    pub fn at(self, at: usize) -> Refusal
        ensures { result ≡ of_number (fault_number self) at }
    {
        match self {
            Fault::BadByte => Refusal::BadByte(at),
            Fault::OverLimit => Refusal::OverLimit(at),
            Fault::TotalOverLimit => Refusal::TotalOverLimit(at),
            Fault::TooCoarse => Refusal::TooCoarse(at),
            Fault::NoRoom => Refusal::NoRoom(at),
            Fault::EndedEarly => Refusal::EndedEarly(at),
            Fault::ByteAfterEnd => Refusal::ByteAfterEnd(at),
            Fault::BadHeading => Refusal::BadHeading(at),
            Fault::BadNumber => Refusal::BadNumber(at),
        }
    }
}

impl TryFrom<u64> for Fault {
    type Error = NoFault;

    ghost try_from_gives = { Numbered };

    fn try_from(number: u64) -> Result<Self, NoFault> {
        match number {
            BAD_BYTE => Ok(Fault::BadByte),
            OVER_LIMIT => Ok(Fault::OverLimit),
            TOTAL_OVER_LIMIT => Ok(Fault::TotalOverLimit),
            TOO_COARSE => Ok(Fault::TooCoarse),
            NO_ROOM => Ok(Fault::NoRoom),
            ENDED_EARLY => Ok(Fault::EndedEarly),
            BYTE_AFTER_END => Ok(Fault::ByteAfterEnd),
            BAD_HEADING => Ok(Fault::BadHeading),
            BAD_NUMBER => Ok(Fault::BadNumber),
            _ => Err(NoFault(number)),
        }
    }
}
