// What the readers of series texts share: a line of a text a byte at a time, runs of digits after a point, the judgement of its numbers, the
// writer of its packed bytes, and what a reader holds.
#![tactic(auto)]

pub mod judge;
pub mod lexer;
pub mod parts;
pub mod passed;
pub mod steps;
pub mod writer;

ghost use Rattle.std.specs.Prelude.{◌≡◌};
ghost use Rattle.series_lines.specs.Reader.{begun, told};

use units::{COARSE_BASE, Refusal};

// The status of a reader: it reads on, or has accepted the text; after a refusal it is the refusal's number. A number and not an enum, as the
// other states in `Line` and `Reader`: C holds a reader in the layout of stephylax_text.
pub const READING: u64 = 0;

pub const ACCEPTED: u64 = 1;

// The greatest offset; specs/Reader.antt has the same name.
pub const LAST_OFFSET: usize = 18446744073709551615;

// A line as far as it is read: where the next byte stands (specs/Lexer.antt), how many decimals stand before this one, the decimal or
// count so far, with 1 for a minus, and the two decimals before it, in parts. Numbers, since C holds a line within stephylax_text.
#[repr(C)]
#[derive(Clone, Copy)]
pub struct Line {
    pub spot: u64,
    pub field: u64,
    pub minus: u64,
    pub value: u64,
    pub minusa: u64,
    pub a: u64,
    pub minusb: u64,
    pub b: u64,
}

// What a reader has of the text so far: the line, the bytes read and written, the counts that have come, the terms that are left of the
// block, the tally so far (limits::Tally), and the status with its place. C holds it as stephylax_text.
#[repr(C)]
#[derive(Clone, Copy)]
pub struct Reader {
    pub line: Line,
    pub at: usize,
    pub written: usize,
    pub blocks: u64,
    pub left: u64,
    pub terms: u64,
    pub total: u64,
    pub coarse: u64,
    pub status: u64,
    pub place: usize,
}

// What stands after a call: more may come, and so many bytes are packed; the text is accepted, and its packed form has so many bytes; or
// it is refused.
#[derive(Clone, Copy)]
pub enum Outcome {
    More(usize),
    Accepted(usize),
    Refused(Refusal),
}

// The reader before the first byte.
pub fn start() -> Reader
    ensures { result ≡ begun }
{
    Reader {
        line: lexer::fresh_line(lexer::SPOT_COUNT),
        at: 0,
        written: 0,
        blocks: 0,
        left: 0,
        terms: 0,
        total: 0,
        coarse: COARSE_BASE,
        status: READING,
        place: 0,
    }
}

// What stands after the calls so far.
#[tactic(auto, using(std::proofs::lemmas::Bool::Decides::nat_tests), unfolding(crate::specs::Reader::told))]
pub fn answer(r: Reader) -> Outcome
    ensures { result ≡ told r }
{
    match r.status {
        READING => Outcome::More(r.written),
        ACCEPTED => Outcome::Accepted(r.written),
        number => Outcome::Refused(Refusal::of_number(number, r.place)),
    }
}
