// The reader of published VSOP87D files (RULES, "Published files"): a file comes in pieces, and the packed form of its series is written record
// by record into one buffer that each call lends.
#![tactic(auto)]

mod rows;
mod steps;

ghost use Rattle.std.specs.Prelude.{◌≡◌};
ghost use Rattle.published.specs.Reader.{begun_file, run, ended, ended_out, told, whole};

use published_records::Row;
use series_lines::passed::Passed;
use series_lines::{Outcome, Reader};

// What a reader has of the file so far: the counts and terms that have come, as the reader of a series text holds them; the record as far as it is
// read; and the running number of the record before it in its block, or 0.
#[repr(C)]
#[derive(Clone, Copy)]
pub struct Published {
    pub reader: Reader,
    pub row: Row,
    pub last: u64,
}

// The reader before the first byte.
pub fn start() -> Published
    ensures { result ≡ begun_file }
{
    Published {
        reader: series_lines::start(),
        row: Row::fresh(),
        last: 0,
    }
}

// The next piece of the file; it may be empty.
pub fn piece(p: Published, text: &[u8], out: &mut [u8]) -> Published
    ensures { (result ≡ (run p out.old text.now).reader) × (out.new ≡ (run p out.old text.now).out) }
{
    let mut at = Passed { state: p, next: 0 };
    // An index and not a `for`: a turn takes a byte and the run after it.
    while at.next < text.len() {
        let next = at.state.take_byte(text[at.next], out);
        at = next.take_row(text, at.next + 1);
    }
    at.state
}

// The last call: the file has ended. It writes the counts of the blocks that never came.
pub fn end(p: Published, out: &mut [u8]) -> Published
    ensures { (result ≡ ended p out.old) × (out.new ≡ ended_out p out.old) }
{
    p.close(out)
}

// What stands after the calls so far.
pub fn answer(p: Published) -> Outcome
    ensures { result ≡ told p }
{
    series_lines::answer(p.reader)
}

// The whole file in one call, and its end.
pub fn read(text: &[u8], out: &mut [u8]) -> Outcome
    ensures { (result ≡ told (whole text.now out.old).reader)
        × (out.new ≡ (whole text.now out.old).out) }
{
    let p = piece(start(), text, out);
    answer(end(p, out))
}
