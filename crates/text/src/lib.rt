// The reader of series texts (RULES, "Series, as text and packed"): a text comes in pieces, and its packed form is written line by line into
// one buffer that each call lends.
#![tactic(auto)]

mod parts;
mod steps;

ghost use Rattle.std.specs.Prelude.{◌≡◌};
ghost use Rattle.series_lines.specs.Reader.{told};
ghost use Rattle.text.specs.Reader.{begun, run, ended, whole};
ghost use Rattle.text.specs.Judge.{judgement};
ghost use Rattle.text.specs.Machine.Modes.{passed};

use crate::parts::take_parts;
use crate::steps::{close, take_byte};
use series_lines::writer::{Counted, Sink, Written};
use series_lines::{Outcome, Reader, answer};

// The reader before the first byte.
pub fn start() -> Reader
    ensures { result ≡ begun }
{
    series_lines::start()
}

// The loop over the bytes of a text, whose packed form is written or only counted.
fn pass<S: Sink>(r: Reader, text: &[u8], out: &mut [u8]) -> Reader
    ensures { (result ≡ (passed S.writes r out.old text.now).reader)
        × (out.new ≡ (passed S.writes r out.old text.now).out) }
{
    let mut reader = r;
    let mut i = 0;
    // An index and not a `for`: a step takes a byte and the run of digits after it.
    while i < text.len() {
        let next = take_byte::<S>(reader, text[i], out);
        let taken = take_parts(next, text, i + 1);
        reader = taken.state;
        i = taken.next;
    }
    reader
}

// The next piece of the text; it may be empty.
pub fn piece(r: Reader, text: &[u8], out: &mut [u8]) -> Reader
    ensures { (result ≡ (run r out.old text.now).reader) × (out.new ≡ (run r out.old text.now).out) }
{
    pass::<Written>(r, text, out)
}

// The last call: the text has ended. It writes nothing.
pub fn end(r: Reader, out: &mut [u8]) -> Reader
    ensures { (result ≡ ended r) × (out.new ≡ out.old) }
{
    close(r)
}

// The whole text in one call, and its end.
pub fn read(text: &[u8], out: &mut [u8]) -> Outcome
    ensures { (result ≡ told (whole text.now out.old).reader)
        × (out.new ≡ (whole text.now out.old).out) }
{
    let r = piece(start(), text, out);
    answer(end(r, out))
}

// What the reader would say of the whole text and its end with room enough; nothing is written.
pub fn judge(text: &[u8]) -> Outcome
    ensures { result ≡ judgement text.now }
{
    answer(close(pass::<Counted>(start(), text, &mut [])))
}
