// A refusal on standard output or standard error, whichever is given; its line is written by `refusal_words`.
ghost use Rattle.std.specs.Prelude.{OnOk};
ghost use Rattle.std.specs.Io.KnownBytes.{Appends};
ghost use Rattle.refusal_words.specs.Words.{refusal_text};

use decimals::buffer::Buffer;
use refusal_words::{REFUSAL_MOST, put_refusal};
use std::io;
use std::io::Write;
use units::Refusal;

pub fn write_refusal<W: Write>(to: &mut W, refusal: Refusal) -> io::Result<()>
    ensures { OnOk result (Appends (W.contents to.old) (W.contents to.new) (refusal_text refusal)) }
{
    let mut line = Buffer::<REFUSAL_MOST>::new();
    put_refusal(refusal, &mut line);
    to.write_all(line.text())
}
