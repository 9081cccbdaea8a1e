// The reader's steps: one byte, the end of a line, the end of the text.
ghost use Rattle.std.specs.Prelude.{◌≡◌, ◌+◌, ◌<◌};
ghost use Rattle.series_lines.specs.Reader.{last_offset};
ghost use Rattle.series_lines.specs.Machine.Modes.{line_ended, line_left};
ghost use Rattle.text.specs.Reader.{verdict, other, ended};
ghost use Rattle.text.specs.Machine.Modes.{moved, moved_out};

use series_lines::lexer::{SPOT_AFTER, SPOT_BAD, lex, whole_count, whole_term};
use series_lines::steps::{end_count, end_term};
use series_lines::writer::Sink;
use series_lines::{ACCEPTED, LAST_OFFSET, READING, Reader};
use units::Fault;

// A line feed. Here and below a sink that only counts leaves the output as it is.
#[tactic(auto, unfolding(crate::specs::Reader::verdict, series_lines::specs::Machine::Modes::line_ended, series_lines::specs::Machine::Modes::line_left))]
fn end_line<S: Sink>(r: Reader, out: &mut [u8]) -> Reader
    requires { r.at < last_offset }
    ensures { (result ≡ line_ended S.writes r out.old (verdict r)) × (out.new ≡ line_left S.writes r out.old (verdict r)) }
{
    if whole_count(r.line) {
        return end_count::<S>(r, out);
    }
    if whole_term(r.line) {
        return end_term::<S>(r, r.line, out);
    }
    r.refused(Fault::BadByte)
}

// A byte that is no line feed.
#[tactic(auto, using(std::proofs::lemmas::Bool::Decides::nat_tests), unfolding(crate::specs::Reader::other))]
#[inline(always)]
fn take_other(r: Reader, byte: u8) -> Reader
    requires { r.at < last_offset }
    ensures { result ≡ other r byte }
{
    let line = lex(r.line, byte);
    if line.spot == SPOT_BAD {
        return r.refused(Fault::BadByte);
    }
    r.in_line(line, r.at + 1)
}

// One byte. Here and in parts.rt the hints put the steps into the loops over a text, of which there are two.
#[tactic(auto, unfolding(crate::specs::Machine::Modes::moved, crate::specs::Machine::Modes::moved_out, series_lines::specs::Reader::uncounted))]
#[inline(always)]
pub fn take_byte<S: Sink>(r: Reader, byte: u8, out: &mut [u8]) -> Reader
    ensures { (result ≡ moved S.writes r out.old byte) × (out.new ≡ moved_out S.writes r out.old byte) }
{
    if r.status != READING {
        return r;
    }
    if r.at == LAST_OFFSET {
        return r.refused(Fault::BadByte);
    }
    if r.line.spot == SPOT_AFTER {
        return r.refused(Fault::ByteAfterEnd);
    }
    if byte == b'\n' {
        return end_line::<S>(r, out);
    }
    take_other(r, byte)
}

// The end of the text.
#[tactic(auto, using(std::proofs::lemmas::Bool::Decides::nat_tests), unfolding(crate::specs::Reader::ended))]
pub fn close(r: Reader) -> Reader
    ensures { result ≡ ended r }
{
    if r.status != READING {
        return r;
    }
    if r.line.spot == SPOT_AFTER {
        return r.stopped(ACCEPTED);
    }
    r.refused(Fault::EndedEarly)
}
