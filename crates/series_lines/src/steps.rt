// The steps that the readers share: in a line, and at the line feed of a count or of a term. For the readers, which call the ends of
// lines only where one more byte can be counted.
ghost use Rattle.std.specs.Prelude.{◌≡◌, ◌<◌};
ghost use Rattle.units.specs.Refusals.{fault_number};
ghost use Rattle.series_lines.specs.Judge.{tally, count_end, term_end};
ghost use Rattle.series_lines.specs.Reader.{last_offset, stopped, next_spot, advanced, in_line};
ghost use Rattle.series_lines.specs.Machine.Modes.{line_ended, line_left};

use crate::judge::{count_refusal, term_line_refusal};
use crate::lexer::{SPOT_AFTER, SPOT_COUNT, SPOT_DECIMAL, fresh_line};
use crate::writer::Sink;
use crate::{Line, READING, Reader};
use limits::{Tally, block_factor};
use units::{BLOCK_COUNT, Fault};

// Where the next line begins.
#[tactic(auto, using(std::proofs::lemmas::Bool::Decides::nat_tests), unfolding(crate::specs::Reader::next_spot))]
pub fn next_spot(blocks: u64, left: u64) -> u64
    ensures { result ≡ next_spot blocks left }
{
    match (left, blocks) {
        (0, BLOCK_COUNT) => SPOT_AFTER,
        (0, _) => SPOT_COUNT,
        _ => SPOT_DECIMAL,
    }
}

impl Reader {
    // The part of the series so far.
    pub fn tally(self) -> Tally
        ensures { result ≡ tally self }
    {
        Tally {
            terms: self.terms,
            total: self.total,
            coarse: self.coarse,
        }
    }

    // The reader with its answer.
    pub fn stopped(self, status: u64) -> Reader
        ensures { result ≡ stopped self status }
    {
        Reader {
            status,
            place: self.at,
            ..self
        }
    }

    // The reader that has found a fault.
    pub fn refused(self, fault: Fault) -> Reader
        ensures { result ≡ stopped self (fault_number fault) }
    {
        self.stopped(fault.number())
    }

    // In a line of which so much has come, before the byte at an offset.
    pub fn in_line(self, line: Line, at: usize) -> Reader
        ensures { result ≡ in_line self line at }
    {
        Reader {
            line,
            at,
            status: READING,
            place: 0,
            ..self
        }
    }

    // The reader after a line that was written up to written.
    pub fn advanced(self, written: usize, blocks: u64, left: u64, s: Tally) -> Reader
        requires { self.at < last_offset }
        ensures { result ≡ advanced self written blocks left s }
    {
        Reader {
            line: fresh_line(next_spot(blocks, left)),
            at: self.at + 1,
            written,
            blocks,
            left,
            terms: s.terms,
            total: s.total,
            coarse: s.coarse,
            status: READING,
            place: 0,
        }
    }
}

// The line feed of a count. Here and below a sink that only counts leaves the output as it is.
pub fn end_count<S: Sink>(r: Reader, out: &mut [u8]) -> Reader
    requires { r.at < last_offset }
    ensures { (result ≡ line_ended S.writes r out.old (count_end r)) × (out.new ≡ line_left S.writes r out.old (count_end r)) }
{
    let n = r.line.value;
    let s = r.tally();
    if let Err(fault) = count_refusal(r.blocks, s, n) {
        return r.refused(fault);
    }
    match S::put_count(n, out, r.written) {
        Err(_) => r.refused(Fault::NoRoom),
        Ok(next) => r.advanced(next, r.blocks + 1, n, s.open_block(r.blocks, n)),
    }
}

// The line feed of a term, whose line a reader of records holds apart. It has no hint: put into the loops it makes each byte of a text slower.
pub fn end_term<S: Sink>(r: Reader, l: Line, out: &mut [u8]) -> Reader
    requires { r.at < last_offset }
    ensures { (result ≡ line_ended S.writes r out.old (term_end (in_line r l r.at)))
        × (out.new ≡ line_left S.writes r out.old (term_end (in_line r l r.at))) }
{
    let s = r.tally();
    let f = block_factor(r.blocks.saturating_sub(1));
    if let Err(fault) = term_line_refusal(f, s, l) {
        return r.refused(fault);
    }
    match S::put_term(l, out, r.written) {
        Err(_) => r.refused(Fault::NoRoom),
        Ok(next) => r.advanced(
            next,
            r.blocks,
            r.left.saturating_sub(1),
            s.add_term(f, l.sizes()),
        ),
    }
}
