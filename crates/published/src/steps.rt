// The reader's steps: one byte, the end of a record, the end of the file. Ends of records are judged only where one more byte can be counted.
ghost use Rattle.std.specs.Prelude.{◌≡◌, ◌+◌, ◌≤◌, ◌<◌};
ghost use Rattle.series_lines.specs.Reader.{last_offset, wrote, wrote_out};
ghost use Rattle.units.specs.Refusals.{fault_number};
ghost use Rattle.published_records.specs.Rows.{is_heading};
ghost use Rattle.published.specs.Reader.{at_heading, halted, heading_end, record_end, verdict, next_last, judged};
ghost use Rattle.published.specs.Machine.Judged.{ruled};
ghost use Rattle.published.specs.Reader.{complete, other, step, step_out, finished, ended, ended_out};

use crate::Published;
use published_headings::judge::{Heading, follows, missing_blocks, skip_blocks};
use published_headings::writer::{put_heading, put_missing};
use published_records::{Kind, Row};
use series_lines::lexer::SPOT_AFTER;
use series_lines::steps::{end_term, next_spot};
use series_lines::writer::Written;
use series_lines::{ACCEPTED, LAST_OFFSET, READING, Reader};
use units::Fault;

impl Published {
    // The record that is read: a heading comes where no term is left of the block.
    #[tactic(auto, unfolding(crate::specs::Reader::at_heading))]
    pub(crate) fn kind(self) -> Kind
        ensures { is_heading result ≡ at_heading self }
    {
        match self.reader.left {
            0 => Kind::Heading,
            _ => Kind::Term,
        }
    }

    // After block 18 nothing may come.
    #[tactic(auto, unfolding(crate::specs::Reader::complete))]
    pub(crate) fn is_complete(self) -> bool
        ensures { result ≡ complete self }
    {
        next_spot(self.reader.blocks, self.reader.left) == SPOT_AFTER
    }

    // The reader with its refusal.
    fn halted(self, fault: Fault) -> Published
        ensures { result ≡ halted self (fault_number fault) }
    {
        Published {
            reader: self.reader.refused(fault),
            ..self
        }
    }

    // The line feed of a heading.
    fn end_heading(self, out: &mut [u8]) -> Result<Reader, Fault>
        requires { self.reader.at < last_offset }
        ensures { (ruled self.reader result ≡ wrote self.reader out.old (heading_end self))
            × (out.new ≡ wrote_out self.reader out.old (heading_end self)) }
    {
        let r = self.reader;
        let n = self.row.line.value;
        let heading = Heading {
            version: self.row.version,
            coordinate: self.row.coordinate,
            power: self.row.power,
            count: n,
        };
        let s = r.tally();
        let k = heading.judge(r.blocks, s)?;
        let Ok(next) = put_heading((k - r.blocks) as usize, n, out, r.written) else {
            return Err(Fault::NoRoom);
        };
        let opened = skip_blocks(r.blocks, k, s).open_block(k, n);
        Ok(r.advanced(next, k + 1, n, opened))
    }

    // The line feed of a term record: its figures are judged and written as those of a line of a text.
    fn end_record(self, out: &mut [u8]) -> Reader
        requires { self.reader.at < last_offset }
        ensures { (result ≡ wrote self.reader out.old (record_end self)) × (out.new ≡ wrote_out self.reader out.old (record_end self)) }
    {
        let r = self.reader;
        if !follows(self.last, self.row.number) {
            return r.refused(Fault::BadNumber);
        }
        end_term::<Written>(r, self.row.line, out)
    }

    // The line feed of a record.
    #[tactic(auto, unfolding(crate::specs::Reader::verdict))]
    fn end_row(self, out: &mut [u8]) -> Reader
        requires { self.reader.at < last_offset }
        ensures { (result ≡ wrote self.reader out.old (verdict self)) × (out.new ≡ wrote_out self.reader out.old (verdict self)) }
    {
        let r = self.reader;
        let kind = self.kind();
        if !self.row.is_whole(kind) {
            return r.refused(Fault::BadByte);
        }
        match kind {
            Kind::Heading => self
                .end_heading(out)
                .unwrap_or_else(|fault| r.refused(fault)),
            Kind::Term => self.end_record(out),
        }
    }

    // The running number that the next one comes after.
    #[tactic(auto, unfolding(crate::specs::Reader::next_last))]
    fn next_last(self) -> u64
        ensures { result ≡ next_last self }
    {
        match self.kind() {
            Kind::Heading => 0,
            Kind::Term => self.row.number,
        }
    }

    // The reader after a line feed.
    fn judge(self, out: &mut [u8]) -> Published
        requires { self.reader.at < last_offset }
        ensures { (result ≡ judged self out.old)
            × (out.new ≡ wrote_out self.reader out.old (verdict self)) }
    {
        Published {
            reader: self.end_row(out),
            row: Row::fresh(),
            last: self.next_last(),
        }
    }

    // A byte that is no line feed.
    #[tactic(auto, unfolding(crate::specs::Reader::other, published_records::specs::Machine::Runs::is_bad))]
    fn take_other(self, byte: u8) -> Published
        requires { self.reader.at < last_offset }
        ensures { result ≡ other self byte }
    {
        let row = self.row.lex(self.kind(), byte);
        if row.is_bad() {
            return self.halted(Fault::BadByte);
        }
        let r = self.reader;
        Published {
            reader: r.in_line(r.line, r.at + 1),
            row,
            ..self
        }
    }

    // One byte.
    #[tactic(auto, unfolding(crate::specs::Reader::step, crate::specs::Reader::step_out, series_lines::specs::Reader::uncounted))]
    pub(crate) fn take_byte(self, byte: u8, out: &mut [u8]) -> Published
        ensures { (result ≡ step self out.old byte) × (out.new ≡ step_out self out.old byte) }
    {
        let r = self.reader;
        if r.status != READING {
            return self;
        }
        if r.at == LAST_OFFSET {
            return self.halted(Fault::BadByte);
        }
        if self.is_complete() {
            return self.halted(Fault::ByteAfterEnd);
        }
        if byte == b'\n' {
            return self.judge(out);
        }
        self.take_other(byte)
    }

    // Accepted, with n bytes more, which were written.
    fn finish(self, n: usize) -> Published
        requires { self.reader.written + n ≤ last_offset }
        ensures { result ≡ finished self n }
    {
        let r = self.reader;
        Published {
            reader: Reader {
                written: r.written + n,
                status: ACCEPTED,
                place: r.at,
                ..r
            },
            ..self
        }
    }

    // The end of the file.
    #[tactic(auto, unfolding(crate::specs::Reader::ended, crate::specs::Reader::ended_out, crate::specs::Reader::inside))]
    pub(crate) fn close(self, out: &mut [u8]) -> Published
        ensures { (result ≡ ended self out.old) × (out.new ≡ ended_out self out.old) }
    {
        let r = self.reader;
        if r.status != READING {
            return self;
        }
        if 1 < self.row.column || 0 < r.left {
            return self.halted(Fault::EndedEarly);
        }
        let n = missing_blocks(r.blocks) as usize;
        match put_missing(n, out, r.written) {
            Err(_) => self.halted(Fault::NoRoom),
            Ok(_) => self.finish(n),
        }
    }
}
