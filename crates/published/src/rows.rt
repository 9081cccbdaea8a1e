// The bytes of a record in a run, which nearly all bytes of a file are: only the row changes with each, and they are counted together.
ghost use Rattle.std.specs.Prelude.{◌≡◌, true};
ghost use Rattle.published.specs.Machine.Rows.{Counts, GoesOn};

use crate::Published;
use published_records::runs::take_bytes;
use series_lines::passed::Passed;
use series_lines::{LAST_OFFSET, READING};

impl Published {
    // The reader reads on and can count n bytes.
    fn counts(self, n: usize) -> bool
        ensures { result ≡ true → Counts self n }
    {
        let r = self.reader;
        r.status == READING && r.place == 0 && !self.is_complete() && n <= LAST_OFFSET - r.at
    }

    // The bytes that stand from an index on, as far as the record goes on with them.
    pub(crate) fn take_row(self, text: &[u8], from: usize) -> Passed<Published>
        ensures { GoesOn self text.now from result.state result.next }
    {
        if text.len() <= from || !self.counts(text.len() - from) {
            return Passed {
                state: self,
                next: from,
            };
        }
        let r = self.reader;
        let run = take_bytes(self.kind(), self.row, text, from);
        Passed {
            state: Published {
                reader: r.in_line(r.line, r.at + (run.next - from)),
                row: run.state,
                ..self
            },
            next: run.next,
        }
    }
}
