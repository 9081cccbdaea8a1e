// The bytes of a record in a run, up to a line feed or a byte that cannot stand in it. Text and index go apart, as the definitions have them.
ghost use Rattle.std.specs.Prelude.{◌≡◌, ◌≤◌, length};
ghost use Rattle.published_records.specs.Rows.{is_heading};
ghost use Rattle.published_records.specs.Machine.Fillers.{Skips};
ghost use Rattle.published_records.specs.Machine.Runs.{Takes};

use crate::fillers::skip_fillers;
use crate::indents::{indent_ahead, skip_indent};
use crate::parts::{parts_ahead, take_parts};
use crate::{Kind, Row};
use series_lines::passed::Passed;

// The free columns, the digits after a point or the spaces before a figure that stand from an index on.
fn take_run(kind: Kind, row: Row, text: &[u8], from: usize) -> Passed<Row>
    requires { from ≤ length text.now }
    ensures { Skips (is_heading kind) row text.now from result.state result.next }
{
    match kind {
        Kind::Term if parts_ahead(row) => take_parts(row, text, from),
        Kind::Term if indent_ahead(row) => skip_indent(row, text, from),
        _ => skip_fillers(kind, row, text, from),
    }
}

// The bytes that stand from an index on, as far as the record goes on with them.
pub fn take_bytes(kind: Kind, row: Row, text: &[u8], from: usize) -> Passed<Row>
    ensures { Takes (is_heading kind) row text.now from result.state result.next }
{
    let mut at = Passed {
        state: row,
        next: from,
    };
    // An index and not a `for`: a turn takes a byte and the run after it.
    while at.next < text.len() {
        let byte = text[at.next];
        if byte == b'\n' {
            return at;
        }
        let next = at.state.lex(kind, byte);
        if next.is_bad() {
            return at;
        }
        at = take_run(kind, next, text, at.next + 1);
    }
    at
}
