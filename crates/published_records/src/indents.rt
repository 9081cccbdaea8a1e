// The spaces before a figure, gone over in a run.
ghost use Rattle.std.specs.Prelude.{◌≡◌, false, true, ◌≤◌, length, eqb};
ghost use Rattle.std.specs.List.{prefix_len};
ghost use Rattle.series_lines.specs.Grammar.{space};
ghost use Rattle.published_records.specs.Machine.Fillers.{Skips};
ghost use Rattle.published_records.specs.Machine.Indents.{last_whole, IndentAhead};

use crate::Row;
use crate::columns::{A_FIRST, A_LAST, C_FIRST, C_LAST, NUMBER_FIRST, NUMBER_LAST};
use crate::figures::unbegun;
use crate::fillers::bytes_ahead;
use series_lines::lexer::PART_DIGITS;
use series_lines::passed::Passed;

// The last whole columns of a and of c; b has no spaces after its first column.
const A_WHOLE: u64 = A_LAST - PART_DIGITS - 1;

const C_WHOLE: u64 = C_LAST - PART_DIGITS - 1;

// The last whole column of the figure that column c is in; 0, which no column stands before, in free columns, at the first column of a and of c,
// in b and from a point on.
#[tactic(auto, unfolding(crate::specs::Machine::Indents::last_whole))]
fn last_whole(c: u64) -> u64
    ensures { result ≡ last_whole c }
{
    match c {
        ..=NUMBER_LAST => NUMBER_LAST,
        ..=A_FIRST => 0,
        ..=A_WHOLE => A_WHOLE,
        ..=C_FIRST => 0,
        ..=C_WHOLE => C_WHOLE,
        _ => 0,
    }
}

// How many spaces stand before the first other byte.
fn spaces_before(ahead: &[u8]) -> usize
    ensures within { result ≤ length ahead.now }
    ensures count { result ≡ prefix_len (λ x. eqb x space) ahead.now }
{
    ahead.iter().take_while(|byte| **byte == b' ').count()
}

// Spaces may come in a run.
pub fn indent_ahead(row: Row) -> bool
    ensures { result ≡ true → IndentAhead row }
{
    NUMBER_FIRST <= row.column && row.column < last_whole(row.column) && unbegun(row.line)
}

// The spaces that stand from an index on, before the last whole column.
pub(crate) fn skip_indent(row: Row, text: &[u8], from: usize) -> Passed<Row>
    requires ahead { IndentAhead row }
    requires inside { from ≤ length text.now }
    ensures { Skips false row text.now from result.state result.next }
{
    let columns = last_whole(row.column) - row.column;
    let n = spaces_before(bytes_ahead(text, from, columns));
    Passed {
        state: Row {
            column: row.column + n as u64,
            ..row
        },
        next: from + n,
    }
}
