// Free columns, which most bytes of a file are, gone over in a run that ends before a line feed.
ghost use Rattle.std.specs.Prelude.{◌≡◌, ◌≤◌, length, take, drop, eqb};
ghost use Rattle.std.specs.List.{position_or_len};
ghost use Rattle.series_lines.specs.Grammar.{feed};
ghost use Rattle.published_records.specs.Rows.{is_heading};
ghost use Rattle.published_records.specs.Machine.Fillers.{heading_end, term_end, filler_end, Skips};

use crate::columns::{
    A_FIRST, COORDINATE_COLUMN, COUNT_LAST, NUMBER_FIRST, NUMBER_LAST, POWER_COLUMN, VERSION_COLUMN,
};
use crate::rows::held;
use crate::{Kind, Row};
use series_lines::LAST_OFFSET;
use series_lines::passed::Passed;

// After the count of a heading all columns are free: no column is so large.
const NO_END: u64 = LAST_OFFSET as u64;

// The first column from c on that is not free, in a heading.
#[tactic(auto, unfolding(crate::specs::Machine::Fillers::heading_end))]
fn heading_end(c: u64) -> u64
    ensures { result ≡ heading_end c }
{
    match c {
        ..=VERSION_COLUMN => VERSION_COLUMN,
        ..=COORDINATE_COLUMN => COORDINATE_COLUMN,
        ..=POWER_COLUMN => POWER_COLUMN,
        ..=COUNT_LAST => c,
        _ => NO_END,
    }
}

// And in a term record.
#[tactic(auto, unfolding(crate::specs::Machine::Fillers::term_end))]
fn term_end(c: u64) -> u64
    ensures { result ≡ term_end c }
{
    match c {
        ..=NUMBER_FIRST => NUMBER_FIRST,
        ..=NUMBER_LAST => c,
        ..=A_FIRST => A_FIRST,
        _ => c,
    }
}

impl Kind {
    // In either.
    #[tactic(auto, unfolding(crate::specs::Machine::Fillers::filler_end))]
    fn filler_end(self, column: u64) -> u64
        ensures { result ≡ filler_end (is_heading self) column }
    {
        match self {
            Kind::Heading => heading_end(column),
            Kind::Term => term_end(column),
        }
    }
}

// The bytes that stand from an index on, at most so many.
pub(crate) fn bytes_ahead(text: &[u8], from: usize, most: u64) -> &[u8]
    requires { from ≤ length text.now }
    ensures { result.now ≡ take most (drop from text.now) }
{
    let rest = &text[from..];
    let n = rest.len().min(most as usize);
    &rest[..n]
}

// How many bytes stand before the first line feed.
fn feed_before(ahead: &[u8]) -> usize
    ensures within { result ≤ length ahead.now }
    ensures place { result ≡ position_or_len (λ x. eqb x feed) ahead.now }
{
    ahead.iter().take_while(|byte| **byte != b'\n').count()
}

// The bytes of free columns that stand from an index on, before a line feed.
pub(crate) fn skip_fillers(kind: Kind, row: Row, text: &[u8], from: usize) -> Passed<Row>
    requires { from ≤ length text.now }
    ensures { Skips (is_heading kind) row text.now from result.state result.next }
{
    let columns = kind.filler_end(row.column).saturating_sub(row.column);
    let n = feed_before(bytes_ahead(text, from, columns));
    if n == 0 {
        return Passed {
            state: row,
            next: from,
        };
    }
    Passed {
        state: Row {
            column: held(row.column, n as u64),
            ..row
        },
        next: from + n,
    }
}
