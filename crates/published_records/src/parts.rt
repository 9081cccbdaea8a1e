// The digits after a decimal's point, taken in a run.
ghost use Rattle.std.specs.Prelude.{◌≡◌, false, true, ◌≤◌};
ghost use Rattle.series_lines.specs.Lexer.{spot_done};
ghost use Rattle.published_records.specs.Machine.Fillers.{Skips};
ghost use Rattle.published_records.specs.Machine.Parts.{part_columns, PartsAhead, row_at};

use crate::Row;
use crate::columns::decimal_left;
use series_lines::Line;
use series_lines::lexer::{PART_DIGITS, SPOT_DONE, SPOT_POINT};
use series_lines::parts::take_digits;
use series_lines::passed::Passed;

// So many columns from c on, of a field of a term record, take digits after the point.
#[tactic(auto, unfolding(crate::specs::Machine::Parts::part_columns, crate::specs::Machine::Parts::decimal_left, crate::specs::Machine::Parts::parts_left))]
fn part_columns(c: u64) -> u64
    ensures { result ≡ part_columns c }
{
    match decimal_left(c) {
        Some(m) if m < PART_DIGITS => m + 1,
        _ => 0,
    }
}

// The row stands after a point, with columns for all its parts.
pub fn parts_ahead(row: Row) -> bool
    ensures { result ≡ true → PartsAhead row }
{
    let spot = row.line.spot;
    SPOT_POINT <= spot && spot < SPOT_DONE && SPOT_DONE - spot <= part_columns(row.column)
}

// The row, come to another spot with another value.
fn come_to(row: Row, spot: u64, value: u64) -> Row
    requires { PartsAhead row × ((row.line.spot ≤ spot) × (spot ≤ spot_done)) }
    ensures { result ≡ row_at row spot value }
{
    Row {
        column: row.column + (spot - row.line.spot),
        line: Line {
            spot,
            value,
            ..row.line
        },
        ..row
    }
}

// The parts that stand from an index on.
pub fn take_parts(row: Row, text: &[u8], from: usize) -> Passed<Row>
    requires { PartsAhead row }
    ensures { Skips false row text.now from result.state result.next }
{
    let digits = take_digits(row.line, text, from);
    let spot = row.line.spot + (digits.next - from) as u64;
    Passed {
        state: come_to(row, spot, digits.state),
        next: digits.next,
    }
}
