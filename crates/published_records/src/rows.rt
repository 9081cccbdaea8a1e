// One record, a byte at a time.
ghost use Rattle.std.specs.Prelude.{◌≡◌, cond};
ghost use Rattle.series_lines.specs.Lexer.{spot_decimal, fresh, bad, whole_count};
ghost use Rattle.published_records.specs.Rows.{fresh_row, next_column, put_line, with_figure, with_number};
ghost use Rattle.published_records.specs.Rows.{in_column, is_heading, lex_row, whole_row};
ghost use Rattle.published_records.specs.Machine.Fillers.{held};
ghost use Rattle.published_records.specs.Machine.Runs.{is_bad};

use crate::columns::{A_FIRST, B_FIRST, C_FIRST, C_LAST, COUNT_LAST, heading_column, term_column};
use crate::figures::{in_blank, in_part, in_point, in_whole};
use crate::{Column, Kind, Row};
use series_lines::Line;
use series_lines::lexer::{
    COUNT_DIGITS, SPOT_BAD, SPOT_COUNT, SPOT_DECIMAL, WHOLE_DIGITS, fresh_line, whole_count,
    with_space,
};

// The columns after c are not told apart.
pub const COLUMN_LIMIT: u64 = C_LAST + 1;

// The column after n bytes, from column c on.
#[tactic(auto, unfolding(crate::specs::Machine::Fillers::held))]
pub(crate) fn held(c: u64, n: u64) -> u64
    ensures { result ≡ held c n }
{
    c.saturating_add(n).min(COLUMN_LIMIT)
}

// The line of a decimal, after a running number that is whole.
fn after_number(l: Line) -> Line
    ensures { result ≡ cond (whole_count l) (fresh spot_decimal) bad }
{
    if whole_count(l) {
        return fresh_line(SPOT_DECIMAL);
    }
    fresh_line(SPOT_BAD)
}

impl Row {
    // A record of which nothing is read.
    pub fn fresh() -> Row
        ensures { result ≡ fresh_row }
    {
        Row {
            column: 1,
            line: fresh_line(SPOT_COUNT),
            version: 0,
            coordinate: 0,
            power: 0,
            number: 0,
        }
    }

    // A byte came that cannot stand in the record.
    #[tactic(auto, unfolding(crate::specs::Machine::Runs::is_bad))]
    pub fn is_bad(self) -> bool
        ensures { result ≡ is_bad self }
    {
        self.line.spot == SPOT_BAD
    }

    // The row with another line.
    fn with_line(self, line: Line) -> Row
        ensures { result ≡ put_line self line }
    {
        Row { line, ..self }
    }

    // The row one column further, with another line.
    #[tactic(auto, using(crate::proofs::FreeColumns::held_one))]
    fn moved(self, line: Line) -> Row
        ensures { result ≡ Rattle.published_records.specs.Rows.moved self line }
    {
        Row {
            column: held(self.column, 1),
            line,
            ..self
        }
    }

    // The row one column further, with one more digit of version, coordinate or power.
    #[tactic(auto, using(crate::proofs::FreeColumns::held_one))]
    fn with_digit(self, d: u64) -> Row
        ensures { result ≡ record {
          column = next_column self.column;
          line = self.line;
          version = self.coordinate;
          coordinate = self.power;
          power = d;
          number = self.number;
        } }
    {
        Row {
            column: held(self.column, 1),
            version: self.coordinate,
            coordinate: self.power,
            power: d,
            ..self
        }
    }

    // A digit of version, coordinate or power: they come in this order, so each new digit moves those before it up.
    #[tactic(auto, unfolding(crate::specs::Rows::with_figure))]
    fn with_figure(self, byte: u8) -> Row
        ensures { result ≡ with_figure self byte }
    {
        match byte {
            b'0'..=b'9' => self.with_digit((byte - b'0') as u64),
            _ => self.moved(fresh_line(SPOT_BAD)),
        }
    }

    // Before a: the running number is kept, and a decimal follows.
    fn with_number(self) -> Row
        ensures { result ≡ with_number self }
    {
        Row {
            line: after_number(self.line),
            number: self.line.value,
            ..self
        }
    }

    // At the first column of a, b or c the field before it has ended and is kept, as a space keeps a decimal in a text.
    #[tactic(auto, unfolding(crate::specs::Rows::entered))]
    fn entered(self) -> Row
        ensures { result ≡ Rattle.published_records.specs.Rows.entered self }
    {
        match self.column {
            A_FIRST => self.with_number(),
            B_FIRST | C_FIRST => self.with_line(with_space(self.line)),
            _ => self,
        }
    }

    // A byte in a column.
    #[tactic(auto, unfolding(crate::specs::Rows::in_column))]
    fn in_column(self, column: Column, byte: u8) -> Row
        ensures { result ≡ in_column column self byte }
    {
        match column {
            Column::Filler => self.moved(self.line),
            Column::Digit => self.with_figure(byte),
            Column::Count(w) => self.moved(in_whole(w, COUNT_DIGITS, self.line, byte)),
            Column::Whole(w) => self.moved(in_whole(w, WHOLE_DIGITS, self.line, byte)),
            Column::Point => self.moved(in_point(self.line, byte)),
            Column::Part => self.moved(in_part(self.line, byte)),
            Column::Blank => self.moved(in_blank(self.line, byte)),
        }
    }

    // One byte of a heading or of a term record, before the line feed; in a term record it may enter a field.
    #[tactic(auto, unfolding(crate::specs::Rows::lex_row, crate::specs::Rows::lex_heading, crate::specs::Rows::lex_term))]
    pub fn lex(self, kind: Kind, byte: u8) -> Row
        ensures { result ≡ lex_row (is_heading kind) self byte }
    {
        let (column, row) = match kind {
            Kind::Heading => (heading_column(self.column), self),
            Kind::Term => (term_column(self.column), self.entered()),
        };
        row.in_column(column, byte)
    }

    // The line feed may come: all columns of figures are filled.
    #[tactic(auto, unfolding(crate::specs::Rows::whole_row))]
    pub fn is_whole(self, kind: Kind) -> bool
        ensures { result ≡ whole_row (is_heading kind) self }
    {
        match kind {
            Kind::Heading => COUNT_LAST < self.column,
            Kind::Term => C_LAST < self.column,
        }
    }
}
