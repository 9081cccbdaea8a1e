// Figures to the right in their columns.
ghost use Rattle.std.specs.Prelude.{◌≡◌, cond, eqb};
ghost use Rattle.series_lines.specs.Grammar.{point, space};
ghost use Rattle.series_lines.specs.Lexer.{bad};
ghost use Rattle.published_records.specs.Rows.{no_digit, may_begin, in_whole};
ghost use Rattle.published_records.specs.Machine.Figures.{figure_byte};

use series_lines::Line;
use series_lines::lexer::{
    SPOT_BAD, SPOT_COUNT, SPOT_DECIMAL, fresh_line, with_digit, with_minus, with_point, with_space,
};

// A minus or a digit, as the lexer of a text takes it; any other byte is bad.
#[tactic(auto, unfolding(crate::specs::Machine::Figures::figure_byte))]
fn lex_figure(l: Line, byte: u8) -> Line
    ensures { result ≡ figure_byte l byte }
{
    match byte {
        b'-' => with_minus(l),
        b'0'..=b'9' => with_digit(l, (byte - b'0') as u64),
        _ => fresh_line(SPOT_BAD),
    }
}

// No digit of the figure has come.
#[tactic(auto, unfolding(crate::specs::Rows::no_digit))]
fn no_digit(l: Line) -> bool
    ensures { result ≡ no_digit l }
{
    l.spot == SPOT_DECIMAL || l.spot == SPOT_COUNT
}

// Nothing of it has come but spaces.
#[tactic(auto, unfolding(crate::specs::Rows::unbegun))]
pub fn unbegun(l: Line) -> bool
    ensures { result ≡ Rattle.published_records.specs.Rows.unbegun l }
{
    match l.spot {
        SPOT_DECIMAL => l.minus == 0,
        spot => spot == SPOT_COUNT,
    }
}

// A minus or a first digit may come, with w whole columns after this one, in a figure of at most so many whole digits.
#[tactic(auto, unfolding(crate::specs::Rows::may_begin))]
fn may_begin(w: u64, most: u64, byte: u8) -> bool
    ensures { result ≡ may_begin w most byte }
{
    match byte {
        b'-' => 1 <= w && w <= most,
        b'0' => w == 0,
        _ => w < most,
    }
}

// A space in a whole column of a figure.
#[tactic(auto, unfolding(crate::specs::Rows::in_whole))]
fn in_indent(w: u64, l: Line) -> Line
    ensures { result ≡ in_whole w 0 l space }
{
    if unbegun(l) && 1 <= w {
        return l;
    }
    fresh_line(SPOT_BAD)
}

// A byte in a whole column of a figure.
#[tactic(auto, using(crate::proofs::FigureBytes::lexed), unfolding(crate::specs::Rows::in_whole))]
pub fn in_whole(w: u64, most: u64, l: Line, byte: u8) -> Line
    ensures { result ≡ in_whole w most l byte }
{
    match byte {
        b' ' => in_indent(w, l),
        b'.' => fresh_line(SPOT_BAD),
        _ if no_digit(l) && !may_begin(w, most, byte) => fresh_line(SPOT_BAD),
        _ => lex_figure(l, byte),
    }
}

// A byte in the column of a point.
#[tactic(auto, unfolding(series_lines::specs::Lexer::lex))]
pub fn in_point(l: Line, byte: u8) -> Line
    ensures { result ≡ cond (eqb byte point) (Rattle.series_lines.specs.Lexer.lex l byte) bad }
{
    match byte {
        b'.' => with_point(l),
        _ => fresh_line(SPOT_BAD),
    }
}

// A byte in a column after the point: as in a text.
#[tactic(auto, using(crate::proofs::FigureBytes::lexed), unfolding(series_lines::specs::Lexer::lex))]
pub fn in_part(l: Line, byte: u8) -> Line
    ensures { result ≡ Rattle.series_lines.specs.Lexer.lex l byte }
{
    match byte {
        b' ' => with_space(l),
        b'.' => with_point(l),
        _ => lex_figure(l, byte),
    }
}

// A byte after the last figure.
pub fn in_blank(l: Line, byte: u8) -> Line
    ensures { result ≡ cond (eqb byte space) l bad }
{
    match byte {
        b' ' => l,
        _ => fresh_line(SPOT_BAD),
    }
}
