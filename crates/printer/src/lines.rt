// Term lines: their lengths, and writing them into a buffer with room. For this crate alone.
ghost use Rattle.std.specs.Prelude.{◌≡◌, length, ◌-◌, ◌*◌, ◌<◌, ◌≤◌};
ghost use Rattle.integers.specs.Signs.{negative};
ghost use Rattle.units.specs.Units.{series_limit};
ghost use Rattle.packed_numbers.specs.Numbers.{unfolded};
ghost use Rattle.printer.specs.Machine.Writing.{Room, Wrote, line_of, lines_of, line_most};

use crate::digits::{decimal_length, put_byte, put_decimal};
use packed::table::Table;
use packed_numbers::magnitude;
use packed_numbers::quick::PackedTerm;

// The number that was folded to v is below zero.
fn below_zero(v: u64) -> bool
    ensures { result ≡ negative (unfolded v) }
{
    v % 2 == 1
}

// The line of the term at place k.
fn line_length(table: &Table, k: usize) -> usize
    requires { k < series_limit }
    ensures { (result ≡ length (line_of table.now k)) × (result ≤ line_most) }
{
    let PackedTerm { a, b, c } = table.term(k);
    let minus_a = below_zero(a);
    let size_a = magnitude(a);
    let minus_c = below_zero(c);
    let size_c = magnitude(c);
    let n = decimal_length(minus_a, size_a);
    let m = decimal_length(false, b);
    let l = decimal_length(minus_c, size_c);
    n + m + l + 3
}

fn put_line(table: &Table, k: usize, out: &mut [u8], at: usize) -> usize
    requires { (k < series_limit) × Room (line_of table.now k) at out.old }
    ensures { Wrote (line_of table.now k) at out.old result out.new }
{
    let PackedTerm { a, b, c } = table.term(k);
    let minus_a = below_zero(a);
    let size_a = magnitude(a);
    let minus_c = below_zero(c);
    let size_c = magnitude(c);
    let i = put_decimal(minus_a, size_a, out, at);
    let at_b = put_byte(b' ', out, i);
    let j = put_decimal(false, b, out, at_b);
    let at_c = put_byte(b' ', out, j);
    let end = put_decimal(minus_c, size_c, out, at_c);
    put_byte(b'\n', out, end)
}

// The lines of the terms at the places from from to end.
pub fn lines_length(table: &Table, from: usize, end: usize) -> usize
    requires { (from ≤ end) × (end ≤ series_limit) }
    ensures { (result ≡ length (lines_of table.now from end)) × (result ≤ line_most * (end - from)) }
{
    let mut n = 0;
    for i in from..end {
        n += line_length(table, i);
    }
    n
}

pub fn put_lines(table: &Table, from: usize, end: usize, out: &mut [u8], at: usize) -> usize
    requires { (from ≤ end) × (end ≤ series_limit) × Room (lines_of table.now from end) at out.old }
    ensures { Wrote (lines_of table.now from end) at out.old result out.new }
{
    let mut p = at;
    for i in from..end {
        p = put_line(table, i, out, p);
    }
    p
}
