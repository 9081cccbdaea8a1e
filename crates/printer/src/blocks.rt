// Blocks: the lengths of their texts, and writing them into a buffer with room. For this crate alone.
// Here and in lines.rt and digits.rt a length is worked apart from writing, and first: a text that does not fit leaves the buffer as it was.
ghost use Rattle.std.specs.Prelude.{◌≡◌, length, ◌+◌, ◌-◌, ◌*◌, ◌≤◌};
ghost use Rattle.units.specs.Units.{series_limit};
ghost use Rattle.packed.specs.Machine.Table.{ends, table_blocks};
ghost use Rattle.printer.specs.Printer.{plain_text};
ghost use Rattle.printer.specs.Machine.Writing.{Room, Wrote, block_of, Ordered, line_most, whole_most};

use crate::digits::{put_byte, put_whole, whole_length};
use crate::lines::{lines_length, put_lines};
use packed::table::Table;

// A block: its count line, and the lines of its terms, which stand at the places from from to end.
fn block_length(table: &Table, from: usize, end: usize) -> usize
    requires { (from ≤ end) × (end ≤ series_limit) }
    ensures { (result ≡ length (block_of table.now from end)) × (result ≤ line_most * (end - from) + (whole_most + 1)) }
{
    let n = whole_length((end - from) as u64) + 1;
    n + lines_length(table, from, end)
}

fn put_block(table: &Table, from: usize, end: usize, out: &mut [u8], at: usize) -> usize
    requires { (from ≤ end) × (end ≤ series_limit) × Room (block_of table.now from end) at out.old }
    ensures { Wrote (block_of table.now from end) at out.old result out.new }
{
    let i = put_whole((end - from) as u64, out, at);
    let j = put_byte(b'\n', out, i);
    put_lines(table, from, end, out, j)
}

// The text of all blocks of a table.
pub fn text_length(table: &Table) -> usize
    requires { Ordered 0 (ends table.now) }
    ensures { result ≡ length (plain_text (table_blocks table.now)) }
{
    let mut n = 0;
    let mut from = 0;
    for place in table.ends() {
        let end = *place as usize;
        n += block_length(table, from, end);
        from = end;
    }
    n
}

pub fn put_blocks(table: &Table, out: &mut [u8]) -> usize
    requires { Ordered 0 (ends table.now) × Room (plain_text (table_blocks table.now)) 0 out.old }
    ensures { Wrote (plain_text (table_blocks table.now)) 0 out.old result out.new }
{
    let mut p = 0;
    let mut from = 0;
    for place in table.ends() {
        let end = *place as usize;
        p = put_block(table, from, end, out, p);
        from = end;
    }
    p
}
