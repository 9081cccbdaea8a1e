// The printer: from a packed series to its plain text. RULES, "Series, as text and packed".
#![tactic(auto)]

mod blocks;
mod digits;
mod lines;

ghost use Rattle.std.specs.Prelude.{◌≡◌};
ghost use Rattle.packed.specs.Series.{accepted, parse};
ghost use Rattle.packed.specs.Machine.Table.{ends, table_blocks};
ghost use Rattle.printer.specs.Printer.{printed, printed_out};
ghost use Rattle.printer.specs.Machine.Writing.{Ordered};

use blocks::{put_blocks, text_length};
use packed::table::Table;
use series_lines::lexer::{COUNT_DIGITS, PART_DIGITS};
use units::{BLOCK_COUNT, Refusal, SERIES_LIMIT};

// specs/Printer.antt has these under the same names.

// The most bytes of a line of a series, with its line feed: of a count, and of a term.
const COUNT_LINE_LIMIT: u64 = COUNT_DIGITS + 1;

const TERM_LINE_LIMIT: u64 = 2 + (5 + 1 + 6) + 3 * (1 + PART_DIGITS) + 2 + 1;

// No plain text of a series is longer: the theorem `longest` of printer_promises/proofs/Theorems.antt.
pub const TEXT_LIMIT: usize = (BLOCK_COUNT * COUNT_LINE_LIMIT
    + SERIES_LIMIT * TERM_LINE_LIMIT) as usize;

// Prints the blocks of a term table, where their text fits.
fn print_table(table: &Table, out: &mut [u8]) -> Result<usize, Refusal>
    requires { Ordered 0 (ends table.now) }
    ensures { (result ≡ printed (accepted (table_blocks table.now)) out.old)
        × (out.new ≡ printed_out (accepted (table_blocks table.now)) out.old) }
{
    let n = text_length(table);
    if out.len() < n {
        return Err(Refusal::NoRoom(n));
    }
    put_blocks(table, out);
    Ok(n)
}

// Prints the plain text of a packed series into out: its length, or the refusal of the series, or 7 with the length that it would need.
pub fn print(packed: &[u8], out: &mut [u8]) -> Result<usize, Refusal>
    ensures { (result ≡ printed (parse packed.now) out.old)
        × (out.new ≡ printed_out (parse packed.now) out.old) }
{
    let mut table = Table::new();
    // No `?`: with an arm of its own a wrong refusal is refused by what the contract says of it.
    match table.unpack(packed) {
        Ok(_) => print_table(&table, out),
        Err(r) => Err(r),
    }
}
