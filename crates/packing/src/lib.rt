// Reads a series on standard input, as a text or as a published file, and writes its packed form on standard output; or writes on standard
// error, in one line, why it is no series: the number of the refusal, what is wrong, and where. For the program pack and its further cases.
#![tactic(auto)]

use command_line::files::{PACKED_ROOM, read_piece, write_first};
use command_line::words::write_refusal;
use published::Published;
use published_records::columns::COUNT_FIRST;
use series_lines::{Outcome, Reader};
use std::io;
use std::io::{Read, Write};
use units::Refusal;

// How much is read at once.
const PIECE: usize = 16384;

// Reads to the end and hands each piece to both readers, each with a buffer of its own. A proved loop has to end, and nothing says that the input
// does: so it has more turns than any input uses up.
fn read_all<R: Read>(
    input: &mut R,
    text_out: &mut [u8],
    file_out: &mut [u8],
) -> (Reader, Published) {
    let mut piece = [0u8; PIECE];
    let mut reader = text::start();
    let mut file = published::start();
    for _ in 0..u64::MAX {
        let n = read_piece(input, &mut piece);
        if n == 0 {
            break;
        }
        reader = text::piece(reader, &piece[..n], text_out);
        file = published::piece(file, &piece[..n], file_out);
    }
    (reader, file)
}

// Refused at its line feed: out of order, or with a count over its limit.
fn judged(refusal: Refusal) -> bool {
    matches!(refusal, Refusal::BadHeading(_) | Refusal::OverLimit(_))
}

// The first line has the digits of a heading in their columns, up to its count: it was judged as one, or the count comes next. (No line of a
// text is so long.)
fn heading_came(p: Published) -> bool {
    if 0 < p.reader.blocks || COUNT_FIRST <= p.row.column {
        return true;
    }
    match published::answer(p) {
        Outcome::Refused(refusal) => judged(refusal),
        _ => false,
    }
}

// The packed form, or why there is none.
fn write_outcome<W: Write, E: Write>(
    output: &mut W,
    errors: &mut E,
    outcome: Outcome,
    packed: &[u8],
) -> io::Result<()> {
    match outcome {
        Outcome::Accepted(n) => write_first(output, packed, n),
        Outcome::Refused(refusal) => write_refusal(errors, refusal),
        Outcome::More(_) => Ok(()),
    }
}

// The whole input, by the reader of its kind.
fn convert<R: Read, W: Write, E: Write>(
    input: &mut R,
    output: &mut W,
    errors: &mut E,
    text_out: &mut [u8],
    file_out: &mut [u8],
) -> io::Result<()> {
    let (reader, file) = read_all(input, text_out, file_out);
    if heading_came(file) {
        // A remark that cannot be told does not keep the packed form from coming.
        let _ = errors.write_all(b"read as a published file\n");
        let ended = published::end(file, file_out);
        return write_outcome(output, errors, published::answer(ended), file_out);
    }
    let ended = text::end(reader, text_out);
    write_outcome(output, errors, series_lines::answer(ended), text_out)
}

// There is room for every series: the theorems of proofs/Room.antt.
pub fn pack_input<R: Read, W: Write, E: Write>(
    input: &mut R,
    output: &mut W,
    errors: &mut E,
) -> io::Result<()> {
    let mut text_out = [0u8; PACKED_ROOM];
    let mut file_out = [0u8; PACKED_ROOM];
    convert(input, output, errors, &mut text_out, &mut file_out)
}
