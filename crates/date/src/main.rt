// Reads lines of standard input, each a date as three numbers, and prints the day number, `refused 1`, or what is wrong with the line
// (RULES, "Programs").
#![tactic(auto)]

use command_line::files::read_piece;
use date_lines::reader::start;
use date_lines::{answer_last, answer_piece};
use decimals::buffer::Buffer;
use std::io;
use std::io::{Read, Write};

// How much is read at once.
const PIECE: usize = 512;

// No reply is longer, and each byte of a piece may end a line; date_lines/specs/Replies.antt has the same name.
const REPLY_LIMIT: usize = 40;

// Room for the replies to a piece.
const REPLIES: usize = REPLY_LIMIT * PIECE;

// Reads piece by piece and prints the replies to the lines that ended; at the end that to the last line. A proved loop has to end, and nothing
// says that the input does: so it has more turns than any input uses up.
fn run<R: Read, W: Write>(input: &mut R, output: &mut W) -> io::Result<()> {
    let mut piece = [0u8; PIECE];
    let mut out = Buffer::<REPLIES>::new();
    let mut line = start();
    for _ in 0..u64::MAX {
        let n = read_piece(input, &mut piece);
        if n == 0 {
            break;
        }
        line = answer_piece(line, &piece[..n], &mut out);
        output.write_all(out.text())?;
        out.clear();
    }
    answer_last(line, &mut out);
    output.write_all(out.text())
}

fn main(rt: HostRuntime) -> io::Result<()> {
    run(&mut rt.stdin(), &mut rt.stdout())
}
