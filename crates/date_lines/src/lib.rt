// The date program's work: lines of three numbers in, day numbers and refusals out. A line has no limit of length, and the input may be cut
// anywhere. Both calls are for the program `date`, whose buffer has the room that they ask for.
#![tactic(auto)]

ghost use Rattle.std.specs.Prelude.{◌≡◌, ◌+◌, ◌*◌, ◌≤◌, ◌++◌, length};
ghost use Rattle.date_lines.specs.Replies.{reply_limit, after, said, line_after, replies, last_reply};

use crate::reader::{Fault, Line, start, take_byte, whole};
use crate::reply::put_reply;
use decimals::LINE_FEED;
use decimals::buffer::Buffer;

pub mod reader;
mod reply;
pub mod states;

// One byte of the input.
#[tactic(auto, unfolding(crate::specs::Replies::after, crate::specs::Replies::said))]
fn answer_byte<const N: usize>(
    line: Result<Line, Fault>,
    b: u8,
    out: &mut Buffer<N>,
) -> Result<Line, Fault>
    requires { length out.old + reply_limit ≤ N }
    ensures line { result ≡ after line b }
    ensures output { out.new ≡ out.old ++ said line b }
{
    if b == LINE_FEED {
        put_reply(whole(line), out);
        return start();
    }
    take_byte(line, b)
}

// A piece of the input: the line after it, and the replies to the lines that end in it.
pub fn answer_piece<const N: usize>(
    line: Result<Line, Fault>,
    piece: &[u8],
    out: &mut Buffer<N>,
) -> Result<Line, Fault>
    requires { length out.old + reply_limit * length piece.now ≤ N }
    ensures line { result ≡ line_after line piece.now }
    ensures output { out.new ≡ out.old ++ replies line piece.now }
{
    let mut now = line;
    for b in piece {
        now = answer_byte(now, *b, out);
    }
    now
}

// The end of the input: the reply to a last line without its line feed.
#[tactic(auto, unfolding(crate::specs::Replies::last_reply))]
pub fn answer_last<const N: usize>(line: Result<Line, Fault>, out: &mut Buffer<N>)
    requires { length out.old + reply_limit ≤ N }
    ensures { out.new ≡ out.old ++ last_reply line }
{
    match whole(line) {
        Err(Fault::Empty) => {}
        said => put_reply(said, out),
    }
}
