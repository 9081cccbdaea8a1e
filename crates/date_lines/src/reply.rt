// The text of a reply, written into a buffer. All of this is for lib.rt.
ghost use Rattle.std.specs.Prelude.{◌≡◌, ◌+◌, ◌≤◌, ◌++◌, length};
ghost use Rattle.date_lines.specs.Replies.{day_text, fault_text, reply, reply_limit};

use crate::reader::Fault;
use arith::signed::natural_or;
use calendar::{Date, day_of_date};
use decimals::buffer::Buffer;
use decimals::{LINE_FEED, MOST_DIGITS};
use units::Refusal;

// Writes a day number, or that it is refused.
#[tactic(auto, unfolding(crate::specs::Replies::day_text, crate::specs::Replies::refused, decimals::specs::Texts::text))]
fn put_day<const N: usize>(answer: Result<i64, Refusal>, out: &mut Buffer<N>)
    requires { length out.old + reply_limit ≤ N }
    ensures { out.new ≡ out.old ++ day_text answer }
{
    match answer {
        Ok(n) => {
            out.put_decimal(natural_or(n, 0), MOST_DIGITS);
            out.put_byte(LINE_FEED);
        }
        Err(_) => out.put(b"refused 1\n"),
    }
}

// What is wrong with a line.
#[tactic(auto, unfolding(crate::specs::Replies::fault_text, crate::specs::Replies::fault_words, decimals::specs::Texts::text))]
fn fault_line(fault: Fault) -> &'static [u8]
    ensures { result.now ≡ fault_text fault }
{
    match fault {
        Fault::Empty => b"bad line: empty\n",
        Fault::Byte => b"bad line: byte\n",
        Fault::Space => b"bad line: space\n",
        Fault::Large => b"bad line: too large\n",
        Fault::Few => b"bad line: too few\n",
        Fault::Many => b"bad line: too many\n",
    }
}

// Writes the reply to a line.
#[tactic(auto, using(crate::proofs::WrittenReplies::fault_length), unfolding(crate::specs::Replies::reply))]
pub fn put_reply<const N: usize>(said: Result<Date, Fault>, out: &mut Buffer<N>)
    requires { length out.old + reply_limit ≤ N }
    ensures { out.new ≡ out.old ++ reply said }
{
    match said {
        Ok(d) => put_day(day_of_date(d.year, d.month, d.day), out),
        Err(fault) => out.put(fault_line(fault)),
    }
}
