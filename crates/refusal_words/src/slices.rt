// A refusal in words, written into a lent slice of any length. For callers whose room has a length known at run time only.
ghost use Rattle.std.specs.Prelude.{◌+◌, ◌≤◌, length};
ghost use Rattle.decimals.specs.Writing.{Put};
ghost use Rattle.refusal_words.specs.Words.{refusal_text, refusal_most};

use crate::REFUSAL_MOST;
use decimals::buffer::Buffer;
use units::Refusal;

// The same line from `at` on; the answer is the place after it, and the other bytes stay.
pub fn put_refusal(refusal: Refusal, out: &mut [u8], at: usize) -> usize
    requires { at + refusal_most ≤ length out.old }
    ensures { Put out.old at (refusal_text refusal) result out.new }
{
    let mut line = Buffer::<REFUSAL_MOST>::new();
    crate::put_refusal(refusal, &mut line);
    line.put_into(out, at)
}
