// Mending a damaged series text (RULES, "Mending"): the clean text and the list of changes, one pass that counts and one that writes.
// Blanks are dropped before a line feed and stay before any other byte, tabs as spaces, so both passes hold a run of blanks back until they
// know what follows it.
#![tactic(auto)]

mod counting;
mod writing;

ghost use Rattle.std.specs.Prelude.{◌≡◌, ◌+◌, ◌^◌, ◌<◌};
ghost use Rattle.mending.specs.Rule.{blank};
ghost use Rattle.mending.specs.Answer.{mending, mending_out, mending_list};
ghost use Rattle.mending.specs.Machine.Passes.{next_byte};

use counting::{Counts, count};
use series_lines::Outcome;
use text::judge;
use units::Refusal;
use writing::write;

// The numbers of a change in the list; specs/Rule.antt has the same name.
const CHANGE_NUMBERS: usize = 2;

// A text that was mended: its length, how many changes it took, and what the reader of texts says of it with room enough.
#[derive(Clone, Copy)]
pub struct Clean {
    pub length: usize,
    pub changes: usize,
    pub verdict: Outcome,
}

// The bytes that are dropped before a line feed.
#[tactic(auto, using(std::proofs::lemmas::Bool::Decides::nat_tests), unfolding(crate::specs::Rule::blank))]
fn is_blank(byte: u8) -> bool
    ensures { result ≡ blank byte }
{
    matches!(byte, b'\t' | b'\r' | b' ')
}

// The byte to look at after byte i: the next, or the first that is not done yet.
#[tactic(auto, using(std::proofs::lemmas::Bool::Decides::nat_tests), unfolding(crate::specs::Machine::Passes::next_byte))]
fn next_byte(from: usize, i: usize) -> usize
    requires { i + 1 < 2 ^ 64 }
    ensures { result ≡ next_byte from i }
{
    from.max(i + 1)
}

// Mends a text: out holds the mended text, and list an offset and a kind for each change; where either is too short, both stay as they were.
pub fn mend(text: &[u8], out: &mut [u8], list: &mut [u64]) -> Result<Clean, Refusal>
    ensures { (result ≡ mending text.now out.old list.old)
        × (out.new ≡ mending_out text.now out.old list.old)
        × (list.new ≡ mending_list text.now out.old list.old) }
{
    let Counts { length, changes } = count(text);
    if out.len() < length {
        return Err(Refusal::NoRoom(length));
    }
    if list.len() / CHANGE_NUMBERS < changes {
        return Err(Refusal::NoRoom(changes));
    }
    write(text, out, list);
    let verdict = judge(&out[..length]);
    Ok(Clean {
        length,
        changes,
        verdict,
    })
}
