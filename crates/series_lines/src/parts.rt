// The digits after a decimal's point, taken in a run: how far it goes, and the digits in it. For the readers, whose loops hold only what a digit
// changes.
ghost use Rattle.std.specs.Prelude.{◌≡◌};
ghost use Rattle.series_lines.specs.Machine.Parts.{run_end, DigitRun};

use crate::Line;
use crate::lexer::{SPOT_DONE, SPOT_LAST, VALUE_LIMIT};
use crate::passed::Passed;

// How far a run may go: with a minus the last part may be refused.
#[tactic(auto, using(std::proofs::lemmas::Bool::Decides::nat_tests), unfolding(crate::specs::Machine::Parts::run_end))]
fn run_end(minus: u64) -> u64
    ensures { result ≡ run_end minus }
{
    if minus == 0 { SPOT_DONE } else { SPOT_LAST }
}

// The digits that stand from an index on, as far as a run of line l goes: the value with them, and the index after them.
#[inline(always)]
pub fn take_digits(l: Line, text: &[u8], from: usize) -> Passed<u64>
    ensures { DigitRun text.now from l.spot l.minus l.value result.next result.state }
{
    let most = run_end(l.minus).saturating_sub(l.spot) as usize;
    let stop = text.len().min(from.saturating_add(most));
    let mut value = l.value;
    let Some(run) = text.get(from..stop) else {
        return Passed {
            state: value,
            next: from,
        };
    };
    for (n, byte) in run.iter().enumerate() {
        if VALUE_LIMIT <= value || !byte.is_ascii_digit() {
            return Passed {
                state: value,
                next: from + n,
            };
        }
        value = 10 * value + u64::from(*byte - b'0');
    }
    Passed {
        state: value,
        next: stop,
    }
}
