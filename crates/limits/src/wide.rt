// Whether a series is good for the wide range, found block by block from the tallies of the walk that judges it: RULES, "The wide range". For the
// crates above.
ghost use Rattle.std.specs.Prelude.{◌≡◌, ◌||◌};
ghost use Rattle.units.specs.Units.{near as near_at};
ghost use Rattle.limits.specs.Machine.Widened.{no_wide, judged, widened, Grown};

use crate::{Tally, begin, block_factor};
use units::{COARSE_BASE, COARSE_LIMIT, Instant, WIDE_BASE, WIDE_TOTAL, near};

// Before the first block. What the blocks so far make of it is the sum of the coordinate by the wide rule, or nothing after one that does not keep
// to that rule.
pub fn empty_wide() -> Option<u64>
    ensures { result ≡ no_wide }
{
    Some(WIDE_BASE)
}

// After a block of this total, with which the coordinate's sum is this.
#[tactic(auto, unfolding(crate::specs::Machine::Widened::judged))]
fn judge_wide(sum: u64, total: u64) -> Option<u64>
    ensures { result ≡ judged sum total }
{
    if total <= WIDE_TOTAL && sum <= COARSE_LIMIT {
        Some(sum)
    } else {
        None
    }
}

// With block k more, from the tally before its count and the one after its terms. What it has added to the coarseness sum has the factor of its
// power once; the wide rule has that factor twice.
#[tactic(auto, using(crate::proofs::WideSums::held_small), unfolding(crate::specs::Machine::Widened::widened))]
pub fn widen(k: u64, wide: Option<u64>, before: Tally, after: Tally) -> Option<u64>
    requires { Grown k wide before after }
    ensures { result ≡ widened k wide before after }
{
    let held = begin(WIDE_BASE, k, wide?);
    let from = begin(COARSE_BASE, k, before.coarse);
    let f = block_factor(k);
    judge_wide(held + f * (after.coarse - from), after.total)
}

// Whether a series may be asked at an instant, by whether it is good for the wide range; of two series, whether both are.
pub fn may_ask(wide: bool, t: Instant) -> bool
    ensures { result ≡ (near_at t.ms || wide) }
{
    near(t) || wide
}
