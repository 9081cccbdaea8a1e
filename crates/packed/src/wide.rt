// Whether a series is good for the wide range: RULES, "The wide range". It is asked of the tallies after its blocks when all are read, so that the
// walk has nothing more to hold while it reads terms. For this crate alone.
ghost use Rattle.std.specs.Prelude.{◌≡◌};
ghost use Rattle.limits.specs.Limits.{no_tally};
ghost use Rattle.limits.specs.Machine.Widened.{no_wide};
ghost use Rattle.packed.specs.Machine.Tallies.{wide_rows, Tallied};

use crate::table::END_ROWS;
use limits::Tally;
use limits::wide::{empty_wide, widen};

// The tallies are those after each block.
pub fn is_wide(tallies: &[Tally; END_ROWS]) -> bool
    requires { Tallied tallies.now }
    ensures { result ≡ wide_rows 0 no_wide no_tally tallies.now }
{
    let mut wide = empty_wide();
    let mut before = Tally::empty();
    for (k, after) in tallies.iter().enumerate() {
        wide = widen(k as u64, wide, before, *after);
        before = *after;
    }
    wide.is_some()
}
