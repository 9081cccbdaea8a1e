// The judgement of a line's numbers: refusals 4, 5 and 6. For the readers, which give the factor of a block. The limits are those of every series
// (crate limits); a text adds that b has no minus.
ghost use Rattle.std.specs.Prelude.{◌≡◌, ◌≤◌};
ghost use Rattle.limits.specs.Limits.{refused_number};
ghost use Rattle.limits.specs.Machine.Magnitudes.{factor_limit};
ghost use Rattle.series_lines.specs.Judge.{term_on_line, count_refusal, term_line_refusal};

use crate::Line;
use limits::Tally;
use units::{BLOCK_COUNT, Fault};

// Judges a count n after so many others.
#[tactic(auto, using(std::proofs::lemmas::Bool::Decides::nat_tests), unfolding(crate::specs::Judge::count_refusal))]
pub fn count_refusal(blocks: u64, s: Tally, n: u64) -> Result<(), Fault>
    ensures { refused_number result ≡ count_refusal blocks s n }
{
    if BLOCK_COUNT <= blocks {
        return Err(Fault::ByteAfterEnd);
    }
    if !s.count_fits(n) {
        return Err(Fault::OverLimit);
    }
    Ok(())
}

// Judges the term of a line, in a block with factor f.
pub fn term_line_refusal(f: u64, s: Tally, l: Line) -> Result<(), Fault>
    requires { f ≤ factor_limit }
    ensures { refused_number result ≡ term_line_refusal f s l.minusb (term_on_line l) }
{
    if l.minusb != 0 {
        return Err(Fault::OverLimit);
    }
    s.judge_term(f, l.sizes())
}
