// The judgement of a record's numbers: the order and the count of headings, running numbers, and the tally with the blocks that have no heading.
// For the steps of the crate published, which judge a whole record and go on only with one that is not refused.
ghost use Rattle.std.specs.Prelude.{◌≡◌, true, ◌+◌, ◌-◌, ◌<◌, ◌≤◌, eqb, MatchResult};
ghost use Rattle.units.specs.Units.{powers, block_count};
ghost use Rattle.units.specs.Refusals.{fault_number};
ghost use Rattle.limits.specs.Limits.{count_fits};
ghost use Rattle.published_headings.specs.Judge.{coordinate_count, block_of, in_order, heading_refusal, skipped};
ghost use Rattle.published_headings.specs.Machine.Judged.{MayCome};

use limits::Tally;
use units::{BLOCK_COUNT, Fault, POWERS};

// The version of the theory, and longitude, latitude and radius; specs/Judge.antt has the same names.
const THEORY_VERSION: u64 = 4;

const COORDINATE_COUNT: u64 = 3;

// What a heading says: the version of the theory, a coordinate (from 1), a power (from 0), and how many terms its block has.
#[derive(Clone, Copy)]
pub struct Heading {
    pub version: u64,
    pub coordinate: u64,
    pub power: u64,
    pub count: u64,
}

impl Heading {
    // The block, counted from 0, of a heading that has both.
    #[tactic(auto, unfolding(crate::specs::Judge::block_of))]
    pub fn block(self) -> u64
        requires { (1 ≤ self.coordinate) × (self.coordinate ≤ coordinate_count) × (self.power < powers) }
        ensures { result ≡ block_of self.coordinate self.power }
    {
        POWERS * (self.coordinate - 1) + self.power
    }

    // A heading is of the theory's version, of a block, and comes after `done` blocks in its order.
    #[tactic(auto, unfolding(crate::specs::Judge::in_order, crate::specs::Judge::block_of))]
    fn in_order(self, done: u64) -> bool
        ensures { result ≡ in_order done self.version self.coordinate self.power }
    {
        self.version == THEORY_VERSION
            && 1 <= self.coordinate
            && self.coordinate <= COORDINATE_COUNT
            && self.power < POWERS
            && done <= self.block()
    }

    // The block of a heading that may come after `done` blocks and a tally.
    #[tactic(auto, unfolding(crate::specs::Judge::heading_refusal))]
    pub fn judge(self, done: u64, tally: Tally) -> Result<u64, Fault>
        ensures { let refusal = heading_refusal done tally self.version self.coordinate self.power self.count in
            MatchResult result (λ k. (refusal ≡ 0) × MayCome done tally self.coordinate self.power self.count k) (λ fault. fault_number fault ≡ refusal) }
    {
        if !self.in_order(done) {
            return Err(Fault::BadHeading);
        }
        if !tally.count_fits(self.count) {
            return Err(Fault::OverLimit);
        }
        Ok(self.block())
    }
}

// The tally with the blocks from k up to `end`, which have no terms.
pub fn skip_blocks(k: u64, end: u64, tally: Tally) -> Tally
    requires { count_fits tally 0 ≡ true }
    ensures { result ≡ skipped k (end - k) tally }
{
    let mut s = tally;
    for i in k..end {
        s = s.open_block(i, 0);
    }
    s
}

// The number of blocks that never came.
pub fn missing_blocks(blocks: u64) -> u64
    ensures { result ≡ block_count - blocks }
{
    BLOCK_COUNT.saturating_sub(blocks)
}

// The running number of a record comes after the last one.
pub fn follows(last: u64, number: u64) -> bool
    ensures { result ≡ eqb number (last + 1) }
{
    number.checked_sub(1) == Some(last)
}
