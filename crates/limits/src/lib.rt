// The limits of a series, each judged once: RULES, "Series, as text and packed". The tests take magnitudes and the tally of the part
// so far, and no tally can make them wrap: a reader of texts may hold any numbers.
#![tactic(auto)]

pub mod wide;

ghost use Rattle.std.specs.Prelude.{◌≡◌, true, ◌<◌, ◌≤◌, pos};
ghost use Rattle.units.specs.Units.{a_limit};
ghost use Rattle.limits.specs.Limits.{factor, weight, no_tally, opened, added, count_fits, a_fits, b_fits, c_fits};
ghost use Rattle.limits.specs.Limits.{numbers_fit, total_fits, coarse_fits, term_may_come, term_refusal, refused_number};
ghost use Rattle.limits.specs.Machine.Magnitudes.{factor_limit, unsigned};
ghost use Rattle.limits.specs.Machine.Widened.{start};

use units::{
    A_LIMIT, B_LIMIT, BLOCK_LIMIT, C_LIMIT, COARSE_BASE, COARSE_LIMIT, COARSE_SHARE, COARSE_TAU,
    Fault, POWERS, SERIES_LIMIT, TOTAL_LIMIT, U,
};

// A term of a series, in parts: a times the cosine of b + c tau.
#[derive(Clone, Copy)]
pub struct Term {
    pub a: i64,
    pub b: u64,
    pub c: i64,
}

// The sizes of the numbers of a term, which are what the limits ask for: |a|, b and |c|.
#[derive(Clone, Copy)]
pub struct Sizes {
    pub a: u64,
    pub b: u64,
    pub c: u64,
}

// The part of a series so far: the terms that its counts declare, the total |a| of the block, and the coarseness sum of the
// coordinate.
#[derive(Clone, Copy)]
pub struct Tally {
    pub terms: u64,
    pub total: u64,
    pub coarse: u64,
}

// The factor of each power in the coarseness sum. A constant may not call `pow`.
const SQUARE: u64 = COARSE_TAU * COARSE_TAU;

const FACTORS: [u64; POWERS as usize] = [
    1,
    COARSE_TAU,
    SQUARE,
    SQUARE * COARSE_TAU,
    SQUARE * SQUARE,
    SQUARE * SQUARE * COARSE_TAU,
];

// The factor of block number k, counted from 0.
pub fn block_factor(k: u64) -> u64
    ensures { (result ≡ factor k) × (result ≤ factor_limit) }
{
    let power = (k % POWERS) as usize;
    FACTORS[power]
}

// A coarseness sum before the terms of block k: at power 0 a new coordinate begins.
#[tactic(auto, unfolding(crate::specs::Machine::Widened::start))]
fn begin(base: u64, k: u64, sum: u64) -> u64
    ensures { result ≡ start base k sum }
{
    if k % POWERS == 0 { base } else { sum }
}

// The numbers of a term, here |a|, b and |c|, are within their limits.
#[tactic(auto, unfolding(crate::specs::Limits::a_fits))]
pub fn a_fits(a: u64) -> bool
    ensures { result ≡ a_fits (pos a) }
{
    a < A_LIMIT
}

#[tactic(auto, unfolding(crate::specs::Limits::b_fits))]
pub fn b_fits(b: u64) -> bool
    ensures { result ≡ b_fits b }
{
    b < B_LIMIT
}

#[tactic(auto, unfolding(crate::specs::Limits::c_fits))]
pub fn c_fits(c: u64) -> bool
    ensures { result ≡ c_fits (pos c) }
{
    c < C_LIMIT
}

impl Sizes {
    // All three are.
    #[tactic(auto, unfolding(crate::specs::Limits::numbers_fit))]
    fn fit(self) -> bool
        ensures { result ≡ numbers_fit (unsigned self.a self.b self.c) }
    {
        a_fits(self.a) && b_fits(self.b) && c_fits(self.c)
    }

    // What a term adds to the coarseness sum, in a block with factor f.
    #[tactic(auto, unfolding(crate::specs::Limits::weight, crate::specs::Limits::constant))]
    fn weight(self, f: u64) -> u64
        requires { (f ≤ factor_limit) × (self.a < a_limit) }
        ensures { result ≡ weight f (pos self.a) self.b (pos self.c) }
    {
        if self.b == 0 && self.c == 0 {
            0
        } else {
            f * (COARSE_SHARE * self.a + U)
        }
    }
}

impl Tally {
    // Before the first count.
    pub fn empty() -> Tally
        ensures { result ≡ no_tally }
    {
        Tally {
            terms: 0,
            total: 0,
            coarse: COARSE_BASE,
        }
    }

    // The count n of a block may come.
    #[tactic(auto, unfolding(crate::specs::Limits::count_fits))]
    pub fn count_fits(self, n: u64) -> bool
        ensures { result ≡ count_fits self n }
    {
        n <= BLOCK_LIMIT && self.terms.saturating_add(n) <= SERIES_LIMIT
    }

    // With the count n of block k, which may come.
    #[tactic(auto, using(crate::proofs::Passing::count_passed), unfolding(crate::specs::Limits::opened, crate::specs::Machine::Widened::start))]
    pub fn open_block(self, k: u64, n: u64) -> Tally
        requires { count_fits self n ≡ true }
        ensures { result ≡ opened k n self }
    {
        Tally {
            terms: self.terms + n,
            total: 0,
            coarse: begin(COARSE_BASE, k, self.coarse),
        }
    }

    // With this |a| the block's total is within its limit.
    #[tactic(auto, unfolding(crate::specs::Limits::total_fits))]
    pub fn total_fits(self, a: u64) -> bool
        ensures { result ≡ total_fits self (pos a) }
    {
        self.total.saturating_add(a) <= TOTAL_LIMIT
    }

    // With this term, in a block with factor f, the coordinate is not too coarse.
    #[tactic(auto, unfolding(crate::specs::Limits::coarse_fits))]
    pub fn coarse_fits(self, f: u64, term: Sizes) -> bool
        requires { (f ≤ factor_limit) × (term.a < a_limit) }
        ensures { result ≡ coarse_fits f self (pos term.a) term.b (pos term.c) }
    {
        self.coarse.saturating_add(term.weight(f)) <= COARSE_LIMIT
    }

    // All of that: a term may come, in a block with factor f.
    #[tactic(auto, unfolding(crate::specs::Limits::term_may_come, crate::specs::Limits::a_fits))]
    pub fn term_may_come(self, f: u64, term: Sizes) -> bool
        requires { f ≤ factor_limit }
        ensures { result ≡ term_may_come f self (unsigned term.a term.b term.c) }
    {
        a_fits(term.a)
            && self.total_fits(term.a)
            && b_fits(term.b)
            && c_fits(term.c)
            && self.coarse_fits(f, term)
    }

    // Judges a whole term: its numbers, then the total, then the coarseness.
    #[tactic(auto, unfolding(crate::specs::Limits::term_refusal, crate::specs::Limits::numbers_fit, crate::specs::Limits::a_fits))]
    pub fn judge_term(self, f: u64, term: Sizes) -> Result<(), Fault>
        requires { f ≤ factor_limit }
        ensures { refused_number result ≡ term_refusal f self (unsigned term.a term.b term.c) }
    {
        if !term.fit() {
            return Err(Fault::OverLimit);
        }
        if !self.total_fits(term.a) {
            return Err(Fault::TotalOverLimit);
        }
        if !self.coarse_fits(f, term) {
            return Err(Fault::TooCoarse);
        }
        Ok(())
    }

    // With one term more, which may come.
    #[tactic(auto, using(crate::proofs::Passing::may_come_good), unfolding(crate::specs::Limits::added))]
    pub fn add_term(self, f: u64, term: Sizes) -> Tally
        requires { (f ≤ factor_limit) × (term_may_come f self (unsigned term.a term.b term.c) ≡ true) }
        ensures { result ≡ added f self (unsigned term.a term.b term.c) }
    {
        Tally {
            total: self.total + term.a,
            coarse: self.coarse + term.weight(f),
            ..self
        }
    }
}
