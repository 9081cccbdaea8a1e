// A term of a series at an instant: its angle, its value: RULES, "Working cosine and sums". What is public is for the crates above.
// c t is divided by a tick modulo the turn, so that no product passes 64 bits.
ghost use Rattle.std.specs.Prelude.{◌≡◌, ◌+◌, ◌*◌, ◌/◌, ◌%◌, ◌<◌, ◌≤◌, ◌^◌, pos, neg_ℤ, nat_abs, ◌+ℤ◌, ◌-ℤ◌, ◌*ℤ◌};
ghost use Rattle.integers.specs.Division.{rounded, modulo};
ghost use Rattle.units.specs.Units.{U, turn, t_limit, a_limit, b_limit, c_limit};
ghost use Rattle.cosine.specs.Machine.Parity.{value_by_parity, InRange};
ghost use Rattle.cosine.specs.Machine.Prepared.{tick, cut, cuts, base, top_digit, step_limit, three_steps, combined_limit, Times, Ready};
ghost use Rattle.cosine.specs.Terms.{term_angle, term_value};

use crate::working::{HALF_UNIT, biased_angle, difference, quarters};
use units::{A_LIMIT, ANGLE_PER_PART, Instant, MILLENNIUM, T_LIMIT, TAU_LIMIT, TURN, U};

// A millennium by the units of angle in a part, and half of that: specs/Machine/Prepared.antt has these, and all down to BIAS_STEP.
const TICK: u64 = MILLENNIUM / ANGLE_PER_PART;

const HALF_TICK: u64 = TICK / 2;

// A divisor of the turn, and how often the turn has it.
pub const CUT: u64 = 9367192;

pub const CUTS: u64 = TURN / CUT;

// The base of the two digits of c, 2^29, and what c is raised by, 2^57.
const BASE: u64 = 536870912;

const HALF_BASE: u64 = BASE / 2;

const C_BIAS: u64 = HALF_BASE * BASE;

// The greatest factor of one step, and the last step to the second digit's place and from there to C_BIAS.
const STEP_LIMIT: u64 = 256;

const THREE_STEPS: u64 = STEP_LIMIT * STEP_LIMIT * STEP_LIMIT;

const BASE_STEP: u64 = BASE / THREE_STEPS;

const BIAS_STEP: u64 = HALF_BASE / THREE_STEPS;

// t is raised by T_LIMIT, which is TAU_LIMIT times T: by so much is its quotient by a tick too great. A turn keeps it from 0 on.
const T_BIAS: u64 = TURN - ANGLE_PER_PART * TAU_LIMIT;

// What tick q + r is taken from, so that its opposite and half a tick more come out: a turn of ticks, and half a tick.
const REST_Q: u64 = TURN - 1;

const REST_R: u64 = TICK + HALF_TICK;

// An amplitude is raised by A_LIMIT; its quotient by U is so much too great.
const A_BIAS: u64 = A_LIMIT / U;

// tick (cut h + l) + r.
#[derive(Clone, Copy)]
pub struct ByCuts {
    pub h: u64,
    pub l: u64,
    pub r: u64,
}

// What is worked out once for an instant: specs/Machine/Prepared.antt says of what number each figure is.
#[derive(Clone, Copy)]
pub struct Prepared {
    pub t: i64,
    pub place_0: ByCuts,
    pub place_1: ByCuts,
    pub rest: ByCuts,
    pub ghost ready: { ∥ Ready t place_0 place_1 rest ∥₁ },
}

// tick q + r.
#[derive(Clone, Copy)]
struct ByTick {
    pub q: u64,
    pub r: u64,
}

// specs/Machine/Parity.antt says what a term's value is of these. The parity is a number and not an enum: it is counted with, so that nothing jumps on it.
#[derive(Clone, Copy)]
pub struct ReducedTerm {
    pub a: i64,
    pub v: u64,
    pub odd: u64,
}

// x + k, which is not negative.
fn biased(x: i64, k: u64) -> u64
    requires { (nat_abs x ≤ k) × (k < 2 ^ 62) }
    ensures { pos result ≡ x +ℤ pos k }
{
    (x + k as i64) as u64
}

impl ByTick {
    // g times as much, brought below a tick and a turn again.
    fn times(self, g: u64) -> ByTick
        requires { (g ≤ step_limit) × (self.q < turn) × (self.r < tick) }
        ensures { Times g self.q self.r result }
    {
        let s = g * self.r;
        ByTick {
            q: (g * self.q + s / TICK) % TURN,
            r: s % TICK,
        }
    }

    // The same for a factor of four steps, g times 2^24.
    fn times_far(self, g: u64) -> ByTick
        requires { (g ≤ step_limit) × (self.q < turn) × (self.r < tick) }
        ensures { Times (three_steps * g) self.q self.r result }
    {
        let a = self.times(STEP_LIMIT);
        let b = a.times(STEP_LIMIT);
        let c = b.times(STEP_LIMIT);
        c.times(g)
    }

    // The quotient by cuts.
    fn by_cuts(self) -> ByCuts
        ensures { result ≡ record { h = self.q / cut; l = self.q % cut; r = self.r } }
    {
        ByCuts {
            h: self.q / CUT,
            l: self.q % CUT,
            r: self.r,
        }
    }
}

// The sum of two products and a third number.
fn combined(g0: u64, g1: u64, x0: u64, x1: u64, x2: u64) -> u64
    requires { (g0 < base) × (g1 ≤ top_digit) × (x0 < cuts) × (x1 < cuts) × (x2 < cuts) }
    ensures { (result ≡ g0 * x0 + g1 * x1 + x2) × (result < combined_limit) }
{
    g0 * x0 + g1 * x1 + x2
}

// a (c - U) / U rounded, for a cosine c that is U too great; a is split at U, and raised until the end.
pub fn times_cosine(a: i64, c: u64) -> i64
    requires { (nat_abs a < a_limit) × (c ≤ 2 * U) }
    ensures { result ≡ rounded (a *ℤ (pos c -ℤ pos U)) U }
{
    let m = biased(a, A_LIMIT);
    let x = m / U * c + (m % U * c + HALF_UNIT) / U;
    difference(x + A_LIMIT, A_BIAS * c + m)
}

// The amplitude with the sign of the quarter k. Both values are cheap, so that the compiler chooses one without a jump.
fn signed_amplitude(a: i64, k: u64) -> i64
    requires { nat_abs a < a_limit }
    ensures { (k < 2 → result ≡ a) × (2 ≤ k → result ≡ neg_ℤ a) × (nat_abs result ≡ nat_abs a) }
{
    if k < 2 { a } else { -a }
}

impl Prepared {
    // Once for an instant.
    pub fn at(at: Instant) -> Prepared
        requires { nat_abs at.ms ≤ t_limit }
        ensures { result.t ≡ at.ms }
    {
        let t = at.ms;
        let n = biased(t, T_LIMIT);
        let place_0 = ByTick {
            q: (T_BIAS + n / TICK) % TURN,
            r: n % TICK,
        };
        let place_1 = place_0.times_far(BASE_STEP);
        let raised = place_1.times_far(BIAS_STEP);
        let rest = ByTick {
            q: REST_Q - raised.q,
            r: REST_R - raised.r,
        };
        Prepared {
            t,
            place_0: place_0.by_cuts(),
            place_1: place_1.by_cuts(),
            rest: rest.by_cuts(),
        }
    }

    // A term's angle, but for whole turns.
    pub fn angle(self, b: u64, c: i64) -> u64
        requires { (b < b_limit) × (nat_abs c < c_limit) }
        ensures { (modulo (pos result) turn ≡ term_angle b c self.t) × (result < 2 ^ 63) }
    {
        let d = biased(c, C_BIAS);
        let g0 = d % BASE;
        let g1 = d / BASE;
        let h = combined(g0, g1, self.place_0.h, self.place_1.h, self.rest.h);
        let l = combined(g0, g1, self.place_0.l, self.place_1.l, self.rest.l);
        let r = combined(g0, g1, self.place_0.r, self.place_1.r, self.rest.r);
        h % CUTS * CUT + l + r / TICK + ANGLE_PER_PART * b
    }

    // A term with its angle reduced. Nothing here jumps on the quarter, which is as good as random from term to term.
    pub fn reduced_term(self, a: i64, b: u64, c: i64) -> ReducedTerm
        requires { (nat_abs a < a_limit) × (b < b_limit) × (nat_abs c < c_limit) }
        ensures { (value_by_parity result.odd result.a result.v ≡ term_value a b c self.t) × (nat_abs result.a ≡ nat_abs a)
            × (result.odd ≤ 1) × InRange result.v }
    {
        let x = self.angle(b, c);
        let q = quarters(x);
        ReducedTerm {
            a: signed_amplitude(a, q % 4),
            v: biased_angle(x, q),
            odd: q % 2,
        }
    }
}
