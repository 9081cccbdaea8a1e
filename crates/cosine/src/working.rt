// The working cosine and sine of an angle that is not negative: RULES, "Working cosine and sums". What is public is for this crate and those above.
// The working angle w is held as v = w + U, and a cosine as U more, so that everything up to the answer is a natural number.
ghost use Rattle.std.specs.Prelude.{◌≡◌, ◌*◌, ◌<◌, ◌≤◌, ◌^◌, pos, neg_ℤ, ◌+ℤ◌, ◌-ℤ◌, ◌*ℤ◌};
ghost use Rattle.integers.specs.Division.{rounded, modulo};
ghost use Rattle.units.specs.Units.{U, quarter, angle_step};
ghost use Rattle.cosine.specs.Cosine.{q_of, w_of, y_of, even_part, odd_part, cosine_by, sine_by, cosine, sine};
ghost use Rattle.cosine.specs.Machine.Parity.{InRange, y_limit, divisor_limit};

use crate::parity::{Even, Odd, Parity, horner};
use units::{ANGLE_STEP, QUARTER, U};

// What a quotient by U, and by the quarter, is rounded by.
pub const HALF_UNIT: u64 = U / 2;

const HALF_QUARTER: u64 = QUARTER / 2;

// What makes w of r = x - q*quarter: U steps more, and half a step, by which the quotient is rounded.
const ANGLE_BIAS: u64 = ANGLE_STEP * U + ANGLE_STEP / 2;

// What makes y + 2v of v*v: the square of U, and the half by which the quotient is rounded.
const SQUARE_BIAS: u64 = U * U + HALF_UNIT;

#[derive(Clone, Copy)]
pub struct Trig {
    pub cos: i64,
    pub sin: i64,
}

// q, the rounded number of quarters.
pub fn quarters(x: u64) -> u64
    requires { x < 2 ^ 63 }
    ensures { pos result ≡ q_of quarter (pos x) }
{
    (x + HALF_QUARTER) / QUARTER
}

// v = w + U of the angle x, whose quarter is q.
pub fn biased_angle(x: u64, q: u64) -> u64
    requires { (x < 2 ^ 63) × (pos q ≡ q_of quarter (pos x)) }
    ensures { (pos result ≡ pos U +ℤ w_of quarter angle_step (pos x)) × InRange result }
{
    (x + ANGLE_BIAS - q * QUARTER) / ANGLE_STEP
}

// y of w = v - U, as w*w = v*v + U*U - U (2v).
pub fn square(v: u64) -> u64
    requires { InRange v }
    ensures { (pos result ≡ y_of (pos v -ℤ pos U)) × (result ≤ y_limit) }
{
    (v * v + SQUARE_BIAS) / U - 2 * v
}

// One step of the series: h becomes U less rounded y*h / (U*d).
pub fn step(y: u64, h: u64, d: u64) -> u64
    requires { (y ≤ y_limit) × (h ≤ U) × (0 < d) × (d ≤ divisor_limit) }
    ensures { (pos result ≡ pos U -ℤ rounded (pos y *ℤ pos h) (U * d)) × (result ≤ U) }
{
    U - (y * h + HALF_UNIT * d) / (U * d)
}

// The first step, from h = U: y*h / (U*d) is y/d, which fits 32 bits, where a quotient is quicker.
pub fn first(y: u64, d: u64) -> u64
    requires { (y ≤ y_limit) × (0 < d) × (d ≤ divisor_limit) }
    ensures { (pos result ≡ pos U -ℤ rounded (pos y *ℤ pos U) (U * d)) × (result ≤ U) }
{
    U - ((y + d / 2) as u32 / d as u32) as u64
}

// a - b, as a signed number.
pub fn difference(a: u64, b: u64) -> i64
    requires { (a < 2 ^ 63) × (b < 2 ^ 63) }
    ensures { result ≡ pos a -ℤ pos b }
{
    a as i64 - b as i64
}

// An angle by its quarter k of the turn, and within the quarter by its working angle v and y.
#[derive(Clone, Copy)]
struct Reduced {
    k: u64,
    v: u64,
    y: u64,
    ghost k_in: { k < 4 },
    ghost v_in: { InRange v },
    ghost y_is: { pos y ≡ y_of (pos v -ℤ pos U) },
    ghost y_in: { y ≤ y_limit },
}

impl Reduced {
    fn of(x: u64) -> Reduced
        requires { x < 2 ^ 63 }
        ensures { (result.k ≡ modulo (q_of quarter (pos x)) 4) × (pos result.v ≡ pos U +ℤ w_of quarter angle_step (pos x)) }
    {
        let q = quarters(x);
        let v = biased_angle(x, q);
        Reduced {
            k: q % 4,
            v,
            y: square(v),
        }
    }

    // U more than the cosine at the quarter 0 or 1, by its parity.
    fn lifted<P: Parity>(self) -> u64
        ensures { (pos result ≡ pos U +ℤ P.part (pos self.v -ℤ pos U)) × (result ≤ 2 * U) }
    {
        P::lift(self.v, horner::<P>(self.y))
    }

    // The cosine if the quarter were k. Two quarters on, it has the other sign.
    fn cosine_in(self, k: u64) -> i64
        requires { k < 4 }
        ensures { result ≡ cosine_by neg_ℤ k (even_part (pos self.v -ℤ pos U)) (odd_part (pos self.v -ℤ pos U)) }
    {
        let c = if k % 2 == 0 {
            self.lifted::<Even>()
        } else {
            self.lifted::<Odd>()
        };
        let turned = if k < 2 { c } else { 2 * U - c };
        difference(turned, U)
    }

    fn cosine(self) -> i64
        ensures { result ≡ cosine_by neg_ℤ self.k (even_part (pos self.v -ℤ pos U)) (odd_part (pos self.v -ℤ pos U)) }
    {
        self.cosine_in(self.k)
    }

    // The sine is the cosine three quarters on.
    fn sine(self) -> i64
        ensures { result ≡ sine_by neg_ℤ self.k (even_part (pos self.v -ℤ pos U)) (odd_part (pos self.v -ℤ pos U)) }
    {
        self.cosine_in((self.k + 3) % 4)
    }
}

// With no remainder by the turn.
pub fn cosine_at(x: u64) -> i64
    requires { x < 2 ^ 63 }
    ensures { result ≡ cosine (pos x) }
{
    Reduced::of(x).cosine()
}

pub fn sine_at(x: u64) -> i64
    requires { x < 2 ^ 63 }
    ensures { result ≡ sine (pos x) }
{
    Reduced::of(x).sine()
}

// Both, for the price of one reduction.
pub fn cosine_sine(x: u64) -> Trig
    requires { x < 2 ^ 63 }
    ensures { (result.cos ≡ cosine (pos x)) × (result.sin ≡ sine (pos x)) }
{
    let angle = Reduced::of(x);
    Trig {
        cos: angle.cosine(),
        sin: angle.sine(),
    }
}
