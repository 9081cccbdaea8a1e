// The two series by the parity of a quarter: what the even one and the odd one have of their own, and what both are worked by. For this crate and those above.
ghost use Rattle.std.specs.Prelude.{◌≡◌, ℕ, ◌*◌, ◌≤◌, List, ℤ, pos, neg_ℤ, ◌+ℤ◌, ◌-ℤ◌};
ghost use Rattle.units.specs.Units.{U};
ghost use Rattle.cosine.specs.Cosine.{y_of, evens, odds, horner, even_part, odd_part};
ghost use Rattle.cosine.specs.Machine.Parity.{even_value, odd_value, InRange, y_limit};
ghost use Rattle.cosine.specs.Machine.Parities.{AllFit, ValueOf, evens_fit, odds_fit, even_value_is, odd_value_is};

use crate::working::{HALF_UNIT, first, step};
use units::U;

// The divisors of a series, but for the last, whose step is the first.
const FURTHER: usize = 5;

pub trait Parity {
    ghost DIVISORS: { List ℕ };

    // The cosine at the quarter 0 or 1 of a working angle.
    ghost part: { ℤ → ℤ };

    // The value of a term whose angle is reduced.
    ghost value: { ℤ → ℕ → ℤ };

    // The divisors, from the first.
    const DIVISORS: [u64; 6];

    // U more than that cosine, from v and the series h.
    fn lift(v: u64, h: u64) -> u64
        requires { InRange v × (pos h ≡ horner (y_of (pos v -ℤ pos U)) DIVISORS) × (h ≤ U) }
        ensures { (pos result ≡ pos U +ℤ part (pos v -ℤ pos U)) × (result ≤ 2 * U) };

    ghost fit: { AllFit DIVISORS };

    ghost value_is: { ValueOf part value };
}

// An even quarter; the sign of quarter 2 is not in the part.
pub struct Even;

impl Parity for Even {
    ghost DIVISORS = { evens };

    ghost part = { even_part };

    ghost value = { even_value };

    const DIVISORS: [u64; 6] = [2 * 1, 4 * 3, 6 * 5, 8 * 7, 10 * 9, 12 * 11];

    fn lift(_v: u64, h: u64) -> u64 {
        U + h
    }

    ghost fit = { evens_fit };

    ghost value_is = { even_value_is };
}

// An odd quarter, where the cosine is the odd part with its sign changed; the sign of quarter 3 is not in the part.
pub struct Odd;

impl Parity for Odd {
    ghost DIVISORS = { odds };

    ghost part = { λ w. neg_ℤ (odd_part w) };

    ghost value = { odd_value };

    const DIVISORS: [u64; 6] = [2 * 3, 4 * 5, 6 * 7, 8 * 9, 10 * 11, 12 * 13];

    // The odd part is the rounded v*h / U, less h.
    fn lift(v: u64, h: u64) -> u64 {
        U + h - (v * h + HALF_UNIT) / U
    }

    ghost fit = { odds_fit };

    ghost value_is = { odd_value_is };
}

// A series at y, from its last divisor to its first.
pub fn horner<P: Parity>(y: u64) -> u64
    requires { y ≤ y_limit }
    ensures { (pos result ≡ horner (pos y) P.DIVISORS) × (result ≤ U) }
{
    let divisors = P::DIVISORS;
    let mut h = first(y, divisors[FURTHER]);
    for k in (0..FURTHER).rev() {
        h = step(y, h, divisors[k]);
    }
    h
}
