// Two angles at a time: neither lane waits for the other, so the processor works both at once. For the crates above.
#![tactic(auto)]

ghost use Rattle.std.specs.Prelude.{◌≡◌, ◌*◌, ◌<◌, ◌≤◌, pos, nat_abs, ◌+ℤ◌, ◌-ℤ◌};
ghost use Rattle.units.specs.Units.{U, a_limit};
ghost use Rattle.cosine.specs.Machine.Parity.{InRange};

use cosine::parity::{Parity, horner};
use cosine::term::times_cosine;
use cosine::working::square;

// A number for each lane.
#[derive(Clone, Copy)]
pub struct Pair {
    pub one: u64,
    pub two: u64,
}

// U more than the cosines at quarter 0 or 1; the sign of quarters 2 and 3 is on the amplitude.
fn lifted_pair<P: Parity>(v: Pair) -> Pair
    requires { InRange v.one × InRange v.two }
    ensures { (pos result.one ≡ pos U +ℤ P.part (pos v.one -ℤ pos U)) × (pos result.two ≡ pos U +ℤ P.part (pos v.two -ℤ pos U))
        × (result.one ≤ 2 * U) × (result.two ≤ 2 * U) }
{
    let y = Pair {
        one: square(v.one),
        two: square(v.two),
    };
    let h = Pair {
        one: horner::<P>(y.one),
        two: horner::<P>(y.two),
    };
    Pair {
        one: P::lift(v.one, h.one),
        two: P::lift(v.two, h.two),
    }
}

// The sum of two terms' values, both at a quarter of that parity.
pub fn values<P: Parity>(a1: i64, a2: i64, v: Pair) -> i64
    requires { (nat_abs a1 < a_limit) × (nat_abs a2 < a_limit) × InRange v.one × InRange v.two }
    ensures { result ≡ P.value a1 v.one +ℤ P.value a2 v.two }
{
    let c = lifted_pair::<P>(v);
    times_cosine(a1, c.one) + times_cosine(a2, c.two)
}
