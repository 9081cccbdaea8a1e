// A term's angle and value by the functions that sum a series. For this crate alone.
ghost use Rattle.std.specs.Prelude.{◌≡◌, ◌<◌, ◌≤◌, nat_abs};
ghost use Rattle.units.specs.Units.{a_limit, b_limit, c_limit, t_limit};
ghost use Rattle.cosine.specs.Terms.{term_angle, term_value};
ghost use Rattle.cosine.specs.Machine.Parity.{value_by_parity, InRange};

use crate::TermFigures;
use cosine::parity::{Even, Odd};
use cosine::term::{Prepared, ReducedTerm};
use pairs::{Pair, values};
use units::{Instant, TURN, U};

// The value of a term whose angle is reduced, summed with a term of amplitude 0.
fn value_of(w: ReducedTerm) -> i64
    requires { (nat_abs w.a < a_limit) × (w.odd ≤ 1) × InRange w.v }
    ensures { result ≡ value_by_parity w.odd w.a w.v }
{
    let v = Pair { one: w.v, two: U };
    if w.odd == 0 {
        return values::<Even>(w.a, 0, v);
    }
    values::<Odd>(w.a, 0, v)
}

pub fn figures_of(a: i64, b: u64, c: i64, t: i64) -> TermFigures
    requires { (nat_abs a < a_limit) × (b < b_limit) × (nat_abs c < c_limit) × (nat_abs t ≤ t_limit) }
    ensures { (result.angle ≡ term_angle b c t) × (result.value ≡ term_value a b c t) }
{
    let p = Prepared::at(Instant { ms: t });
    let x = p.angle(b, c);
    let w = p.reduced_term(a, b, c);
    let value = value_of(w);
    TermFigures {
        angle: x % TURN,
        value,
    }
}
