// A row's terms, and the sums over all rows: RULES, "Places". For this crate, and for the tests of inner rules.
ghost use Rattle.std.specs.Prelude.{◌≡◌, ◌≤◌, nat_abs, ◌*ℤ◌};
ghost use Rattle.integers.specs.Division.{rounded};
ghost use Rattle.units.specs.Units.{U, t_limit};
ghost use Rattle.cosine.specs.Cosine.{cosine, sine};
ghost use Rattle.direction.specs.Angles.{units_angle};
ghost use Rattle.nutation_table.specs.Machine.Small.{figure_limit, rate_limit, Small};
ghost use Rattle.nutation.specs.Nutation.{argument_turn, row_angle, coefficient, longitude_term, obliquity_term};
ghost use Rattle.nutation.specs.Machine.Reduced.{At, NutationAt, combined, coefficient_limit};

use crate::moon::arguments_at;
use crate::polynomial::next;
use crate::{ARGUMENT_TURN, Arguments, CENTURY, Nutation};
use arith::muldiv::scale;
use arith::residue::residue;
use cosine::working::{Trig, cosine_sine};
use direction::units_angle;
use nutation_table::{ROW_COUNT, Row, row_at};

// Cosine and sine of the angle of s.
fn trig_of(s: i64) -> Trig
    ensures { (result.cos ≡ cosine (units_angle argument_turn s)) × (result.sin ≡ sine (units_angle argument_turn s)) }
{
    let x = residue(s, ARGUMENT_TURN) as i64;
    cosine_sine(units_angle(x, ARGUMENT_TURN) as u64)
}

// Ten times the first figure and the rounded rate part.
fn coefficient_at(t: i64, first: i64, rate: i64) -> i64
    requires { (nat_abs t ≤ t_limit) × (nat_abs first ≤ figure_limit) × (nat_abs rate ≤ rate_limit) }
    ensures { (result ≡ coefficient t first rate) × (nat_abs result ≤ coefficient_limit) }
{
    next(10 * first, rate, t, CENTURY)
}

// One term: a coefficient times a cosine or a sine w.
fn term(t: i64, first: i64, rate: i64, w: i64) -> i64
    requires { (nat_abs t ≤ t_limit) × (nat_abs first ≤ figure_limit) × (nat_abs rate ≤ rate_limit) × (nat_abs w ≤ U) }
    ensures { result ≡ rounded (coefficient t first rate *ℤ w) U }
{
    scale(coefficient_at(t, first, rate), w)
}

// A row of the table at t milliseconds, with the arguments at t less their whole turns.
#[derive(Clone, Copy)]
struct RowAt {
    t: i64,
    row: Row,
    arguments: Arguments,
    ghost in_limit: { nat_abs t ≤ t_limit },
    ghost small: { Small row },
    ghost at: { At t arguments },
}

impl RowAt {
    // The row's s.
    fn argument(self) -> i64
        ensures { result ≡ combined self.row self.arguments }
    {
        let Row(_, _, _, _, d, m, m1, f, node) = self.row;
        let a = self.arguments;
        d * a.elongation + m * a.sun + m1 * a.moon + f * a.latitude + node * a.node
    }

    // Cosine and sine of the row's angle.
    fn trig(self) -> Trig
        ensures { (result.cos ≡ cosine (row_angle self.t self.row)) × (result.sin ≡ sine (row_angle self.t self.row)) }
    {
        trig_of(self.argument())
    }

    // The row's terms, in longitude and in obliquity.
    fn terms(self) -> Nutation
        ensures { (result.longitude ≡ longitude_term self.t self.row) × (result.obliquity ≡ obliquity_term self.t self.row) }
    {
        let Row(psi, psi_rate, eps, eps_rate, ..) = self.row;
        let w = self.trig();
        Nutation {
            longitude: term(self.t, psi, psi_rate, w.sin),
            obliquity: term(self.t, eps, eps_rate, w.cos),
        }
    }
}

// The nutation at t milliseconds: the terms of the rows in their order.
pub fn nutation_at(t: i64) -> Nutation
    requires { nat_abs t ≤ t_limit }
    ensures { NutationAt t result }
{
    let arguments = arguments_at(t);
    let mut sum = Nutation {
        longitude: 0,
        obliquity: 0,
    };
    for i in 0..ROW_COUNT {
        let row = row_at(i);
        let n = RowAt { t, row, arguments }.terms();
        sum.longitude += n.longitude;
        sum.obliquity += n.obliquity;
    }
    sum
}
