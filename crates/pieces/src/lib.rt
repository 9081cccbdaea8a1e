// The sum of a block of a term table, in pieces of up to 128 terms. For the crates above. The angles of a piece are worked out first, and each term is put
// into one of two tables by the parity of its quarter; then each table is summed. So no jump hangs on a quarter, which is as good as
// random from term to term. A table has one place more than a piece has terms: a term of amplitude 0 stands past the last one, for a
// last pair to end with.
#![tactic(auto)]

ghost use Rattle.std.specs.Prelude.{◌≡◌, ◌+◌, ◌-◌, ◌≤◌, ◌<◌};
ghost use Rattle.units.specs.Units.{series_limit};
ghost use Rattle.packed.specs.Machine.Table.{term_at, terms_at};
ghost use Rattle.limits.specs.Allowed.{TermFits, BlockFits};
ghost use Rattle.pieces.specs.Sums.{block_sum};
ghost use Rattle.pieces.specs.Machine.Parted.{piece_limit, room, half_sum, WorkedFor, Piece, Rooms, PutInBoth, Half, Closed, Parted};

use cosine::parity::{Even, Odd, Parity};
use cosine::term::{Prepared, ReducedTerm};
use packed::table::Table;
use packed_numbers::quick::PackedTerm;
use packed_numbers::unfold_number;
use pairs::{Pair, values};
use units::U;

// The terms of a piece are at most so many; a table has one place more.
const PIECE_LIMIT: usize = 128;

const ROOM: usize = PIECE_LIMIT + 1;

// A term whose angle is reduced, in the table of its parity: cosine/specs/Machine/Parity.antt says what its value is of a and v.
#[derive(Clone, Copy)]
pub struct Placed {
    pub a: i64,
    pub v: u64,
}

type Side = [Placed; ROOM];

// How many terms each table has. Apart from the tables, so that the counts stay in registers.
#[derive(Clone, Copy)]
pub struct Counts {
    pub evens: usize,
    pub odds: usize,
}

// Puts a term at the next free place of both tables; only the count of the one that it belongs to moves on.
fn put_term(w: ReducedTerm, n: Counts, evens: &mut Side, odds: &mut Side) -> Counts
    requires { (w.odd ≤ 1) × (n.evens < room) × (n.odds < room) }
    ensures { PutInBoth w n evens.old odds.old evens.new odds.new result }
{
    let odd = w.odd as usize;
    let placed = Placed { a: w.a, v: w.v };
    evens[n.evens] = placed;
    odds[n.odds] = placed;
    Counts {
        evens: n.evens + (1 - odd),
        odds: n.odds + odd,
    }
}

// The term at place i of the table, with its angle worked out.
fn worked_at(p: Prepared, table: &Table, i: usize) -> ReducedTerm
    requires { (i < series_limit) × TermFits (term_at table.now i) }
    ensures { WorkedFor p.t (term_at table.now i) result }
{
    let PackedTerm { a, b, c } = table.term(i);
    p.reduced_term(unfold_number(a), b, unfold_number(c))
}

// Parts the terms from place from up to place to. Two places and not a slice: contracts tell the terms of a table by their places in it.
fn part_terms(
    p: Prepared,
    table: &Table,
    from: usize,
    to: usize,
    evens: &mut Side,
    odds: &mut Side,
) -> Counts
    requires { Piece table.now from to × Rooms evens.old odds.old }
    ensures { Parted p.t (terms_at table.now from (to - from)) evens.new odds.new result }
{
    let mut n = Counts { evens: 0, odds: 0 };
    for i in from..to {
        n = put_term(worked_at(p, table, i), n, evens, odds);
    }
    let none = ReducedTerm { a: 0, v: U, odd: 0 };
    put_term(none, n, evens, odds);
    n
}

// The sum of a table with the two terms from place i.
fn two_more<P: Parity>(half: &Side, i: usize, sum: i64) -> i64
    requires { Half P.value half.now (i + 2) × (sum ≡ half_sum P.value half.now i) }
    ensures { result ≡ half_sum P.value half.now (i + 2) }
{
    let one = half[i];
    let two = half[i + 1];
    let v = Pair {
        one: one.v,
        two: two.v,
    };
    sum + values::<P>(one.a, two.a, v)
}

// The sum of a table of n terms.
fn sum_half<P: Parity>(half: &Side, n: usize) -> i64
    requires { Closed P.value half.now n }
    ensures { result ≡ half_sum P.value half.now n }
{
    let mut sum: i64 = 0;
    for i in (0..n).step_by(2) {
        sum = two_more::<P>(half, i, sum);
    }
    sum
}

// The sum of the terms of a piece, from place from up to place to. The tables are lent.
fn sum_piece(
    p: Prepared,
    table: &Table,
    from: usize,
    to: usize,
    evens: &mut Side,
    odds: &mut Side,
) -> i64
    requires { Piece table.now from to × Rooms evens.old odds.old }
    ensures { (result ≡ block_sum p.t (terms_at table.now from (to - from)))
        × Rooms evens.new odds.new }
{
    let n = part_terms(p, table, from, to, evens, odds);
    let even = sum_half::<Even>(evens, n.evens);
    let odd = sum_half::<Odd>(odds, n.odds);
    even + odd
}

// The sum of the terms from place from up to place to.
pub fn sum_terms(p: Prepared, table: &Table, from: usize, to: usize) -> i64
    requires { (from ≤ to) × (to ≤ series_limit) × BlockFits (terms_at table.now from (to - from)) }
    ensures { result ≡ block_sum p.t (terms_at table.now from (to - from)) }
{
    let mut evens = [Placed { a: 0, v: 0 }; ROOM];
    let mut odds = [Placed { a: 0, v: 0 }; ROOM];
    let mut sum: i64 = 0;
    for at in (from..to).step_by(PIECE_LIMIT) {
        let end = (at + PIECE_LIMIT).min(to);
        sum += sum_piece(p, table, at, end, &mut evens, &mut odds);
    }
    sum
}
