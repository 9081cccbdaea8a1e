// The sums over a term table at a prepared instant: of a block, of the powers of a coordinate. For this crate alone.
ghost use Rattle.std.specs.Prelude.{◌≡◌, true, [], ◌∷◌, ◌+◌, ◌-◌, ◌*◌, ◌≤◌, ◌<◌, nat_abs, ◌+ℤ◌, ◌*ℤ◌, get_or, take, drop};
ghost use Rattle.integers.specs.Division.{rounded};
ghost use Rattle.units.specs.Units.{millennium, t_limit, wide_total, powers, block_count};
ghost use Rattle.limits.specs.Wide.{reaches};
ghost use Rattle.packed.specs.Machine.Table.{ends, table_blocks};
ghost use Rattle.pieces.specs.Sums.{block_sum};
ghost use Rattle.series.specs.Sums.{running_sum};
ghost use Rattle.series.specs.Machine.Table.{Table};

use crate::table::Table;
use arith::muldiv::mul_div_round;
use cosine::term::Prepared;
use pieces::sum_terms;
use units::{MILLENNIUM, POWERS};

// The blocks of a coordinate.
pub const COORDINATE_BLOCKS: usize = POWERS as usize;

// Where block j starts: where the one before it ends.
fn block_start(table: &Table, j: usize) -> u64
    requires { j < block_count }
    ensures { result ≡ get_or (0 ∷ ends table.now) j 0 }
{
    if j == 0 {
        return 0;
    }
    table.block_end(j - 1)
}

// One power of the running sum: V becomes S + V t/T rounded, S the sum of block j. Before power 0, |V| is at most 1 + 4 + 16 + 64 + 256 totals of
// a series that is good for the wide range; the 1 + 2 + 4 + 8 + 16 of any other series, within two millennia, are less.
fn with_block(p: Prepared, table: &Table, j: usize, v: i64) -> i64
    requires { (nat_abs p.t ≤ t_limit) × Table table.now × (j < block_count) × (nat_abs v ≤ 341 * wide_total) }
    ensures { result ≡ block_sum p.t (get_or (table_blocks table.now) j []) +ℤ rounded (v *ℤ p.t) millennium }
{
    let from = block_start(table, j);
    let to = table.block_end(j);
    let sum = sum_terms(p, table, from as usize, to as usize);
    let carried = mul_div_round(v, p.t, MILLENNIUM);
    sum + carried
}

// `Table table` is asked for and no ghost field: it goes by recursion over terms and is no proposition.
// V of the coordinate whose blocks begin with block first, at an instant at which the series may be asked.
pub fn coordinate(p: Prepared, table: &Table, first: usize) -> i64
    requires { (nat_abs p.t ≤ t_limit) × Table table.now × (reaches (table_blocks table.now) p.t ≡ true) × (first ≤ 2 * powers) }
    ensures { result ≡ running_sum p.t (take powers (drop first (table_blocks table.now))) }
{
    let mut v: i64 = 0;
    for k in (0..COORDINATE_BLOCKS).rev() {
        v = with_block(p, table, first + k, v);
    }
    v
}
