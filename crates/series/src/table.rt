// The term table of a series: filled once from the packed bytes, then asked for L, B and R at many instants. For the crates above.
ghost use Rattle.std.specs.Prelude.{◌≡◌, true, ◌≤◌, nat_abs};
ghost use Rattle.units.specs.Units.{t_limit};
ghost use Rattle.limits.specs.Wide.{reaches};
ghost use Rattle.packed.specs.Series.{parse, checked};
ghost use Rattle.packed.specs.Machine.Table.{table_blocks};
ghost use Rattle.series.specs.Sums.{coordinates as coordinates_of};
ghost use Rattle.series.specs.Machine.Table.{Table, filled};

use crate::sums::{COORDINATE_BLOCKS, coordinate};
use cosine::term::Prepared;
use packed::Content;
use units::{Coordinates, Instant, Refusal};

pub type Table = packed::table::Table;

// Reads a packed series into the table. The answer is what it holds, or the refusal, after which the table is of no use.
pub fn fill(packed: &[u8], table: &mut Table) -> Result<Content, Refusal>
    ensures { (result ≡ checked (parse packed.now)) × filled (parse packed.now) table.new }
{
    table.unpack(packed)
}

// L, B and R at an instant at which the series may be asked.
pub fn coordinates(table: &Table, t: Instant) -> Coordinates
    requires { (nat_abs t.ms ≤ t_limit) × Table table.now × (reaches (table_blocks table.now) t.ms ≡ true) }
    ensures { result ≡ coordinates_of t.ms (table_blocks table.now) }
{
    let p = Prepared::at(t);
    let longitude = coordinate(p, table, 0);
    let latitude = coordinate(p, table, COORDINATE_BLOCKS);
    let radius = coordinate(p, table, 2 * COORDINATE_BLOCKS);
    Coordinates {
        longitude,
        latitude,
        radius,
    }
}
