// L, B and R of a packed series at an instant: RULES, "Working cosine and sums".
#![tactic(auto)]

ghost use Rattle.series.specs.Call.{CoordinatesPromised};

mod sums;
pub mod table;

use crate::table::{Table, coordinates, fill};
use limits::wide::may_ask;
use units::{Coordinates, Instant, Refusal, in_limit};

// L, B and R of a packed series at an instant, within 10^-6 of its exact sums.
pub fn coordinates_at(packed: &[u8], t: Instant) -> Result<Coordinates, Refusal>
    ensures { CoordinatesPromised packed.now t result }
{
    if !in_limit(t) {
        return Err(Refusal::PastLimit(t));
    }
    let mut table = Table::new();
    let content = fill(packed, &mut table)?;
    if !may_ask(content.wide, t) {
        return Err(Refusal::TooFar(t));
    }
    Ok(coordinates(&table, t))
}
