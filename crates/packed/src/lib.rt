// Packed series: RULES, "Series, as text and packed".
#![tactic(auto)]

pub mod table;
mod terms;
mod wide;

ghost use Rattle.std.specs.Prelude.{◌≡◌};
ghost use Rattle.packed.specs.Series.{parse, checked};

use table::Table;
use units::Refusal;

// What the walk over a packed series tells of it: the number of its terms, and whether it is good for the wide range.
#[derive(Clone, Copy)]
pub struct Content {
    pub terms: u64,
    pub wide: bool,
}

// Checks a packed series: what it holds, or the refusal.
pub fn check(bytes: &[u8]) -> Result<Content, Refusal>
    ensures { result ≡ checked (parse bytes.now) }
{
    let mut table = Table::new();
    table.unpack(bytes)
}
