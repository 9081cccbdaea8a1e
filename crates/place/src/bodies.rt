// From two packed series to the sight that an apparent place is made of. For this crate alone.
ghost use Rattle.std.specs.Prelude.{◌≡◌, true, ◌&&◌, ◌≤◌, nat_abs};
ghost use Rattle.units.specs.Units.{t_limit};
ghost use Rattle.limits.specs.Wide.{good_for_wide, four_millennia, both_asked};
ghost use Rattle.packed.specs.Series.{accepted, parse};
ghost use Rattle.packed.specs.Machine.Table.{table_blocks};
ghost use Rattle.series.specs.Machine.Table.{Table};
ghost use Rattle.place.specs.Place.{sight_at, taken_again, of_series, sighting as sighting_of};

use crate::Geocentric;
use crate::steps::earlier;
use limits::wide::may_ask;
use rectangular::from_earth::sight;
use rectangular::{Frame, View};
use series::table::{Table, coordinates, fill};
use units::{Instant, Refusal, in_limit};

// The sight at the earlier instant, with D at t.
fn again(distance: u64, s: Option<View>) -> Result<Geocentric, Refusal>
    ensures { result ≡ taken_again distance s }
{
    let Some(seen) = s else {
        return Err(Refusal::NotUsable(0));
    };
    let vector = seen.vector;
    Ok(Geocentric { vector, distance })
}

// The term tables of planet and Earth, and whether both series are good for the wide range.
// The crate sunlist has the same struct for its own methods: of a struct in `series` they could not be methods, as a type has them from its own crate alone.
// That the tables are such is asked of each method and not a ghost field: `Table` goes by recursion over the terms, and a ghost field takes no such fact.
#[derive(Clone, Copy)]
struct Bodies<'a> {
    planet: &'a Table,
    earth: &'a Table,
    wide: bool,
    ghost good: { wide ≡ (good_for_wide (table_blocks planet.now) && good_for_wide (table_blocks earth.now)) },
}

impl Bodies<'_> {
    // Planet and Earth at an instant at which both series may be asked, in the frame of the catalogues.
    fn at(self, t: Instant) -> Option<View>
        requires { (nat_abs t.ms ≤ t_limit) × Table self.planet.now × Table self.earth.now
            × (both_asked four_millennia (table_blocks self.planet.now) (table_blocks self.earth.now) t.ms ≡ true) }
        ensures { result ≡ sight_at (table_blocks self.entry.planet.now) (table_blocks self.entry.earth.now) t }
    {
        let p = coordinates(self.planet, t);
        let e = coordinates(self.earth, t);
        sight(Frame::Catalogues, p, e)
    }

    // At t, and again at t less the light time.
    fn taken(self, t: Instant) -> Result<Geocentric, Refusal>
        requires { (nat_abs t.ms ≤ t_limit) × Table self.planet.now × Table self.earth.now }
        ensures { result ≡ of_series four_millennia (accepted (table_blocks self.entry.planet.now)) (accepted (table_blocks self.entry.earth.now)) t }
    {
        if !may_ask(self.wide, t) {
            return Err(Refusal::TooFar(t));
        }
        let Some(first) = self.at(t) else {
            return Err(Refusal::NotUsable(0));
        };
        let distance = first.distance;
        let before = earlier(t, distance);
        if !in_limit(before) {
            return Err(Refusal::PastLimit(before));
        }
        if !may_ask(self.wide, before) {
            return Err(Refusal::TooFar(before));
        }
        let second = self.at(before);
        again(distance, second)
    }
}

// From the packed series, each unpacked once. Takes every input.
pub fn sighting(planet: &[u8], earth: &[u8], t: Instant) -> Result<Geocentric, Refusal>
    ensures { result ≡ sighting_of planet.now earth.now t }
{
    if !in_limit(t) {
        return Err(Refusal::PastLimit(t));
    }
    let mut table = Table::new();
    let content = fill(planet, &mut table)?;
    with_earth(&table, content.wide, earth, t)
}

// With the planet's term table, and whether its series is good for the wide range.
fn with_earth(planet: &Table, wide: bool, earth: &[u8], t: Instant) -> Result<Geocentric, Refusal>
    requires { (nat_abs t.ms ≤ t_limit) × Table planet.now × (wide ≡ good_for_wide (table_blocks planet.now)) }
    ensures { result ≡ of_series four_millennia (accepted (table_blocks planet.now)) (parse earth.now) t }
{
    let mut table = Table::new();
    let content = fill(earth, &mut table)?;
    let good = content.wide;
    let bodies = Bodies {
        planet,
        earth: &table,
        wide: wide & good,
    };
    bodies.taken(t)
}
