// The list of a window from two packed series, the planet's and Earth's, each read once into a term table. For lib.rt.
ghost use Rattle.std.specs.Prelude.{◌≡◌, ◌&&◌, ◌<◌, length};
ghost use Rattle.limits.specs.Wide.{good_for_wide, four_millennia};
ghost use Rattle.packed.specs.Series.{parse};
ghost use Rattle.packed.specs.Machine.Table.{table_blocks};
ghost use Rattle.series.specs.Machine.Table.{Table};
ghost use Rattle.sunlist.specs.SunList.{of_blocks, of_series as series_outcome};
ghost use Rattle.sunlist.specs.Machine.Answers.{Tables, decided_at, Answers};
ghost use Rattle.sunlist.specs.Machine.Window.{Flagged};

use crate::Decision;
use crate::one_minute::decide;
use crate::window::{Window, minute, write_runs};
use runs::MOST_MINUTES;
use series::table::{Table, coordinates, fill};
use units::Refusal;

// The term tables of planet and Earth, and whether both series are good for the wide range.
// The crate place has the same struct for its own methods: of a struct in `series` they could not be methods, as a type has them from its own crate alone.
// That the tables are such is asked of each method and not a ghost field: `Table` goes by recursion over the terms, and a ghost field takes no such fact.
#[derive(Clone, Copy)]
struct Bodies<'a> {
    planet: &'a Table,
    earth: &'a Table,
    wide: bool,
    ghost good: { wide ≡ (good_for_wide (table_blocks planet.now) && good_for_wide (table_blocks earth.now)) },
}

impl Bodies<'_> {
    // Minute j of a window decided.
    fn decide_at(self, window: Window, j: usize) -> Decision
        requires { (j < window.minutes) × Tables self.planet.now self.earth.now window.t0 window.minutes }
        ensures { result ≡ decided_at self.entry.planet.now self.entry.earth.now window.t0 window.keep_out j }
    {
        let t = minute(window.t0, j as u64);
        let p = coordinates(self.planet, t);
        let e = coordinates(self.earth, t);
        decide(p, e, window.keep_out)
    }

    // Fills the flags of a window's minutes; 11 at the first bad one.
    fn flag_minutes(self, window: Window, flags: &mut [bool]) -> Result<(), Refusal>
        requires { (length flags.old ≡ window.minutes) × Tables self.planet.now self.earth.now window.t0 window.minutes }
        ensures { Flagged (decided_at self.entry.planet.now self.entry.earth.now window.t0 window.keep_out) window.minutes result flags.new }
    {
        for (j, flag) in flags.iter_mut().enumerate() {
            *flag = match self.decide_at(window, j) {
                Decision::Listed(_) => true,
                Decision::Clear(_) => false,
                Decision::Unusable => return Err(Refusal::NotUsable(j as u64)),
            };
        }
        Ok(())
    }

    // The list of a window: 17 at the first far minute, before any minute is worked; then 11 at the first bad one; then 7, or the runs.
    fn list_of(self, window: Window, out: &mut [u64]) -> Result<u64, Refusal>
        requires { Table self.planet.now × Table self.earth.now }
        ensures { Answers (of_blocks four_millennia (table_blocks self.entry.planet.now) (table_blocks self.entry.earth.now)
            window.t0 window.minutes window.keep_out) out.old result out.new }
    {
        if let Some(far) = window.first_far(self.wide) {
            return Err(Refusal::TooFar(far));
        }
        let mut room = [false; MOST_MINUTES as usize];
        let flags = &mut room[..window.minutes];
        self.flag_minutes(window, flags)?;
        write_runs(flags, out)
    }
}

// From the two packed series, each read once into a term table.
pub(crate) fn of_series(
    planet: &[u8],
    earth: &[u8],
    window: Window,
    out: &mut [u64],
) -> Result<u64, Refusal>
    ensures { Answers (series_outcome four_millennia (parse planet.now) (parse earth.now) window.t0 window.minutes window.keep_out)
        out.old result out.new }
{
    let mut planet_table = Table::new();
    let of_planet = fill(planet, &mut planet_table)?;
    let mut earth_table = Table::new();
    let of_earth = fill(earth, &mut earth_table)?;
    let bodies = Bodies {
        planet: &planet_table,
        earth: &earth_table,
        wide: of_planet.wide & of_earth.wide,
    };
    bodies.list_of(window, out)
}
