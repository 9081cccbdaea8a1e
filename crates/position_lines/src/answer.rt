// What the program prints for two series and a time, written into a buffer. All of this is for lib.rt.
ghost use Rattle.std.specs.Prelude.{◌≡◌, ◌+◌, ◌≤◌, ◌++◌, ◌∷◌, [], length, IfOk};
ghost use Rattle.command_line.specs.Clock.{instant_of_clock};
ghost use Rattle.place.specs.Mount.{Small};
ghost use Rattle.position_lines.specs.Lines.{place_most};
ghost use Rattle.position_lines.specs.Position.{answer_text, position_text};

use crate::lines::put_place;
use command_line::moments::Moment;
use decimals::buffer::Buffer;
use place::{Equatorial, apparent_place};
use refusal_words::put_refusal;
use units::Refusal;

// Year, month and day; hour, minute and second.
pub fn moment_of(date: [i64; 3], clock: [i64; 3]) -> Moment
    ensures date { date ≡ result.year ∷ result.month ∷ result.day ∷ [] }
    ensures clock { clock ≡ result.hour ∷ result.minute ∷ result.second ∷ [] }
{
    let [year, month, day] = date;
    let [hour, minute, second] = clock;
    Moment {
        year,
        month,
        day,
        hour,
        minute,
        second,
    }
}

// The place at a moment; or the refusal of the moment, or of the place.
fn place_at(planet: &[u8], earth: &[u8], when: Moment) -> Result<Equatorial, Refusal>
    ensures told { answer_text result
        ≡ position_text planet.now earth.now (instant_of_clock when.year when.month when.day when.hour when.minute when.second) }
    ensures small { IfOk result (λ p. Small p) }
{
    let t = when.instant()?;
    apparent_place(planet, earth, t)
}

// All that is printed for two series and a moment.
pub fn put_position<const N: usize>(planet: &[u8], earth: &[u8], when: Moment, out: &mut Buffer<N>)
    requires { length out.old + place_most ≤ N }
    ensures { out.new ≡ out.old
        ++ position_text planet.now earth.now (instant_of_clock when.year when.month when.day when.hour when.minute when.second) }
{
    match place_at(planet, earth, when) {
        Err(r) => put_refusal(r, out),
        Ok(p) => put_place(p, out),
    }
}
