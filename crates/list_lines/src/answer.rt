// What the program prints for two series, a time, how many minutes, and a keep-out, written into a buffer. All of this is for lib.rt.
ghost use Rattle.std.specs.Prelude.{◌≡◌, ℕ, ◌+◌, ◌*◌, ◌≤◌, ◌++◌, ◌∷◌, [], pos, length, IfOk};
ghost use Rattle.command_line.specs.Clock.{instant_of_clock, minute_of_day};
ghost use Rattle.runs.specs.Runs.{most_minutes};
ghost use Rattle.list_lines.specs.Lines.{run_most};
ghost use Rattle.list_lines.specs.List.{run_lines, runs_text, answer_text, lent_numbers, list_text, most_runs, list_most};

use crate::lines::{RUN_MOST, put_run};
use command_line::moments::Moment;
use decimals::buffer::Buffer;
use refusal_words::put_refusal;
use runs::MOST_MINUTES;
use sunlist::sun_list;
use units::Refusal;

// No window has more runs; specs/List.antt has the same name.
const MOST_RUNS: usize = MOST_MINUTES as usize / 2;

// Room for any list; likewise.
pub const LIST_MOST: usize = MOST_RUNS * RUN_MOST;

// A line for each of the first `runs` runs of these numbers.
fn put_lines<const N: usize>(start: u64, numbers: &[u64], runs: usize, out: &mut Buffer<N>)
    requires there { 2 * runs ≤ length numbers.now }
    requires room { length out.old + runs * run_most ≤ N }
    ensures { out.new ≡ out.old ++ run_lines start numbers.now 0 runs }
{
    for run in numbers[..2 * runs].chunks_exact(2) {
        put_run(start, run[0], run[1], out);
    }
}

// All runs, or that there is none.
fn put_runs<const N: usize>(start: u64, numbers: &[u64], runs: usize, out: &mut Buffer<N>)
    requires there { 2 * runs ≤ length numbers.now }
    requires few { runs ≤ most_runs }
    requires room { length out.old + list_most ≤ N }
    ensures { out.new ≡ out.old ++ runs_text start numbers.now runs }
{
    if runs == 0 {
        out.put(b"no minute\n");
    } else {
        put_lines(start, numbers, runs, out);
    }
}

// What is asked for: the moment at which the window begins, how many minutes it has, and the keep-out in arcminutes.
#[derive(Clone, Copy)]
pub struct Asked {
    pub from: Moment,
    pub minutes: i64,
    pub keep_out: i64,
}

impl Asked {
    // Year, month and day; the hour and minute of the window's first minute, which begins at second 0, and how many minutes; the keep-out.
    pub fn of(date: [i64; 3], window: [i64; 3], keep_out: i64) -> Asked
        ensures date { date ≡ result.from.year ∷ result.from.month ∷ result.from.day ∷ [] }
        ensures window { window ≡ result.from.hour ∷ result.from.minute ∷ result.minutes ∷ [] }
        ensures second { result.from.second ≡ pos 0 }
        ensures keep_out { result.keep_out ≡ keep_out }
    {
        let [year, month, day] = date;
        let [hour, minute, minutes] = window;
        let from = Moment {
            year,
            month,
            day,
            hour,
            minute,
            second: 0,
        };
        Asked {
            from,
            minutes,
            keep_out,
        }
    }
}

// The list that is asked for, its numbers written into the room lent for them, and their count; or the refusal of the moment, or of the list.
fn list_asked(
    planet: &[u8],
    earth: &[u8],
    asked: Asked,
    numbers: &mut [u64],
) -> Result<u64, Refusal>
    requires { numbers.old ≡ lent_numbers }
    ensures told { (start : ℕ) → answer_text start numbers.new result
        ≡ list_text planet.now earth.now
        (instant_of_clock asked.from.year asked.from.month asked.from.day asked.from.hour asked.from.minute asked.from.second)
        start asked.minutes asked.keep_out }
    ensures few { IfOk result (λ count. (count ≤ most_minutes) × (count ≤ length numbers.new)) }
{
    let t0 = asked.from.instant()?;
    sun_list(planet, earth, t0, asked.minutes, asked.keep_out, numbers)
}

// All that is printed for two series and what is asked for.
pub fn put_list<const N: usize>(planet: &[u8], earth: &[u8], asked: Asked, out: &mut Buffer<N>)
    requires { length out.old + list_most ≤ N }
    ensures { out.new ≡ out.old
        ++ list_text planet.now earth.now
        (instant_of_clock asked.from.year asked.from.month asked.from.day asked.from.hour asked.from.minute asked.from.second)
        (minute_of_day asked.from.hour asked.from.minute) asked.minutes asked.keep_out }
{
    let mut numbers = [0u64; MOST_MINUTES as usize];
    match list_asked(planet, earth, asked, &mut numbers) {
        Err(r) => put_refusal(r, out),
        Ok(count) => {
            let start = asked.from.minute_of_day();
            put_runs(start, &numbers, (count / 2) as usize, out);
        }
    }
}
