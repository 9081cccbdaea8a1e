// The window of a list: its limits, its minutes, and the numbers written from their flags. For this crate alone.
ghost use Rattle.std.specs.Prelude.{◌≡◌, ℕ, ◌≤◌, ◌<◌, nat_abs, length, MatchResult};
ghost use Rattle.units.specs.Units.{t_limit};
ghost use Rattle.separation.specs.Arcminutes.{greatest_keep_out};
ghost use Rattle.runs.specs.Runs.{run_numbers, most_minutes};
ghost use Rattle.sunlist.specs.SunList.{window_fits, minute as minute_of, numbers, answered, written};
ghost use Rattle.sunlist.specs.Machine.Window.{LeftToSeries, RefusedBefore, asked_at, FoundFar};

use runs::MOST_MINUTES;
use units::{Instant, MINUTE_MS, Refusal, in_limit, near};

// separation/specs/Arcminutes.antt and specs/SunList.antt have the same constants under the same names.

// A keep-out is from LEAST_KEEP_OUT to GREATEST_KEEP_OUT arcminutes.
const LEAST_KEEP_OUT: i64 = 60;

const GREATEST_KEEP_OUT: i64 = 2700;

// Whether the number of minutes and the keep-out are within their ranges.
#[tactic(auto, unfolding(crate::specs::SunList::window_fits))]
fn fits(minutes: i64, keep_out: i64) -> bool
    ensures { result ≡ window_fits minutes keep_out }
{
    (LEAST_KEEP_OUT..=GREATEST_KEEP_OUT).contains(&keep_out)
        && (1..=MOST_MINUTES as i64).contains(&minutes)
}

// Minute j of a window that begins at t0.
pub fn minute(t0: Instant, j: u64) -> Instant
    requires { (nat_abs t0.ms ≤ t_limit) × (j < most_minutes) }
    ensures { result ≡ minute_of t0 j }
{
    Instant {
        ms: t0.ms + (MINUTE_MS * j) as i64,
    }
}

// A window whose minutes are all within the limit of time, and a keep-out in arcminutes, both in their ranges.
#[derive(Clone, Copy)]
pub struct Window {
    pub t0: Instant,
    pub minutes: usize,
    pub keep_out: u64,
    ghost few: { minutes ≤ most_minutes },
    ghost angle: { keep_out ≤ greatest_keep_out },
    ghost start: { nat_abs t0.ms ≤ t_limit },
    ghost within: { (j : ℕ) → j < minutes → nat_abs (minute_of t0 j).ms ≤ t_limit },
}

impl Window {
    // The window that a call asks for: 12 where a range is left, then 2 for the first minute and for the last.
    pub fn new(t0: Instant, minutes: i64, keep_out: i64) -> Result<Window, Refusal>
        ensures { MatchResult result (λ w. LeftToSeries t0 minutes keep_out w.t0 w.minutes w.keep_out) (λ r. RefusedBefore t0 minutes keep_out r) }
    {
        if !fits(minutes, keep_out) {
            return Err(Refusal::BadWindow);
        }
        if !in_limit(t0) {
            return Err(Refusal::PastLimit(t0));
        }
        let n = minutes.unsigned_abs();
        let last = minute(t0, n - 1);
        if !in_limit(last) {
            return Err(Refusal::PastLimit(last));
        }
        Ok(Window {
            t0,
            minutes: n as usize,
            keep_out: keep_out.unsigned_abs(),
        })
    }

    // The first minute at which two series may not both be asked. `wide` tells whether both are good for the wide range: then there is none, and
    // otherwise it is the first far one.
    pub(crate) fn first_far(self, wide: bool) -> Option<Instant>
        ensures { FoundFar (asked_at self.t0 wide) self.t0 self.minutes result }
    {
        if wide {
            return None;
        }
        (0..self.minutes)
            .map(|j| minute(self.t0, j as u64))
            .find(|&t| !near(t))
    }
}

// Writes the runs of a window's flags, where they fit.
pub fn write_runs(flags: &[bool], out: &mut [u64]) -> Result<u64, Refusal>
    requires { length flags.now ≤ most_minutes }
    ensures { (result ≡ answered (length out.old) (numbers (run_numbers flags.now)))
        × (out.new ≡ written out.old (numbers (run_numbers flags.now))) }
{
    let n = runs::count(flags);
    if out.len() < n {
        return Err(Refusal::NoRoom(n));
    }
    runs::write(flags, out);
    Ok(n as u64)
}
