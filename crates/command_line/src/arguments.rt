// Arguments that are numbers, and a clock time made of them. For the programs.
ghost use Rattle.std.specs.Prelude.{◌≡◌, ◌≤◌};
ghost use Rattle.command_line.specs.Machine.Arguments.{argument_limit};
ghost use Rattle.command_line.specs.Clock.{ms_of_day, instant_of_clock, minute_of_day};

use arith::signed::natural_or;
use calendar::instant_of_date;
use decimals::reading::number_of;
use std::env::Env;
use units::{Instant, MINUTE_MS, Refusal};

// The hours of a day, the minutes of an hour, the seconds of a minute; specs/Clock.antt has the same constants under the same names.
const HOURS: u64 = 24;

const MINUTES: u64 = 60;

const SECONDS: u64 = 60;

// An hour and a second in milliseconds.
const HOUR_MS: u64 = MINUTES * MINUTE_MS;

const SECOND_MS: u64 = MINUTE_MS / SECONDS;

// The bytes that the argument of a number may have; one that is longer is no number.
const ARGUMENT_MOST: usize = 16;

// Argument i. One that is missing or too long is no number.
pub fn number_argument(rt: &impl Env, i: usize) -> Option<i64> {
    let mut text = [0u8; ARGUMENT_MOST];
    let n = rt.arg(i, &mut text).ok()?;
    number_of(&text[..n])
}

// Arguments i, i + 1 and i + 2.
pub fn three_arguments(rt: &impl Env, i: usize) -> Option<[i64; 3]>
    requires { i ≤ argument_limit }
{
    Some([
        number_argument(rt, i)?,
        number_argument(rt, i + 1)?,
        number_argument(rt, i + 2)?,
    ])
}

// The milliseconds of a clock time, or -1, which no day has: a number and not an Option, since the calendar takes any and refuses this one.
fn ms_of_day(hour: i64, minute: i64, second: i64) -> i64
    ensures { result ≡ ms_of_day hour minute second }
{
    let h = natural_or(hour, HOURS);
    let m = natural_or(minute, MINUTES);
    let s = natural_or(second, SECONDS);
    if HOURS <= h || MINUTES <= m || SECONDS <= s {
        return -1;
    }
    (HOUR_MS * h + MINUTE_MS * m + SECOND_MS * s) as i64
}

// The instant of a date and a clock time. Six numbers and not two structs, as the calendar's calls have them: they are whatever the arguments say,
// and need not be a date or a time.
pub fn instant_of_clock(
    year: i64,
    month: i64,
    day: i64,
    hour: i64,
    minute: i64,
    second: i64,
) -> Result<Instant, Refusal>
    ensures { result ≡ instant_of_clock year month day hour minute second }
{
    let ms = ms_of_day(hour, minute, second);
    instant_of_date(year, month, day, ms)
}

// The minute of the day of a clock time; 0 where there is no such time.
pub fn minute_of_day(hour: i64, minute: i64) -> u64
    ensures { result ≡ minute_of_day hour minute }
{
    let ms = ms_of_day(hour, minute, 0);
    natural_or(ms, 0) / MINUTE_MS
}
