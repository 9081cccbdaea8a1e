// The fields of a date, which may be any i64, brought to the count of `naturals`, and back. All of this is for lib.rt.
ghost use Rattle.std.specs.Prelude.{◌≡◌, ◌+◌, ◌≤◌, ◌<◌, pos, nat_abs, ◌+ℤ◌, IfOk};
ghost use Rattle.units.specs.Units.{t_limit};
ghost use Rattle.calendar.specs.Calendar.{first_bad, instant};
ghost use Rattle.calendar.specs.Constants.{last_day, day_ms};
ghost use Rattle.calendar.specs.Machine.Fields.{bad_number, Counted};
ghost use Rattle.calendar.specs.Machine.Shifted.{year_index, plain, date_at, epoch_ms};

use crate::naturals::date_at;
use crate::{
    DAY_MS, Date, EPOCH_DAY, Field, HALF_DAY_MS, LAST_YEAR, Shifted, YEAR_SHIFT, YEARS_BEFORE_ZERO,
};
use arith::signed::natural_or;

// The milliseconds from 0h of day number 0 to instant 0.
const EPOCH_MS: u64 = DAY_MS * EPOCH_DAY + HALF_DAY_MS;

// The same figures as signed numbers, for differences that may be negative.
const SIGNED_YEAR_SHIFT: i64 = YEAR_SHIFT as i64;

const SIGNED_EPOCH_MS: i64 = EPOCH_MS as i64;

const FIRST_YEAR: i64 = -(YEARS_BEFORE_ZERO as i64);

// The year plus YEAR_SHIFT, or 0 for a year that does not exist: as month 0 and day 0, it is judged with the other fields.
#[tactic(auto, unfolding(crate::specs::Machine::Shifted::year_index))]
fn year_index(year: i64) -> u64
    ensures { result ≡ year_index year }
{
    if FIRST_YEAR <= year && year <= LAST_YEAR as i64 {
        (year + SIGNED_YEAR_SHIFT) as u64
    } else {
        0
    }
}

// The date of three fields, or the first of them that does not exist.
pub fn counted(year: i64, month: i64, day: i64) -> Result<Shifted, Field>
    ensures judged { bad_number result ≡ first_bad year month day }
    ensures counted { IfOk result (Counted year month day) }
{
    let date = Shifted {
        index: year_index(year),
        month: natural_or(month, 0),
        day: natural_or(day, 0),
    };
    date.judge()
}

// The date of a day number that exists.
pub fn plain_date(n: u64) -> Date
    requires { n ≤ last_day }
    ensures { result ≡ plain (date_at n) }
{
    let s = date_at(n);
    Date {
        year: s.index as i64 - SIGNED_YEAR_SHIFT,
        month: s.month as i64,
        day: s.day as i64,
    }
}

// The instant of a day number and of milliseconds that exist.
pub fn instant_at(n: u64, ms: u64) -> i64
    requires { (n ≤ last_day) × (ms < day_ms) }
    ensures { result ≡ instant (pos n) (pos ms) }
{
    (DAY_MS * n + ms) as i64 - SIGNED_EPOCH_MS
}

// The milliseconds from 0h of day number 0 to an instant within the limit.
pub fn since_start(t: i64) -> u64
    requires { nat_abs t ≤ t_limit }
    ensures { (pos result ≡ t +ℤ pos epoch_ms) × (result ≤ epoch_ms + t_limit) }
{
    (t + SIGNED_EPOCH_MS) as u64
}
