// Calendar dates, noon day numbers and instants: RULES, "Calendar". Every number may be any i64.
#![tactic(auto)]

ghost use Rattle.std.specs.Prelude.{◌≡◌};
ghost use Rattle.units.specs.declared.Refusal.TheVariants.{NoSuchDate};
ghost use Rattle.calendar.specs.Calendar.{day_of_date, date_of_day, instant_of_date, date_of_instant};
ghost use Rattle.calendar.specs.Machine.Fields.{field_number};

use crate::whole::{counted, instant_at, plain_date, since_start};
use units::{Instant, Refusal, in_limit};

mod naturals;
mod whole;

// specs/Constants.antt has the same constants under the same names.

// The years are from -YEARS_BEFORE_ZERO to LAST_YEAR.
const YEARS_BEFORE_ZERO: u64 = 4712;

const LAST_YEAR: u64 = 9999;

// The year of the change from the Julian to the Gregorian calendar, and, written yyyymmdd, its first skipped and its first Gregorian day.
const REFORM_YEAR: u64 = 1582;

const FIRST_SKIPPED: u64 = 15821005;

const FIRST_GREGORIAN: u64 = 15821015;

// The figures of the formula of the noon day number.
const FOUR_YEARS: u64 = 1461;

const YEAR_SHIFT: u64 = 4716;

const MONTH_RATE: u64 = 306001;

const RATE_SCALE: u64 = 10000;

const DAY_SHIFT: u64 = 1524;

// The day numbers are from 0 to LAST_DAY.
const LAST_DAY: i64 = 5373484;

// The milliseconds of a day, the last of them, and half a day; the day number at whose noon instants begin.
const DAY_MS: u64 = 86400000;

const LAST_MS: i64 = DAY_MS as i64 - 1;

const HALF_DAY_MS: u64 = DAY_MS / 2;

const EPOCH_DAY: u64 = 2451545;

// A date: the year in the astronomical count (year 0 exists), the month from 1, the day from 1.
#[derive(Clone, Copy)]
pub struct Date {
    pub year: i64,
    pub month: i64,
    pub day: i64,
}

// A date as the code counts it: the year plus YEAR_SHIFT, month and day.
#[derive(Clone, Copy)]
struct Shifted {
    index: u64,
    month: u64,
    day: u64,
}

// What may be bad of a date with milliseconds, in the order in which it is judged, and of a day number; with the number that a refusal calls it by.
#[derive(Clone, Copy)]
enum Field {
    Year = 1,
    Month = 2,
    Day = 3,
    Ms = 4,
    Number = 5,
}

impl From<Field> for Refusal {
    ghost from_gives = { λ field refusal. refusal ≡ NoSuchDate (field_number field) };

    fn from(field: Field) -> Refusal {
        Refusal::NoSuchDate(field as u64)
    }
}

// A date with the milliseconds from its 0h.
#[derive(Clone, Copy)]
pub struct Moment {
    pub date: Date,
    pub ms: i64,
}

// The noon day number of a date.
pub fn day_of_date(year: i64, month: i64, day: i64) -> Result<i64, Refusal>
    ensures { result ≡ day_of_date year month day }
{
    let date = counted(year, month, day)?;
    Ok(date.noon() as i64)
}

// The date of a noon day number.
pub fn date_of_day(number: i64) -> Result<Date, Refusal>
    ensures { result ≡ date_of_day number }
{
    if number < 0 || LAST_DAY < number {
        return Err(Field::Number.into());
    }
    Ok(plain_date(number as u64))
}

// The instant of a date and of the milliseconds from its 0h.
pub fn instant_of_date(year: i64, month: i64, day: i64, ms: i64) -> Result<Instant, Refusal>
    ensures { result ≡ instant_of_date year month day ms }
{
    let date = counted(year, month, day)?;
    if ms < 0 || LAST_MS < ms {
        return Err(Field::Ms.into());
    }
    let t = Instant {
        ms: instant_at(date.noon(), ms as u64),
    };
    if !in_limit(t) {
        return Err(Refusal::PastLimit(t));
    }
    Ok(t)
}

// The date of an instant, with the milliseconds from its 0h.
pub fn date_of_instant(t: Instant) -> Result<Moment, Refusal>
    ensures { result ≡ date_of_instant t }
{
    if !in_limit(t) {
        return Err(Refusal::PastLimit(t));
    }
    let u = since_start(t.ms);
    let date = plain_date(u / DAY_MS);
    let ms = (u % DAY_MS) as i64;
    Ok(Moment { date, ms })
}
