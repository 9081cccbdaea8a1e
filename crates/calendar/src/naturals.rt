// The calendar counted in naturals: a year is its index, the year plus 4716. All of this is for lib.rt.
ghost use Rattle.std.specs.Prelude.{◌≡◌, ◌+◌, ◌*◌, ◌/◌, ◌≤◌, ◌<◌, IfOk};
ghost use Rattle.calendar.specs.Constants.{last_day};
ghost use Rattle.calendar.specs.Machine.Fields.{bad_number};
ghost use Rattle.calendar.specs.Machine.Shifted.{last_index, leap_day, month_days, bad_field, Sound};
ghost use Rattle.calendar.specs.Machine.Shifted.{march_year, march_month, key, noon, julian_count, before_month, from_march, date_at};

use crate::{
    DAY_SHIFT, FIRST_GREGORIAN, FIRST_SKIPPED, FOUR_YEARS, Field, MONTH_RATE, RATE_SCALE,
    REFORM_YEAR, Shifted, YEAR_SHIFT,
};

// specs/Machine/Shifted.antt has the same constants under the same names.

// The index of the last year that had the Julian leap rule, and the keys of the first skipped and the first Gregorian day.
const REFORM_INDEX: u64 = REFORM_YEAR + YEAR_SHIFT;

const KEY_SHIFT: u64 = 10000 * YEAR_SHIFT;

const SKIPPED_KEY: u64 = FIRST_SKIPPED + KEY_SHIFT;

const GREGORIAN_KEY: u64 = FIRST_GREGORIAN + KEY_SHIFT;

// The day number of the first Gregorian day.
const REFORM_DAY: u64 = 2299161;

// The days from March 1 of the year with index 0 to day number 0, and the day number of March 1 of year 0 in the Gregorian count.
const MARCH_SHIFT: u64 = DAY_SHIFT - 1 - MONTH_RATE * 4 / RATE_SCALE;

const YEAR_ZERO: u64 = FOUR_YEARS * YEAR_SHIFT / 4 - MARCH_SHIFT + 2;

// The days of four Gregorian centuries, and of five months from March or August on.
const FOUR_CENTURIES: u64 = 146097;

const FIVE_MONTHS: u64 = 153;

// The days that February has past its 28.
#[tactic(auto, unfolding(crate::specs::Machine::Shifted::leap_day))]
fn leap_day(index: u64) -> u64
    ensures { result ≡ leap_day index }
{
    if index % 4 != 0 {
        return 0;
    }
    if index <= REFORM_INDEX {
        return 1;
    }
    let year = index - YEAR_SHIFT;
    if year % 100 != 0 || year % 400 == 0 {
        1
    } else {
        0
    }
}

impl Shifted {
    #[tactic(auto, using(crate::proofs::Bounds::leap_le), unfolding(crate::specs::Machine::Shifted::month_days))]
    fn month_length(self) -> u64
        requires { self.month ≤ 12 }
        ensures { result ≡ month_days self.index self.month }
    {
        if self.month == 2 {
            28 + leap_day(self.index)
        } else {
            30 + (self.month + self.month / 8) % 2
        }
    }

    // The date as yyyymmdd, with its index for the year.
    fn key(self) -> u64
        requires { (self.index ≤ last_index) × (self.month ≤ 12) × (self.day ≤ 31) }
        ensures { result ≡ key self.index self.month self.day }
    {
        10000 * self.index + 100 * self.month + self.day
    }

    // The date where it exists, else the first of year, month and day that does not. A year, a month or a day that is 0 does not.
    #[tactic(auto, using(crate::proofs::Bounds::month_le), unfolding(crate::specs::Machine::Shifted::bad_field))]
    pub fn judge(self) -> Result<Shifted, Field>
        requires { self.index ≤ last_index }
        ensures judged { bad_number result ≡ bad_field self.index self.month self.day }
        ensures same { IfOk result (λ date. date ≡ self) }
    {
        if self.index == 0 {
            return Err(Field::Year);
        }
        if self.month == 0 || 12 < self.month {
            return Err(Field::Month);
        }
        if self.day == 0 || self.month_length() < self.day {
            return Err(Field::Day);
        }
        let key = self.key();
        if key < SKIPPED_KEY {
            return Ok(self);
        }
        if key < GREGORIAN_KEY {
            return Err(Field::Day);
        }
        Ok(self)
    }

    // The index of the year, and the month, with January and February counted to the year before.
    fn march_year(self) -> u64
        requires { 0 < self.index }
        ensures { result ≡ march_year self.index self.month }
    {
        if self.month < 3 {
            self.index - 1
        } else {
            self.index
        }
    }

    fn march_month(self) -> u64
        requires { self.month ≤ 12 }
        ensures { result ≡ march_month self.month }
    {
        if self.month < 3 {
            self.month + 12
        } else {
            self.month
        }
    }

    // The noon day number of a date that exists.
    #[tactic(auto, using(crate::proofs::DateToDay::room), unfolding(crate::specs::Machine::Shifted::noon))]
    pub fn noon(self) -> u64
        requires { Sound self.index self.month self.day }
        ensures { result ≡ noon self.index self.month self.day }
    {
        let a = self.march_year();
        let m = self.march_month();
        let n = FOUR_YEARS * a / 4 + MONTH_RATE * (m + 1) / RATE_SCALE + self.day - DAY_SHIFT;
        if self.key() < GREGORIAN_KEY {
            return n;
        }
        let century = (a - YEAR_SHIFT) / 100;
        n + (2 + century / 4) - century
    }
}

// The Julian count of a day number.
#[tactic(auto, unfolding(crate::specs::Machine::Shifted::julian_count))]
fn julian_count(n: u64) -> u64
    requires { n ≤ last_day }
    ensures { result ≡ julian_count n }
{
    if n < REFORM_DAY {
        return n;
    }
    let century = (4 * (n - YEAR_ZERO) + 3) / FOUR_CENTURIES;
    n + century - (2 + century / 4)
}

// The date of the day r, from 0, of the month k, from 0, of the year that begins in March.
fn from_march(a: u64, k: u64, r: u64) -> Shifted
    requires { (a ≤ last_index) × (k ≤ 11) × (r ≤ 365) × (before_month k ≤ r) }
    ensures { result ≡ from_march a k r }
{
    let day = r - (FIVE_MONTHS * k + 2) / 5 + 1;
    if k < 10 {
        return Shifted {
            index: a,
            month: k + 3,
            day,
        };
    }
    Shifted {
        index: a + 1,
        month: k - 9,
        day,
    }
}

// The date of a day number.
pub fn date_at(n: u64) -> Shifted
    requires { n ≤ last_day }
    ensures { result ≡ date_at n }
{
    let j = julian_count(n);
    let a = (4 * (j + MARCH_SHIFT) + 3) / FOUR_YEARS;
    let r = j + MARCH_SHIFT - FOUR_YEARS * a / 4;
    from_march(a, (5 * r + 2) / FIVE_MONTHS, r)
}
