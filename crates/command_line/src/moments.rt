// A date and a clock time that arguments ask for. For position_lines and list_lines.
ghost use Rattle.std.specs.Prelude.{◌≡◌};
ghost use Rattle.command_line.specs.Clock.{instant_of_clock, minute_of_day};

use crate::arguments::{instant_of_clock, minute_of_day};
use units::{Instant, Refusal};

#[derive(Clone, Copy)]
pub struct Moment {
    pub year: i64,
    pub month: i64,
    pub day: i64,
    pub hour: i64,
    pub minute: i64,
    pub second: i64,
}

impl Moment {
    pub fn instant(self) -> Result<Instant, Refusal>
        ensures { result ≡ instant_of_clock self.year self.month self.day self.hour self.minute self.second }
    {
        instant_of_clock(
            self.year,
            self.month,
            self.day,
            self.hour,
            self.minute,
            self.second,
        )
    }

    // The minute of the day; 0 where there is no such time.
    pub fn minute_of_day(self) -> u64
        ensures { result ≡ minute_of_day self.hour self.minute }
    {
        minute_of_day(self.hour, self.minute)
    }
}
