// The list of minutes when a planet stands too near the Sun: RULES, "Sun list".
#![tactic(auto)]

ghost use Rattle.sunlist.specs.Call.{SunListPromised};

mod list;
mod one_minute;
mod window;

use crate::list::of_series;
use crate::window::Window;
use units::{Instant, Refusal};

// The figures by which a usable minute is decided: the squared separation of the two unit vectors and the threshold, both in 1/U^2;
// D, and both R (planet, earth), in parts.
#[derive(Clone, Copy)]
pub struct Figures {
    pub separation: i64,
    pub threshold: i64,
    pub distance: u64,
    pub planet: i64,
    pub earth: i64,
}

// A minute is listed, or clear of the Sun, or its places are not usable.
#[derive(Clone, Copy)]
pub enum Decision {
    Listed(Figures),
    Clear(Figures),
    Unusable,
}

// The list of minutes, from t0 on, at which the planet stands within the keep-out (and an arcminute) of the Sun: two numbers for
// each run, its first and last minute. Every input is taken; a refusal leaves the output as it was.
pub fn sun_list(
    planet: &[u8],
    earth: &[u8],
    t0: Instant,
    minutes: i64,
    keep_out: i64,
    out: &mut [u64],
) -> Result<u64, Refusal>
    ensures { SunListPromised planet.now earth.now t0 minutes keep_out out.old result out.new }
{
    let window = Window::new(t0, minutes, keep_out)?;
    of_series(planet, earth, window, out)
}
