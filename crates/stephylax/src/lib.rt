// The C interface: one function for each public call, with its name and its layout of `include/stephylax.h`, which explains each. A slice
// crosses as a pointer and a length. An answer is the library's, as numbers: answers/specs/Answers.antt says which.
#![tactic(auto)]

ghost use Rattle.std.specs.Prelude.{◌≡◌};
ghost use Rattle.calendar.specs.Calendar.{day_of_date, date_of_day, instant_of_date, date_of_instant};
ghost use Rattle.mending.specs.Answer.{mending, mending_out, mending_list};
ghost use Rattle.packed.specs.Series.{parse, checked};
ghost use Rattle.place.specs.Mount.{mount_answer};
ghost use Rattle.place.specs.Place.{place_answer};
ghost use Rattle.printer.specs.Printer.{printed, printed_out};
ghost use Rattle.published.specs.Reader as file;
ghost use Rattle.series_lines.specs.Reader.{told};
ghost use Rattle.text.specs.Reader.{begun, run, ended, whole};
ghost use Rattle.answers.specs.Answers.{day_shown, date_shown, instant_shown, moment_shown, checked_shown, text_shown};
ghost use Rattle.answers.specs.Answers.{standing_shown, mending_shown, printed_shown, place_shown, mount_shown};
ghost use Rattle.stephylax.specs.Promises.{CCoordinatesPromised, CSunListPromised};

use answers::{
    Doubles, Examined, Mended, Moment, One, Standing, Three, of_checked, of_coordinates, of_date,
    of_day, of_instant, of_list, of_mending, of_moment, of_mount, of_place, of_printed,
    of_standing, of_text,
};
use published::Published;
use series_lines::Reader;
use units::Instant;

#[unsafe(no_mangle)]
pub extern "C" fn stephylax_day_of_date(year: i64, month: i64, day: i64) -> One
    ensures { result ≡ day_shown (day_of_date year month day) }
{
    of_day(calendar::day_of_date(year, month, day))
}

#[unsafe(no_mangle)]
pub extern "C" fn stephylax_date_of_day(number: i64) -> Moment
    ensures { result ≡ date_shown (date_of_day number) }
{
    of_date(calendar::date_of_day(number))
}

#[unsafe(no_mangle)]
pub extern "C" fn stephylax_instant_of_date(year: i64, month: i64, day: i64, ms: i64) -> One
    ensures { result ≡ instant_shown (instant_of_date year month day ms) }
{
    of_instant(calendar::instant_of_date(year, month, day, ms))
}

#[unsafe(no_mangle)]
pub extern "C" fn stephylax_date_of_instant(t: i64) -> Moment
    ensures { result ≡ moment_shown (date_of_instant (record { ms = t })) }
{
    of_moment(calendar::date_of_instant(Instant { ms: t }))
}

// The whole text in one call, then its end.
#[unsafe(no_mangle)]
pub extern "C" fn stephylax_read_text(text: &[u8], packed: &mut [u8]) -> One
    ensures { (result ≡ text_shown (told (whole text.now packed.old).reader))
        × (packed.new ≡ (whole text.now packed.old).out) }
{
    of_text(text::read(text, packed))
}

#[unsafe(no_mangle)]
pub extern "C" fn stephylax_text_start() -> Reader
    ensures { result ≡ begun }
{
    text::start()
}

#[unsafe(no_mangle)]
pub extern "C" fn stephylax_text_piece(state: Reader, text: &[u8], packed: &mut [u8]) -> Reader
    ensures { (result ≡ (run state packed.old text.now).reader)
        × (packed.new ≡ (run state packed.old text.now).out) }
{
    text::piece(state, text, packed)
}

#[unsafe(no_mangle)]
pub extern "C" fn stephylax_text_end(state: Reader, packed: &mut [u8]) -> Reader
    ensures { (result ≡ ended state) × (packed.new ≡ packed.old) }
{
    text::end(state, packed)
}

#[unsafe(no_mangle)]
pub extern "C" fn stephylax_text_answer(state: Reader) -> Standing
    ensures { result ≡ standing_shown (told state) }
{
    of_standing(series_lines::answer(state))
}

#[unsafe(no_mangle)]
pub extern "C" fn stephylax_mend(text: &[u8], out: &mut [u8], changes: &mut [u64]) -> Mended
    ensures { (result ≡ mending_shown (mending text.now out.old changes.old))
        × (out.new ≡ mending_out text.now out.old changes.old)
        × (changes.new ≡ mending_list text.now out.old changes.old) }
{
    of_mending(mending::mend(text, out, changes))
}

// The whole published file in one call, then its end.
#[unsafe(no_mangle)]
pub extern "C" fn stephylax_read_published(text: &[u8], packed: &mut [u8]) -> One
    ensures { (result ≡ text_shown (file.told (file.whole text.now packed.old).reader))
        × (packed.new ≡ (file.whole text.now packed.old).out) }
{
    of_text(published::read(text, packed))
}

#[unsafe(no_mangle)]
pub extern "C" fn stephylax_published_start() -> Published
    ensures { result ≡ file.begun_file }
{
    published::start()
}

#[unsafe(no_mangle)]
pub extern "C" fn stephylax_published_piece(
    state: Published,
    text: &[u8],
    packed: &mut [u8],
) -> Published
    ensures { (result ≡ (file.run state packed.old text.now).reader)
        × (packed.new ≡ (file.run state packed.old text.now).out) }
{
    published::piece(state, text, packed)
}

// The last call may write: the counts of the blocks that never came.
#[unsafe(no_mangle)]
pub extern "C" fn stephylax_published_end(state: Published, packed: &mut [u8]) -> Published
    ensures { (result ≡ file.ended state packed.old) × (packed.new ≡ file.ended_out state packed.old) }
{
    published::end(state, packed)
}

#[unsafe(no_mangle)]
pub extern "C" fn stephylax_published_answer(state: Published) -> Standing
    ensures { result ≡ standing_shown (file.told state) }
{
    of_standing(published::answer(state))
}

#[unsafe(no_mangle)]
pub extern "C" fn stephylax_check(packed: &[u8]) -> Examined
    ensures { result ≡ checked_shown (checked (parse packed.now)) }
{
    of_checked(packed::check(packed))
}

#[unsafe(no_mangle)]
pub extern "C" fn stephylax_print(packed: &[u8], text: &mut [u8]) -> One
    ensures { (result ≡ printed_shown (printed (parse packed.now) text.old))
        × (text.new ≡ printed_out (parse packed.now) text.old) }
{
    of_printed(printer::print(packed, text))
}

#[unsafe(no_mangle)]
pub extern "C" fn stephylax_coordinates_at(packed: &[u8], t: i64) -> Three
    ensures { CCoordinatesPromised packed.now t result }
{
    of_coordinates(series::coordinates_at(packed, Instant { ms: t }))
}

#[unsafe(no_mangle)]
pub extern "C" fn stephylax_apparent_place(planet: &[u8], earth: &[u8], t: i64) -> Three
    ensures { result ≡ place_shown (place_answer planet.now earth.now (record { ms = t })) }
{
    of_place(place::apparent_place(planet, earth, Instant { ms: t }))
}

#[unsafe(no_mangle)]
pub extern "C" fn stephylax_mount_place(planet: &[u8], earth: &[u8], t: i64) -> Doubles
    ensures { result ≡ mount_shown (mount_answer planet.now earth.now (record { ms = t })) }
{
    of_mount(place::mount_place(planet, earth, Instant { ms: t }))
}

#[unsafe(no_mangle)]
pub extern "C" fn stephylax_sun_list(
    planet: &[u8],
    earth: &[u8],
    t0: i64,
    minutes: i64,
    keep_out: i64,
    runs: &mut [u64],
) -> One
    ensures { CSunListPromised
        planet.now earth.now t0 minutes keep_out runs.old result runs.new }
{
    of_list(sunlist::sun_list(planet, earth, Instant { ms: t0 }, minutes, keep_out, runs))
}
