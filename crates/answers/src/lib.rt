// Each answer of the library as C has it, in a struct of numbers: `refusal` is 0 or the refusal's number, `figure` what comes with a refusal;
// what an answer does not use is 0. All of this is for the crate stephylax.
#![tactic(auto)]

ghost use Rattle.std.specs.Prelude.{◌≡◌};
ghost use Rattle.units.specs.Refusals.{figure};
ghost use Rattle.answers.specs.Answers.{clip, clipped, one_refused, one_counted, moment_refused, three_refused};
ghost use Rattle.answers.specs.Answers.{day_shown, date_shown, instant_shown, moment_shown, text_shown};
ghost use Rattle.answers.specs.Answers.{examined_refused, content_shown, checked_shown};
ghost use Rattle.answers.specs.Answers.{accepted, standing_shown, mended_refused, verdict_place, clean_shown, mending_shown};
ghost use Rattle.answers.specs.Answers.{printed_shown, list_shown, coordinates_shown, place_shown, mount_numbered, mount_shown};

use calendar::Date;
use mending::Clean;
use packed::Content;
use place::{Equatorial, MountPlace};
use series_lines::Outcome;
use units::{Coordinates, Figure, Instant, Refusal};

// stephylax_day, _instant and _written: one number.
#[repr(C)]
#[derive(Clone, Copy)]
pub struct One {
    pub refusal: u64,
    pub figure: i64,
    pub value: i64,
}

// stephylax_checked.
#[repr(C)]
#[derive(Clone, Copy)]
pub struct Examined {
    pub refusal: u64,
    pub figure: i64,
    pub terms: i64,
    pub wide: i64,
}

// stephylax_answer.
#[repr(C)]
#[derive(Clone, Copy)]
pub struct Standing {
    pub refusal: u64,
    pub figure: i64,
    pub length: i64,
    pub accepted: i64,
}

// stephylax_date.
#[repr(C)]
#[derive(Clone, Copy)]
pub struct Moment {
    pub refusal: u64,
    pub figure: i64,
    pub year: i64,
    pub month: i64,
    pub day: i64,
    pub ms: i64,
}

// stephylax_coordinates and stephylax_place.
#[repr(C)]
#[derive(Clone, Copy)]
pub struct Three {
    pub refusal: u64,
    pub figure: i64,
    pub first: i64,
    pub second: i64,
    pub third: i64,
}

// stephylax_mount.
#[repr(C)]
#[derive(Clone, Copy)]
pub struct Doubles {
    pub refusal: u64,
    pub first: f64,
    pub second: f64,
    pub third: f64,
}

// stephylax_mended.
#[repr(C)]
#[derive(Clone, Copy)]
pub struct Mended {
    pub refusal: u64,
    pub figure: i64,
    pub length: i64,
    pub changes: i64,
    pub verdict: u64,
    pub place: i64,
}

// A number as a signed one; past the greatest, which no memory counts to, the greatest.
fn clip(n: u64) -> i64
    ensures { result ≡ clip n }
{
    i64::try_from(n).unwrap_or(i64::MAX)
}

// The figure of a refusal.
fn clipped_figure(r: Refusal) -> i64
    ensures { result ≡ clipped (figure r) }
{
    let f = r.figure();
    match f {
        Figure::Count(n) => clip(n),
        Figure::Time(t) => t.ms,
    }
}

// A refused answer: what it does not use is 0.
impl From<Refusal> for One {
    ghost from_gives = { λ r a. a ≡ one_refused r };

    fn from(r: Refusal) -> One {
        One {
            refusal: r.number(),
            figure: clipped_figure(r),
            value: 0,
        }
    }
}

impl From<Refusal> for Moment {
    ghost from_gives = { λ r a. a ≡ moment_refused r };

    fn from(r: Refusal) -> Moment {
        Moment {
            refusal: r.number(),
            figure: clipped_figure(r),
            year: 0,
            month: 0,
            day: 0,
            ms: 0,
        }
    }
}

impl From<Refusal> for Three {
    ghost from_gives = { λ r a. a ≡ three_refused r };

    fn from(r: Refusal) -> Three {
        Three {
            refusal: r.number(),
            figure: clipped_figure(r),
            first: 0,
            second: 0,
            third: 0,
        }
    }
}

impl From<Refusal> for Examined {
    ghost from_gives = { λ r a. a ≡ examined_refused r };

    fn from(r: Refusal) -> Examined {
        Examined {
            refusal: r.number(),
            figure: clipped_figure(r),
            terms: 0,
            wide: 0,
        }
    }
}

impl From<Refusal> for Mended {
    ghost from_gives = { λ r a. a ≡ mended_refused r };

    fn from(r: Refusal) -> Mended {
        Mended {
            refusal: r.number(),
            figure: clipped_figure(r),
            length: 0,
            changes: 0,
            verdict: 0,
            place: 0,
        }
    }
}

// A count or a length.
fn counted(n: u64) -> One
    ensures { result ≡ one_counted n }
{
    let value = clip(n);
    One {
        refusal: 0,
        figure: 0,
        value,
    }
}

pub fn of_day(a: Result<i64, Refusal>) -> One
    ensures { result ≡ day_shown a }
{
    match a {
        Ok(n) => One {
            refusal: 0,
            figure: 0,
            value: n,
        },
        Err(r) => One::from(r),
    }
}

pub fn of_date(a: Result<Date, Refusal>) -> Moment
    ensures { result ≡ date_shown a }
{
    match a {
        Ok(d) => Moment {
            refusal: 0,
            figure: 0,
            year: d.year,
            month: d.month,
            day: d.day,
            ms: 0,
        },
        Err(r) => Moment::from(r),
    }
}

pub fn of_instant(a: Result<Instant, Refusal>) -> One
    ensures { result ≡ instant_shown a }
{
    match a {
        Ok(t) => One {
            refusal: 0,
            figure: 0,
            value: t.ms,
        },
        Err(r) => One::from(r),
    }
}

pub fn of_moment(a: Result<calendar::Moment, Refusal>) -> Moment
    ensures { result ≡ moment_shown a }
{
    match a {
        Ok(m) => Moment {
            refusal: 0,
            figure: 0,
            year: m.date.year,
            month: m.date.month,
            day: m.date.day,
            ms: m.ms,
        },
        Err(r) => Moment::from(r),
    }
}

fn of_content(c: Content) -> Examined
    ensures { result ≡ content_shown c }
{
    let terms = clip(c.terms);
    let wide = i64::from(c.wide);
    Examined {
        refusal: 0,
        figure: 0,
        terms,
        wide,
    }
}

pub fn of_checked(a: Result<Content, Refusal>) -> Examined
    ensures { result ≡ checked_shown a }
{
    match a {
        Ok(c) => of_content(c),
        Err(r) => Examined::from(r),
    }
}

pub fn of_text(a: Outcome) -> One
    ensures { result ≡ text_shown a }
{
    match a {
        Outcome::More(n) => counted(n as u64),
        Outcome::Accepted(n) => counted(n as u64),
        Outcome::Refused(r) => One::from(r),
    }
}

// 1 once a text has ended and is accepted, else 0.
fn accepted(a: Outcome) -> i64
    ensures { result ≡ accepted a }
{
    match a {
        Outcome::More(_) => 0,
        Outcome::Accepted(_) => 1,
        Outcome::Refused(_) => 0,
    }
}

// What stands of a text that comes in pieces.
pub fn of_standing(a: Outcome) -> Standing
    ensures { result ≡ standing_shown a }
{
    let written = of_text(a);
    let accepted = accepted(a);
    Standing {
        refusal: written.refusal,
        figure: written.figure,
        length: written.value,
        accepted,
    }
}

// What comes with the verdict on a mended text: the packed length, or the refusal's figure.
fn verdict_place(a: Outcome) -> i64
    ensures { result ≡ verdict_place a }
{
    match a {
        Outcome::More(n) => clip(n as u64),
        Outcome::Accepted(n) => clip(n as u64),
        Outcome::Refused(r) => clipped_figure(r),
    }
}

fn of_clean(c: Clean) -> Mended
    ensures { result ≡ clean_shown c }
{
    let outcome = c.verdict;
    let judged = of_text(outcome);
    let length = clip(c.length as u64);
    let changes = clip(c.changes as u64);
    let place = verdict_place(outcome);
    Mended {
        refusal: 0,
        figure: 0,
        length,
        changes,
        verdict: judged.refusal,
        place,
    }
}

pub fn of_mending(a: Result<Clean, Refusal>) -> Mended
    ensures { result ≡ mending_shown a }
{
    match a {
        Ok(c) => of_clean(c),
        Err(r) => Mended::from(r),
    }
}

pub fn of_printed(a: Result<usize, Refusal>) -> One
    ensures { result ≡ printed_shown a }
{
    match a {
        Ok(n) => counted(n as u64),
        Err(r) => One::from(r),
    }
}

pub fn of_list(a: Result<u64, Refusal>) -> One
    ensures { result ≡ list_shown a }
{
    match a {
        Ok(n) => counted(n),
        Err(r) => One::from(r),
    }
}

// Two answers of three numbers: each names its own fields.
pub fn of_coordinates(a: Result<Coordinates, Refusal>) -> Three
    ensures { result ≡ coordinates_shown a }
{
    match a {
        Ok(c) => Three {
            refusal: 0,
            figure: 0,
            first: c.longitude,
            second: c.latitude,
            third: c.radius,
        },
        Err(r) => Three::from(r),
    }
}

pub fn of_place(a: Result<Equatorial, Refusal>) -> Three
    ensures { result ≡ place_shown a }
{
    match a {
        Ok(p) => Three {
            refusal: 0,
            figure: 0,
            first: p.right_ascension,
            second: p.declination,
            third: p.distance,
        },
        Err(r) => Three::from(r),
    }
}

// Of a refusal that is known by its number alone.
pub fn of_numbered_mount(a: Result<MountPlace, u64>) -> Doubles
    ensures { result ≡ mount_numbered a }
{
    match a {
        Ok(p) => Doubles {
            refusal: 0,
            first: p.right_ascension,
            second: p.declination,
            third: p.distance,
        },
        Err(number) => Doubles {
            refusal: number,
            first: 0.0,
            second: 0.0,
            third: 0.0,
        },
    }
}

pub fn of_mount(a: Result<MountPlace, Refusal>) -> Doubles
    ensures { result ≡ mount_shown a }
{
    match a {
        Ok(p) => of_numbered_mount(Ok(p)),
        Err(r) => of_numbered_mount(Err(r.number())),
    }
}
