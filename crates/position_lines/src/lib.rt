// The position program's work: prints the apparent place of a planet, seen from Earth (RULES, "Places" and "Programs"):
//     position PLANET EARTH YEAR MONTH DAY HOUR MINUTE SECOND
// PLANET and EARTH are files of packed series, the time is TD. A line each for right ascension, declination and distance, in degrees or AU
// and in the library's own whole numbers; or a refusal, its number, words and figure.
#![tactic(auto)]

mod answer;
mod lines;

ghost use Rattle.std.specs.Prelude.{◌≤◌};
ghost use Rattle.command_line.specs.Machine.Arguments.{first_limit};

use crate::answer::{moment_of, put_position};
use crate::lines::PLACE_MOST;
use command_line::arguments::three_arguments;
use command_line::files::{PACKED_ROOM, first_bytes, read_both};
use command_line::moments::Moment;
use decimals::buffer::Buffer;
use std::env::Env;
use std::fs::Files;
use std::io;

// What the arguments from YEAR on ask for, where PLANET is argument `first`.
fn time_asked(rt: &impl Env, first: usize) -> Option<Moment>
    requires { first ≤ first_limit }
{
    let date = three_arguments(rt, first + 2)?;
    let clock = three_arguments(rt, first + 5)?;
    Some(moment_of(date, clock))
}

// The eight arguments from `first` on, answered on standard output.
// Not one function with `list_of_arguments`: it would take both rooms, the usage and the work as parameters, and each program would pass
// as much as it has here.
pub fn place_of_arguments<R: Env + Files + Print>(rt: &R, first: usize) -> io::Result<()>
    requires { first ≤ first_limit }
{
    // The rooms stand first: behind a return they would be cleared twice.
    let mut planet = [0u8; PACKED_ROOM];
    let mut earth = [0u8; PACKED_ROOM];
    let mut text = Buffer::<PLACE_MOST>::new();
    let Some(when) = time_asked(rt, first) else {
        return rt.write_all(b"position PLANET EARTH YEAR MONTH DAY HOUR MINUTE SECOND\n");
    };
    let Some((m, n)) = read_both(rt, first, &mut planet, &mut earth)? else {
        return Ok(());
    };
    put_position(
        first_bytes(&planet, m),
        first_bytes(&earth, n),
        when,
        &mut text,
    );
    rt.write_all(text.text())
}
