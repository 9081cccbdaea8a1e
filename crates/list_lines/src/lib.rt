// The list program's work: prints the minutes at which a planet stands too near the Sun, seen from Earth (RULES, "Sun list" and "Programs"):
//     list PLANET EARTH YEAR MONTH DAY HOUR MINUTE MINUTES KEEP-OUT
// PLANET and EARTH are files of packed series of up to 24,576 bytes each, the date and time are TD, the keep-out is in arcminutes.
// A run is one line: its first and last minute, then their clock times. A refusal is its number and its words.
#![tactic(auto)]

mod answer;
mod lines;

ghost use Rattle.std.specs.Prelude.{◌≡◌, ◌≤◌, pos, IfSome};
ghost use Rattle.command_line.specs.Machine.Arguments.{first_limit};

use crate::answer::{Asked, LIST_MOST, put_list};
use command_line::arguments::{number_argument, three_arguments};
use command_line::files::{first_bytes, read_both};
use decimals::buffer::Buffer;
use std::env::Env;
use std::fs::Files;
use std::io;

// The longest file that is taken, and room for a byte more, by which a longer one is known.
const FILE_MOST: usize = 24576;

const ROOM: usize = FILE_MOST + 1;

// What the arguments from YEAR on ask for, where PLANET is argument `first`.
fn window_asked(rt: &impl Env, first: usize) -> Option<Asked>
    requires { first ≤ first_limit }
    ensures { IfSome result (λ asked. asked.from.second ≡ pos 0) }
{
    let date = three_arguments(rt, first + 2)?;
    let window = three_arguments(rt, first + 5)?;
    let keep_out = number_argument(rt, first + 8)?;
    Some(Asked::of(date, window, keep_out))
}

// The nine arguments from `first` on, answered on standard output.
// Not one function with `place_of_arguments`: it would take both rooms, the usage and the work as parameters, and each program would pass
// as much as it has here.
pub fn list_of_arguments<R: Env + Files + Print>(rt: &R, first: usize) -> io::Result<()>
    requires { first ≤ first_limit }
{
    // The rooms stand first: behind a return they would be cleared twice.
    let mut planet = [0u8; ROOM];
    let mut earth = [0u8; ROOM];
    let mut text = Buffer::<LIST_MOST>::new();
    let Some(asked) = window_asked(rt, first) else {
        return rt.write_all(b"list PLANET EARTH YEAR MONTH DAY HOUR MINUTE MINUTES KEEP-OUT\n");
    };
    let Some((m, n)) = read_both(rt, first, &mut planet, &mut earth)? else {
        return Ok(());
    };
    put_list(
        first_bytes(&planet, m),
        first_bytes(&earth, n),
        asked,
        &mut text,
    );
    rt.write_all(text.text())
}
