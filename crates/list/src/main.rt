// Prints the minutes at which a planet stands too near the Sun, seen from Earth (RULES, "Sun list" and "Programs"):
//     list PLANET EARTH YEAR MONTH DAY HOUR MINUTE MINUTES KEEP-OUT
// PLANET and EARTH are files of packed series of up to 24,576 bytes each, the date and time are TD, the keep-out is in arcminutes.
#![tactic(auto)]

use list_lines::list_of_arguments;
use std::io;

fn main(rt: HostRuntime) -> io::Result<()> {
    list_of_arguments(&rt, 1)
}
