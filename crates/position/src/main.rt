// Prints the apparent place of a planet, seen from Earth, in the frame of the star catalogues (RULES, "Places" and "Programs"):
//     position PLANET EARTH YEAR MONTH DAY HOUR MINUTE SECOND
// PLANET and EARTH are files of packed series, the time is TD.
#![tactic(auto)]

use position_lines::place_of_arguments;
use std::io;

fn main(rt: HostRuntime) -> io::Result<()> {
    place_of_arguments(&rt, 1)
}
