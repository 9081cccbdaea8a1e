// Nineteen runs of the program `position` in one, for its stored cases: each 8 arguments are a run.
#![tactic(auto)]

use position_lines::place_of_arguments;
use std::io;

const RUNS: usize = 19;

const ARGUMENTS: usize = 8;

fn main(rt: HostRuntime) -> io::Result<()> {
    for run in 0..RUNS {
        place_of_arguments(&rt, 1 + ARGUMENTS * run)?;
    }
    Ok(())
}
