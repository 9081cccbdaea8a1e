// Thirteen runs of the program `list` in one, for its stored cases: each 9 arguments are a run.
#![tactic(auto)]

use list_lines::list_of_arguments;
use std::io;

const RUNS: usize = 13;

const ARGUMENTS: usize = 9;

fn main(rt: HostRuntime) -> io::Result<()> {
    for run in 0..RUNS {
        list_of_arguments(&rt, 1 + ARGUMENTS * run)?;
    }
    Ok(())
}
