// Reads a series on standard input, as a text or as a published file, and writes its packed form on standard output, or why it is no series on
// standard error. An input whose first line has a heading's digits in their columns is a published file, and said to be one.
// The stored case, about the first half of each block of Venus, takes three reads.
#![tactic(auto)]

use packing::pack_input;
use std::io;

fn main(rt: HostRuntime) -> io::Result<()> {
    pack_input(&mut rt.stdin(), &mut rt.stdout(), &mut rt.stderr())
}
