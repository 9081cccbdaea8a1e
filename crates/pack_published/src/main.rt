// The program `pack` on a published file that takes three reads, for its stored case: the first terms of Venus, with some blocks left out.
#![tactic(auto)]

use packing::pack_input;
use std::io;

fn main(rt: HostRuntime) -> io::Result<()> {
    pack_input(&mut rt.stdin(), &mut rt.stdout(), &mut rt.stderr())
}
