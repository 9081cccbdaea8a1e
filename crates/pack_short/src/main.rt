// The program `pack` on a text that one read takes in, for its stored case.
#![tactic(auto)]

use packing::pack_input;
use std::io;

fn main(rt: HostRuntime) -> io::Result<()> {
    pack_input(&mut rt.stdin(), &mut rt.stdout(), &mut rt.stderr())
}
