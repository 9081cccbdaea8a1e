// The program `pack` on a text that is refused at the first term of its third block, for its stored case: nothing comes on standard output,
// of the first two blocks neither.
#![tactic(auto)]

use packing::pack_input;
use std::io;

fn main(rt: HostRuntime) -> io::Result<()> {
    pack_input(&mut rt.stdin(), &mut rt.stdout(), &mut rt.stderr())
}
