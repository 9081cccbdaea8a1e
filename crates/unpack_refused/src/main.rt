// The program `unpack` on a packed series with a byte after its end, for its stored case: nothing comes on standard output.
#![tactic(auto)]

use std::io;
use unpacking::unpack_input;

fn main(rt: HostRuntime) -> io::Result<()> {
    unpack_input(&mut rt.stdin(), &mut rt.stdout(), &mut rt.stderr())
}
