// Reads a packed series on standard input and writes its plain text on standard output, or why it is no series on standard error.
#![tactic(auto)]

use std::io;
use unpacking::unpack_input;

fn main(rt: HostRuntime) -> io::Result<()> {
    unpack_input(&mut rt.stdin(), &mut rt.stdout(), &mut rt.stderr())
}
