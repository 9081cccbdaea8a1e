// Reads a packed series on standard input and writes its plain text on standard output; or writes on standard error, in one line, why it is
// no series: the number of the refusal, what is wrong, and where. For the program unpack and its further case.
#![tactic(auto)]

ghost use Rattle.unpacking.specs.Input.{Roomy, AnswersAny};

use command_line::files::{PACKED_ROOM, read_full, write_first};
use command_line::words::write_refusal;
use printer::TEXT_LIMIT;
use std::io;
use std::io::{Read, Write};
use units::Refusal;

// The text of the input, of which the first n packed bytes are all or, where they fill the buffer, the beginning: whatever follows,
// the whole input is then refused as they are, by the theorem `decided` of packed_promises/proofs/Theorems.antt.
// The buffer with n, and not its first n bytes alone: only where these fill it may more have come.
fn text_of(packed: &[u8], n: usize, text: &mut [u8]) -> Result<usize, Refusal>
    requires { Roomy n packed.now text.old }
    ensures { AnswersAny n packed.now text.old result text.new }
{
    printer::print(&packed[..n], text)
}

// Writes the text of the input, or why there is none.
fn convert<W: Write, E: Write>(
    output: &mut W,
    errors: &mut E,
    packed: &[u8],
    n: usize,
    text: &mut [u8],
) -> io::Result<()>
    requires { Roomy n packed.now text.old }
{
    match text_of(packed, n, text) {
        Ok(k) => write_first(output, text, k),
        Err(refusal) => write_refusal(errors, refusal),
    }
}

// There is room for every series and its text.
pub fn unpack_input<R: Read, W: Write, E: Write>(
    input: &mut R,
    output: &mut W,
    errors: &mut E,
) -> io::Result<()> {
    let mut packed = [0u8; PACKED_ROOM];
    let mut text = [0u8; TEXT_LIMIT];
    let n = read_full(input, &mut packed);
    convert(output, errors, &packed, n, &mut text)
}
