// Files of packed series in, and bytes out. For the programs.
ghost use Rattle.std.specs.Prelude.{◌≡◌, ◌≤◌, length, take, OnOk};
ghost use Rattle.std.specs.Io.KnownBytes.{Appends};
ghost use Rattle.command_line.specs.Machine.Arguments.{argument_limit};

use std::env::Env;
use std::fs::{File, Files};
use std::io::{Read, Write};
use std::{io, str};
use units::SERIES_LIMIT;

// Room for any packed series: a term has at most 8, 6 and 9 packed bytes, and each of the 18 counts at most 2.
pub const PACKED_ROOM: usize = 24 * SERIES_LIMIT as usize;

// The bytes that a file's name may have; the system opens no file of a longer name.
const NAME_MOST: usize = 4096;

// Reads once, and answers how many bytes came at the start of the buffer: none where the input ended, or where the read failed, which counts as
// its end.
pub fn read_piece<R: Read>(from: &mut R, into: &mut [u8]) -> usize
    ensures { result ≤ length into.new }
{
    match from.read(into) {
        Ok(n) => n,
        Err(_) => 0,
    }
}

// Reads until the buffer is full or the input ends, and answers how many bytes came at its start.
pub fn read_full<R: Read>(from: &mut R, into: &mut [u8]) -> usize
    ensures { result ≤ length into.new }
{
    // A `while` and not a `for`: a turn reads as many bytes as come.
    let mut done = 0;
    while done < into.len() {
        let n = read_piece(from, &mut into[done..]);
        if n == 0 {
            break;
        }
        done += n;
    }
    done
}

fn no_file(rt: &impl Print, whose: &[u8]) -> io::Result<Option<usize>> {
    rt.write_all(b"no file for ")?;
    rt.write_all(whose)?;
    rt.write_all(b"\n")?;
    Ok(None)
}

// Reads the file that argument i names, the series of this body, into a buffer that is longer than any file that is taken, and answers how many
// bytes it had; or that it was not read, which is then told on standard output.
fn read_series<R: Env + Files + Print>(
    rt: &R,
    i: usize,
    whose: &[u8],
    into: &mut [u8],
) -> io::Result<Option<usize>> {
    let mut name = [0u8; NAME_MOST];
    let Ok(n) = rt.arg(i, &mut name) else {
        return no_file(rt, whose);
    };
    let Ok(path) = str::from_utf8(&name[..n]) else {
        return no_file(rt, whose);
    };
    let Ok(mut file) = File::open(rt, path) else {
        return no_file(rt, whose);
    };
    let got = read_full(&mut file, into);
    if into.len() <= got {
        rt.write_all(b"too long\n")?;
        return Ok(None);
    }
    Ok(Some(got))
}

// Reads the files that argument `first` and the next one name, the planet's series and Earth's, and answers how many bytes each had; or that one
// was not read. It fails only where what is told cannot be written.
pub fn read_both<R: Env + Files + Print>(
    rt: &R,
    first: usize,
    planet: &mut [u8],
    earth: &mut [u8],
) -> io::Result<Option<(usize, usize)>>
    requires { first ≤ argument_limit }
{
    let Some(m) = read_series(rt, first, b"the planet", planet)? else {
        return Ok(None);
    };
    let Some(n) = read_series(rt, first + 1, b"Earth", earth)? else {
        return Ok(None);
    };
    Ok(Some((m, n)))
}

// The first n bytes; all, where there are no more.
pub fn first_bytes(bytes: &[u8], n: usize) -> &[u8]
    ensures { result.now ≡ take n bytes.now }
{
    if n <= bytes.len() {
        return &bytes[..n];
    }
    bytes
}

// Writes the first n bytes.
pub fn write_first<W: Write>(to: &mut W, bytes: &[u8], n: usize) -> io::Result<()>
    ensures { OnOk result (Appends (W.contents to.old) (W.contents to.new) (take n bytes.now)) }
{
    to.write_all(first_bytes(bytes, n))
}
