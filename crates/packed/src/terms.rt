// The numbers of a packed series read and judged, up to a whole term. For this crate alone. Bytes and offset go apart, as the definitions have them
// (`at_offset`): each step says the offset past what it read.
ghost use Rattle.std.specs.Prelude.{◌≡◌, true, ◌≤◌};
ghost use Rattle.packed_numbers.specs.Numbers.{folded, unfolded};
ghost use Rattle.packed_numbers.specs.Machine.Answers.{shown, plain, at_offset};
ghost use Rattle.limits.specs.Limits.{a_fits};
ghost use Rattle.limits.specs.Machine.Magnitudes.{factor_limit};
ghost use Rattle.packed.specs.Series.{read_a, read_b, read_c, read_term};
ghost use Rattle.packed.specs.Machine.Answers.{packed_term, packed_sizes};

use limits::{Sizes, Tally, a_fits, b_fits, c_fits};
use packed_numbers::quick::{PackedTerm, quick_term};
use packed_numbers::{Found, magnitude, number_at};
use units::Refusal;

// The sizes of the numbers of a term that is packed.
pub fn sizes(t: PackedTerm) -> Sizes
    ensures { result ≡ packed_sizes t }
{
    Sizes {
        a: magnitude(t.a),
        b: t.b,
        c: magnitude(t.c),
    }
}

// The number a at an offset: 4 past its limit, 5 past the block's total.
fn read_a(bytes: &[u8], at: usize, tally: Tally) -> Result<Found<u64>, Refusal>
    ensures { result ≡ shown folded (at_offset (read_a tally) at bytes.now) }
{
    let n = number_at(bytes, at)?;
    let m = magnitude(n.value);
    if !a_fits(m) {
        return Err(Refusal::OverLimit(n.next - 1));
    }
    if !tally.total_fits(m) {
        return Err(Refusal::TotalOverLimit(n.next - 1));
    }
    Ok(n)
}

// The number b at an offset.
fn read_b(bytes: &[u8], at: usize) -> Result<Found<u64>, Refusal>
    ensures { result ≡ shown plain (at_offset read_b at bytes.now) }
{
    let n = number_at(bytes, at)?;
    if !b_fits(n.value) {
        return Err(Refusal::OverLimit(n.next - 1));
    }
    Ok(n)
}

// The number c at an offset, after a and b: 4 past its limit, 6 where the term makes the coordinate too coarse.
fn read_c(
    bytes: &[u8],
    at: usize,
    f: u64,
    tally: Tally,
    a: u64,
    b: u64,
) -> Result<Found<u64>, Refusal>
    requires { (f ≤ factor_limit) × (a_fits (unfolded a) ≡ true) }
    ensures { result ≡ shown folded (at_offset (read_c f tally (unfolded a) b) at bytes.now) }
{
    let n = number_at(bytes, at)?;
    let m = magnitude(n.value);
    if !c_fits(m) {
        return Err(Refusal::OverLimit(n.next - 1));
    }
    let term = Sizes {
        a: magnitude(a),
        b,
        c: m,
    };
    if !tally.coarse_fits(f, term) {
        return Err(Refusal::TooCoarse(n.next - 1));
    }
    Ok(n)
}

// The term at an offset, in a block with this factor, after this tally: a number at a time, of any length.
fn read_term_slowly(
    bytes: &[u8],
    at: usize,
    f: u64,
    tally: Tally,
) -> Result<Found<PackedTerm>, Refusal>
    requires { f ≤ factor_limit }
    ensures { result ≡ shown packed_term (at_offset (read_term f tally) at bytes.now) }
{
    let a = read_a(bytes, at, tally)?;
    let b = read_b(bytes, a.next)?;
    let c = read_c(bytes, b.next, f, tally, a.value, b.value)?;
    Ok(Found {
        value: PackedTerm {
            a: a.value,
            b: b.value,
            c: c.value,
        },
        next: c.next,
    })
}

// The term at an offset, in a block with this factor, after this tally. The slow way's answer is taken apart and made again,
// so that the compiler need not keep the quick way's in memory.
pub fn read_term_at(
    bytes: &[u8],
    at: usize,
    f: u64,
    tally: Tally,
) -> Result<Found<PackedTerm>, Refusal>
    requires { f ≤ factor_limit }
    ensures { result ≡ shown packed_term (at_offset (read_term f tally) at bytes.now) }
{
    if let Some(quick) = quick_term(bytes, at) {
        if tally.term_may_come(f, sizes(quick.value)) {
            return Ok(quick);
        }
    }
    let slow = read_term_slowly(bytes, at, f, tally)?;
    Ok(slow)
}
