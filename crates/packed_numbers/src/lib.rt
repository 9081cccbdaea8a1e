// Packed numbers (RULES, "Series, as text and packed"): read, written, folded and unfolded. For the crates above.
#![tactic(auto)]

pub mod quick;

ghost use Rattle.std.specs.Prelude.{◌≡◌, nat_abs, length, MatchResult, ◌+◌, ◌<◌, ◌≤◌};
ghost use Rattle.std.proofs.lemmas.List.Edits.{sets};
ghost use Rattle.packed_numbers.specs.Numbers.{group, groups_from, number, encode, unfolded};
ghost use Rattle.packed_numbers.specs.Machine.Answers.{at_offset, shown, plain, put_answer, put_out};

use units::Refusal;

// A group of seven bits has so many values, and so much does the top bit of a byte come to. specs/Numbers.antt has these names too.
const GROUP: u64 = 128;

// A number has at most so many groups, and before its last one at most one less.
const GROUP_LIMIT: u64 = 9;

const EARLIER_LIMIT: u64 = GROUP_LIMIT - 1;

// What was read, and the offset past its last byte.
#[derive(Clone, Copy)]
pub struct Found<T> {
    pub value: T,
    pub next: usize,
}

// A number of more than one group, whose first one has the value low; its second is at from.
fn long_number(s: &[u8], from: usize, low: u64) -> Result<Found<u64>, Refusal>
    requires { (low < group) × (from ≤ length s.now) }
    ensures { result ≡ shown plain (at_offset (groups_from 1 low) from s.now) }
{
    let mut k: u64 = 1;
    let mut scale = GROUP;
    let mut value = low;
    for i in from..s.len() {
        let b = u64::from(s[i]);
        if b < GROUP {
            if b == 0 {
                return Err(Refusal::NotShortest(i));
            }
            return Ok(Found {
                value: value + b * scale,
                next: i + 1,
            });
        }
        if EARLIER_LIMIT <= k {
            return Err(Refusal::OverLimit(i));
        }
        value += (b - GROUP) * scale;
        scale *= GROUP;
        k += 1;
    }
    Err(Refusal::EndedEarly(s.len()))
}

// The packed number at an offset. A byte below GROUP is the last.
pub fn number_at(s: &[u8], at: usize) -> Result<Found<u64>, Refusal>
    ensures { result ≡ shown plain (at_offset number at s.now) }
{
    if s.len() <= at {
        return Err(Refusal::EndedEarly(at));
    }
    let b = u64::from(s[at]);
    if b < GROUP {
        return Ok(Found {
            value: b,
            next: at + 1,
        });
    }
    long_number(s, at + 1, b - GROUP)
}

// The whole number that was folded to v.
pub fn unfold_number(v: u64) -> i64
    ensures { result ≡ unfolded v }
{
    let h = (v / 2) as i64;
    if v % 2 == 0 { h } else { -1 - h }
}

// The magnitude of the whole number that was folded to v.
pub fn magnitude(v: u64) -> u64
    ensures { result ≡ nat_abs (unfolded v) }
{
    v / 2 + v % 2
}

// There is no room for so many bytes.
#[derive(Clone, Copy)]
pub struct NoRoom {
    pub needed: usize,
}

// How many groups a number has. No `for` here and below: the number tells where its groups end, and no range or slice does.
pub fn groups_of(v: u64) -> usize
    ensures { result ≡ length (encode v) }
{
    let mut x = v;
    let mut n = 1;
    while GROUP <= x {
        x /= GROUP;
        n += 1;
    }
    n
}

// Writes a number's groups into out from at, where they fit.
pub fn put_groups(v: u64, out: &mut [u8], at: usize) -> usize
    requires { at + length (encode v) ≤ length out.old }
    ensures { (result ≡ at + length (encode v)) × (out.new ≡ sets out.old at (encode v)) }
{
    let mut x = v;
    let mut i = at;
    while GROUP <= x {
        out[i] = (x % GROUP + GROUP) as u8;
        x /= GROUP;
        i += 1;
    }
    out[i] = x as u8;
    i + 1
}

// There is room in out from at for so many bytes, or not. Here and in the writers above the buffer and the place in it are two parameters: a C caller
// lends a buffer of any length, and a struct that holds it asks for a clause more at each step.
pub fn check_room(out: &[u8], at: usize, needed: usize) -> Result<(), NoRoom>
    ensures { MatchResult result (λ _. at + needed ≤ length out.now) (λ e. (length out.now < at + needed) × (e.needed ≡ needed)) }
{
    if out.len() < at || out.len() - at < needed {
        return Err(NoRoom { needed });
    }
    Ok(())
}

// Writes a packed number into out from at, or nothing where there is no room.
pub fn put_number(v: u64, out: &mut [u8], at: usize) -> Result<usize, NoRoom>
    ensures { (result ≡ put_answer v at out.old) × (out.new ≡ put_out v at out.old) }
{
    check_room(out, at, groups_of(v))?;
    Ok(put_groups(v, out, at))
}
