// The numbers of a term at their usual lengths, read without a loop: a in one to three bytes, b in five or six, c in seven or
// eight. What has another length, or is to be refused, is left to the reader of any number. For the crates above.
ghost use Rattle.std.specs.Prelude.{◌≡◌, length, IfSome, get_or, ◌+◌, ◌<◌, ◌≤◌, ◌^◌};
ghost use Rattle.packed_numbers.specs.Numbers.{group};
ghost use Rattle.packed_numbers.specs.Machine.Usual.{usual_groups, tops, Begun, Usual, UsualTerm};

use crate::{Found, GROUP};

// A term as it is packed: a and c folded.
#[derive(Clone, Copy)]
pub struct PackedTerm {
    pub a: u64,
    pub b: u64,
    pub c: u64,
}

// The scale of the next group after two, four or six, and what the top bits of so many groups come to.
const SCALE_2: u64 = GROUP * GROUP;

const SCALE_4: u64 = SCALE_2 * SCALE_2;

const SCALE_6: u64 = SCALE_4 * SCALE_2;

const TOPS_2: u64 = GROUP + GROUP * GROUP;

const TOPS_4: u64 = TOPS_2 + SCALE_2 * TOPS_2;

const TOPS_6: u64 = TOPS_4 + SCALE_4 * TOPS_2;

// The bytes of a term whose three numbers have eight groups each.
const USUAL_TERM: usize = 3 * 8;

fn byte_at(s: &[u8], i: usize) -> u64
    requires { i < length s.now }
    ensures { (result ≡ get_or s.now i 0) × (result < 256) }
{
    u64::from(s[i])
}

// What the bytes of the first k groups and of two more come to, with their top bits, where none of them is the last. Here and below the sums
// are worked before the tests, so that they need not wait for them.
fn two_more(s: &[u8], at: usize, k: usize, scale: u64, sum: u64) -> Option<u64>
    requires { Begun s.now at k sum × (scale ≡ group ^ k) × (k ≤ 6) × (at + usual_groups ≤ length s.now) }
    ensures { IfSome result (λ both. Begun s.now at (k + 2) both) }
{
    let x = byte_at(s, at + k);
    let y = byte_at(s, at + k + 1);
    let both = sum + x * scale + y * (GROUP * scale);
    if x < GROUP {
        return None;
    }
    if y < GROUP {
        return None;
    }
    Some(both)
}

// The number of which k groups are read, where it has one group more or two; top is what their top bits come to.
fn end_soon(s: &[u8], at: usize, k: usize, scale: u64, top: u64, sum: u64) -> Option<Found<u64>>
    requires { Begun s.now at k sum × (scale ≡ group ^ k) × (top ≡ tops k) × (k ≤ 6) × (at + usual_groups ≤ length s.now) }
    ensures { IfSome result (λ n. Usual s.now at n.value n.next) }
{
    let x = byte_at(s, at + k);
    let y = byte_at(s, at + k + 1);
    let one = sum + x * scale;
    let two = one + y * (GROUP * scale);
    if x < GROUP {
        if x == 0 {
            return None;
        }
        return Some(Found {
            value: one - top,
            next: at + k + 1,
        });
    }
    if y == 0 {
        return None;
    }
    if GROUP <= y {
        return None;
    }
    Some(Found {
        value: two - (top + GROUP * scale),
        next: at + k + 2,
    })
}

// The number a, in one to three groups.
fn quick_a(s: &[u8], at: usize) -> Option<Found<u64>>
    requires { at + usual_groups ≤ length s.now }
    ensures { IfSome result (λ n. Usual s.now at n.value n.next) }
{
    let x = byte_at(s, at);
    if x < GROUP {
        return Some(Found {
            value: x,
            next: at + 1,
        });
    }
    end_soon(s, at, 1, GROUP, GROUP, x)
}

// The first four groups of a number, none of them the last.
fn first_four(s: &[u8], at: usize) -> Option<u64>
    requires { at + usual_groups ≤ length s.now }
    ensures { IfSome result (λ four. Begun s.now at 4 four) }
{
    let two = two_more(s, at, 0, 1, 0)?;
    two_more(s, at, 2, SCALE_2, two)
}

// The number b, in five or six groups.
fn quick_b(s: &[u8], at: usize) -> Option<Found<u64>>
    requires { at + usual_groups ≤ length s.now }
    ensures { IfSome result (λ n. Usual s.now at n.value n.next) }
{
    let four = first_four(s, at)?;
    end_soon(s, at, 4, SCALE_4, TOPS_4, four)
}

// The number c, in seven or eight groups.
fn quick_c(s: &[u8], at: usize) -> Option<Found<u64>>
    requires { at + usual_groups ≤ length s.now }
    ensures { IfSome result (λ n. Usual s.now at n.value n.next) }
{
    let four = first_four(s, at)?;
    let six = two_more(s, at, 4, SCALE_4, four)?;
    end_soon(s, at, 6, SCALE_6, TOPS_6, six)
}

// The term at an offset, where its numbers have the usual lengths and the bytes of a usual term are left.
pub fn quick_term(s: &[u8], at: usize) -> Option<Found<PackedTerm>>
    ensures { IfSome result (λ t. UsualTerm s.now at t.value.a t.value.b t.value.c t.next) }
{
    if s.len() < USUAL_TERM || s.len() - USUAL_TERM < at {
        return None;
    }
    let a = quick_a(s, at)?;
    let b = quick_b(s, a.next)?;
    let c = quick_c(s, b.next)?;
    Some(Found {
        value: PackedTerm {
            a: a.value,
            b: b.value,
            c: c.value,
        },
        next: c.next,
    })
}
