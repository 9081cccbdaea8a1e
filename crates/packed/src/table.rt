// The one walk over a packed series: it judges every number and fills a term table. For the crates above.
ghost use Rattle.std.specs.Prelude.{◌≡◌, length, get_or, replicate, ◌-◌, ◌<◌, ◌≤◌};
ghost use Rattle.units.specs.Units.{series_limit, block_count};
ghost use Rattle.packed_numbers.specs.Machine.Answers.{shown, at_offset};
ghost use Rattle.limits.specs.Limits.{added, summed, after_block};
ghost use Rattle.limits.specs.Machine.Magnitudes.{factor_limit};
ghost use Rattle.packed.specs.Series.{read_term, read_terms, read_block, parse, checked};
ghost use Rattle.packed.specs.Machine.Table.{packed_at, ends, unpacked};
ghost use Rattle.packed.specs.Machine.Answers.{Begun, stored, filled};

use crate::Content;
use crate::terms::{read_term_at, sizes};
use crate::wide::is_wide;
use limits::{Tally, block_factor};
use packed_numbers::quick::PackedTerm;
use packed_numbers::{Found, number_at};
use units::{BLOCK_COUNT, Refusal, SERIES_LIMIT};

const TERM_ROWS: usize = SERIES_LIMIT as usize;

pub const END_ROWS: usize = BLOCK_COUNT as usize;

pub type Terms = [PackedTerm; TERM_ROWS];

// A term table: the terms as they are packed, a and c folded, and for each block the place where it ends.
#[derive(Clone, Copy)]
pub struct Table {
    pub terms: Terms,
    pub ends: [u64; END_ROWS],
}

// Reads the term at an offset into place k. Here and below: the tally with what was read.
fn take_term(
    bytes: &[u8],
    at: usize,
    f: u64,
    tally: Tally,
    k: usize,
    terms: &mut Terms,
) -> Result<Found<Tally>, Refusal>
    requires { (f ≤ factor_limit) × (k < series_limit) }
    ensures { (result ≡ shown (added f tally) (at_offset (read_term f tally) at bytes.now))
        × (terms.new ≡ stored k (at_offset (read_term f tally) at bytes.now) terms.old) }
{
    let t = read_term_at(bytes, at, f, tally)?;
    terms[k] = t.value;
    Ok(Found {
        value: tally.add_term(f, sizes(t.value)),
        next: t.next,
    })
}

// Reads the terms of a block, from place from on, up to the number of terms declared.
fn take_terms(
    bytes: &[u8],
    at: usize,
    f: u64,
    tally: Tally,
    from: usize,
    terms: &mut Terms,
) -> Result<Found<Tally>, Refusal>
    requires { Begun f tally from }
    ensures { (result ≡ shown (summed f tally) (at_offset (read_terms (tally.terms - from) f tally) at bytes.now))
        × filled from (at_offset (read_terms (tally.terms - from) f tally) at bytes.now) terms.old terms.new }
{
    let mut read = Found {
        value: tally,
        next: at,
    };
    for k in from..tally.terms as usize {
        read = take_term(bytes, read.next, f, read.value, k, terms)?;
    }
    Ok(read)
}

// Reads block k, from the place where the terms so far end.
fn take_block(
    bytes: &[u8],
    at: usize,
    k: usize,
    tally: Tally,
    terms: &mut Terms,
) -> Result<Found<Tally>, Refusal>
    ensures { (result ≡ shown (after_block k tally) (at_offset (read_block k tally) at bytes.now))
        × filled tally.terms (at_offset (read_block k tally) at bytes.now) terms.old terms.new }
{
    let count = number_at(bytes, at)?;
    if !tally.count_fits(count.value) {
        return Err(Refusal::OverLimit(count.next - 1));
    }
    let f = block_factor(k as u64);
    let opened = tally.open_block(k as u64, count.value);
    take_terms(bytes, count.next, f, opened, tally.terms as usize, terms)
}

impl Table {
    // A table of no term.
    pub fn new() -> Table
        ensures { ends result ≡ replicate block_count 0 }
    {
        Table {
            terms: [PackedTerm { a: 0, b: 0, c: 0 }; TERM_ROWS],
            ends: [0; END_ROWS],
        }
    }

    // Reads a packed series. The answer is what it holds, or the refusal; after a refusal the table holds nothing that can be
    // relied on.
    pub fn unpack(&mut self, bytes: &[u8]) -> Result<Content, Refusal>
        ensures { (result ≡ checked (parse bytes.now)) × unpacked (parse bytes.now) self.new }
    {
        let mut tallies = [Tally::empty(); END_ROWS];
        let mut read = Found {
            value: Tally::empty(),
            next: 0,
        };
        for k in 0..END_ROWS {
            read = take_block(bytes, read.next, k, read.value, &mut self.terms)?;
            self.ends[k] = read.value.terms;
            tallies[k] = read.value;
        }
        if read.next < bytes.len() {
            return Err(Refusal::ByteAfterEnd(read.next));
        }
        Ok(Content {
            terms: read.value.terms,
            wide: is_wide(&tallies),
        })
    }

    // The term at place k, as it is packed.
    pub fn term(&self, k: usize) -> PackedTerm
        requires { k < series_limit }
        ensures { result ≡ packed_at self.now k }
    {
        self.terms[k]
    }

    // The places where the blocks end, in order.
    pub fn ends(&self) -> &[u64; END_ROWS]
        ensures { (result.now ≡ ends self.now) × (length (ends self.now) ≡ block_count) }
    {
        &self.ends
    }

    // The place where block k ends: the first that is no longer its own.
    pub fn block_end(&self, k: usize) -> u64
        requires { k < block_count }
        ensures { result ≡ get_or (ends self.now) k 0 }
    {
        self.ends[k]
    }
}
