// The writer of a line's packed bytes (refusal 7: no room for them). For the readers, which write a line that was judged, or only count its bytes.
ghost use Rattle.std.specs.Prelude.{◌≡◌, Bool, true, false, length, ◌+◌, ◌≤◌, ◌<◌, leb};
ghost use Rattle.std.proofs.lemmas.List.Edits.{sets};
ghost use Rattle.units.specs.Units.{c_limit};
ghost use Rattle.packed_numbers.specs.Machine.Answers.{put_or};
ghost use Rattle.packed_numbers.specs.Numbers.{encode, folded};
ghost use Rattle.packed.specs.Series.{pack_term};
ghost use Rattle.series_lines.specs.Judge.{signed, term_on_line};
ghost use Rattle.series_lines.specs.Reader.{last_offset};
ghost use Rattle.series_lines.specs.Machine.Writer.{three_packed};
ghost use Rattle.series_lines.specs.Machine.Modes.{kept_answer, kept_out};

use crate::{LAST_OFFSET, Line};
use packed_numbers::{NoRoom, check_room, groups_of, put_groups, put_number};

// A decimal folded: its parts twice, less one below zero.
fn fold(minus: u64, value: u64) -> u64
    requires { value < c_limit }
    ensures { result ≡ folded (signed minus value) }
{
    (2 * value).saturating_sub(minus.min(1))
}

// The three numbers of a term as its packed form has them.
#[derive(Clone, Copy)]
struct Numbers {
    a: u64,
    b: u64,
    c: u64,
}

impl Numbers {
    // Those of a line's term: a and c are folded.
    #[tactic(auto, unfolding(packed::specs::Series::pack_term))]
    fn of_line(l: Line) -> Numbers
        requires { (l.a < c_limit) × (l.value < c_limit) }
        ensures { three_packed result.a result.b result.c ≡ pack_term (term_on_line l) }
    {
        Numbers {
            a: fold(l.minusa, l.a),
            b: l.b,
            c: fold(l.minus, l.value),
        }
    }

    // How many bytes they have.
    #[tactic(auto, using(crate::proofs::WrittenTerm::length_three, packed_numbers::proofs::Encode::encode_short))]
    fn length(self) -> usize
        ensures { result ≡ length (three_packed self.a self.b self.c) }
    {
        groups_of(self.a) + groups_of(self.b) + groups_of(self.c)
    }

    // Writes them from at, where they fit.
    fn put(self, out: &mut [u8], at: usize) -> usize
        requires { at + length (three_packed self.a self.b self.c) ≤ length out.old }
        ensures { (result ≡ at + length (three_packed self.a self.b self.c))
            × (out.new ≡ sets out.old at (three_packed self.a self.b self.c)) }
    {
        let at_b = put_groups(self.a, out, at);
        let at_c = put_groups(self.b, out, at_b);
        put_groups(self.c, out, at_c)
    }
}

// What a reader does with the packed bytes of a line that was judged: a text that is packed has them written, one that is only judged has them
// counted.
pub trait Sink {
    // It writes.
    ghost writes: { Bool };

    // Writes a count from at, or nothing where there is no room; or only counts its bytes.
    fn put_count(v: u64, out: &mut [u8], at: usize) -> Result<usize, NoRoom>
        ensures { (result ≡ kept_answer writes (encode v) at out.old) × (out.new ≡ kept_out writes (encode v) at out.old) };

    // The same of a term.
    fn put_term(l: Line, out: &mut [u8], at: usize) -> Result<usize, NoRoom>
        requires { (l.a < c_limit) × (l.value < c_limit) }
        ensures { (result ≡ kept_answer writes (pack_term (term_on_line l)) at out.old)
            × (out.new ≡ kept_out writes (pack_term (term_on_line l)) at out.old) };
}

// They are written.
pub struct Written;

impl Sink for Written {
    ghost writes = { true };

    #[tactic(auto, using(crate::proofs::WrittenTerm::number_put), unfolding(crate::specs::Machine::Modes::has_room, crate::specs::Machine::Modes::kept_out))]
    fn put_count(v: u64, out: &mut [u8], at: usize) -> Result<usize, NoRoom> {
        put_number(v, out, at)
    }

    fn put_term(l: Line, out: &mut [u8], at: usize) -> Result<usize, NoRoom> {
        let numbers = Numbers::of_line(l);
        check_room(out, at, numbers.length())?;
        Ok(numbers.put(out, at))
    }
}

// They are counted: there is room for as many as can be.
pub struct Counted;

impl Counted {
    // Past at.
    fn past(n: usize, at: usize) -> Result<usize, NoRoom>
        ensures { result ≡ put_or (at + n) n (leb (at + n) last_offset) }
    {
        if LAST_OFFSET - at < n {
            return Err(NoRoom { needed: n });
        }
        Ok(at + n)
    }
}

#[tactic(auto, unfolding(crate::specs::Machine::Modes::has_room, crate::specs::Machine::Modes::kept_out))]
impl Sink for Counted {
    ghost writes = { false };

    fn put_count(v: u64, _out: &mut [u8], at: usize) -> Result<usize, NoRoom> {
        Counted::past(groups_of(v), at)
    }

    fn put_term(l: Line, _out: &mut [u8], at: usize) -> Result<usize, NoRoom> {
        Counted::past(Numbers::of_line(l).length(), at)
    }
}
