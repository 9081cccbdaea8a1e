// The pass that counts: how many bytes and how many changes a text takes. For this crate alone.
ghost use Rattle.std.specs.Prelude.{◌≡◌, ◌≤◌, ◌<◌, length, leb, position};
ghost use Rattle.series_lines.specs.Grammar.{space};
ghost use Rattle.mending.specs.Rule.{mended, changes};
ghost use Rattle.mending.specs.Machine.Passes.{no_run, Counted, Plain, next_byte};

use crate::{is_blank, next_byte};

// The length of the mended text, and how many changes it takes.
#[derive(Clone, Copy)]
pub struct Counts {
    pub length: usize,
    pub changes: usize,
}

// The counts before a byte. begun: its line holds a byte before from that stays. The blanks from from on are held back; tabs of them are tabs.
#[derive(Clone, Copy)]
pub struct Counting {
    pub begun: bool,
    pub from: usize,
    pub tabs: usize,
    pub length: usize,
    pub changes: usize,
}

// Where the first byte stands that is not above a space.
fn first_low(text: &[u8]) -> Option<usize>
    ensures { result ≡ position (λ x. leb x space) text.now }
{
    text.iter().position(|byte| *byte <= b' ')
}

// The index after the bytes above a space that stand from byte i on: none of them is dropped or changed.
pub fn past_plain(text: &[u8], i: usize) -> usize
    requires { i ≤ length text.now }
    ensures { Plain text.now i result }
{
    let rest = &text[i..];
    i + first_low(rest).unwrap_or(rest.len())
}

impl Counting {
    // Where no blanks are held back.
    fn no_run(begun: bool, from: usize, length: usize, changes: usize) -> Counting
        ensures { result ≡ no_run begun from length changes }
    {
        Counting {
            begun,
            from,
            tabs: 0,
            length,
            changes,
        }
    }

    // After byte i, and after the bytes above a space that go with one that stays.
    fn after(self, text: &[u8], i: usize) -> Counting
        requires { Counted text.now self i × (i < length text.now) }
        ensures { Counted text.now result (next_byte result.from i) }
    {
        let Counting {
            length,
            changes,
            ..
        } = self;
        let run = i - self.from;
        match text[i] {
            b'\t' => Counting {
                tabs: self.tabs + 1,
                ..self
            },
            b'\n' if self.begun => Counting::no_run(false, i + 1, length + 1, changes + run),
            b'\n' => Counting::no_run(false, i + 1, length, changes + run + 1),
            // Each field by itself: a copy of the whole takes the unused bytes beside `begun` along, and then a text is counted in 1.7 times the time.
            byte if is_blank(byte) => Counting {
                begun: self.begun,
                ..self
            },
            _ => {
                let next = past_plain(text, i + 1);
                Counting::no_run(true, next, length + (next - self.from), changes + self.tabs)
            }
        }
    }
}

// Counts a whole text. The blanks at its end stay, tabs as spaces.
pub fn count(text: &[u8]) -> Counts
    ensures { (result.length ≡ length (mended text.now)) × (result.changes ≡ length (changes text.now)) }
{
    let mut c = Counting::no_run(false, 0, 0, 0);
    let mut i = 0;
    // An index and not a `for`: a step may take a whole word.
    while i < text.len() {
        c = c.after(text, i);
        i = next_byte(c.from, i);
    }
    Counts {
        length: c.length + (i - c.from),
        changes: c.changes + c.tabs,
    }
}
