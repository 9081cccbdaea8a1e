// The pass that writes the mended text and the list of its changes, each into a buffer with room. For this crate alone.
ghost use Rattle.std.specs.Prelude.{◌≡◌, [], ◌∷◌, ◌+◌, ◌-◌, ◌≤◌, ◌<◌, length};
ghost use Rattle.std.proofs.lemmas.List.Edits.{sets};
ghost use Rattle.mending.specs.Rule.{left, listed, mended, changes, numbers};
ghost use Rattle.mending.specs.Machine.Runs.{spared, drops, run_bytes, run_numbers, Room, Wrote};
ghost use Rattle.mending.specs.Machine.Passes.{plain_left, Ready, Stays, Feeds, Copied, Came, next_byte};
ghost use Rattle.mending.specs.Machine.Kinds.{kind_number};

use crate::{CHANGE_NUMBERS, is_blank, next_byte};

// What is done to a byte that does not stay as it is, by its number in the list; specs/Rule.antt has both as drop_kind and space_kind.
#[derive(Clone, Copy)]
enum Kind {
    Dropped = 0,
    Spaced = 1,
}

impl Kind {
    fn number(self) -> u64
        ensures { result ≡ kind_number self }
    {
        self as u64
    }
}

// Where the next byte goes in the text, and the next number in the list.
#[derive(Clone, Copy)]
pub struct Place {
    pub at: usize,
    pub slot: usize,
}

// What is written before a byte, up to a place. begun: its line holds a byte before from that stays. The blanks from from on are held back.
#[derive(Clone, Copy)]
pub struct Writing {
    pub begun: bool,
    pub from: usize,
    pub place: Place,
}

// A change, from slot on: the offset of its byte in the input, then its kind. Answers the slot after it.
fn put_change(list: &mut [u64], slot: usize, offset: usize, kind: Kind) -> usize
    requires { Room (offset ∷ kind_number kind ∷ []) slot list.old }
    ensures { Wrote (offset ∷ kind_number kind ∷ []) slot list.old result list.new }
{
    list[slot] = offset as u64;
    list[slot + 1] = kind.number();
    slot + CHANGE_NUMBERS
}

// The run of blanks from from up to end, which is dropped.
fn list_run(from: usize, end: usize, list: &mut [u64], slot: usize) -> usize
    requires { (from ≤ end) × Room (numbers (drops from (end - from))) slot list.old }
    ensures { Wrote (numbers (drops from (end - from))) slot list.old result list.new }
{
    let mut next = slot;
    for i in from..end {
        next = put_change(list, next, i, Kind::Dropped);
    }
    next
}

// The bytes above a space from byte i on: none of them is dropped or changed. Answers the index after the last.
fn put_plain(text: &[u8], i: usize, out: &mut [u8], at: usize) -> usize
    requires { (i ≤ length text.now) × Room (plain_left text.now i) at out.old }
    ensures { Copied text.now i at out.old result (at + (result - i)) out.new }
{
    // One loop, which finds and copies: `copy_from_slice` is a call of `memmove`, a name that the archive for C then asks of its user.
    for j in i..text.len() {
        let byte = text[j];
        if byte <= b' ' {
            return j;
        }
        out[at + (j - i)] = byte;
    }
    text.len()
}

impl Place {
    // After a blank that stays: a tab becomes a space, and that is a change. Here and below out and list are no struct that holds both: each
    // function would have to promise as well that both fields still are the references that were lent, and would name each through it.
    fn put_blank(self, byte: u8, offset: usize, out: &mut [u8], list: &mut [u64]) -> Place
        requires { Room (left (spared byte) byte) self.at out.old × Room (numbers (listed offset (spared byte))) self.slot list.old }
        ensures { Wrote (left (spared byte) byte) self.at out.old result.at out.new
            × Wrote (numbers (listed offset (spared byte))) self.slot list.old result.slot list.new }
    {
        let at = self.at + 1;
        if byte == b'\t' {
            out[self.at] = b' ';
            let slot = put_change(list, self.slot, offset, Kind::Spaced);
            return Place { at, slot };
        }
        out[self.at] = byte;
        Place { at, ..self }
    }
}

impl Writing {
    // Where the run of blanks that is held back before byte end is written, and stays.
    fn put_run(self, text: &[u8], end: usize, out: &mut [u8], list: &mut [u64]) -> Place
        requires { (self.from ≤ end) × (end ≤ length text.now)
            × Room (run_bytes text.now self.from end) self.place.at out.old × Room (run_numbers text.now self.from end) self.place.slot list.old }
        ensures { Wrote (run_bytes text.now self.from end) self.place.at out.old result.at out.new
            × Wrote (run_numbers text.now self.from end) self.place.slot list.old result.slot list.new }
    {
        let mut place = self.place;
        for i in self.from..end {
            place = place.put_blank(text[i], i, out, list);
        }
        place
    }

    // After byte i, which stays: the run before it stays too, and the bytes after it that are above a space go with it.
    fn put_word(self, text: &[u8], i: usize, out: &mut [u8], list: &mut [u64]) -> Writing
        requires { Ready text.now self i out.old list.old × Stays text.now i }
        ensures { Came text.now self out.old list.old result result.from out.new list.new × (i < result.from) }
    {
        let Place { at, slot } = self.put_run(text, i, out, list);
        out[at] = text[i];
        let from = put_plain(text, i + 1, out, at + 1);
        Writing {
            begun: true,
            from,
            place: Place {
                at: at + (from - i),
                slot,
            },
        }
    }

    // After byte i, a line feed: the run before it is dropped, and so is the line feed of a line where nothing stays.
    fn end_line(self, text: &[u8], i: usize, out: &mut [u8], list: &mut [u64]) -> Writing
        requires { Ready text.now self i out.old list.old × Feeds text.now i }
        ensures { Came text.now self out.old list.old result result.from out.new list.new × (i < result.from) }
    {
        let at = self.place.at;
        let slot = list_run(self.from, i, list, self.place.slot);
        let place = if self.begun {
            out[at] = text[i];
            Place { at: at + 1, slot }
        } else {
            let slot = put_change(list, slot, i, Kind::Dropped);
            Place { at, slot }
        };
        Writing {
            begun: false,
            from: i + 1,
            place,
        }
    }

    // After byte i: a blank is held back, and any other byte decides what becomes of the run before it.
    fn after(self, text: &[u8], i: usize, out: &mut [u8], list: &mut [u64]) -> Writing
        requires { Ready text.now self i out.old list.old × (i < length text.now) }
        ensures { Came text.now self out.old list.old result (next_byte result.from i) out.new list.new }
    {
        match text[i] {
            b'\n' => self.end_line(text, i, out, list),
            // Each field by itself, as counting.rt says.
            byte if is_blank(byte) => Writing {
                begun: self.begun,
                ..self
            },
            _ => self.put_word(text, i, out, list),
        }
    }
}

// Writes a whole text and its list. The blanks at its end stay, tabs as spaces.
pub fn write(text: &[u8], out: &mut [u8], list: &mut [u64])
    requires { Room (mended text.now) 0 out.old × Room (numbers (changes text.now)) 0 list.old }
    ensures { (out.new ≡ sets out.old 0 (mended text.now))
        × (list.new ≡ sets list.old 0 (numbers (changes text.now))) }
{
    let mut w = Writing {
        begun: false,
        from: 0,
        place: Place { at: 0, slot: 0 },
    };
    let mut i = 0;
    // An index and not a `for`: a step may take a whole word.
    while i < text.len() {
        w = w.after(text, i, out, list);
        i = next_byte(w.from, i);
    }
    w.put_run(text, i, out, list);
}
