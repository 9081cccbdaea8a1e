// The runs of listed minutes of a window, from whether each minute is listed. For the crates above.
#![tactic(auto)]

ghost use Rattle.std.specs.Prelude.{◌≡◌, ◌+◌, ◌≤◌, ◌<◌, length, drop, replicate};
ghost use Rattle.std.proofs.lemmas.List.Edits.{sets};
ghost use Rattle.runs.specs.Runs.{first_listed, run_ends, run_numbers, most_minutes};
ghost use Rattle.runs.specs.Machine.Ends.{ends_at};

// A window has at most so many minutes; specs/Runs.antt has the same name.
pub const MOST_MINUTES: u64 = 1440;

// Whether minute i is listed; past the window's end none is.
#[tactic(auto, using(crate::proofs::WindowLoops::listed_at, crate::proofs::WindowLoops::listed_past))]
fn is_listed(window: &[bool], i: usize) -> bool
    ensures { result ≡ first_listed (drop i window.now) }
{
    i < window.len() && window[i]
}

// How many ends of runs a minute is: one where it begins a run, one where it ends one.
#[tactic(auto, unfolding(crate::specs::Runs::run_ends))]
fn count_ends(before: bool, here: bool, after: bool) -> usize
    ensures { (result ≡ length (run_ends 0 before here after)) × (result ≤ 2) }
{
    match (before, here, after) {
        (_, false, _) | (true, true, true) => 0,
        (true, true, false) | (false, true, true) => 1,
        (false, true, false) => 2,
    }
}

// The same of minute i of a window.
fn count_at(window: &[bool], i: usize) -> usize
    requires { i < length window.now }
    ensures { (result ≡ length (ends_at window.now i)) × (result ≤ 2) }
{
    let before = i != 0 && is_listed(window, i - 1);
    let here = is_listed(window, i);
    let after = is_listed(window, i + 1);
    count_ends(before, here, after)
}

// How many numbers the runs of a window take.
pub fn count(window: &[bool]) -> usize
    requires { length window.now ≤ most_minutes }
    ensures { result ≡ length (run_numbers window.now) }
{
    let mut n = 0;
    for i in 0..window.len() {
        n += count_at(window, i);
    }
    n
}

// Writes minute i into out from at, as often as it is an end of a run. Each store stands by itself, and no `fill`: so a wrong last minute is refused
// by what the clause says of it.
fn put_ends(out: &mut [u64], at: usize, ends: usize, i: usize)
    requires { (ends ≤ 2) × (at + ends ≤ length out.old) }
    ensures { out.new ≡ sets out.old at (replicate ends i) }
{
    match ends {
        0 => {}
        1 => out[at] = i as u64,
        _ => {
            out[at] = i as u64;
            out[at + 1] = i as u64;
        }
    }
}

// Writes the runs of a window into out, from its start; the rest of out stays as it was.
pub fn write(window: &[bool], out: &mut [u64])
    requires { length (run_numbers window.now) ≤ length out.old }
    ensures { out.new ≡ sets out.old 0 (run_numbers window.now) }
{
    let mut at = 0;
    for i in 0..window.len() {
        let ends = count_at(window, i);
        put_ends(out, at, ends, i);
        at += ends;
    }
}
