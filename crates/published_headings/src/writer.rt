// The writer of counts: zeros for the blocks that have no heading, and the count of one (refusal 7: no room for all of them). For the steps of the
// crate published, which write what was judged: at most one zero for each block. The buffer is lent, as packed_numbers::check_room says.
ghost use Rattle.std.specs.Prelude.{◌≡◌, ◌++◌, length, ◌+◌, ◌≤◌};
ghost use Rattle.std.proofs.lemmas.List.Edits.{sets};
ghost use Rattle.units.specs.Units.{block_count};
ghost use Rattle.packed_numbers.specs.Numbers.{encode};
ghost use Rattle.series_lines.specs.Reader.{put_bytes};
ghost use Rattle.series_lines.specs.Machine.Writer.{put_bytes_answer};
ghost use Rattle.published_headings.specs.Judge.{zeros};

use packed_numbers::{NoRoom, check_room, groups_of, put_groups};

// Writes n zeros from at, where they fit.
fn put_zeros(n: usize, out: &mut [u8], at: usize) -> usize
    requires { at + n ≤ length out.old }
    ensures { (result ≡ at + n) × (out.new ≡ sets out.old at (zeros n)) }
{
    let end = at + n;
    out[at..end].fill(0);
    end
}

// Writes n zeros from at, or nothing where there is no room.
pub fn put_missing(n: usize, out: &mut [u8], at: usize) -> Result<usize, NoRoom>
    ensures { (result ≡ put_bytes_answer (zeros n) at out.old) × (out.new ≡ put_bytes (zeros n) at out.old) }
{
    check_room(out, at, n)?;
    Ok(put_zeros(n, out, at))
}

// Writes so many zeros and the count n from at, or nothing where there is no room for all of it.
pub fn put_heading(missing: usize, n: u64, out: &mut [u8], at: usize) -> Result<usize, NoRoom>
    requires { missing ≤ block_count }
    ensures { (result ≡ put_bytes_answer (zeros missing ++ encode n) at out.old)
        × (out.new ≡ put_bytes (zeros missing ++ encode n) at out.old) }
{
    check_room(out, at, missing + groups_of(n))?;
    let next = put_zeros(missing, out, at);
    Ok(put_groups(n, out, next))
}
