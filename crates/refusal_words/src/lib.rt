// Refusals in words, written into a buffer: the one table that all programs print from. For command_line, position_lines and list_lines,
// which have room enough.
#![tactic(auto)]

ghost use Rattle.std.specs.Prelude.{◌≡◌, ◌+◌, ◌≤◌, ◌++◌, length};
ghost use Rattle.units.specs.Refusals.{whole};
ghost use Rattle.decimals.specs.Decimals.{most_digits, signed_decimal};
ghost use Rattle.refusal_words.specs.Words.{words, refusal_text, refusal_most};

use decimals::buffer::Buffer;
use decimals::{LINE_FEED, MOST_DIGITS};
use units::{Figure, Refusal};

pub mod slices;

// Room for any refusal; specs/Words.antt has the same name.
pub const REFUSAL_MOST: usize = 101;

// What is wrong, up to the figure.
#[tactic(auto, unfolding(crate::specs::Words::words, decimals::specs::Texts::text))]
fn words(refusal: Refusal) -> &'static [u8]
    ensures { result.now ≡ words refusal }
{
    match refusal {
        Refusal::NoSuchDate(_) => b"the date does not exist, field ",
        Refusal::PastLimit(_) => b"the instant passes its limit, ",
        Refusal::BadByte(_) => b"a byte cannot continue a line, at ",
        Refusal::OverLimit(_) => b"a number or a count passes its limit, at ",
        Refusal::TotalOverLimit(_) => b"the total of a block passes its limit, at ",
        Refusal::TooCoarse(_) => b"the series is too coarse, at ",
        Refusal::NoRoom(_) => b"the output does not fit, length needed or offset ",
        Refusal::EndedEarly(_) => b"the input ended too early, at ",
        Refusal::ByteAfterEnd(_) => b"a byte follows block 18, at ",
        Refusal::NotShortest(_) => b"a number is not in its shortest form, at ",
        Refusal::NotUsable(_) => b"a place is not usable, minute ",
        Refusal::BadWindow => b"keep-out or minutes out of range, ",
        Refusal::BadHeading(_) => b"a heading is wrong or out of order, at ",
        Refusal::BadNumber(_) => b"a running number is wrong, at ",
        Refusal::TooFar(_) => b"a series is not good that far from 2000, instant ",
    }
}

fn put_figure<const N: usize>(figure: Figure, out: &mut Buffer<N>)
    requires { length out.old + (1 + most_digits) ≤ N }
    ensures { out.new ≡ out.old ++ signed_decimal (whole figure) }
{
    match figure {
        Figure::Count(n) => out.put_decimal(n, MOST_DIGITS),
        Figure::Time(t) => out.put_signed(t.ms),
    }
}

// One line: "refused 2, the instant passes its limit, 126230400000001".
pub fn put_refusal<const N: usize>(refusal: Refusal, out: &mut Buffer<N>)
    requires { length out.old + refusal_most ≤ N }
    ensures { out.new ≡ out.old ++ refusal_text refusal }
{
    out.put(b"refused ");
    out.put_decimal(refusal.number(), MOST_DIGITS);
    out.put(b", ");
    out.put(words(refusal));
    put_figure(refusal.figure(), out);
    out.put_byte(LINE_FEED);
}
