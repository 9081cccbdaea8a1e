// A line of three numbers as seven plain fields, read byte by byte: for callers that keep a line in a form of their own. Any values of the fields
// are a state. Each call goes through the reader.
ghost use Rattle.std.specs.Prelude.{◌≡◌, ◌+◌, ◌*◌, ◌≤◌, ◌++◌, length};
ghost use Rattle.date_lines.specs.Replies.{reply_limit};
ghost use Rattle.date_lines.specs.States.{fault_named, state_reply, reading_unless_empty, StateAnswered, StateAnsweredByte, StateAnsweredLast};
ghost use Rattle.date_lines.specs.States.{state_fresh, state_take, state_reading, fault_number, state_of, reading_of, line_of};

use crate::reader::{self, Fault, Line};
use crate::reply::put_reply;
use calendar::Date;
use decimals::buffer::Buffer;
use decimals::{LINE_FEED, NINE_DIGIT, ZERO_DIGIT};

// specs/States.antt has the same constants under the same names.

// What may be wrong with a line.
const FAULT_EMPTY: u64 = 1;

const FAULT_BYTE: u64 = 2;

const FAULT_SPACE: u64 = 3;

const FAULT_LARGE: u64 = 4;

const FAULT_FEW: u64 = 5;

const FAULT_MANY: u64 = 6;

// No reply is longer; specs/Replies.antt has the same name.
const REPLY_LIMIT: usize = 40;

// What a line has said so far: its first fault, or 0; how many of its numbers have ended; the year and the month once they have;
// and of the number that is being read whether it has a minus, whether it has a digit, and its magnitude.
#[derive(Clone, Copy)]
pub struct State {
    pub fault: u64,
    pub count: u64,
    pub year: i64,
    pub month: i64,
    pub minus: bool,
    pub digits: bool,
    pub value: u64,
}

// What a whole line says: its three numbers, or its first fault.
#[derive(Clone, Copy)]
pub enum Reading {
    Three(i64, i64, i64),
    Bad(u64),
}

// The number of a fault.
fn fault_number(fault: Fault) -> u64
    ensures { result ≡ fault_number fault }
{
    match fault {
        Fault::Empty => FAULT_EMPTY,
        Fault::Byte => FAULT_BYTE,
        Fault::Space => FAULT_SPACE,
        Fault::Large => FAULT_LARGE,
        Fault::Few => FAULT_FEW,
        Fault::Many => FAULT_MANY,
    }
}

// A line in these fields.
fn state_of(line: Result<Line, Fault>) -> State
    ensures { result ≡ state_of line }
{
    match line {
        Ok(l) => State {
            fault: 0,
            count: l.count,
            year: l.year,
            month: l.month,
            minus: l.minus,
            digits: l.value.is_some(),
            value: l.value.unwrap_or(0),
        },
        Err(f) => State {
            fault: fault_number(f),
            count: 0,
            year: 0,
            month: 0,
            minus: false,
            digits: false,
            value: 0,
        },
    }
}

// What a line says at its end, in numbers.
fn reading_of(said: Result<Date, Fault>) -> Reading
    ensures { result ≡ reading_of said }
{
    match said {
        Ok(d) => Reading::Three(d.year, d.month, d.day),
        Err(f) => Reading::Bad(fault_number(f)),
    }
}

// A line before its first byte.
pub fn start() -> State
    ensures { result ≡ state_fresh }
{
    state_of(reader::start())
}

impl State {
    // The line of these fields, which have no fault, with such a magnitude.
    fn line(self, value: Option<u64>) -> Line
        ensures { result ≡ line_of self value }
    {
        Line {
            count: self.count,
            year: self.year,
            month: self.month,
            minus: self.minus,
            value,
        }
    }
}

// One byte of the line. A digit goes on from the magnitude, whether it had a digit or not.
pub fn take_byte(s: State, b: u8) -> State
    ensures { result ≡ state_take s b }
{
    if s.fault != 0 {
        return s;
    }
    if s.digits || (ZERO_DIGIT <= b && b <= NINE_DIGIT) {
        return state_of(reader::take_byte(Ok(s.line(Some(s.value))), b));
    }
    state_of(reader::take_byte(Ok(s.line(None)), b))
}

// The end of the line.
#[tactic(auto, unfolding(crate::specs::States::state_reading, crate::specs::Lines::reading))]
pub fn whole(s: State) -> Reading
    ensures { result ≡ state_reading s }
{
    if s.fault != 0 {
        return Reading::Bad(s.fault);
    }
    let value = if s.digits { Some(s.value) } else { None };
    reading_of(reader::whole(Ok(s.line(value))))
}

// How far the input has been read and answered: the line that is being read, and where in the output the next reply goes.
#[derive(Clone, Copy)]
pub struct Progress {
    pub line: State,
    pub at: usize,
}

// The fault of a number.
#[tactic(auto, unfolding(crate::specs::States::fault_named))]
fn fault_named(f: u64) -> Fault
    ensures { result ≡ fault_named f }
{
    match f {
        FAULT_EMPTY => Fault::Empty,
        FAULT_BYTE => Fault::Byte,
        FAULT_SPACE => Fault::Space,
        FAULT_LARGE => Fault::Large,
        FAULT_FEW => Fault::Few,
        _ => Fault::Many,
    }
}

// Writes the reply to a line.
#[tactic(auto, unfolding(crate::specs::States::state_reply))]
fn put_said<const N: usize>(said: Reading, out: &mut Buffer<N>)
    requires { length out.old + reply_limit ≤ N }
    ensures { out.new ≡ out.old ++ state_reply said }
{
    match said {
        Reading::Three(year, month, day) => put_reply(Ok(Date { year, month, day }), out),
        Reading::Bad(f) => put_reply(Err(fault_named(f)), out),
    }
}

// Writes the reply to a last line without its line feed.
fn put_last<const N: usize>(said: Reading, out: &mut Buffer<N>)
    requires { length out.old + reply_limit ≤ N }
    ensures { out.new ≡ out.old ++ reading_unless_empty said }
{
    match said {
        Reading::Three(..) => put_said(said, out),
        Reading::Bad(f) => {
            if f != FAULT_EMPTY {
                put_said(said, out);
            }
        }
    }
}

// One byte of the input.
fn answer_byte(line: State, b: u8, out: &mut [u8], at: usize) -> Progress
    requires { at + reply_limit ≤ length out.old }
    ensures { StateAnsweredByte line b out.old at result out.new }
{
    if b == LINE_FEED {
        let mut reply = Buffer::<REPLY_LIMIT>::new();
        put_said(whole(line), &mut reply);
        return Progress {
            line: start(),
            at: reply.put_into(out, at),
        };
    }
    Progress {
        line: take_byte(line, b),
        at,
    }
}

// A piece of the input: the replies to the lines that end in it, from the start of the output.
pub fn answer_piece(line: State, piece: &[u8], out: &mut [u8]) -> Progress
    requires { reply_limit * length piece.now ≤ length out.old }
    ensures { StateAnswered line piece.now out.old result out.new }
{
    let mut so_far = Progress { line, at: 0 };
    for b in piece {
        so_far = answer_byte(so_far.line, *b, out, so_far.at);
    }
    so_far
}

// The end of the input: the reply to a last line without its line feed.
pub fn answer_last(line: State, out: &mut [u8]) -> usize
    requires { reply_limit ≤ length out.old }
    ensures { StateAnsweredLast line out.old result out.new }
{
    let mut reply = Buffer::<REPLY_LIMIT>::new();
    put_last(whole(line), &mut reply);
    reply.put_into(out, 0)
}
