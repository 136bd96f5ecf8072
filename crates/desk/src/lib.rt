// What comes in and what goes out, of document 01, "The run program": a record of 24 bytes and what it asks, and a line of numbers.
// Everything here is total: a byte past the end of the input is 0, and past the end of the lent room nothing is written.
#![tactic(auto)]

ghost use Rattle.std.specs.Prelude.{◌≡◌, ◌+◌, ◌<◌, ◌^◌, ◌≤◌, length, take};
ghost use Rattle.desk.specs.Records.{fields_at, asked_of, kind_of};
ghost use Rattle.desk.specs.Lines.{digits, line, shown, written};

use lent::put;
use octets::{byte, word};
use rules::{Outcome, Request, Ring};

// ---- What comes in

// "kind; start ring, fault or stack; instruction; zero; five 4-byte numbers", as numbers: any are read, and number 17 says which are in
// order.
#[derive(Clone, Copy)]
pub struct Fields {
    pub kind: u32,
    pub whom: u32,
    pub instruction: u32,
    pub zero: u32,
    pub n1: u32,
    pub n2: u32,
    pub n3: u32,
    pub n4: u32,
    pub n5: u32,
}

// What a record asks: "0 start, 1 crossing, 2 write".
#[derive(Clone, Copy, Debug, PartialEq, Eq)]
pub enum Asked {
    Start(Ring),
    Cross(Request),
    Write(Ring, u32, u32),
}

// A record that is not in order: number 17.
#[derive(Clone, Copy, Debug, PartialEq, Eq)]
pub struct Wrong;

// The record that begins at a byte of the input.
#[tactic(auto, unfolding(crate::specs::Records::fields_at))]
pub fn read_record(b: &[u8], at: u32) -> Fields
    ensures { result ≡ fields_at b.now at }
{
    let k = at as usize;
    Fields {
        kind: byte(b, k).into(),
        whom: byte(b, k + 1).into(),
        instruction: byte(b, k + 2).into(),
        zero: byte(b, k + 3).into(),
        n1: word(b, k + 4),
        n2: word(b, k + 8),
        n3: word(b, k + 12),
        n4: word(b, k + 16),
        n5: word(b, k + 20),
    }
}

// What a record asks. It is in order where the kind is at most 2, and the zero byte and every field that the kind doesn't use are zero.
#[tactic(auto, unfolding(crate::specs::Records::asked_of, crate::specs::Records::is_wrong, crate::specs::Records::unused_zero))]
impl TryFrom<Fields> for Asked {
    type Error = Wrong;

    ghost try_from_gives = { λ x r. r ≡ asked_of x };

    fn try_from(x: Fields) -> Result<Self, Wrong> {
        let numbers = [x.n1, x.n2, x.n3, x.n4, x.n5];
        match (x.kind, x.zero, x.instruction, numbers) {
            (0, 0, 0, [0, 0, 0, 0, 0]) => Ok(Asked::Start(Ring(x.whom))),
            (1, 0, instruction, [frame, place, running, target, offset]) => {
                let fault = x.whom;
                Ok(Asked::Cross(Request {
                    fault,
                    instruction,
                    frame,
                    place,
                    running,
                    target,
                    offset,
                }))
            }
            (2, 0, 0, [offset, value, 0, 0, 0]) => Ok(Asked::Write(Ring(x.whom), offset, value)),
            _ => Err(Wrong),
        }
    }
}

// The kind that the line shows: "for a 17, kind is 9". A function, since no `From` may be written of a `Result` into a number.
pub fn kind_of(asked: Result<Asked, Wrong>) -> u32
    ensures { result ≡ kind_of asked }
{
    match asked {
        Ok(Asked::Start(_)) => 0,
        Ok(Asked::Cross(_)) => 1,
        Ok(Asked::Write(_, _, _)) => 2,
        Err(Wrong) => 9,
    }
}

// ---- What goes out

// The digits of a number are written from a place on; what is given back is the place after them. Digit by digit, since std promises
// which bytes `write!` gives only where it answers `Ok`, and not that it does. The kit's `itoa` gives them, but its statements would be one
// thing more that the proofs rest on (docs/TRUST.md).
fn put_number(out: &mut [u8], at: usize, n: u32) -> usize
    requires { at < 2 ^ 33 }
    ensures value { result ≡ at + length (digits n) }
    ensures out_after { out.new ≡ written out.old at (digits n) }
{
    let next = if n < 10 {
        at
    } else {
        put_number(out, at, n / 10)
    };
    put(out, next, b'0' + (n % 10) as u8);
    next + 1
}

// A line of at most 64 numbers: a blank where another number follows, a newline at the end.
fn put_numbers(out: &mut [u8], at: usize, numbers: &[u32]) -> usize
    requires { (at < 2 ^ 32) × (length numbers.now ≤ 64) }
    ensures value { result ≡ at + length (line numbers.now) }
    ensures out_after { out.new ≡ written out.old at (line numbers.now) }
{
    let mut here = at;
    for (i, n) in numbers.iter().enumerate() {
        let next = put_number(out, here, *n);
        let after = if i + 1 < numbers.len() { b' ' } else { b'\n' };
        put(out, next, after);
        here = next + 1;
    }
    here
}

// "kind, number, reason, ring, open, made, serial, segment, offset, frame, argument place".
#[tactic(auto, unfolding(crate::specs::Lines::shown))]
pub fn numbers_of(kind: u32, made: u32, o: Outcome) -> [u32; 11]
    ensures { result ≡ shown kind made o }
{
    [
        kind,
        o.answer.number,
        o.answer.reason,
        o.process.ring.0,
        o.process.calls,
        made,
        o.process.serial,
        o.answer.segment,
        o.answer.offset,
        o.answer.frame,
        o.answer.place,
    ]
}

// A line of numbers, of more than 64 the first 64, is written from a place on; what is given back is the place after it. Room and place
// are two parameters, since this contract and those of the two functions above speak of each.
#[tactic(auto, using(crate::proofs::Laws::first_of))]
pub fn put_line(out: &mut [u8], at: u32, numbers: &[u32]) -> usize
    ensures value { result ≡ at + length (line (take 64 numbers.now)) }
    ensures out_after { out.new ≡ written out.old at (line (take 64 numbers.now)) }
{
    put_numbers(out, at as usize, &numbers[..numbers.len().min(64)])
}
