// What both programs read, and how they answer it: the segment file, bytes until the lent room is full or the input ends, and the input
// part by part. No contract can say which bytes a call of the system reads or writes, so those here speak of the bytes that a reader
// has left and a writer holds, where they are known.
#![tactic(auto)]

ghost use Rattle.std.specs.Prelude.{ℕ, List, ◌≡◌, eqb, ◌<◌, ◌≤◌, ◌^◌, length, take, IfOk, OnOk, MatchResult};
ghost use Rattle.intake.specs.Parts.{InputAnswered};
ghost use Rattle.std.specs.Io.KnownBytes.{Appends, Consumes, IsAtEnd};

use std::fs::File;
use std::io;
use std::io::{Error, ErrorKind, Read, Write};
use std::rt::Files;

// A read failed, when so many bytes had come.
#[derive(Clone, Copy, Debug, PartialEq, Eq)]
pub struct FailedAfter(pub usize);

// What went wrong, on standard error; there is nobody to tell that this failed too.
fn tell<R: Eprint>(rt: &R, name: &[u8], error: &Error) {
    let _ = match str::from_utf8(name) {
        Ok(text) => eprintln!(rt; "{text}: {error}"),
        Err(_) => eprintln!(rt; "{}: {error}", name.escape_ascii()),
    };
}

// Reads until the room is full, the input ends or a read fails, which it says on standard error: how many bytes came, with which the room
// then begins. By hand, since std's `read_exact` and `read_to_end` say little of what came before a failed read, and a `for` would count
// what nobody needs. The name is bytes, which need be no text.
pub fn fill<R: Eprint, T: Read>(
    rt: &R,
    from: &mut T,
    name: &[u8],
    room: &mut [u8],
) -> Result<usize, FailedAfter>
    ensures within { MatchResult result (λ n. n ≤ length room.new) (λ e. e.0 ≤ length room.new) }
    ensures bytes { MatchResult result (λ n. Consumes (T.remaining from.old) (T.remaining from.new) (take n room.new))
        (λ e. Consumes (T.remaining from.old) (T.remaining from.new) (take e.0 room.new)) }
    ensures ended { IfOk result (λ n. n < length room.new → IsAtEnd (T.remaining from.new)) }
{
    let mut count: usize = 0;
    while count < room.len() {
        match from.read(&mut room[count..]) {
            Ok(0) => return Ok(count),
            Ok(n) => count += n,
            Err(e) => {
                tell(rt, name, &e);
                return Err(FailedAfter(count));
            }
        }
    }
    Ok(count)
}

// The file "segments" of the current folder: how many bytes of it are in the room. Missing means empty. One that is there and cannot
// be read is said on standard error and counts as a file that breaks a rule, since none of one byte is sound.
pub fn segment_file<R: Files + Eprint>(rt: &R, room: &mut [u8]) -> usize
    ensures { result ≤ length room.new }
{
    if room.is_empty() {
        return 0;
    }
    match File::open(rt, "segments") {
        Ok(mut file) => fill(rt, &mut file, b"segments", room).unwrap_or(1),
        Err(e) if e.kind() == ErrorKind::NotFound => 0,
        Err(e) => {
            tell(rt, b"segments", &e);
            1
        }
    }
}

// What a program does with a part of the input: it writes the lines for it into the room, and says how many bytes they are. What the
// lines have to do with the part, and with the program before and after it, each program says.
pub trait Answers {
    ghost goes: { Self → List ℕ → List ℕ → Self → Type 0 };

    fn answer(&mut self, input: &[u8], out: &mut [u8; 65536]) -> usize
        ensures within { result ≤ 65536 }
        ensures lines { goes self.old input.now (take result out.new) self.new };
}

// One part of the input, answered, and whether it was whole, so that there may be more. What came before a failed read counts.
fn serve_part<const N: usize, R: Eprint, I: Read, O: Write, A: Answers>(
    rt: &R,
    from: &mut I,
    to: &mut O,
    by: &mut A,
) -> io::Result<bool>
    requires { N < 2 ^ 32 }
    ensures { IfOk result (λ whole. (part : List ℕ) × (lines : List ℕ) × Consumes (I.remaining from.old) (I.remaining from.new) part
        × Appends (O.contents to.old) (O.contents to.new) lines × (length part ≤ N) × (whole ≡ eqb (length part) N) × A.goes by.old part lines by.new) }
{
    let mut input = [0u8; N];
    let n = fill(rt, from, b"standard input", &mut input).unwrap_or_else(|e| e.0);
    let mut out = [0u8; 65536];
    let end = by.answer(&input[..n], &mut out);
    to.write_all(&out[..end])?;
    Ok(n == N)
}

// The input in parts of N bytes, to one that is shorter. A proved loop has to end, and nothing says that the input does: it goes on for
// as many parts as no run uses up.
pub fn serve<const N: usize, R: Eprint, I: Read, O: Write, A: Answers>(
    rt: &R,
    from: &mut I,
    to: &mut O,
    by: &mut A,
) -> io::Result<()>
    requires { N < 2 ^ 32 }
    ensures { OnOk result (InputAnswered A.goes N (I.remaining from.old) (I.remaining from.new) (O.contents to.old) (O.contents to.new) by.old by.new) }
{
    for _ in 0..u64::MAX {
        if !serve_part::<N, R, I, O, A>(rt, from, to, by)? {
            break;
        }
    }
    Ok(())
}
