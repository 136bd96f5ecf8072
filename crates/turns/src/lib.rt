// The run program on slices: what one record does to the lent store and the record, and the lines of an input: document 01, "The
// run program". The program around it only reads and writes.
#![tactic(auto)]

ghost use Rattle.std.specs.Prelude.{◌≡◌, ◌+◌, ◌≤◌, length, take};
ghost use Rattle.gatekeeper.specs.Entries.{state};
ghost use Rattle.desk.specs.Lines.{written};
ghost use Rattle.turns.specs.Turns.{zero_process, wrong_outcome, turn_outcome, turn_memory, line_of, run_state, run_text, answered_by};

use desk::{Asked, Wrong};
use rules::{Answer, Entry, Outcome, Process, Ring};

// ---- One record

// "Before a start the record is all zero": its five fields, for the reason that gatekeeper gives at `start_record`.
pub fn zero_record() -> Process
    ensures { result ≡ zero_process }
{
    Process {
        ring: Ring(0),
        made: 0,
        serial: 0,
        calls: 0,
        entries: [Entry::default(); 32],
    }
}

// Number 17, the run program's own, changes nothing.
fn wrong(p: Process) -> Outcome
    ensures { result ≡ wrong_outcome p }
{
    Outcome {
        process: p,
        answer: Answer {
            number: 17,
            ..Answer::places(0, 0, 0, 0)
        },
    }
}

// What is asked is done.
#[tactic(auto, unfolding(crate::specs::Turns::turn_outcome, crate::specs::Turns::turn_memory, rules::specs::Step::outcome, rules::specs::Step::memory_after, rules::specs::Step::reach_verdict))]
pub fn turn(file: &[u8], s: &mut [u32], p: Process, asked: Result<Asked, Wrong>) -> Outcome
    ensures value { result ≡ turn_outcome file.now (state s.old p) asked }
    ensures s_after { s.new ≡ turn_memory file.now (state s.old p) asked }
{
    match asked {
        Ok(Asked::Start(ring)) => gatekeeper::start(s, p, ring),
        Ok(Asked::Cross(q)) => gatekeeper::cross(file, s, p, q),
        Ok(Asked::Write(stack, at, value)) => gatekeeper::write(s, p, stack, at, value),
        Err(Wrong) => wrong(p),
    }
}

// The line of a step is written from a place on; what is given back is the place after it.
#[tactic(auto, unfolding(crate::specs::Turns::line_of, desk::specs::Lines::shown))]
fn put_turn(out: &mut [u8], at: u32, asked: Result<Asked, Wrong>, o: Outcome) -> usize
    ensures value { result ≡ at + length (line_of asked o) }
    ensures out_after { out.new ≡ written out.old at (line_of asked o) }
{
    let made = gatekeeper::stacks_made(o.process);
    let numbers = desk::numbers_of(desk::kind_of(asked), made, o);
    desk::put_line(out, at, &numbers)
}

// ---- An input

// The record after some input, and how many bytes were written for it.
#[derive(Clone, Copy)]
pub struct Answered {
    pub process: Process,
    pub at: usize,
}

// The run program on an input, of more than 12,288 bytes the first 12,288: all that it writes, at the start of the lent room, and
// the store and the record after it. The room that every such input has enough of is 65,536 bytes.
pub fn answer(file: &[u8], s: &mut [u32], p: Process, input: &[u8], out: &mut [u8]) -> Answered
    ensures value { result ≡ answered_by file.now (state s.old p) (take 12288 input.now) }
    ensures at_bound { result.at ≤ 65536 }
    ensures out_after { out.new ≡ written out.old 0 (run_text file.now (state s.old p) (take 12288 input.now)) }
    ensures s_after { s.new ≡ (run_state file.now (state s.old p) (take 12288 input.now)).memory }
{
    let taken = &input[..input.len().min(12288)];
    let mut process = p;
    let mut at = 0;
    for record in taken.chunks_exact(24) {
        let asked = Asked::try_from(desk::read_record(record, 0));
        let o = turn(file, s, process, asked);
        at = put_turn(out, at as u32, asked, o);
        process = o.process;
    }
    // "1 to 23 bytes are left": one line of 17 more.
    if taken.len() % 24 != 0 {
        at = put_turn(out, at as u32, Err(Wrong), wrong(process));
    }
    Answered { process, at }
}
