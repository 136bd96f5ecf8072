// The gatekeeper's public entries: document 01, "Call", "Return" and "Start, write, look". Each takes the lent store and the process
// record, as the document has them, and is total: every refusal changes nothing and gives zeros as places. What they decide and store
// lies in the crates below.
#![tactic(auto)]

ghost use Rattle.std.specs.Prelude.{◌≡◌, []};
ghost use Rattle.rules.specs.Made.{made_count};
ghost use Rattle.rules.specs.Look.{IsPart};
ghost use Rattle.rules.specs.Step.{starts, crosses, writes, looks, start_next, reach_verdict, outcome, memory_after};
ghost use Rattle.gatekeeper.specs.Entries.{state, look_start, look_length};

use rules::{Answer, Entry, Outcome, Process, Refused, Request, Ring};
use words::Stack;

// "the record has this ring and stack and is otherwise zero". Its five fields, since of a derived default the contract says what each of
// the 32 entries is, and not that they are `replicate 32 zero_entry`.
#[tactic(auto, unfolding(rules::specs::Step::start_next))]
fn start_record(ring: Ring) -> Process
    ensures { result ≡ start_next ring }
{
    Process {
        ring,
        made: made::with_made(0, ring),
        serial: 0,
        calls: 0,
        entries: [Entry::default(); 32],
    }
}

// "Start at a ring, whatever the record was": "returned frame 8, other places 0". The segment file plays no part: [] stands for it.
pub fn start(s: &mut [u32], p: Process, ring: Ring) -> Outcome
    ensures value { result ≡ outcome 63 [] (state s.old p) (starts ring) }
    ensures s_after { s.new ≡ memory_after 63 [] (state s.old p) (starts ring) }
{
    let len = words::stack_length(s);
    let v = judging::judge_start(Ring(63), len, ring);
    let Ok(()) = v else {
        return judging::unchanged(p, v);
    };
    let stack = Stack { len, ring };
    s.fill(0);
    stack.make(s);
    stack.store_word(s, 3, ring.0);
    Outcome {
        process: start_record(ring),
        answer: Answer::places(0, 0, 8, 0),
    }
}

// A crossing: a return by instruction 1, and anything else is judged as a call.
pub fn cross(file: &[u8], s: &mut [u32], p: Process, q: Request) -> Outcome
    ensures value { result ≡ outcome 63 file.now (state s.old p) (crosses q) }
    ensures s_after { s.new ≡ memory_after 63 file.now (state s.old p) (crosses q) }
{
    if q.instruction == 1 {
        return returns::give_back(file, s, p, q);
    }
    calls::call(file, s, p, q)
}

// "Write and look: 1 4 16 15", for some words at an offset of a stack.
#[tactic(auto, unfolding(rules::specs::Step::reach_verdict))]
fn reach(s: &[u32], p: Process, stack: Ring, at: u32, room: u32) -> Result<(), Refused>
    ensures { result ≡ reach_verdict 63 [] (state s.now p) stack at room }
{
    let len = words::stack_length(s);
    let sound = record::process_sound(Ring(63), len, p);
    judging::judge_reach(Ring(63), len, sound, p.ring, stack, at, room)
}

// "Write: one word, into a stack numbered at or above the running ring; places 0."
pub fn write(s: &mut [u32], p: Process, stack: Ring, at: u32, value: u32) -> Outcome
    ensures value { result ≡ outcome 63 [] (state s.old p) (writes stack at value) }
    ensures s_after { s.new ≡ memory_after 63 [] (state s.old p) (writes stack at value) }
{
    let len = words::stack_length(s);
    let v = reach(s, p, stack, at, 1);
    let Ok(()) = v else {
        return judging::unchanged(p, v);
    };
    Stack { len, ring: stack }.store_word(s, at, value);
    judging::unchanged(p, v)
}

// "a separate question on the same inputs gives the number"
#[tactic(auto, unfolding(rules::specs::Step::outcome))]
pub fn look_number(s: &[u32], p: Process, stack: Ring, at: u32) -> Outcome
    ensures { result ≡ outcome 63 [] (state s.now p) (looks stack at) }
{
    judging::unchanged(p, reach(s, p, stack, at, 32))
}

// "Look: hands back 32 words as that very part of the lent store, under the same ring rule; refused, an empty part".
pub fn look<'a>(s: &'a [u32], p: Process, stack: Ring, at: u32) -> &'a [u32]
    ensures { IsPart s.entry result (look_start s.now p stack at) (look_length s.now p stack at) }
{
    let Ok(()) = reach(s, p, stack, at, 32) else {
        return &s[0..0];
    };
    let len = words::stack_length(s);
    Stack { len, ring: stack }.part(s, at)
}

// "The record also answers how many stacks are made, which is the number of bits set."
pub fn stacks_made(p: Process) -> u32
    ensures { result ≡ made_count p.made }
{
    made::made_count(p.made)
}
