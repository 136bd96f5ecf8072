// Deciding: what a call reads before it is judged, and the numbers of each entry in the document's order: document 01, "Call" and
// "Numbers given back".
#![tactic(auto)]

ghost use Rattle.std.specs.Prelude.{◌≡◌, ltb};
ghost use Rattle.rules.specs.Segments.{lookup_of};
ghost use Rattle.rules.specs.Tests.{pick};
ghost use Rattle.rules.specs.Call.{runs_in, entered, base_sound, seen, asked, end_of, judged};
ghost use Rattle.rules.specs.Answer.{places, outcome_by};
ghost use Rattle.rules.specs.Return.{fault_back, judged_back};
ghost use Rattle.rules.specs.Step.{judged_start, judged_reach};

use arguments::Caller;
use rules::{
    Answer, Barred, Entry, Level, Outcome, Process, Refused, Request, Ring, Seen, refuse_if,
};
use words::{Stack, is_placed};

// ---- What a call reads

// The running segment is listed and execute, and the ring is within r1..r2 (number 7).
fn running(file: &[u8], ring: Ring, x: u32) -> bool
    ensures { result ≡ runs_in ring (lookup_of file.now x) }
{
    let Some(t) = segments::look_up(file, x) else {
        return false;
    };
    t.executes() & brackets::stays(ring, t)
}

// The ring of a decision that enters one, and ring 0 for a refusal, which 3 then gives.
pub fn entered_ring(d: Result<Ring, Barred>) -> Ring
    ensures { result ≡ entered d }
{
    d.unwrap_or_default()
}

// A word of the target stack, or what it reads as where the stack is only now made. A function, since with an `if` in its place no proof
// of `survey` was found.
fn made_or(made: bool, w: u32, fresh: u32) -> u32
    ensures { result ≡ pick made w fresh }
{
    if made { w } else { fresh }
}

// The words of a made target stack that 11 looks at.
#[tactic(auto, unfolding(rules::specs::Call::base_sound))]
fn base_sound(s: &[u32], to: Stack, used: u32, fresh: u32) -> bool
    ensures { result ≡ base_sound s.now to.len to.ring.0 used fresh }
{
    (Ring(to.load(s, 0)) == to.ring)
        & is_placed(to.len, used, 32)
        & (Ring(to.load_past(s, used, 18)) == to.ring)
        & (u64::from(used) + 32 <= u64::from(fresh))
}

// Everything that a call from a ring reads.
pub fn survey(file: &[u8], s: &[u32], ring: Ring, made: u64, q: Request) -> Seen
    ensures { result ≡ seen file.now s.now ring made q }
{
    let len = words::stack_length(s);
    let stack = Stack { len, ring };
    let decision = brackets::target(file, ring, q.fault, q.target, q.offset);
    let to = Stack {
        len,
        ring: entered_ring(decision),
    };
    let outward = ring < to.ring;
    let caller = Caller {
        file,
        stack,
        made,
        outward,
    };
    let is = made::is_made(made, to.ring);
    let used = made_or(is, to.load(s, 1), 8);
    let fresh = made_or(is, to.load_past(s, used, 19), 40);
    Seen {
        len,
        saved: Level(stack.load(s, 3)),
        segment: stack.load_past(s, q.frame, 20),
        offset: stack.load_past(s, q.frame, 21),
        runs: running(file, ring, q.running),
        decision,
        handed: caller.check_list(s, q.place),
        used,
        fresh,
        base: !is | base_sound(s, to, used, fresh),
    }
}

// ---- The numbers, in the document's order. Each judge is given what its own tests ask, and no two are given the same.

// Number 5's test.
fn is_asked(q: Request) -> bool
    ensures { result ≡ asked q }
{
    ((q.fault == 1) | (q.fault == 2)) & ((q.instruction == 0) | (q.instruction == 1))
}

// Number 12's test: new frame with list and copies would pass L.
fn passes(v: Seen) -> bool
    ensures { result ≡ ltb v.len (end_of v) }
{
    let len = u64::from(v.len);
    if len < v.handed.words {
        return true;
    }
    len < u64::from(v.fresh) + (33 + 4 * u64::from(v.handed.count)) + v.handed.words
}

// A call: 1 2 4 5 6 7 8 9 3 10 11 12.
#[tactic(auto, unfolding(rules::specs::Call::judged))]
pub fn judge_call(
    top: Ring,
    file: bool,
    sound: bool,
    calls: u32,
    q: Request,
    v: Seen,
) -> Result<(), Refused>
    ensures { result ≡ judged top.0 file sound calls q v }
{
    let back = v.runs & (v.segment == q.running) & (v.offset <= 262143);
    refuse_if(v.len == 0, Refused::StoreLength)?;
    refuse_if(!file, Refused::SegmentFile)?;
    refuse_if(!sound, Refused::ProcessRecord)?;
    refuse_if(!is_asked(q), Refused::FaultOrInstruction)?;
    refuse_if(!is_placed(v.len, q.frame, 32), Refused::Frame)?;
    refuse_if(!back, Refused::RunningSegment)?;
    // A level is compared with a ring here: only `larger` makes the one of the other.
    refuse_if(top.0 < v.saved.0, Refused::SavedLevel)?;
    refuse_if(32 <= calls, Refused::CallsOpen)?;
    v.decision?;
    v.handed.fit?;
    refuse_if(!v.base, Refused::TargetStack)?;
    refuse_if(passes(v), Refused::NewFrame)
}

// A return: 1 2 4 5 13.
#[tactic(auto, unfolding(rules::specs::Return::judged_back))]
pub fn judge_return(
    len: u32,
    file: bool,
    sound: bool,
    calls: u32,
    ring: Ring,
    q: Request,
    e: Entry,
) -> Result<(), Refused>
    ensures { result ≡ judged_back len file sound calls ring q e }
{
    refuse_if(len == 0, Refused::StoreLength)?;
    refuse_if(!file, Refused::SegmentFile)?;
    refuse_if(!sound, Refused::ProcessRecord)?;
    refuse_if(!is_asked(q), Refused::FaultOrInstruction)?;
    let other = q.fault != fault_back(ring, e.old);
    refuse_if((calls == 0) | other, Refused::NothingToReturn)
}

// "fault 1 when old ring < ring": a number, as the request's fault that it is compared with.
fn fault_back(ring: Ring, old: Ring) -> u32
    ensures { result ≡ fault_back ring old }
{
    if old < ring { 1 } else { 2 }
}

// A start: 1 14.
#[tactic(auto, unfolding(rules::specs::Step::judged_start))]
pub fn judge_start(top: Ring, len: u32, ring: Ring) -> Result<(), Refused>
    ensures { result ≡ judged_start top.0 len ring }
{
    refuse_if(len == 0, Refused::StoreLength)?;
    refuse_if(top < ring, Refused::StartRing)
}

// A write or a look: 1 4 16 15.
#[tactic(auto, unfolding(rules::specs::Step::judged_reach))]
pub fn judge_reach(
    top: Ring,
    len: u32,
    sound: bool,
    ring: Ring,
    stack: Ring,
    at: u32,
    room: u32,
) -> Result<(), Refused>
    ensures { result ≡ judged_reach top.0 len sound ring stack at room }
{
    refuse_if(len == 0, Refused::StoreLength)?;
    refuse_if(!sound, Refused::ProcessRecord)?;
    let outside = (top < stack) | (u64::from(len) < u64::from(at) + u64::from(room));
    refuse_if(outside, Refused::OutsideStack)?;
    refuse_if(stack < ring, Refused::StackBelow)
}

// ---- What is given back

// "Every refusal changes nothing and gives zeros as places": the record as it was, with a verdict's number and reason.
pub fn unchanged(p: Process, v: Result<(), Refused>) -> Outcome
    ensures { result ≡ outcome_by v p p (places 0 0 0 0) }
{
    let answer = match v {
        Ok(()) => Answer::places(0, 0, 0, 0),
        Err(refused) => Answer::from(refused),
    };
    Outcome { process: p, answer }
}
