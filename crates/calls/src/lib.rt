// A call: judged, and on acceptance its frame, list, copies, base words and entry are built: document 01, "Call".
#![tactic(auto)]

ghost use Rattle.std.specs.Prelude.{◌≡◌, Ok, true, false, [], ◌∷◌, ◌++◌, ◌+◌, ◌*◌, ◌<◌, ◌≤◌, ltb, take, length};
ghost use Rattle.rules.specs.Tests.{pick};
ghost use Rattle.rules.specs.Memory.{puts, apply, stack_length};
ghost use Rattle.rules.specs.Made.{is_made, next_serial};
ghost use Rattle.rules.specs.Arguments.{words_in, copies_of, pointing};
ghost use Rattle.rules.specs.Answer.{outcome_by, memory_by};
ghost use Rattle.calls.specs.Ready.{Ready};
ghost use Rattle.rules.specs.Call.{making, frame_stores, base_stores, seen, end_of, copies_at, arguments, call_verdict, call_stores, call_entry, call_next, call_answer};

use rules::{Answer, Argument, Entry, Level, Outcome, Process, Request, Ring, Seen};
use words::Stack;

// ---- What goes into the new stack, gathered before anything is stored

// "the arguments themselves follow the list in order": the words of some arguments. They are read into fixed room, as there is no heap and
// nothing is stored before all is read.
#[tactic(auto, using(rules::proofs::Arguments::next_fits))]
fn gather_copies(s: &[u32], old: Stack, arguments: &[Argument]) -> [u32; 64]
    requires { words_in arguments.now ≤ 64 }
    ensures { take (words_in arguments.now) result ≡ copies_of s.now old.len old.ring.0 arguments.now }
{
    let mut copies = [0u32; 64];
    let mut at = 0;
    for g in arguments {
        let n = g.length as usize;
        let words = old.gather(s, g.offset, g.length);
        copies[at..at + n].copy_from_slice(&words[..n]);
        at += n;
    }
    copies
}

// "groups point at the copies (segment the new ring), length and direction kept"
#[tactic(auto, using(rules::proofs::Arguments::next_fits))]
fn point_list(s: &mut [u32], new: Stack, list: u32, copies: u32, arguments: &[Argument])
    requires { (length arguments.now ≤ 4) × (list ≤ 2048) × (copies ≤ 2048) × (words_in arguments.now ≤ 64) }
    ensures { s.new ≡ apply new.len (puts new.ring.0 list (pointing new.ring.0 copies arguments.now)) s.old }
{
    let mut here = list;
    let mut at = copies;
    for g in arguments {
        new.store_pointer(s, here, new.ring.0, at);
        new.store_pointer(s, here + 2, g.length, g.direction);
        here += 4;
        at += g.length;
    }
}

// ---- An accepted call

// The stack that it leaves and the frame there, the stack that it enters, and what was seen. Acceptance gives the facts.
#[derive(Clone, Copy)]
struct Entering {
    left: Stack,
    frame: u32,
    entered: Stack,
    seen: Seen,
    ghost same: { left.len ≡ entered.len },
    ghost low: { entered.ring.0 ≤ 63 },
    ghost fits: { end_of seen ≤ 1024 },
    ghost few: { seen.handed.count ≤ 4 },
    ghost short: { words_in (arguments seen) ≤ 64 },
    ghost copied: { seen.handed.words ≡ pick (ltb left.ring.0 entered.ring.0) (words_in (arguments seen)) 0 },
}

impl Entering {
    // Whether it goes outward.
    fn is_outward(&self) -> bool
        ensures { result ≡ ltb self.now.left.ring.0 self.now.entered.ring.0 }
    {
        self.left.ring < self.entered.ring
    }

    // "end of all copied"
    fn end(&self) -> u32
        ensures { result ≡ end_of self.now.seen }
    {
        let v = &self.seen;
        v.fresh + (33 + 4 * v.handed.count) + (v.handed.words as u32)
    }

    // What an outward call copies, in fixed room as above; an inward one copies nothing.
    fn copies(&self, s: &[u32]) -> [u32; 64]
        ensures { take self.now.seen.handed.words result ≡ pick (ltb self.now.left.ring.0 self.now.entered.ring.0) (copies_of s.now self.now.left.len self.now.left.ring.0 (arguments self.now.seen)) [] }
    {
        let v = self.seen;
        if self.is_outward() {
            gather_copies(s, self.left, &v.handed.arguments[..v.handed.count as usize])
        } else {
            [0u32; 64]
        }
    }

    // ---- Its stores, in the document's order

    // "the target stack is made if it isn't"
    fn make_if(&self, s: &mut [u32], made: u64)
        ensures { s.new ≡ apply self.now.entered.len (making self.now.entered.len made self.now.entered.ring.0) s.old }
    {
        if !made::is_made(made, self.entered.ring) {
            self.entered.make(s);
        }
    }

    // Words 0-1 of the old stack, the caller's frame words, then 16-17, 18-19 and 28-29.
    fn build_frame(&self, s: &mut [u32], caller: &[u32])
        ensures { s.new ≡ apply self.now.entered.len (frame_stores caller.now self.now.left.ring.0 self.now.frame self.now.entered.ring.0 self.now.seen.fresh self.now.seen.used (end_of self.now.seen)) s.old }
    {
        let (left, to, fresh) = (self.left, self.entered, self.seen.fresh);
        left.store_pointer(s, 0, left.ring.0, self.frame);
        to.scatter(s, fresh, caller);
        to.store_pointer(s, fresh + 16, 65536 + to.ring.0, self.seen.used);
        to.store_pointer(s, fresh + 18, to.ring.0, self.end());
        to.store_pointer(s, fresh + 28, left.ring.0, self.frame);
    }

    // The list at new frame + 32: "Inward, groups are unchanged. Outward, .. groups point at the copies".
    fn build_list(&self, s: &mut [u32], list: &[u32])
        ensures { s.new ≡ apply self.now.entered.len (puts self.now.entered.ring.0 (self.now.seen.fresh + 32) (pick (ltb self.now.left.ring.0 self.now.entered.ring.0) (self.now.seen.handed.count ∷ pointing self.now.entered.ring.0 (copies_at self.now.seen) (arguments self.now.seen)) list.now)) s.old }
    {
        let v = self.seen;
        let n = v.handed.count;
        if self.is_outward() {
            let arguments = &v.handed.arguments[..n as usize];
            self.entered.store_word(s, v.fresh + 32, n);
            point_list(
                s,
                self.entered,
                v.fresh + 33,
                v.fresh + (33 + 4 * n),
                arguments,
            );
        } else {
            self.entered.scatter(s, v.fresh + 32, list);
        }
    }

    // All stores but the base words, what they copy being gathered already.
    fn enter(&self, s: &mut [u32], made: u64, caller: &[u32], list: &[u32], copied: &[u32])
        ensures { s.new ≡ apply self.now.entered.len (making self.now.entered.len made self.now.entered.ring.0 ++ frame_stores caller.now self.now.left.ring.0 self.now.frame self.now.entered.ring.0 self.now.seen.fresh self.now.seen.used (end_of self.now.seen) ++ puts self.now.entered.ring.0 (self.now.seen.fresh + 32) (pick (ltb self.now.left.ring.0 self.now.entered.ring.0) (self.now.seen.handed.count ∷ pointing self.now.entered.ring.0 (copies_at self.now.seen) (arguments self.now.seen)) list.now) ++ puts self.now.entered.ring.0 (copies_at self.now.seen) copied.now) s.old }
    {
        self.make_if(s, made);
        self.build_frame(s, caller);
        self.build_list(s, list);
        let copies = self.seen.fresh + (33 + 4 * self.seen.handed.count);
        self.entered.scatter(s, copies, copied);
    }
}

// The base words of the new stack: 2, 3 and 4.
fn build_base(s: &mut [u32], new: Stack, calls: u32, level: Level, serial: u32)
    ensures { s.new ≡ apply new.len (base_stores new.ring.0 calls level serial) s.old }
{
    new.store_pointer(s, 2, calls, level.0);
    new.store_word(s, 4, serial);
}

// Everything that an accepted call stores. The decision is taken apart here: only a ring that is entered is built for.
fn build(s: &mut [u32], p: &Process, q: Request, v: Seen)
    requires { Ready p.now.ring p.now.calls v }
    ensures { s.new ≡ apply v.len (call_stores s.old p.now.ring p.now.made p.now.calls p.now.serial q v) s.old }
{
    let Ok(to) = v.decision else {
        return;
    };
    let call = Entering {
        left: Stack {
            len: v.len,
            ring: p.ring,
        },
        frame: q.frame,
        entered: Stack {
            len: v.len,
            ring: to,
        },
        seen: v,
    };
    let size = 1 + 4 * v.handed.count;
    let caller = call.left.gather(s, q.frame, 32);
    let list = call.left.gather(s, q.place, size);
    let copied = call.copies(s);
    let caller = &caller[..32];
    let list = &list[..size as usize];
    let copied = &copied[..v.handed.words as usize];
    call.enter(s, p.made, caller, list, copied);
    let level = rules::larger(rules::larger(v.saved, p.ring), to);
    build_base(
        s,
        call.entered,
        p.calls + 1,
        level,
        made::next_serial(p.serial),
    );
}

// ---- The record and the answer

// "an entry is added; an inward entry records no arguments"
#[tactic(auto, unfolding(rules::specs::Call::call_entry))]
fn entry_of(p: &Process, q: Request, v: Seen) -> Entry
    ensures { result ≡ call_entry p.now.ring p.now.serial q v }
{
    let outward = p.ring < judging::entered_ring(v.decision);
    let handed = v.handed;
    Entry {
        old: p.ring,
        frame: q.frame,
        level: rules::larger(v.saved, p.ring),
        segment: v.segment,
        offset: v.offset,
        place: q.place,
        prior: v.used,
        fresh: v.fresh,
        count: if outward { handed.count } else { 0 },
        serial: made::next_serial(p.serial),
        arguments: if outward {
            handed.arguments
        } else {
            [Argument::default(); 4]
        },
    }
}

// "Returned: target segment and offset, new frame, new frame + 32."
#[tactic(auto, unfolding(rules::specs::Call::call_answer))]
fn answer_of(q: Request, v: Seen) -> Answer
    requires { v.fresh ≤ 1024 }
    ensures { result ≡ call_answer q v }
{
    Answer::places(q.target, q.offset, v.fresh, v.fresh + 32)
}

// ---- A call

// What an accepted call leaves: all is built, and the entry added. A function of its own, out of line, since a function pays at its entry for
// the records that stand in it: so a refused call pays for none of these.
#[inline(never)]
fn accept(s: &mut [u32], p: Process, q: Request, v: Seen) -> Outcome
    requires { Ready p.ring p.calls v }
    ensures value { result ≡ outcome_by (Ok tt) p (call_next p q v) (call_answer q v) }
    ensures s_after { s.new ≡ apply v.len (call_stores s.old p.ring p.made p.calls p.serial q v) s.old }
{
    build(s, &p, q, v);
    let e = entry_of(&p, q, v);
    let process = record::add_entry(p, e, judging::entered_ring(v.decision));
    let answer = answer_of(q, v);
    Outcome { process, answer }
}

// Judged by everything it reads; refused, nothing changes; accepted, all is built. Out of line, so that the programs' loop pays for the
// records in it only where a call is asked.
#[inline(never)]
pub fn call(file: &[u8], s: &mut [u32], p: Process, q: Request) -> Outcome
    ensures value { result ≡ outcome_by (call_verdict 63 file.now s.old p q) p (call_next p q (seen file.now s.old p.ring p.made q)) (call_answer q (seen file.now s.old p.ring p.made q)) }
    ensures s_after { s.new ≡ memory_by (call_verdict 63 file.now s.old p q) s.old (apply (stack_length s.old) (call_stores s.old p.ring p.made p.calls p.serial q (seen file.now s.old p.ring p.made q)) s.old) }
{
    let top = Ring(63);
    let v = judging::survey(file, s, p.ring, p.made, q);
    let listed = segments::file_sound(file, top);
    let sound = record::process_sound(top, v.len, p);
    let verdict = judging::judge_call(top, listed, sound, p.calls, q, v);
    let Ok(()) = verdict else {
        return judging::unchanged(p, verdict);
    };
    accept(s, p, q, v)
}
