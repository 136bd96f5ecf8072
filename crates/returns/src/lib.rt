// Document 01, "Return": the newest entry is struck and zeroed, the left stack and the old stack are set back, and the arguments of
// an outward call are copied back. Everything comes from the entry; of the left stack only words from where the copies lie are read.
#![tactic(auto)]

ghost use Rattle.std.specs.Prelude.{◌≡◌, ◌≤◌, length};
ghost use Rattle.rules.specs.Memory.{apply, stack_length};
ghost use Rattle.rules.specs.Record.{newest, struck};
ghost use Rattle.rules.specs.Arguments.{words_in};
ghost use Rattle.rules.specs.Answer.{memory_by, outcome_by};
ghost use Rattle.rules.specs.Return.{return_verdict, return_stores, return_answer};
ghost use Rattle.returns.specs.Back.{back_one, back_from, Ready};

use rules::{Answer, Argument, Entry, Outcome, Process, Request, Ring};
use words::Stack;

// "arguments of direction 2 and 3 are copied from the copies back to their recorded places": one argument and its copy.
#[tactic(auto, unfolding(crate::specs::Back::back_one, rules::specs::Memory::apply))]
fn back_one(s: &mut [u32], old: Stack, a: Argument, copy: &[u32])
    ensures { s.new ≡ apply old.len (back_one copy.now old.ring.0 a) s.old }
{
    if 2 <= a.direction {
        old.scatter(s, a.offset, copy);
    }
}

// "in list order": some arguments, whose copies stand one after the other.
#[tactic(auto, using(rules::proofs::Arguments::next_fits))]
fn copy_back(s: &mut [u32], old: Stack, arguments: &[Argument], copies: &[u32])
    requires { words_in arguments.now ≤ length copies.now }
    ensures { s.new ≡ apply old.len (back_from copies.now old.ring.0 0 arguments.now) s.old }
{
    let mut from = 0;
    for a in arguments {
        let end = from + a.length as usize;
        back_one(s, old, *a, &copies[from..end]);
        from = end;
    }
}

// "The left stack's 0-1 = (left ring, prior). Word 3 of the old stack = saved level." The copies are read before anything is stored.
fn set_back(s: &mut [u32], left: Stack, e: Entry)
    requires { Ready e }
    ensures { s.new ≡ apply left.len (return_stores s.old left.len left.ring e) s.old }
{
    let old = Stack {
        len: left.len,
        ring: e.old,
    };
    let copies = left.gather(s, e.fresh + (33 + 4 * e.count), 64);
    left.store_pointer(s, 0, left.ring.0, e.prior);
    old.store_word(s, 3, e.level.0);
    let arguments = &e.arguments[..e.count as usize];
    copy_back(s, old, arguments, &copies);
}

// "Returned: return place, old frame, argument place."
#[tactic(auto, unfolding(rules::specs::Return::return_answer))]
fn answer_of(e: Entry) -> Answer
    ensures { result ≡ return_answer e }
{
    Answer::places(e.segment, e.offset, e.frame, e.place)
}

// "The newest entry is struck and zeroed": a return by instruction 1. Out of line, as a call is.
#[inline(never)]
pub fn give_back(file: &[u8], s: &mut [u32], p: Process, q: Request) -> Outcome
    ensures value { result ≡ outcome_by (return_verdict 63 file.now s.old p q) p (struck p) (return_answer (newest p)) }
    ensures s_after { s.new ≡ memory_by (return_verdict 63 file.now s.old p q) s.old (apply (stack_length s.old) (return_stores s.old (stack_length s.old) p.ring (newest p)) s.old) }
{
    let len = words::stack_length(s);
    let listed = segments::file_sound(file, Ring(63));
    let sound = record::process_sound(Ring(63), len, p);
    let e = record::newest_entry(p);
    let v = judging::judge_return(len, listed, sound, p.calls, p.ring, q, e);
    let Ok(()) = v else {
        return judging::unchanged(p, v);
    };
    set_back(s, Stack { len, ring: p.ring }, e);
    let answer = answer_of(e);
    let process = record::strike_newest(p);
    Outcome { process, answer }
}
