// The tie from code to theorem: one call of a public entry extends a run by one step (rules/specs/History.antt). Each function calls
// one entry and hands on what it gives; beside the entry's own equations its contract says that a run which had reached the store and
// the record handed in has then reached the store and the record given back, with that step in its history.
#![tactic(auto)]

ghost use Rattle.std.specs.Prelude.{◌≡◌, List, [], ℕ};
ghost use Rattle.rules.specs.Step.{starts, crosses, writes, looks, outcome, memory_after};
ghost use Rattle.gatekeeper.specs.Entries.{state};
ghost use Rattle.tie.specs.Extends.{Begins, Extends};

use rules::{Outcome, Process, Request, Ring};

// An accepted start begins a run.
pub fn begin(s: &mut [u32], p: Process, ring: Ring) -> Outcome
    ensures value { result ≡ outcome 63 [] (state s.old p) (starts ring) }
    ensures s_after { s.new ≡ memory_after 63 [] (state s.old p) (starts ring) }
    ensures begins { Begins s.old p ring s.new result.process }
{
    gatekeeper::start(s, p, ring)
}

// A crossing is a step.
pub fn cross(file: &[u8], s: &mut [u32], p: Process, q: Request) -> Outcome
    ensures value { result ≡ outcome 63 file.now (state s.old p) (crosses q) }
    ensures s_after { s.new ≡ memory_after 63 file.now (state s.old p) (crosses q) }
    ensures extends { Extends file.now s.old p (crosses q) s.new result.process }
{
    gatekeeper::cross(file, s, p, q)
}

// A write is a step.
pub fn write(s: &mut [u32], p: Process, stack: Ring, at: u32, value: u32) -> Outcome
    ensures value { result ≡ outcome 63 [] (state s.old p) (writes stack at value) }
    ensures s_after { s.new ≡ memory_after 63 [] (state s.old p) (writes stack at value) }
    ensures by_index { (f : List ℕ) → Extends f s.old p (writes stack at value) s.new result.process }
{
    gatekeeper::write(s, p, stack, at, value)
}

// A look is a step that leaves the store as it was.
pub fn look(s: &[u32], p: Process, stack: Ring, at: u32) -> Outcome
    ensures value { result ≡ outcome 63 [] (state s.now p) (looks stack at) }
    ensures by_index { (f : List ℕ) → Extends f s.now p (looks stack at) s.now result.process }
{
    gatekeeper::look_number(s, p, stack, at)
}
