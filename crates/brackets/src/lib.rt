// Document 01, "Brackets": the ring that a call enters, or the reason of number 3, tried in the document's order.
#![tactic(auto)]

ghost use Rattle.std.specs.Prelude.{◌≡◌};
ghost use Rattle.rules.specs.Bracket.{goes_out, stays, fault_of, decision_of, target_of};

use rules::{Barred, Ring, Segment, refuse_if};

// "r < r1 outward"
fn goes_out(caller: Ring, s: Segment) -> bool
    ensures { result ≡ goes_out caller s }
{
    caller < s.r1
}

// "r1 ≤ r ≤ r2 no crossing"
pub fn stays(caller: Ring, s: Segment) -> bool
    ensures { result ≡ stays caller s }
{
    (s.r1 <= caller) & (caller <= s.r2)
}

// "Fault 1 is inward, fault 2 outward." A number, as the request's fault that it is compared with.
fn fault_of(outward: bool) -> u32
    ensures { result ≡ fault_of outward }
{
    if outward { 2 } else { 1 }
}

// The decision on a listed segment, `hit` saying whether the offset is a gate: the reasons in their order, and then outward into r1,
// inward into r2.
#[tactic(auto, unfolding(rules::specs::Bracket::decision_of))]
pub fn decide(caller: Ring, fault: u32, offset: u32, s: Segment, hit: bool) -> Result<Ring, Barred>
    ensures { result ≡ decision_of caller fault offset s hit }
{
    let out = goes_out(caller, s);
    refuse_if(262143 < offset, Barred::Unlisted)?;
    refuse_if(!s.executes(), Barred::NotExecute)?;
    refuse_if(s.r3 < caller, Barred::AboveR3)?;
    refuse_if(stays(caller, s), Barred::NoCrossing)?;
    refuse_if(fault != fault_of(out), Barred::OtherFault)?;
    refuse_if(!out & !hit, Barred::NotAGate)?;
    refuse_if(out & (caller == Ring(0)), Barred::FromRing0)?;
    Ok(if out { s.r1 } else { s.r2 })
}

// The target of a call: the segment x, at that offset.
#[tactic(auto, unfolding(rules::specs::Bracket::target_of))]
pub fn target(f: &[u8], caller: Ring, fault: u32, x: u32, offset: u32) -> Result<Ring, Barred>
    ensures { result ≡ target_of f.now caller fault x offset }
{
    let s = segments::look_up(f, x).ok_or(Barred::Unlisted)?;
    decide(caller, fault, offset, s, segments::is_gate(f, s.at, offset))
}
