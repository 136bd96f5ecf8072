// The process record by value: whether it is sound, adding an entry, striking the newest: document 01, "Process record".
#![tactic(auto)]

ghost use Rattle.std.specs.Prelude.{◌≡◌, reverse};
ghost use Rattle.std.specs.List.{list_all};
ghost use Rattle.rules.specs.Record.{argument_sound, arguments_sound, inward_sound, outward_sound, open_sound, chained, zero_entry, entry_is_zero, process_sound, newest, added, struck};

use made::{is_made, with_made};
use rules::{Argument, Entry, Process, Ring, all_lengths};
use words::is_placed;

#[tactic(auto, unfolding(rules::specs::Record::argument_sound))]
fn argument_sound(len: u32, old: Ring, a: &Argument) -> bool
    ensures { result ≡ argument_sound len old a.now }
{
    (Ring(a.segment) == old)
        & (8 <= a.offset)
        & (1 <= a.length)
        & (a.length <= 16)
        & (u64::from(a.offset) + u64::from(a.length) <= u64::from(len))
        & (1 <= a.direction)
        & (a.direction <= 3)
}

// An argument below the count is sound, one past it zero.
fn arguments_sound(len: u32, e: &Entry) -> bool
    ensures { result ≡ arguments_sound len e.now }
{
    e.arguments.iter().enumerate().all(|(k, a)| {
        if k < e.count as usize {
            argument_sound(len, e.old, a)
        } else {
            *a == Argument::default()
        }
    })
}

#[tactic(auto, unfolding(rules::specs::Record::inward_sound))]
fn inward_sound(len: u32, e: &Entry) -> bool
    ensures { result ≡ inward_sound len e.now }
{
    (e.count == 0) & (u64::from(e.fresh) + 33 <= u64::from(len))
}

#[tactic(auto, unfolding(rules::specs::Record::outward_sound), using(crate::proofs::Walks::four_lengths))]
fn outward_sound(len: u32, e: &Entry) -> bool
    ensures { result ≡ outward_sound len e.now }
{
    (e.count <= 4)
        & (u64::from(e.fresh) + 33 + 4 * u64::from(e.count) + all_lengths(&e.arguments)
            <= u64::from(len))
}

// The rules of one open entry, in the document's order. A level is compared with rings by number: only `rules::larger` makes the one of
// the other.
#[tactic(auto, unfolding(rules::specs::Record::open_sound))]
fn open_sound(top: Ring, len: u32, made: u64, entered: Ring, e: &Entry) -> bool
    ensures { result ≡ open_sound top.0 len made entered e.now }
{
    is_made(made, e.old)
        & (e.old != entered)
        & (e.old.0 <= e.level.0)
        & (e.level.0 <= top.0)
        & is_placed(len, e.frame, 32)
        & is_placed(len, e.prior, 32)
        & (64 <= e.segment)
        & (e.segment <= 1023)
        & (e.offset <= 262143)
        & is_placed(len, e.place, 1)
        & (u64::from(e.prior) + 32 <= u64::from(e.fresh))
        & arguments_sound(len, e)
        & if entered < e.old {
            inward_sound(len, e)
        } else {
            outward_sound(len, e)
        }
}

// The open entries, newest to oldest: each one's ring entered is the next one's old ring, for the newest the ring that runs.
fn chain_sound(top: Ring, len: u32, made: u64, ring: Ring, calls: &[Entry]) -> bool
    ensures { result ≡ chained top.0 len made ring (reverse calls.now) }
{
    let mut entered = ring;
    for e in calls.iter().rev() {
        if !open_sound(top, len, made, entered, e) {
            return false;
        }
        entered = e.old;
    }
    true
}

// An entry that is not open: "all zero".
pub fn zero_entry() -> Entry
    ensures { result ≡ zero_entry }
{
    Entry::default()
}

fn entry_is_zero(e: Entry) -> bool
    ensures { result ≡ entry_is_zero e }
{
    e == zero_entry()
}

// The entries that are not open.
fn rest_zero(rest: &[Entry]) -> bool
    ensures { result ≡ list_all entry_is_zero rest.now }
{
    rest.iter().copied().all(entry_is_zero)
}

// Number 4's test, the highest ring being top.
#[tactic(auto, unfolding(rules::specs::Record::process_sound), using(crate::proofs::Walks::opened_back, crate::proofs::Walks::rest_from, crate::proofs::Walks::le_leb))]
pub fn process_sound(top: Ring, len: u32, p: Process) -> bool
    ensures { result ≡ process_sound top.0 len p }
{
    if 32 < p.calls {
        return false;
    }
    let (open, rest) = p.entries.split_at(p.calls as usize);
    (p.ring <= top)
        & is_made(p.made, p.ring)
        & chain_sound(top, len, p.made, p.ring, open)
        & rest_zero(rest)
}

// The newest open entry, and zeros where none is open.
#[tactic(auto, unfolding(rules::specs::Record::newest))]
pub fn newest_entry(p: Process) -> Entry
    ensures { result ≡ newest p }
{
    if 0 < p.calls && p.calls <= 32 {
        p.entries[p.calls as usize - 1]
    } else {
        zero_entry()
    }
}

// The record after an accepted call into a ring: the entry is added, the ring runs and its stack is made.
#[tactic(auto, unfolding(rules::specs::Record::added))]
pub fn add_entry(mut p: Process, e: Entry, to: Ring) -> Process
    ensures { result ≡ added p e to }
{
    if p.calls < 32 {
        p.entries[p.calls as usize] = e;
        p.calls += 1;
        p.serial = e.serial;
        p.made = with_made(p.made, to);
        p.ring = to;
    }
    p
}

// The record after an accepted return: the newest entry is struck and zeroed, its old ring runs.
#[tactic(auto, unfolding(rules::specs::Record::struck, rules::specs::Record::newest))]
pub fn strike_newest(mut p: Process) -> Process
    ensures { result ≡ struck p }
{
    if 0 < p.calls && p.calls <= 32 {
        p.calls -= 1;
        let at = p.calls as usize;
        p.ring = p.entries[at].old;
        p.entries[at] = zero_entry();
    }
    p
}
