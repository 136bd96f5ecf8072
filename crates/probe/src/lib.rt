// What the program `trace` adds to the run program, for tests alone: docs/TRACE.md. Its further kinds, a field of the record that
// becomes a number, and the digests. The run program uses nothing of it.
#![tactic(auto)]

ghost use Rattle.std.specs.Prelude.{◌≡◌};
ghost use Rattle.probe.specs.Digests.{mixed, digest_on, digest, argument_numbers, ten_numbers, entry_numbers, entries_numbers, record_numbers};
ghost use Rattle.probe.specs.Fields.{field_there, record_with, argument_with, entry_with, field_set};
ghost use Rattle.probe.specs.Kinds.{told_of, kind_shown};

use desk::{Asked, Fields, Wrong};
use rules::{Argument, Entry, Level, Process, Ring};

// ---- The kinds

// What a record of trace asks: a step of the run program (or 17), or one of the kinds 3 to 8. A field of the record is told by its number
// in docs/TRACE.md, as `set_field` takes any number.
#[derive(Clone, Copy)]
pub enum Told {
    Run(Result<Asked, Wrong>),
    Look(Ring, u32),
    Room(u32),
    Field(u32, u32, u32, u32, u32),
    Word(u32, u32),
    Byte(u32, u32),
    File(u32),
}

// Whether the record has that field, of that entry, of that argument.
#[tactic(auto, unfolding(crate::specs::Fields::field_there))]
fn field_there(field: u32, entry: u32, argument: u32) -> bool
    ensures { result ≡ field_there field entry argument }
{
    match field {
        0..=3 => true,
        10..=19 => entry < 32,
        20..=23 => entry < 32 && argument < 4,
        _ => false,
    }
}

// What a record of trace asks, the store being so many words long and the file so many bytes: three arguments, so no `TryFrom`.
#[tactic(auto, unfolding(crate::specs::Kinds::told_of, crate::specs::Kinds::is_odd))]
pub fn told_by(words: u32, bytes: u32, x: Fields) -> Told
    ensures { result ≡ told_of words bytes x }
{
    match x.kind {
        0..=2 => Told::Run(Asked::try_from(x)),
        3 if [x.instruction, x.zero, x.n2, x.n3, x.n4, x.n5] == [0; 6] => {
            Told::Look(Ring(x.whom), x.n1)
        }
        4 if x.n1 <= 65792 => Told::Room(x.n1),
        5 if field_there(x.whom, x.instruction, x.zero) => {
            Told::Field(x.whom, x.instruction, x.zero, x.n1, x.n2)
        }
        6 if x.n1 < words => Told::Word(x.n1, x.n2),
        7 if x.n1 < bytes && x.n2 <= 255 => Told::Byte(x.n1, x.n2),
        8 if x.n1 <= 7760 => Told::File(x.n1),
        _ => Told::Run(Err(Wrong)),
    }
}

// The kind that the line shows, by a function as `desk::kind_of`, which it ends in.
pub fn kind_shown(t: Told) -> u32
    ensures { result ≡ kind_shown t }
{
    match t {
        Told::Run(a) => desk::kind_of(a),
        Told::Look(_, _) => 3,
        Told::Room(_) => 4,
        Told::Field(_, _, _, _, _) => 5,
        Told::Word(_, _) => 6,
        Told::Byte(_, _) => 7,
        Told::File(_) => 8,
    }
}

// ---- A field of the record

// Fields 0 to 3.
#[tactic(auto, unfolding(crate::specs::Fields::record_with))]
fn set_own(field: u32, n1: u32, n2: u32, p: &mut Process)
    ensures { p.new ≡ record_with field n1 n2 p.old }
{
    match field {
        0 => p.ring = Ring(n1),
        1 => p.made = u64::from(n1) * 4294967296 + u64::from(n2),
        2 => p.serial = n1,
        3 => p.calls = n1,
        _ => {}
    }
}

// Fields 20 to 23.
#[tactic(auto, unfolding(crate::specs::Fields::argument_with))]
fn set_argument(field: u32, n: u32, a: &mut Argument)
    ensures { a.new ≡ argument_with field n a.old }
{
    match field {
        20 => a.segment = n,
        21 => a.offset = n,
        22 => a.length = n,
        23 => a.direction = n,
        _ => {}
    }
}

// Fields 10 to 19, and those of an argument.
#[tactic(auto, unfolding(crate::specs::Fields::entry_with), using(crate::proofs::Laws::arguments_kept))]
fn set_entry(field: u32, k: u32, n: u32, e: &mut Entry)
    ensures { e.exit.now ≡ entry_with field k n e.entry.now }
{
    match field {
        10 => e.old = Ring(n),
        11 => e.frame = n,
        12 => e.level = Level(n),
        13 => e.segment = n,
        14 => e.offset = n,
        15 => e.place = n,
        16 => e.prior = n,
        17 => e.fresh = n,
        18 => e.count = n,
        19 => e.serial = n,
        _ => {
            if k < 4 {
                set_argument(field, n, &mut e.arguments[k as usize]);
            }
        }
    }
}

// A field of the record becomes a number; one that is not there changes nothing.
#[tactic(auto, unfolding(crate::specs::Fields::field_set))]
pub fn set_field(field: u32, entry: u32, argument: u32, n1: u32, n2: u32, mut p: Process) -> Process
    ensures { result ≡ field_set field entry argument n1 n2 p }
{
    if field <= 3 {
        set_own(field, n1, n2, &mut p);
    } else if entry < 32 {
        set_entry(field, argument, n1, &mut p.entries[entry as usize]);
    }
    p
}

// ---- Digests

// "d := (d × 65,599 + x + 1) mod 4,294,967,291"
fn mix(d: u32, x: u32) -> u32
    ensures { result ≡ mixed d x }
{
    ((u64::from(d) * 65599 + u64::from(x) + 1) % 4294967291) as u32
}

// The digest of numbers that are mixed in after others.
fn digest_on(d: u32, s: &[u32]) -> u32
    ensures { result ≡ digest_on d s.now }
{
    s.iter().fold(d, |d, &x| mix(d, x))
}

// The digest of numbers, as of a lent store or a part of it.
#[tactic(auto, unfolding(crate::specs::Digests::digest))]
pub fn digest_words(s: &[u32]) -> u32
    ensures { result ≡ digest s.now }
{
    digest_on(7, s)
}

fn mix_argument(d: u32, a: &Argument) -> u32
    ensures { result ≡ digest_on d (argument_numbers a.now) }
{
    digest_on(d, &[a.segment, a.offset, a.length, a.direction])
}

// Fields 10 to 19 of an entry.
fn mix_ten(d: u32, e: &Entry) -> u32
    ensures { result ≡ digest_on d (ten_numbers e.now) }
{
    digest_on(
        d,
        &[
            e.old.0, e.frame, e.level.0, e.segment, e.offset, e.place, e.prior, e.fresh, e.count,
            e.serial,
        ],
    )
}

fn mix_entry(d: u32, e: &Entry) -> u32
    ensures { result ≡ digest_on d (entry_numbers e.now) }
{
    e.arguments.iter().fold(mix_ten(d, e), mix_argument)
}

fn mix_entries(d: u32, entries: &[Entry]) -> u32
    ensures { result ≡ digest_on d (entries_numbers entries.now) }
{
    entries.iter().fold(d, mix_entry)
}

// The digest of the whole record.
#[tactic(auto, unfolding(crate::specs::Digests::digest, crate::specs::Digests::digest_on, crate::specs::Digests::record_numbers))]
pub fn digest_record(p: Process) -> u32
    ensures { result ≡ digest (record_numbers p) }
{
    let high = (p.made >> 32) as u32;
    let low = (p.made % 4294967296) as u32;
    let d = digest_words(&[p.ring.0, high, low, p.serial, p.calls]);
    mix_entries(d, &p.entries)
}
