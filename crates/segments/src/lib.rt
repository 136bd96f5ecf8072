// Document 01, "Segment file": whether the file is sound, what it says of a segment number, and which offsets are gates.
// Every function is total, since every reader is: a byte past the end of the file is 0.
#![tactic(auto)]

ghost use Rattle.std.specs.Prelude.{◌≡◌, ◌*◌, min};
ghost use Rattle.rules.specs.Tests.{all_from};
ghost use Rattle.rules.specs.Segments.{records, number_at, gate_count, gate, number_sound, fields_sound, gate_sound, record_sound, file_sound, found, segment_at, lookup_of, is_gate};

use octets::{byte, half, word};
use rules::{Ring, Segment};

// Record `at` of a segment file.
#[derive(Clone, Copy)]
struct Record<'a> {
    file: &'a [u8],
    at: u8,
}

impl Record<'_> {
    // Where the record starts.
    fn start(self) -> usize
        ensures { result ≡ self.entry.at * 40 }
    {
        self.at as usize * 40
    }

    fn number(self) -> u16
        ensures { result ≡ number_at self.entry.file.now self.entry.at }
    {
        half(self.file, self.start())
    }

    fn gate_count(self) -> u8
        ensures { result ≡ gate_count self.entry.file.now self.entry.at }
    {
        byte(self.file, self.start() + 6)
    }

    fn gate(self, j: u8) -> u32
        ensures { result ≡ gate self.entry.file.now self.entry.at j }
    {
        word(self.file, self.start() + (8 + j as usize * 4))
    }

    // The brackets and the mode.
    #[tactic(auto, unfolding(rules::specs::Segments::segment_at))]
    fn segment(self) -> Segment
        ensures { result ≡ segment_at self.entry.file.now self.entry.at }
    {
        let bracket = |k: usize| Ring(byte(self.file, self.start() + k).into());
        Segment {
            at: self.at,
            r1: bracket(2),
            r2: bracket(3),
            r3: bracket(4),
            mode: byte(self.file, self.start() + 5),
        }
    }

    fn has_sound_number(self) -> bool
        ensures { result ≡ number_sound self.entry.file.now self.entry.at }
    {
        let end = self.start() + 40;
        let n = self.number();
        64 <= n && n <= 1023 && (self.file.len() <= end || n < half(self.file, end))
    }

    #[tactic(auto, unfolding(rules::specs::Segments::segment_at))]
    fn has_sound_fields(self, top: Ring) -> bool
        ensures { result ≡ fields_sound top.0 self.entry.file.now self.entry.at }
    {
        let s = self.segment();
        s.r1 <= s.r2
            && s.r2 <= s.r3
            && s.r3 <= top
            && s.mode <= 7
            && self.gate_count() <= 8
            && byte(self.file, self.start() + 7) == 0
    }

    // "strictly ascending up to the count, each at most 262143, zero past it": the eight gates, each read once.
    #[tactic(auto, using(rules::proofs::Tests::all_more, rules::proofs::Tests::all_stop, rules::proofs::Tests::all_done))]
    fn has_sound_gates(self) -> bool
        ensures { result ≡ all_from (gate_sound self.entry.file.now self.entry.at) 0 8 }
    {
        let c = self.gate_count();
        let mut g = self.gate(0);
        for j in 0..8 {
            let next = self.gate(j + 1);
            let ascends = (c <= j + 1) | (g < next);
            let fits = (c <= j) | (g <= 262143);
            let clear = (j < c) | (g == 0);
            if !(ascends && fits && clear) {
                return false;
            }
            g = next;
        }
        true
    }

    #[tactic(auto, unfolding(rules::specs::Segments::record_sound))]
    fn is_sound(self, top: Ring) -> bool
        ensures { result ≡ record_sound top.0 self.entry.file.now self.entry.at }
    {
        self.has_sound_number() && self.has_sound_fields(top) && self.has_sound_gates()
    }

    // Whether an offset is one of the gates.
    fn has_gate(self, offset: u32) -> bool
        ensures { result ≡ is_gate self.entry.file.now self.entry.at offset }
    {
        let c = self.gate_count();
        (0..8).any(|j| j < c && self.gate(j) == offset)
    }
}

// Whether the file keeps every rule, the highest ring being `top` (number 2).
#[tactic(auto, unfolding(rules::specs::Segments::file_sound))]
pub fn file_sound(f: &[u8], top: Ring) -> bool
    ensures { result ≡ file_sound top.0 f.now }
{
    let n = f.len() / 40;
    n <= 192 && f.len() % 40 == 0 && (0..n as u8).all(|at| Record { file: f, at }.is_sound(top))
}

// How many records a search goes through.
fn records_of(f: &[u8]) -> u8
    ensures { result ≡ min (records f.now) 192 }
{
    (f.len() / 40).min(192) as u8
}

// The first record with the number x. It is searched for from the start, since a file that is not in order is searched too (`found`).
fn find(f: &[u8], x: u32) -> Option<u8>
    ensures { result ≡ found f.now x }
{
    (0..records_of(f)).find(|&at| u32::from(Record { file: f, at }.number()) == x)
}

// What the file says of the segment number x.
#[tactic(auto, unfolding(rules::specs::Segments::lookup_of))]
pub fn look_up(f: &[u8], x: u32) -> Option<Segment>
    ensures { result ≡ lookup_of f.now x }
{
    find(f, x).map(|at| Record { file: f, at }.segment())
}

// Whether an offset is a gate of record i.
pub fn is_gate(f: &[u8], i: u8, offset: u32) -> bool
    ensures { result ≡ is_gate f.now i offset }
{
    Record { file: f, at: i }.has_gate(offset)
}
