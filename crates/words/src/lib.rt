// Stacks in the lent store: the place of a stack's word, reading, storing and copying words, making a stack.
// It states document 01, "Memory", and of "Start, write, look" the part that a look hands back.
// Everything here is total: past the store's end a read gives 0 and a store changes nothing. Which stack and offset are
// permitted is decided by the crates above.
#![tactic(auto)]

ghost use Rattle.std.specs.Prelude.{◌≡◌, [], ◌∷◌, ◌++◌, ◌+◌, ◌-◌, ◌<◌, ◌^◌, min, replicate};
ghost use Rattle.rules.specs.Memory.{spot, word, words, puts, apply, stack_length, made_word, make_stack};
ghost use Rattle.rules.specs.Record.{placed};
ghost use Rattle.rules.specs.Look.{IsPart, part_start, part_length};

use lent::{get, put};
use rules::Ring;

// ---- Stacks

// One stack of the lent store: L, the words of each stack, and the stack's ring.
#[derive(Clone, Copy, Debug, PartialEq, Eq)]
pub struct Stack {
    pub len: u32,
    pub ring: Ring,
}

// "64×L words, L from 128 to 1,024": L, and 0 for a store of another length (number 1). It is no `Option`, since `Memory.stack_length`
// and with it every definition over stores has a number, and number 1's tests ask whether it is 0.
#[tactic(auto, unfolding(rules::specs::Memory::stack_length))]
pub fn stack_length(s: &[u32]) -> u32
    ensures { result ≡ stack_length s.now }
{
    let n = s.len();
    if n % 64 == 0 && 128 <= n / 64 && n / 64 <= 1024 {
        (n / 64) as u32
    } else {
        0
    }
}

// "8 to L-32", "8 to L-1": x is at least 8, and x and room more end within a stack.
#[tactic(auto, unfolding(rules::specs::Record::placed))]
pub fn is_placed(len: u32, x: u32, room: u32) -> bool
    ensures { result ≡ placed len x room }
{
    8 <= x && u64::from(x) + u64::from(room) <= u64::from(len)
}

// ---- What a made stack has

// "All L words zero, except 0-1 = (k, 8), 26 = k, 27 = 40."
fn made_word(ring: Ring, at: u32) -> u32
    ensures { result ≡ made_word ring.0 at }
{
    match at {
        0 => ring.0,
        1 => 8,
        26 => ring.0,
        27 => 40,
        _ => 0,
    }
}

impl Stack {
    // The place in the store of a word of the stack. Sums of a place and an offset fit too.
    pub fn place(self, at: u32) -> usize
        ensures value { result ≡ spot self.len self.ring.0 at }
        ensures result_bound { result + 4294967295 < 2 ^ 64 }
    {
        (self.ring.0 as usize) * (self.len as usize) + (at as usize)
    }

    // ---- One word

    // A word of the stack.
    pub fn load(self, s: &[u32], at: u32) -> u32
        ensures { result ≡ word s.now (spot self.len self.ring.0 at) }
    {
        get(s, self.place(at), 0)
    }

    // The word that lies `more` words past an offset: no sum can wrap.
    pub fn load_past(self, s: &[u32], at: u32, more: u32) -> u32
        ensures { result ≡ word s.now (spot self.len self.ring.0 (at + more)) }
    {
        get(s, self.place(at) + (more as usize), 0)
    }

    // One word of the stack is stored.
    #[tactic(auto, unfolding(rules::specs::Memory::apply, rules::specs::Memory::puts))]
    pub fn store_word(self, s: &mut [u32], at: u32, v: u32)
        ensures { s.new ≡ apply self.len (puts self.ring.0 at (v ∷ [])) s.old }
    {
        put(s, self.place(at), v);
    }

    // "A pointer is two words: segment, offset."
    #[tactic(auto, using(rules::proofs::Memory::two))]
    pub fn store_pointer(self, s: &mut [u32], at: u32, segment: u32, offset: u32)
        ensures { s.new ≡ apply self.len (puts self.ring.0 at (segment ∷ offset ∷ [])) s.old }
    {
        let p = self.place(at);
        put(s, p, segment);
        put(s, p + 1, offset);
    }

    // ---- Copies

    // The n words of the stack from an offset on, and zeros after them; of more than 64 words the first 64. There is no heap, so the room
    // is fixed.
    pub fn gather(self, s: &[u32], at: u32, n: u32) -> [u32; 64]
        ensures { result ≡ words s.now (spot self.len self.ring.0 at) (min n 64) ++ replicate (64 - n) 0 }
    {
        let from = self.place(at).min(s.len());
        let room = (n as usize).min(64).min(s.len() - from);
        let mut a = [0; 64];
        a[..room].copy_from_slice(&s[from..from + room]);
        a
    }

    // The words of a slice are stored in the stack from an offset on.
    #[tactic(auto, using(crate::proofs::Laws::scattered))]
    pub fn scatter(self, s: &mut [u32], at: u32, a: &[u32])
        ensures { s.new ≡ apply self.len (puts self.ring.0 at a.now) s.old }
    {
        let to = self.place(at).min(s.len());
        let room = a.len().min(s.len() - to);
        s[to..to + room].copy_from_slice(&a[..room]);
    }

    // ---- The whole stack

    // The stack is made: each of its words is stored once.
    #[tactic(auto, using(rules::proofs::Memory::none, crate::proofs::Laws::made_more), unfolding(rules::specs::Memory::up_to, rules::specs::Memory::make_stack))]
    pub fn make(self, s: &mut [u32])
        ensures { s.new ≡ apply self.len (make_stack self.len self.ring.0) s.old }
    {
        for at in 0..self.len {
            self.store_word(s, at, made_word(self.ring, at));
        }
    }

    // ---- Look

    // "32 words as that very part of the lent store", or an empty part where they would pass its end.
    pub fn part<'a>(self, s: &'a [u32], at: u32) -> &'a [u32]
        ensures { IsPart s.entry result (part_start s.now (spot self.len self.ring.0 at)) (part_length s.now (spot self.len self.ring.0 at)) }
    {
        let start = self.place(at);
        let end = start + 32;
        if end <= s.len() {
            &s[start..end]
        } else {
            &s[..0]
        }
    }
}
