// The set of stacks already made, one bit a ring, and the serial of accepted calls: document 01, "Process record".
#![tactic(auto)]

ghost use Rattle.std.specs.Prelude.{◌≡◌};
ghost use Rattle.rules.specs.Made.{is_made, with_made, made_count, next_serial};

use rules::Ring;

// Whether a ring's stack is made; there is no ring above 63. Here and below a ring counts as the number of its bit.
#[tactic(auto, unfolding(rules::specs::Made::is_made), using(rules::proofs::Made::none_above))]
pub fn is_made(made: u64, ring: Ring) -> bool
    ensures { result ≡ is_made made ring.0 }
{
    ring.0 <= 63 && (made >> ring.0) % 2 == 1
}

// The set with a ring's stack in it.
#[tactic(auto, using(rules::proofs::Made::none_above, rules::proofs::Made::with_out, rules::proofs::Made::shifted, crate::proofs::Or::or_with))]
pub fn with_made(made: u64, ring: Ring) -> u64
    ensures { result ≡ with_made made ring.0 }
{
    if ring.0 > 63 {
        return made;
    }
    made | (1u64 << ring.0)
}

// "how many stacks are made, which is the number of bits set"
#[tactic(auto, using(rules::proofs::Made::ones_made))]
pub fn made_count(made: u64) -> u32
    ensures { result ≡ made_count made }
{
    made.count_ones()
}

// The serial after one more accepted call: "goes from 4294967295 on to 0".
pub fn next_serial(serial: u32) -> u32
    ensures { result ≡ next_serial serial }
{
    serial.wrapping_add(1)
}
