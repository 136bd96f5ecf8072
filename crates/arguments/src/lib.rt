// Document 01, "Call": the argument list that a call hands over, which arguments are permitted, and the reasons for number 10.
// Everything here is total: the list is read wherever it is said to lie, and the reasons say whether it may lie there.
#![tactic(auto)]

ghost use Rattle.std.specs.Prelude.{◌≡◌, Ok};
ghost use Rattle.rules.specs.Tests.{pick};
ghost use Rattle.rules.specs.Arguments.{group_at, group_or, arguments_at, in_stack, in_segment, in_own, is_permitted, argument_reason, handed_of};
ghost use Rattle.arguments.specs.Members.{list_reason};

use rules::{Argument, Handed, Ring, Unfit, all_lengths, refuse_if};
use words::{Stack, is_placed};

// ---- The list as it stands in the caller's stack

// Group j: "(segment, offset, length, direction)". With j a byte no sum can wrap.
#[tactic(auto, unfolding(rules::specs::Arguments::group_at))]
fn group_at(stack: Stack, s: &[u32], place: u32, j: u8) -> Argument
    ensures { result ≡ group_at s.now stack.len stack.ring.0 place j }
{
    let at = 4 * u32::from(j);
    Argument {
        segment: stack.load_past(s, place, 1 + at),
        offset: stack.load_past(s, place, 2 + at),
        length: stack.load_past(s, place, 3 + at),
        direction: stack.load_past(s, place, 4 + at),
    }
}

// Group j of a list of n, and zeros past the count.
fn group_or(stack: Stack, s: &[u32], place: u32, n: u32, j: u8) -> Argument
    ensures { result ≡ group_or s.now stack.len stack.ring.0 place n j }
{
    if u32::from(j) < n {
        group_at(stack, s, place, j)
    } else {
        Argument::default()
    }
}

// The four arguments, each group read once.
fn arguments_at(stack: Stack, s: &[u32], place: u32, n: u32) -> [Argument; 4]
    ensures { result ≡ arguments_at s.now stack.len stack.ring.0 place n }
{
    [0, 1, 2, 3].map(|j| group_or(stack, s, place, n, j))
}

// ---- Who hands the list over

// A call from a stack's ring, as far as the tests of its arguments ask: the segment file, the stacks made, and its way.
#[derive(Clone, Copy)]
pub struct Caller<'a> {
    pub file: &'a [u8],
    pub stack: Stack,
    pub made: u64,
    pub outward: bool,
}

impl Caller<'_> {
    // "in a made stack k ≥ caller's ring, at offset ≥ 8 and ending within L"
    #[tactic(auto, unfolding(rules::specs::Arguments::in_stack))]
    fn in_stack(self, a: Argument) -> bool
        ensures { result ≡ in_stack self.entry.stack.len self.entry.made self.entry.stack.ring a }
    {
        (self.stack.ring <= Ring(a.segment))
            & made::is_made(self.made, Ring(a.segment))
            & is_placed(self.stack.len, a.offset, a.length)
    }

    // "in a listed segment with caller's ring ≤ r2, read mode for 1 and 3, write mode for 2 and 3, ending at or below 262144"
    #[tactic(auto, unfolding(rules::specs::Arguments::in_segment))]
    fn in_segment(self, a: Argument) -> bool
        ensures { result ≡ in_segment self.entry.file.now self.entry.stack.ring a }
    {
        let Some(t) = segments::look_up(self.file, a.segment) else {
            return false;
        };
        (self.stack.ring <= t.r2)
            & ((a.direction == 2) | t.reads())
            & ((a.direction == 1) | t.writes())
            & (u64::from(a.offset) + u64::from(a.length) <= 262144)
    }

    // "only in the caller's own stack, from offset 8, ending within L"
    #[tactic(auto, unfolding(rules::specs::Arguments::in_own))]
    fn in_own(self, a: Argument) -> bool
        ensures { result ≡ in_own self.entry.stack.len self.entry.stack.ring a }
    {
        (Ring(a.segment) == self.stack.ring) & is_placed(self.stack.len, a.offset, a.length)
    }

    // The segment file is searched only where no stack holds the argument.
    #[tactic(auto, unfolding(rules::specs::Arguments::is_permitted))]
    fn is_permitted(self, a: Argument) -> bool
        ensures { result ≡ is_permitted self.entry.file.now self.entry.stack.len self.entry.made self.entry.stack.ring self.entry.outward a }
    {
        if self.outward {
            self.in_own(a)
        } else {
            self.in_stack(a) || self.in_segment(a)
        }
    }

    // "4 length, 5 direction, 6 not permitted"
    #[tactic(auto, unfolding(rules::specs::Arguments::argument_reason))]
    fn test_argument(self, a: Argument) -> Result<(), Unfit>
        ensures { result ≡ argument_reason self.entry.file.now self.entry.stack.len self.entry.made self.entry.stack.ring self.entry.outward a }
    {
        refuse_if(!((1 <= a.length) & (a.length <= 16)), Unfit::Length)?;
        refuse_if(!((1 <= a.direction) & (a.direction <= 3)), Unfit::Direction)?;
        refuse_if(!self.is_permitted(a), Unfit::NotPermitted)
    }

    // An argument past the count is not looked at.
    fn test_member(self, used: bool, a: Argument) -> Result<(), Unfit>
        ensures { result ≡ pick used (argument_reason self.entry.file.now self.entry.stack.len self.entry.made self.entry.stack.ring self.entry.outward a) (Ok tt) }
    {
        if used { self.test_argument(a) } else { Ok(()) }
    }

    // "1 place outside 8..L-1; 2 count above 4; 3 list passes L; then argument by argument"
    #[tactic(auto, unfolding(crate::specs::Members::list_reason))]
    fn test_list(self, place: u32, n: u32, list: [Argument; 4]) -> Result<(), Unfit>
        ensures { result ≡ list_reason self.entry.file.now self.entry.stack.len self.entry.made self.entry.stack.ring self.entry.outward place n list }
    {
        let len = self.stack.len;
        refuse_if(!is_placed(len, place, 1), Unfit::Place)?;
        refuse_if(4 < n, Unfit::Count)?;
        let passes = u64::from(len) < u64::from(place) + (1 + 4 * u64::from(n));
        refuse_if(passes, Unfit::ListEnd)?;
        // Four calls, as the definition has them: over `list.iter().take(n)` and `list.get(..n)` the goals of the `?` in a `for` did not close.
        self.test_member(0 < n, list[0])?;
        self.test_member(1 < n, list[1])?;
        self.test_member(2 < n, list[2])?;
        self.test_member(3 < n, list[3])
    }

    // The list at a place, as a call from the caller's ring hands it over; an inward call copies none of its words.
    #[tactic(auto, unfolding(rules::specs::Arguments::handed_of, rules::specs::Arguments::list_reason, crate::specs::Members::list_reason))]
    pub fn check_list(self, s: &[u32], place: u32) -> Handed
        ensures { result ≡ handed_of self.entry.file.now s.now self.entry.stack.len self.entry.made self.entry.stack.ring self.entry.outward place }
    {
        let count = self.stack.load(s, place);
        let arguments = arguments_at(self.stack, s, place, count);
        Handed {
            fit: self.test_list(place, count, arguments),
            count,
            words: if self.outward {
                all_lengths(&arguments)
            } else {
                0
            },
            arguments,
        }
    }
}
