// Document 01 itself: the declared types here, its definitions in specs/, their laws in proofs/.
// The crates above implement what stands here. The code here is what they share: the larger-of rule, one refusal of a list, a segment's
// mode, the words of four arguments, an accepted answer, and (numbers.rt) the number and reason of each refusal.
#![tactic(auto)]

ghost use Rattle.std.specs.Prelude.{◌≡◌, ◌<◌, ◌^◌};
ghost use Rattle.rules.specs.Rings.{larger_of};
ghost use Rattle.rules.specs.Segments.{reads, writes, executes};
ghost use Rattle.rules.specs.Arguments.{words_in};
ghost use Rattle.rules.specs.Answer.{places};
ghost use Rattle.rules.specs.Tests.{refuse_if};

mod numbers;

// "Memory": the ring number says where a program runs, the validation level on whose behalf.
#[derive(Clone, Copy, Debug, Default, PartialEq, Eq, PartialOrd, Ord)]
pub struct Ring(pub u32);

#[derive(Clone, Copy, Debug, Default, PartialEq, Eq, PartialOrd, Ord)]
pub struct Level(pub u32);

// "Process record": an argument of (segment, offset, length, direction). Its four words are what a list or a record holds, whatever
// that is; numbers 10 and 4 (`argument_reasons`, `argument_sound`) say which are in order. So the direction stays a number.
#[derive(Clone, Copy, Debug, Default, PartialEq, Eq)]
pub struct Argument {
    pub segment: u32,
    pub offset: u32,
    pub length: u32,
    pub direction: u32,
}

// An open-call entry: old ring, old frame, level, return segment, return offset, argument place,
// prior last-used offset, new frame, argument count, serial, and four arguments.
#[derive(Clone, Copy, Debug, Default, PartialEq, Eq)]
pub struct Entry {
    pub old: Ring,
    pub frame: u32,
    pub level: Level,
    pub segment: u32,
    pub offset: u32,
    pub place: u32,
    pub prior: u32,
    pub fresh: u32,
    pub count: u32,
    pub serial: u32,
    pub arguments: [Argument; 4],
}

// Ring; the set of stacks already made, one bit a ring; serial; open count; 32 entries. The counts stand beside the arrays, here and in
// an entry, as the document's form has it: "32 open-call entries held in the record itself".
#[derive(Clone, Copy, Debug, PartialEq, Eq)]
pub struct Process {
    pub ring: Ring,
    pub made: u64,
    pub serial: u32,
    pub calls: u32,
    pub entries: [Entry; 32],
}

// "Segment file": a listed segment, by the place of its record, its brackets and its mode. The mode is the file's byte, whatever that is:
// number 2 says whether it is in order.
#[derive(Clone, Copy, Debug, PartialEq, Eq)]
pub struct Segment {
    pub at: u8,
    pub r1: Ring,
    pub r2: Ring,
    pub r3: Ring,
    pub mode: u8,
}

// "mode (1 read, 2 write, 4 execute, added)".
impl Segment {
    pub fn reads(self) -> bool
        ensures { result ≡ reads self }
    {
        self.mode % 2 == 1
    }

    pub fn writes(self) -> bool
        ensures { result ≡ writes self }
    {
        self.mode / 2 % 2 == 1
    }

    pub fn executes(self) -> bool
        ensures { result ≡ executes self }
    {
        self.mode / 4 % 2 == 1
    }
}

// Why a target is refused, number 3: "1 unlisted or offset above 262143; 2 not execute; 3 above r3; 4 no crossing; 7 the fault's
// direction differs; 5 inward, not a gate; 6 outward from ring 0". The last case is any reason that a decision made elsewhere has: it is
// handed on. No decision here gives a reason but these seven, and so with the two enums below: proofs/Table.antt.
#[derive(Clone, Copy, Debug, PartialEq, Eq)]
pub enum Barred {
    Unlisted,
    NotExecute,
    AboveR3,
    NoCrossing,
    NotAGate,
    FromRing0,
    OtherFault,
    OtherReason(u32),
}

// Why an argument list is refused, number 10: "1 place outside 8..L-1; 2 count above 4; 3 list passes L; .. 4 length, 5 direction,
// 6 not permitted"; and any other reason.
#[derive(Clone, Copy, Debug, PartialEq, Eq)]
pub enum Unfit {
    Place,
    Count,
    ListEnd,
    Length,
    Direction,
    NotPermitted,
    OtherUnfit(u32),
}

// "Numbers given back": what is refused. Its number and reason are `number_of` and `reason_of` (specs/Answer.antt). The last case is any
// other number, as the run program's 17, with its reason.
#[derive(Clone, Copy, Debug, PartialEq, Eq)]
pub enum Refused {
    StoreLength,
    SegmentFile,
    Target(Barred),
    ProcessRecord,
    FaultOrInstruction,
    Frame,
    RunningSegment,
    SavedLevel,
    CallsOpen,
    ArgumentList(Unfit),
    TargetStack,
    NewFrame,
    NothingToReturn,
    StartRing,
    StackBelow,
    OutsideStack,
    OtherNumber { number: u32, reason: u32 },
}

// "Call": what a crossing request gives; a return uses the fault and the instruction alone. Both stay numbers, since any request is
// taken (`gatekeeper::cross`), and number 5 says which are in order.
#[derive(Clone, Copy, Debug, PartialEq, Eq)]
pub struct Request {
    pub fault: u32,
    pub instruction: u32,
    pub frame: u32,
    pub place: u32,
    pub running: u32,
    pub target: u32,
    pub offset: u32,
}

// The argument list that a call hands over: whether it may be, the count, the words that an outward call copies, and the arguments,
// zero past the count. All are read whatever the first says (`handed_of`), since 3 to 9 come before it.
#[derive(Clone, Copy)]
pub struct Handed {
    pub fit: Result<(), Unfit>,
    pub count: u32,
    pub words: u64,
    pub arguments: [Argument; 4],
}

// What a call reads before it is judged: L, word 3 of the caller's stack, words 20-21 of the frame, whether the running segment
// fits, the decision on the target, the argument list, and of the target stack, a stack only now made being read as made, the
// last-used frame, the new frame, and whether its words are in order.
#[derive(Clone, Copy)]
pub struct Seen {
    pub len: u32,
    pub saved: Level,
    pub segment: u32,
    pub offset: u32,
    pub runs: bool,
    pub decision: Result<Ring, Barred>,
    pub handed: Handed,
    pub used: u32,
    pub fresh: u32,
    pub base: bool,
}

// What an entry gives back: number, reason, segment, offset, frame, argument place. Here the refusal becomes document 01's numbers,
// and places become zeros: the first demand says so of each refusal.
#[derive(Clone, Copy, Debug, PartialEq, Eq)]
pub struct Answer {
    pub number: u32,
    pub reason: u32,
    pub segment: u32,
    pub offset: u32,
    pub frame: u32,
    pub place: u32,
}

impl Answer {
    // An accepted answer: number 0, reason 0, and the places.
    pub fn places(segment: u32, offset: u32, frame: u32, place: u32) -> Self
        ensures { result ≡ places segment offset frame place }
    {
        Answer {
            number: 0,
            reason: 0,
            segment,
            offset,
            frame,
            place,
        }
    }
}

// The record after a step, with the answer.
#[derive(Clone, Copy)]
pub struct Outcome {
    pub process: Process,
    pub answer: Answer,
}

// The larger of a level and a ring, as a level: the one place where a ring becomes a level.
pub fn larger(level: Level, ring: Ring) -> Level
    ensures { result ≡ larger_of level ring }
{
    level.max(Level(ring.0))
}

// "all lengths": the words of four arguments.
pub fn all_lengths(arguments: &[Argument; 4]) -> u64
    ensures value { result ≡ words_in arguments.now }
    ensures result_bound { result < 2 ^ 34 }
{
    arguments.iter().map(|a| u64::from(a.length)).sum()
}

// One refusal of a list in the document's order, where the test says so: each is followed by `?`.
#[tactic(auto, unfolding(crate::specs::Tests::refuse_if))]
pub fn refuse_if<E: Copy>(when: bool, refusal: E) -> Result<(), E>
    ensures { result ≡ refuse_if when refusal }
{
    if when { Err(refusal) } else { Ok(()) }
}
