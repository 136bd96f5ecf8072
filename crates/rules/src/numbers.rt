// Document 01, "Numbers given back": the number and the reason of each refusal, and what a refused entry gives back.

ghost use Rattle.std.specs.Prelude.{◌≡◌};
ghost use Rattle.rules.specs.declared.Refused.TheVariants.{Target, ArgumentList};
ghost use Rattle.rules.specs.Answer.{barred_as, unfit_as, number_of, reason_of, refusal};

use crate::{Answer, Barred, Refused, Unfit};

impl Barred {
    // "Reasons for 3".
    pub fn reason(self) -> u32
        ensures { result ≡ barred_as self }
    {
        match self {
            Barred::Unlisted => 1,
            Barred::NotExecute => 2,
            Barred::AboveR3 => 3,
            Barred::NoCrossing => 4,
            Barred::NotAGate => 5,
            Barred::FromRing0 => 6,
            Barred::OtherFault => 7,
            Barred::OtherReason(reason) => reason,
        }
    }
}

impl Unfit {
    // "For 10".
    pub fn reason(self) -> u32
        ensures { result ≡ unfit_as self }
    {
        match self {
            Unfit::Place => 1,
            Unfit::Count => 2,
            Unfit::ListEnd => 3,
            Unfit::Length => 4,
            Unfit::Direction => 5,
            Unfit::NotPermitted => 6,
            Unfit::OtherUnfit(reason) => reason,
        }
    }
}

impl Refused {
    // The table's number, or one that is not in it.
    pub fn number(self) -> u32
        ensures { result ≡ number_of self }
    {
        match self {
            Refused::StoreLength => 1,
            Refused::SegmentFile => 2,
            Refused::Target(_) => 3,
            Refused::ProcessRecord => 4,
            Refused::FaultOrInstruction => 5,
            Refused::Frame => 6,
            Refused::RunningSegment => 7,
            Refused::SavedLevel => 8,
            Refused::CallsOpen => 9,
            Refused::ArgumentList(_) => 10,
            Refused::TargetStack => 11,
            Refused::NewFrame => 12,
            Refused::NothingToReturn => 13,
            Refused::StartRing => 14,
            Refused::StackBelow => 15,
            Refused::OutsideStack => 16,
            Refused::OtherNumber { number, .. } => number,
        }
    }

    // "Other numbers have reason 0"; one that is not in the table has what it carries.
    pub fn reason(self) -> u32
        ensures { result ≡ reason_of self }
    {
        match self {
            Refused::Target(b) => b.reason(),
            Refused::ArgumentList(u) => u.reason(),
            Refused::OtherNumber { reason, .. } => reason,
            _ => 0,
        }
    }
}

// "3 target refused, with reason".
impl From<Barred> for Refused {
    ghost from_gives = { λ b r. r ≡ Target b };

    fn from(reason: Barred) -> Self {
        Refused::Target(reason)
    }
}

// "10 argument list refused, with reason".
impl From<Unfit> for Refused {
    ghost from_gives = { λ u r. r ≡ ArgumentList u };

    fn from(reason: Unfit) -> Self {
        Refused::ArgumentList(reason)
    }
}

// A refusal "gives zeros as places".
impl From<Refused> for Answer {
    ghost from_gives = { λ r a. a ≡ refusal r };

    fn from(refused: Refused) -> Self {
        Answer {
            number: refused.number(),
            reason: refused.reason(),
            ..Answer::places(0, 0, 0, 0)
        }
    }
}
