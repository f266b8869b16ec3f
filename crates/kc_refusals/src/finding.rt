//! What a check of a call finds.

use kc_files::{PrefixFault, ReadFault};
use kc_text::TextFault;
use std::alloc::AllocError;

/// What became of a call that left all as it should be.
#[derive(Clone, Copy)]
pub(crate) enum Call {
    /// It gave the answer that it gives with ample memory.
    Answered,
    /// It was out of memory, and gave that answer the next time.
    Refused,
}

impl Call {
    /// What became of two calls: refused where one of them was.
    pub(crate) fn and(self, other: Call) -> Call {
        match self {
            Call::Refused => Call::Refused,
            Call::Answered => other,
        }
    }
}

/// Why a check ended early.
#[derive(Clone, Copy)]
pub(crate) enum Stop {
    /// The call was out of memory.
    Refused,
    /// The check was refused memory of its own, so it says nothing of the call.
    Unprepared,
    /// Something is not as it should be.
    Wrong(Wrong),
}

/// What is not as it should be.
#[derive(Clone, Copy)]
pub(crate) enum Wrong {
    Evaluations,
    Fault,
    Kept,
    Lines,
    Missing,
    NothingBack,
    Reading,
    Refusal,
    Reply,
    SecondTime,
    Stream,
    Tree,
    UserValues,
    Value,
    Warnings,
}

impl Wrong {
    /// What the program writes of it.
    pub(crate) fn text(self) -> &'static str {
        match self {
            Wrong::Evaluations => "another count of evaluations",
            Wrong::Fault => "another fault",
            Wrong::Kept => "other nodes are kept",
            Wrong::Lines => "other lines",
            Wrong::Missing => "a symbol is missing",
            Wrong::NothingBack => "a tree did not come back",
            Wrong::Reading => "another reading",
            Wrong::Refusal => "a refusal",
            Wrong::Reply => "another reply",
            Wrong::SecondTime => "out of memory a second time",
            Wrong::Stream => "a stream that failed, or was used",
            Wrong::Tree => "another tree",
            Wrong::UserValues => "other user values",
            Wrong::Value => "another value",
            Wrong::Warnings => "other warnings",
        }
    }
}

/// Which time a call is made.
#[derive(Clone, Copy)]
pub(crate) enum Time {
    First,
    /// After it was refused, when it looks first at what that left.
    Second,
}

/// Makes a call, and where it is refused makes it once more. One request is refused in a run at most, so the second
/// time it has its memory.
pub(crate) fn made<F: FnMut(Time) -> Result<(), Stop>>(mut call: F) -> Result<Call, Stop>
    requires { F.IsAlwaysCallable call }
{
    match call(Time::First) {
        Ok(()) => Ok(Call::Answered),
        Err(Stop::Refused) => match call(Time::Second) {
            Ok(()) => Ok(Call::Refused),
            Err(Stop::Refused | Stop::Unprepared) => Err(Stop::Wrong(Wrong::SecondTime)),
            Err(wrong) => Err(wrong),
        },
        Err(stop) => Err(stop),
    }
}

/// What is found of the answer of a call, whose memory is the check's own.
pub(crate) fn own(found: Result<(), Stop>) -> Result<(), Stop> {
    match found {
        Err(Stop::Refused) => Err(Stop::Unprepared),
        found => found,
    }
}

/// Wants something to be so, and says what else is wrong.
pub(crate) fn want(is_so: bool, wrong: Wrong) -> Result<(), Stop> {
    if is_so {
        Ok(())
    } else {
        Err(Stop::Wrong(wrong))
    }
}

impl From<AllocError> for Stop {
    fn from(_refused: AllocError) -> Stop {
        Stop::Unprepared
    }
}

impl From<TextFault> for Stop {
    fn from(fault: TextFault) -> Stop {
        match fault {
            TextFault::NoMemory => Stop::Refused,
            TextFault::At(_, _, _) => Stop::Wrong(Wrong::Fault),
        }
    }
}

impl From<PrefixFault> for Stop {
    fn from(fault: PrefixFault) -> Stop {
        match fault {
            PrefixFault::NoMemory => Stop::Refused,
            PrefixFault::Malformed => Stop::Wrong(Wrong::Fault),
        }
    }
}

impl From<ReadFault> for Stop {
    fn from(fault: ReadFault) -> Stop {
        match fault {
            ReadFault::NoMemory => Stop::Refused,
            ReadFault::Limit => Stop::Wrong(Wrong::Fault),
        }
    }
}
