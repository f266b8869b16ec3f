//! What is wrong with a file of cases.

use std::alloc::{AllocError, AllocFailed};
use thiserror::Error;

/// What is wrong with a case.
#[derive(Clone, Copy, Debug, PartialEq, Eq, Error)]
pub(crate) enum Problem {
    #[error("a carriage return: write \\r in an escaped section")]
    CarriageReturn,
    #[error("a case without a title")]
    NoTitle,
    #[error("a case without sections")]
    NoSections,
    #[error("a line that begins as a title or a header, and is none: write \\= or \\- in an escaped section")]
    StrayMark,
    #[error("an unknown header")]
    UnknownHeader,
    #[error("a space at the end of a line: write \\s in an escaped section")]
    TrailingSpace,
    #[error("an unknown escape, or one that the line cuts off")]
    UnknownEscape,
    #[error("a line of variables that is not NAME=VALUE")]
    NoVariable,
    #[error("a section that has to have a text")]
    EmptySection,
    #[error("replies without commands")]
    RepliesWithoutCommands,
    #[error("commands without replies")]
    CommandsWithoutReplies,
    #[error("a second fault")]
    SecondFault,
    #[error("replies and a fault")]
    RepliesAndFault,
    #[error("a cut beside replies or a fault")]
    CutAndOther,
    #[error("a line of a cut that is not WANTED [PIECE]")]
    NoRow,
    #[error("a section that has to be UTF-8, and is not")]
    NoText,
    #[error("an input or a result without a run")]
    NoRun,
    #[error("a section that no case with a run has")]
    RunAndOther,
    #[error("a second section of its kind after a run")]
    SecondResult,
    #[error("a status with a text")]
    StatusWithText,
    #[error("a case without a Kconfig")]
    NoKconfig,
    #[error("a case without replies and without a fault")]
    NothingWanted,
}

/// Why a case can't be read.
#[derive(Debug, Drop)]
pub(crate) enum CaseFault {
    /// The first problem, with the number of its line.
    Malformed(usize, Problem),
    /// Memory was refused.
    NoMemory,
}

impl From<AllocError> for CaseFault {
    fn from(_refused: AllocError) -> CaseFault {
        CaseFault::NoMemory
    }
}

impl<T: Drop> From<AllocFailed<T>> for CaseFault {
    fn from(_refused: AllocFailed<T>) -> CaseFault {
        CaseFault::NoMemory
    }
}
