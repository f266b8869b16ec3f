//! Why lines have no outline.

use kc_text::Text;
use std::alloc::AllocError;

/// What is wrong with a line (this project's own list, after kconfig-language.rst).
#[derive(Clone, Copy, Debug, PartialEq, Eq)]
pub enum LineProblem {
    /// A limit is passed (K01): of blocks in one another, parentheses, `!` in a row, or symbols.
    Limit,
    /// A line that begins with no known word (K04).
    UnknownStatement,
    /// A line that has not the form of a statement (K05).
    Malformed,
    /// An attribute whose nearest statement doesn't take it, or without one (K06).
    StrayAttribute,
    /// A block closed wrongly, or not closed in its file (K07).
    UnbalancedBlock,
    /// A word or a form of Kconfig that is unsupported (K20).
    Unsupported,
}

/// A line that has a problem.
#[derive(Clone, Copy, Debug, PartialEq, Eq)]
pub struct FaultyLine {
    /// How many lines come before it.
    pub place: usize,
    pub problem: LineProblem,
}

/// Why lines have no outline.
#[derive(Debug, Drop)]
pub enum LineFault {
    /// The problem of the first line that has one, with the path of its file and its number.
    At {
        problem: LineProblem,
        path: Text,
        line: usize,
    },
    /// Memory was refused.
    NoMemory,
}

impl From<AllocError> for LineFault {
    ghost use Rattle.std.specs.Prelude.{◌≡◌};
    ghost use Rattle.kc_outline.specs.declared.fault.LineFault.TheVariants.{NoMemory};

    ghost from_gives = { λ _ e. e ≡ NoMemory };

    fn from(_error: AllocError) -> LineFault {
        LineFault::NoMemory
    }
}
