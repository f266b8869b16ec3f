//! Why a line was not added.

ghost use Rattle.std.specs.Prelude.{◌≡◌};
ghost use Rattle.kc_outline.specs.Stops.{problem_in};

use crate::fault::LineProblem;
use kc_statement::{Mistake, Unread};
use std::alloc::AllocError;

/// Why a line was not added.
#[derive(Clone, Copy, PartialEq, Eq)]
pub(crate) enum Stop {
    /// The line has this problem.
    Problem(LineProblem),
    /// The line does not have its form (K05), and this is its first mistake.
    Form(Mistake),
    /// Memory was refused.
    NoMemory,
}

impl Stop {
    /// The problem of the line, none where memory was refused.
    pub(crate) fn problem(self) -> Option<LineProblem>
        ensures { result ≡ problem_in self }
    {
        match self {
            Stop::Problem(problem) => Some(problem),
            Stop::Form(_) => Some(LineProblem::Malformed),
            Stop::NoMemory => None,
        }
    }
}

impl From<AllocError> for Stop {
    ghost use Rattle.std.specs.Prelude.{◌≡◌};
    ghost use Rattle.kc_outline.specs.declared.stop.Stop.TheVariants.{NoMemory};

    ghost from_gives = { λ _ e. e ≡ NoMemory };

    fn from(_error: AllocError) -> Stop {
        Stop::NoMemory
    }
}

impl From<Unread> for Stop {
    ghost use Rattle.std.specs.Prelude.{◌≡◌};
    ghost use Rattle.kc_outline.specs.Stops.{stop_of};

    ghost from_gives = { λ unread stop. stop ≡ stop_of unread };

    fn from(unread: Unread) -> Stop {
        match unread {
            Unread::NoMemory => Stop::NoMemory,
            Unread::At(mistake) => Stop::Form(mistake),
        }
    }
}
