//! Why lines have no tree.

ghost use Rattle.std.specs.Prelude.{◌≡◌};
ghost use Rattle.kc_tree.specs.Problems.{problem_of};

use crate::node::Node;
use crate::problem::{ChoiceProblem, Problem, SymbolProblem};
use kc_outline::{LineFault, LineProblem};
use kc_text::Text;
use std::alloc::AllocError;
use thiserror::Error;

/// A node with the name of its symbol, or the prompt of its choice.
#[derive(Debug, Drop)]
pub struct NamedNode {
    pub node: Node,
    pub name: Text,
}

/// Why lines have no tree.
#[derive(Debug, Drop, Error)]
pub enum TreeFault {
    /// The problem of a line, with the path of its file and its number.
    #[error("{path}:{line}: K{:02}", Problem::Line(*.problem).number())]
    Line {
        problem: LineProblem,
        path: Text,
        line: usize,
    },
    /// The problem of a symbol, with its name.
    #[error("K{:02} {name}", Problem::Symbol(*.problem).number())]
    Symbol {
        problem: SymbolProblem,
        name: Text,
    },
    /// The problem of a choice, with the path of its file and the number of its line.
    #[error("{path}:{line}: K{:02}", Problem::Choice(*.problem).number())]
    Choice {
        problem: ChoiceProblem,
        path: Text,
        line: usize,
    },
    /// A dependency loop (K19): each node uses the next, and the last the first.
    #[error("K{:02}", Problem::Loop.number())]
    Loop(Vec<NamedNode>),
    /// Memory was refused.
    #[error("memory")]
    NoMemory,
}

impl TreeFault {
    /// The problem that it is of: none where memory was refused.
    pub fn problem(&self) -> Option<Problem>
        ensures { result ≡ problem_of self.now }
    {
        match self {
            TreeFault::Line { problem, .. } => Some(Problem::Line(*problem)),
            TreeFault::Symbol { problem, .. } => Some(Problem::Symbol(*problem)),
            TreeFault::Choice { problem, .. } => Some(Problem::Choice(*problem)),
            TreeFault::Loop(_) => Some(Problem::Loop),
            TreeFault::NoMemory => None,
        }
    }
}

impl From<AllocError> for TreeFault {
    ghost use Rattle.std.specs.Prelude.{◌≡◌};
    ghost use Rattle.kc_tree.specs.declared.fault.TreeFault.TheVariants.{NoMemory};

    ghost from_gives = { λ _ e. e ≡ NoMemory };

    fn from(_error: AllocError) -> TreeFault {
        TreeFault::NoMemory
    }
}

impl From<LineFault> for TreeFault {
    ghost use Rattle.std.specs.Prelude.{◌≡◌};
    ghost use Rattle.kc_tree.specs.Faults.{line_fault};

    ghost from_gives = { λ fault e. e ≡ line_fault fault };

    fn from(fault: LineFault) -> TreeFault {
        match fault {
            LineFault::At {
                problem,
                path,
                line,
            } => TreeFault::Line {
                problem,
                path,
                line,
            },
            LineFault::NoMemory => TreeFault::NoMemory,
        }
    }
}
