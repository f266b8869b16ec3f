//! How a node of a loop is computed from the next.

use crate::parts::Part;

/// Which lines of a block are asked for.
#[derive(Clone, Copy)]
pub(crate) enum BlockLines {
    /// What all inside depends on: the expression of an `if`, and `depends on` lines.
    Depends,
    /// `visible if`
    Visible,
}

/// In which way a node is computed from another one.
#[derive(Clone, Copy, Debug, PartialEq, Eq)]
pub enum Way {
    /// By a line of its own.
    Own,
    /// By a line of a block around it.
    Around,
    /// By a `select` or an `imply` line that names the symbol.
    Selected,
    /// By a dependency of the definition with this `select` or `imply` line, which names the symbol.
    OfSelecting(Part),
    /// By a line of a block around the definition with this `select` or `imply` line, which names the symbol.
    AroundSelecting(Part),
    /// By the type of the symbol, which needs `MODULES`.
    Type,
    /// By the visibility of the symbol.
    Visibility,
    /// By the choice that the symbol is a member of.
    Choice,
    /// By the mode of the choice.
    Mode,
    /// By a member of the choice.
    Member,
}

/// The part of a tree by which a node is computed from another one.
#[derive(Clone, Copy, Debug, PartialEq, Eq)]
pub struct Step {
    pub part: Part,
    pub way: Way,
}
