//! The entries of a tree.

use crate::id::{BlockId, ChoiceId, CommentId};
use kc_statement::SymId;

/// An entry of the tree: what can have lines of its own in a `.config`, and the ends of menus.
#[derive(Clone, Copy, Debug, PartialEq, Eq)]
pub enum Entry {
    /// The first definition of a symbol.
    Symbol(SymId),
    /// Another definition of a symbol.
    Again(SymId),
    /// A menu, whose entries follow up to its end.
    Menu(BlockId),
    /// The end of a menu.
    EndMenu(BlockId),
    /// A choice, whose members follow.
    Choice(ChoiceId),
    /// A comment.
    Comment(CommentId),
}
