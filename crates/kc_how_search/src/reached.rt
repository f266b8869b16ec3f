//! What is computed from the symbols and choices that deeds change.

use crate::goals::Deed;
use kc_tree::{Node, SymId, Tree};
use std::alloc::{AllocError, Global};

/// The nodes and conditions that are computed from what deeds change, by their numbers. All others are worth what they
/// were.
#[derive(Drop)]
pub(crate) struct Reached {
    marks: Vec<bool>,
    /// Those whose users are not marked yet.
    waiting: Vec<usize>,
}

impl Reached {
    /// Those of some deeds. The error comes where memory is refused.
    pub(crate) fn by(alloc: Global, tree: &Tree, deeds: &[Deed]) -> Result<Reached, AllocError> {
        let mut reached = Reached {
            marks: vec![in alloc; false; tree.cell_count()]?,
            waiting: Vec::new(alloc),
        };
        for deed in deeds {
            reached.add_deed(tree, *deed)?;
        }
        for _ in 0..tree.cell_count() {
            let Some(number) = reached.waiting.pop() else {
                break;
            };
            reached.add_users(tree, number)?;
        }
        Ok(reached)
    }

    /// Marks what a deed changes: a symbol, or the mode and the selection of a choice. The error comes where memory is
    /// refused.
    fn add_deed(&mut self, tree: &Tree, deed: Deed) -> Result<(), AllocError> {
        match deed {
            Deed::Nothing => Ok(()),
            Deed::Give(symbol, _) | Deed::GiveText(symbol, _) => {
                self.add(tree.number(Node::Val(symbol)))
            }
            Deed::Choose(choice, _) => {
                self.add(tree.number(Node::Mode(choice)))?;
                self.add(tree.number(Node::Sel(choice)))
            }
        }
    }

    /// Marks the users of a node or a condition. The error comes where memory is refused.
    fn add_users(&mut self, tree: &Tree, number: usize) -> Result<(), AllocError> {
        for user in tree.user_table().row(number) {
            self.add(*user as usize)?;
        }
        Ok(())
    }

    /// Marks a node or a condition. The error comes where memory is refused.
    fn add(&mut self, number: usize) -> Result<(), AllocError> {
        let Some(mark) = self.marks.get_mut(number) else {
            return Ok(());
        };
        if *mark {
            return Ok(());
        }
        *mark = true;
        self.waiting.push(number)?;
        Ok(())
    }

    /// Whether the value of a symbol is among them.
    pub(crate) fn has(&self, tree: &Tree, symbol: SymId) -> bool {
        match self.marks.get(tree.number(Node::Val(symbol))) {
            Some(mark) => *mark,
            None => false,
        }
    }
}
