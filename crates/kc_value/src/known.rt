//! What rules read: the values of a tree's nodes, and of conditions as far as they are known.

ghost use Rattle.std.specs.Prelude.{◌≡◌, IfSome, slice_get};
ghost use Rattle.std.specs.Option.{option_copied};
ghost use Rattle.kc_tree.specs.Accepted.{IsAccepted};
ghost use Rattle.kc_tree.specs.declared.cell.Cell.{Cell};
ghost use Rattle.kc_tree.specs.Cells.{IsCellOf, IsCondition, condition_of};
ghost use Rattle.kc_value.specs.Assignment.{as_tri, value_at};
ghost use Rattle.kc_value.specs.Conditions.{condition_value};
ghost use Rattle.kc_value.specs.Known.{AreRight, given};

use crate::node_values::NodeValues;
use crate::value::Value;
use kc_tree::{
    Block, BlockId, Cell, Choice, ChoiceId, Comment, CommentId, Definition, Node, SymId, Symbol,
    Tree, Tri,
};
use std::marker::Model;

/// The values of a tree's nodes, by number, and of conditions as far as they are known. Contracts see the tree, and a
/// value or none for each node: a condition that is known is what the nodes give.
#[derive(Drop)]
pub struct Known<'a> {
    tree: &'a Tree,
    values: &'a NodeValues,
    /// Whether the conditions among the values are those that the nodes give, so that they may be read.
    has_conditions: bool,
}

impl<'a> Model for Known<'a> {
    ghost use Rattle.std.specs.Prelude.{◌≡◌, true};
    ghost use Rattle.std.specs.Coded.{codes};
    ghost use Rattle.kc_statement.specs.contracts.expr.Expr as expr;
    ghost use Rattle.kc_tree.specs.Accepted.{IsAccepted};
    ghost use Rattle.kc_value.specs.Known.{AreRight, KnownValue};

    ghost Value = { KnownValue };

    ghost coded = { Prim.hlevel (codes, expr.the_row.coded) };

    ghost view = { λ k. record { tree = k.tree.now; values = k.values.now } };

    ghost invariant = { λ k. IsAccepted k.tree.now × (k.has_conditions ≡ true → AreRight k.tree.now k.values.now) };
}

impl<'a> Known<'a> {
    /// The values of nodes alone: each condition is evaluated from its lines where it is asked for.
    pub fn of_nodes(tree: &'a Tree, values: &'a NodeValues) -> Known<'a>
        ensures tree { result.tree ≡ tree.entry.now }
        ensures values { result.values ≡ values.entry.now }
        ensures accepted { IsAccepted tree.entry.now }
    {
        // That the tree is accepted is a clause of this call.
        let _ = tree.node_count();
        Known {
            tree,
            values,
            has_conditions: false,
        }
    }

    /// The values of nodes, and of the conditions among them, which are those that the nodes give.
    pub fn of_cells(tree: &'a Tree, values: &'a NodeValues) -> Known<'a>
        requires { AreRight tree.now values.now }
        ensures tree { result.tree ≡ tree.entry.now }
        ensures values { result.values ≡ values.entry.now }
        ensures accepted { IsAccepted tree.entry.now }
    {
        // That the tree is accepted is a clause of this call.
        let _ = tree.node_count();
        Known {
            tree,
            values,
            has_conditions: true,
        }
    }

    /// The tree.
    #[inline]
    pub fn tree(&self) -> &'a Tree
        ensures tree { result.now ≡ self.now.tree }
        ensures accepted { IsAccepted self.now.tree }
    {
        self.tree
    }

    /// The values by number.
    #[inline]
    pub fn values(&self) -> &'a NodeValues
        ensures { result.now ≡ self.now.values }
    {
        self.values
    }

    /// A symbol by number, if there is one.
    pub(crate) fn symbol(&self, id: SymId) -> Option<&'a Symbol>
        ensures symbol { option_copied result ≡ slice_get self.now.tree.symbols id.0 }
        ensures accepted { IsAccepted self.now.tree }
    {
        self.tree.symbols().get(id.0 as usize)
    }

    /// A choice by number, if there is one.
    pub(crate) fn choice(&self, id: ChoiceId) -> Option<&'a Choice>
        ensures choice { option_copied result ≡ slice_get self.now.tree.choices id.0 }
        ensures accepted { IsAccepted self.now.tree }
    {
        self.tree.choices().get(id.0 as usize)
    }

    /// A definition by number, if there is one.
    pub(crate) fn definition(&self, number: usize) -> Option<&'a Definition>
        ensures definition { option_copied result ≡ slice_get self.now.tree.definitions number }
        ensures accepted { IsAccepted self.now.tree }
    {
        self.tree.definitions().get(number)
    }

    /// A block by number, if there is one.
    pub(crate) fn block(&self, id: BlockId) -> Option<&'a Block>
        ensures block { option_copied result ≡ slice_get self.now.tree.blocks id.0 }
        ensures accepted { IsAccepted self.now.tree }
    {
        self.tree.blocks().get(id.0)
    }

    /// A comment by number, if there is one.
    pub(crate) fn comment(&self, id: CommentId) -> Option<&'a Comment>
        ensures comment { option_copied result ≡ slice_get self.now.tree.comments id.0 }
        ensures accepted { IsAccepted self.now.tree }
    {
        self.tree.comments().get(id.0)
    }

    /// The value of a node, if it has one.
    pub fn get(&self, node: Node) -> Option<&'a Value>
        ensures value { option_copied result ≡ value_at self.now.tree self.now.values node }
        ensures accepted { IsAccepted self.now.tree }
    {
        self.values.get(self.tree.number(node))
    }

    /// The tristate value of a node, n where it has none.
    pub fn tri(&self, node: Node) -> Tri
        ensures value { result ≡ as_tri (given self.now node) }
        ensures accepted { IsAccepted self.now.tree }
    {
        self.values.tri(self.tree.number(node))
    }

    /// What a condition is worth, if it is known.
    #[tactic(auto, using(crate::proofs::KnownLaws::level_right))]
    pub(crate) fn condition(&self, cell: Cell) -> Option<Tri>
        requires inside { IsCellOf self.now.tree cell }
        requires condition { IsCondition cell }
        ensures { IfSome result (λ v. v ≡ condition_value self.now.tree (given self.now) (condition_of self.now.tree cell)) }
    {
        if !self.has_conditions {
            return None;
        }
        self.values.level(self.tree.cell_number(cell))
    }
}
