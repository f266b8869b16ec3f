//! A tree with its values.

ghost use Rattle.std.specs.Prelude.{◌≡◌, IfSome, is_some, slice_get};
ghost use Rattle.kc_value.specs.Reasons.{IsReason};
ghost use Rattle.kc_value.specs.Solution.{AreSolved, solution};

use kc_tree::{SymId, Tree};
use kc_value::{Known, NodeValues, Reason, Solved, User, reason_over};
use std::marker::Model;

/// A tree, the values that a user gave, and the values of all nodes, which are those of the only solution. Contracts see
/// the record of the three.
#[derive(Drop)]
pub struct View<'s> {
    solved: Solved<'s>,
}

impl<'s> Model for View<'s> {
    ghost use Rattle.kc_value.specs.Solution.{AreSolved};
    ghost use Rattle.kc_value.specs.Solved.{SolvedValue};
    ghost use Rattle.kc_statement.specs.contracts.expr.Expr as expr;
    ghost use Rattle.std.specs.Coded.{codes};

    ghost Value = { SolvedValue };

    ghost coded = { Prim.hlevel (codes, expr.the_row.coded) };

    ghost view = { λ v. v.solved };

    ghost invariant = { λ v. AreSolved v.solved.tree v.solved.user v.solved.values };
}

impl<'s> View<'s> {
    /// Of a tree with user values, where the values of all nodes are there.
    pub fn new(solved: Solved<'s>) -> View<'s>
        requires { AreSolved solved.tree solved.user solved.values }
        ensures { result ≡ solved.entry }
    {
        View { solved }
    }

    /// The tree.
    pub fn tree(&self) -> &'s Tree
        ensures tree { result.now ≡ self.now.tree }
        ensures solved { AreSolved self.now.tree self.now.user self.now.values }
    {
        self.solved.tree()
    }

    /// The values that the user gave, and the members that he chose.
    pub fn user(&self) -> &'s User
        ensures user { result.now ≡ self.now.user }
        ensures solved { AreSolved self.now.tree self.now.user self.now.values }
    {
        self.solved.user()
    }

    /// The values of all nodes, by number.
    pub fn values(&self) -> &'s NodeValues
        ensures values { result.now ≡ self.now.values }
        ensures solved { AreSolved self.now.tree self.now.user self.now.values }
    {
        self.solved.values()
    }

    /// What rules read.
    pub fn known(&self) -> &Known<'s>
        ensures tree { result.now.tree ≡ self.now.tree }
        ensures values { result.now.values ≡ self.now.values }
    {
        self.solved.known()
    }

    /// Why a symbol has its value, none for one that the tree doesn't have: the branch of the rule that gives it.
    pub fn reason(&self, symbol: SymId) -> Option<Reason>
        ensures reason { IfSome result (IsReason self.now.tree self.now.user (solution self.now.tree self.now.user) symbol) }
        ensures there { is_some result ≡ is_some (slice_get self.now.tree.symbols symbol.0) }
    {
        let _found = self.tree().symbols().get(symbol.0 as usize)?;
        Some(reason_over(self.known(), self.user(), symbol))
    }
}
