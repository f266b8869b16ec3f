//! A tree with user values, and values of its nodes that are those of the solution.

ghost use Rattle.std.specs.Prelude.{◌≡◌};
ghost use Rattle.kc_tree.specs.Accepted.{IsAccepted};
ghost use Rattle.kc_tree.specs.Nodes.{IsNodeOf};
ghost use Rattle.kc_value.specs.ChangedValue.{ChangesAreJustEnough};
ghost use Rattle.kc_value.specs.Kept.{AreKept, IsKept};
ghost use Rattle.kc_value.specs.Solution.{solution, AreSolved};
ghost use Rattle.kc_value.specs.Solved.{IsSolved};
ghost use Rattle.kc_value.specs.UserValues.{IsUserFor};

use crate::known::Known;
use crate::node_values::NodeValues;
use crate::user::User;
use crate::value::Value;
use kc_tree::{Node, Tree};
use std::marker::Model;

/// A tree with user values, and values of its nodes: each that is there is the solution's, and so are those that its node
/// is computed from. Texts and answers are made from it. Contracts see the record of them.
#[derive(Drop)]
pub struct Solved<'a> {
    known: Known<'a>,
    user: &'a User,
}

impl<'a> Model for Solved<'a> {
    ghost use Rattle.std.specs.Coded.{codes};
    ghost use Rattle.kc_statement.specs.contracts.expr.Expr as expr;
    ghost use Rattle.kc_value.specs.Solved.{SolvedValue, IsSolved};
    ghost use Rattle.kc_value.specs.UserValues.{IsUserFor};

    ghost Value = { SolvedValue };

    ghost coded = { Prim.hlevel (codes, expr.the_row.coded) };

    ghost view = { λ s. record { tree = s.known.tree; user = s.user.now; values = s.known.values } };

    ghost invariant = { λ s. IsUserFor s.known.tree s.user.now × IsSolved s.known.tree s.user.now s.known.values };
}

impl<'a> Solved<'a> {
    /// What is kept of a tree.
    #[tactic(auto, using(crate::proofs::SolvedLaws::kept_right, crate::proofs::SolvedLaws::kept_solved))]
    pub fn of_kept(tree: &'a Tree, user: &'a User, values: &'a NodeValues) -> Solved<'a>
        requires user { IsUserFor tree.now user.now }
        requires kept { AreKept tree.now user.now values.now }
        ensures { result ≡ record { tree = tree.entry.now; user = user.entry.now; values = values.entry.now } }
    {
        // The laws of its cells are a clause of this call.
        let _ = tree.use_table();
        Solved {
            known: Known::of_cells(tree, values),
            user,
        }
    }

    /// The values of all nodes of a tree.
    #[tactic(auto, using(crate::proofs::SolvedLaws::all_solved))]
    pub fn of_nodes(tree: &'a Tree, user: &'a User, values: &'a NodeValues) -> Solved<'a>
        requires user { IsUserFor tree.now user.now }
        requires solved { AreSolved tree.now user.now values.now }
        ensures { result ≡ record { tree = tree.entry.now; user = user.entry.now; values = values.entry.now } }
    {
        Solved {
            known: Known::of_nodes(tree, values),
            user,
        }
    }

    /// The tree.
    #[inline]
    pub fn tree(&self) -> &'a Tree
        ensures tree { result.now ≡ self.now.tree }
        ensures accepted { IsAccepted self.now.tree }
    {
        self.known.tree()
    }

    /// The user values, which are those of a user of the tree. What they change is just enough for the solution.
    #[tactic(auto, using(crate::proofs::ChangedLaws::just_enough))]
    pub fn user(&self) -> &'a User
        ensures user { result.now ≡ self.now.user }
        ensures fitting { IsUserFor self.now.tree self.now.user }
        ensures changes { ChangesAreJustEnough self.now.tree self.now.user }
    {
        // That the tree is accepted is a clause of this call.
        let _ = self.known.tree().symbols();
        self.user
    }

    /// The values by number.
    #[inline]
    pub fn values(&self) -> &'a NodeValues
        ensures values { result.now ≡ self.now.values }
        ensures solved { IsSolved self.now.tree self.now.user self.now.values }
    {
        self.known.values()
    }

    /// What rules read.
    #[inline]
    pub fn known(&self) -> &Known<'a>
        ensures tree { result.now.tree ≡ self.now.tree }
        ensures values { result.now.values ≡ self.now.values }
        ensures fitting { IsUserFor self.now.tree self.now.user }
        ensures solved { IsSolved self.now.tree self.now.user self.now.values }
    {
        &self.known
    }

    /// The value of a node that has one.
    pub fn value(&self, node: Node) -> &'a Value
        requires inside { IsNodeOf self.now.tree node }
        requires kept { IsKept self.now.tree self.now.values node }
        ensures value { result.now ≡ solution self.now.tree self.now.user node }
        ensures accepted { IsAccepted self.now.tree }
    {
        match self.known.get(node) {
            Some(value) => value,
            None => unreachable!(),
        }
    }
}
