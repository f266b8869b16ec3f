ghost use Rattle.std.specs.Prelude.{◌≡◌, IfOk, OnOk, Some, is_some, true};
ghost use Rattle.kc_tree.specs.Nodes.{IsNodeOf};
ghost use Rattle.kc_value.specs.Assignment.{value_at};
ghost use Rattle.kc_value.specs.NodeLists.{AreNodesOf, AreValuesOf};
ghost use Rattle.kc_value.specs.Solution.{solution, IsOnlySolution};
ghost use Rattle.kc_value.specs.UserValues.{UserValues, IsUserFor};

use crate::kept_values::KeptValues;
use crate::node_values::NodeValues;
use crate::resolver::Resolver;
use crate::user::User;
use crate::value::Value;
use kc_tree::{Node, Tree};
use std::alloc::{AllocError, Global};
use std::marker::Model;

/// A resolver over a tree and user values that keeps nothing from one question to the next: each evaluates all that it
/// needs. Contracts see the tree, the user values, and the values of the last question.
#[derive(Drop)]
pub struct Fresh<'a> {
    alloc: Global,
    tree: &'a Tree,
    user: &'a User,
    /// The values of the last question, which lends one of them; none before the first.
    last: Option<KeptValues>,
}

impl<'a> Model for Fresh<'a> {
    ghost use Rattle.std.specs.Coded.{codes};
    ghost use Rattle.kc_statement.specs.contracts.expr.Expr as expr;
    ghost use Rattle.kc_value.specs.Fresh.{FreshValue, values_or_none};
    ghost use Rattle.kc_value.specs.UserValues.{IsUserFor};

    ghost Value = { FreshValue };

    ghost coded = { Prim.hlevel (codes, expr.the_row.coded) };

    ghost view = { λ f. record { tree = f.tree.now; user = f.user.now; last = values_or_none f.last } };

    ghost invariant = { λ f. IsUserFor f.tree.now f.user.now };
}

/// The values of nodes of a tree, evaluated from nothing. That the tree has one solution, and no other, holds whatever the
/// call returns.
///
/// The error comes where memory is refused.
fn kept_for(
    alloc: Global,
    tree: &Tree,
    user: &User,
    nodes: &[Node],
) -> Result<KeptValues, AllocError>
    requires fitting { IsUserFor tree.now user.now }
    requires nodes { AreNodesOf tree.now nodes.now }
    ensures values { IfOk result (λ k. AreValuesOf tree.now (solution tree.now user.now) nodes.now k.values) }
    ensures solved { (u : UserValues) → IsOnlySolution tree.now u (solution tree.now u) }
{
    let mut kept = KeptValues::new(alloc, tree)?;
    for node in nodes {
        kept.fill(alloc, tree, user, *node)?;
    }
    Ok(kept)
}

impl<'a> Fresh<'a> {
    /// A resolver for the values of this user over this tree, which are those of a user of it.
    pub fn new(alloc: Global, tree: &'a Tree, user: &'a User) -> Fresh<'a>
        requires { IsUserFor tree.now user.now }
        ensures tree { ⟦<Fresh<'a> as Resolver>⟧.tree_of result ≡ tree.entry.now }
        ensures user { ⟦<Fresh<'a> as Resolver>⟧.user_of result ≡ user.entry.now }
    {
        Fresh {
            alloc,
            tree,
            user,
            last: None,
        }
    }
    /// Evaluates a node and all that it is computed from. That the tree has one solution, and no other, holds whatever the
    /// call returns. The error comes where memory is refused.
    fn evaluate(&mut self, node: Node) -> Result<(), AllocError>
        requires { IsNodeOf self.old.tree node }
        ensures value { OnOk result (value_at self.old.tree self.new.last node ≡ Some (solution self.old.tree self.old.user node)) }
        ensures solved { (u : UserValues) → IsOnlySolution self.old.tree u (solution self.old.tree u) }
        ensures tree { self.new.tree ≡ self.old.tree }
        ensures user { self.new.user ≡ self.old.user }
    {
        let kept = kept_for(self.alloc, self.tree, self.user, &[node])?;
        self.last = Some(kept);
        Ok(())
    }

    /// The value of a node that was evaluated for the last question.
    fn last_value(&self, node: Node) -> &Value
        requires { is_some (value_at self.now.tree self.now.last node) ≡ true }
        ensures { value_at self.now.tree self.now.last node ≡ Some result.now }
    {
        match &self.last {
            Some(kept) => kept.value(self.tree, node),
            None => unreachable!(),
        }
    }
}

impl<'a> Resolver for Fresh<'a> {
    ghost tree_of = { λ f. f.tree };

    ghost user_of = { λ f. f.user };

    ghost grew = { λ _ _ _. Unit {0} };

    ghost knows = { λ _ _. Unit {0} };

    ghost grew_nothing = { λ r. tt };

    ghost grew_then = { λ r s t p q g h. tt };

    ghost grew_wider = { λ r s p q w g. tt };

    ghost knows_after = { λ r s p n at k g. tt };

    fn tree(&self) -> &Tree {
        self.tree
    }

    fn user(&self) -> &User {
        self.user
    }

    fn node(&mut self, node: Node) -> Result<&Value, AllocError> {
        // That the user values are those of a user of the tree is a clause of this call.
        let _ = self.user();
        self.evaluate(node)?;
        Ok(self.last_value(node))
    }

    fn values_of(&mut self, alloc: Global, nodes: &[Node]) -> Result<NodeValues, AllocError> {
        let kept = kept_for(alloc, self.tree, self.user, nodes)?;
        Ok(kept.into_parts().0)
    }
}
