//! A resolver that is written outside kc_value: a tree, user values, and a plain list of the values of the nodes. It gives
//! what [`Resolver`] requires, and the rest is provided.

ghost use Rattle.std.specs.Prelude.{◌≡◌, IfOk, length};
ghost use Rattle.kc_session_tests.specs.Listed.{AreValuesByPlace};
ghost use Rattle.kc_tree.specs.Nodes.{node_count};
ghost use Rattle.kc_value.specs.Solution.{AreSolved, IsOnlySolution, solution};

use kc_tree::{Node, Tree};
use kc_value::{Known, Meter, Resolver, Solved, User, Value, eval};
use std::alloc::{AllocError, Global};
use std::marker::Model;

/// A tree and user values, with the value of each node in the order of their numbers. Contracts see the tree and the
/// user values.
#[derive(Drop)]
pub struct Listed<'a> {
    tree: &'a Tree,
    user: &'a User,
    values: Vec<Value>,
}

impl<'a> Model for Listed<'a> {
    ghost use Rattle.std.specs.Coded.{codes};
    ghost use Rattle.kc_statement.specs.contracts.expr.Expr as expr;
    ghost use Rattle.kc_session_tests.specs.Listed.{IsListed, ListedValue};

    ghost Value = { ListedValue };

    ghost coded = { Prim.hlevel (codes, expr.the_row.coded) };

    ghost view = { λ l. record { tree = l.tree.now; user = l.user.now } };

    ghost invariant = { λ l. IsListed l.tree.now l.user.now l.values.items };
}

/// What the rules give the nodes of a tree, in the order of their numbers, over the values of all nodes.
///
/// The error comes where memory is refused.
fn rules_of(
    alloc: Global,
    known: &Known<'_>,
    user: &User,
    meter: &mut Meter,
) -> Result<Vec<Value>, AllocError>
    requires solved { AreSolved known.now.tree user.now known.now.values }
    requires one { IsOnlySolution known.now.tree user.now (solution known.now.tree user.now) }
    ensures all { IfOk result (λ v. length v.items ≡ node_count known.now.tree) }
    ensures right { IfOk result (λ v. AreValuesByPlace known.now.tree user.now v.items) }
{
    let tree = known.tree();
    let mut values = Vec::new(alloc);
    for number in 0..tree.node_count() {
        values.push(eval(alloc, known, user, tree.node(number), meter)?)?;
    }
    Ok(values)
}

impl<'a> Listed<'a> {
    /// The values of the nodes of a tree, over those of the solution, with a meter that counts their evaluations.
    ///
    /// # Errors
    ///
    /// The error comes where memory is refused.
    pub fn of(
        alloc: Global,
        solved: &Solved<'a>,
        meter: &mut Meter,
    ) -> Result<Listed<'a>, AllocError>
        requires solved { AreSolved solved.now.tree solved.now.user solved.now.values }
        requires one { IsOnlySolution solved.now.tree solved.now.user (solution solved.now.tree solved.now.user) }
        ensures { IfOk result (λ l. l ≡ record { tree = solved.now.tree; user = solved.now.user }) }
    {
        let values = rules_of(alloc, solved.known(), solved.user(), meter)?;
        Ok(Listed {
            tree: solved.tree(),
            user: solved.user(),
            values,
        })
    }
}

impl<'a> Resolver for Listed<'a> {
    ghost tree_of = { λ l. l.tree };

    ghost user_of = { λ l. l.user };

    ghost grew = { λ _ _ _. Unit {0} };

    ghost knows = { λ _ _. Unit {0} };

    ghost grew_nothing = { λ r. tt };

    ghost grew_then = { λ r s t p q g h. tt };

    ghost grew_wider = { λ r s p q w g. tt };

    ghost knows_after = { λ r s p n at k g. tt };

    fn tree(&self) -> &Tree {
        self.tree
    }

    fn user(&self) -> &User {
        self.user
    }

    fn node(&mut self, node: Node) -> Result<&Value, AllocError> {
        Ok(&self.values[self.tree.number(node)])
    }
}
