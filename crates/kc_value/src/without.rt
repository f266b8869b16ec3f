//! The value that a node would have without its own user value or chosen member.

ghost use Rattle.std.specs.Prelude.{◌≡◌, IfOk, [], ◌∷◌, false};
ghost use Rattle.kc_tree.specs.declared.node.Node.TheVariants.{Val, Sel};
ghost use Rattle.kc_tree.specs.Accepted.{IsAccepted};
ghost use Rattle.kc_tree.specs.declared.node.Node.{Node};
ghost use Rattle.kc_tree.specs.Nodes.{IsNodeOf};
ghost use Rattle.kc_tree.specs.Uses.{Uses};
ghost use Rattle.kc_value.specs.Known.{given};
ghost use Rattle.kc_value.specs.Rule.{rule};
ghost use Rattle.kc_value.specs.Solution.{solution, IsOnlySolution};
ghost use Rattle.kc_value.specs.UserValues.{UserValues};
ghost use Rattle.kc_value.specs.Without.{user_without, value_without, selects_none, IsOwned};

use crate::asked_values::values_of_used;
use crate::choice_value::selection_value;
use crate::known::Known;
use crate::resolver::Resolver;
use crate::symbol_value::symbol_value;
use crate::value::Value;
use kc_tree::{ChoiceId, Node, SymId, Tree, Tri};
use std::alloc::{AllocError, Global};

/// Whether the node is the selection of an optional choice, which without a chosen member selects none.
fn selects_none(tree: &Tree, node: Node) -> bool
    ensures test { result ≡ selects_none tree.now node }
    ensures accepted { IsAccepted tree.now }
{
    let choices = tree.choices();
    match node {
        Node::Vis(_) | Node::Val(_) | Node::Mode(_) => false,
        Node::Sel(choice) => match choices.get(choice.0 as usize) {
            Some(choice) => choice.is_optional(),
            None => false,
        },
    }
}

/// What the rule gives a symbol without a user value, over the values of the nodes that it is computed from.
fn value_alone(alloc: Global, known: &Known<'_>, symbol: SymId) -> Result<Value, AllocError>
    ensures { (u : UserValues) → IfOk result (λ v. v
        ≡ rule known.now.tree (user_without u (Val symbol)) (given known.now) (Val symbol)) }
{
    match known.symbol(symbol) {
        Some(found) => {
            let visibility = known.tri(Node::Vis(symbol));
            symbol_value(alloc, known, symbol, found, visibility, None)
        }
        None => Ok(Value::Tri(Tri::No)),
    }
}

/// What the rule gives a selection without a chosen member, over the values of the nodes that it is computed from.
fn selection_alone(known: &Known<'_>, choice: ChoiceId) -> Value
    ensures { (u : UserValues) →
        result ≡ rule known.now.tree (user_without u (Sel choice)) (given known.now) (Sel choice) }
{
    match known.choice(choice) {
        Some(found) => Value::Member(selection_value(known, choice, found, None)),
        None => Value::Tri(Tri::No),
    }
}

/// The value of a node without the user's own, over the values of the nodes that it is computed from. The error comes
/// where memory is refused.
pub(crate) fn value_without(
    alloc: Global,
    known: &Known<'_>,
    node: Node,
) -> Result<Value, AllocError>
    requires inside { IsNodeOf known.now.tree node }
    requires owned { IsOwned node }
    ensures { (u : UserValues) → ((n : Node) → Uses known.now.tree node n → given known.now n ≡ solution known.now.tree u n)
        → IfOk result (λ v. v ≡ value_without known.now.tree u node) }
{
    if selects_none(known.tree(), node) {
        return Ok(Value::Member(None));
    }
    match node {
        Node::Val(symbol) => value_alone(alloc, known, symbol),
        Node::Sel(choice) => Ok(selection_alone(known, choice)),
        Node::Vis(_) | Node::Mode(_) => unreachable!(),
    }
}

/// The value that a symbol's value or a choice's selection would have without the user's own value for the symbol, or
/// without a chosen member, all else as it is; an optional choice without a chosen member selects none. The resolver is
/// asked for the node alone, and keeps tree and user values. That the tree has one solution, and no other, holds whatever
/// the call returns.
///
/// The error comes where memory is refused.
pub fn without_user<R: Resolver>(
    alloc: Global,
    resolver: &mut R,
    node: Node,
) -> Result<Value, AllocError>
    requires inside { IsNodeOf (R.tree_of resolver.old) node }
    requires owned { IsOwned node }
    ensures value { IfOk result
        (λ v. v ≡ value_without (R.tree_of resolver.old) (R.user_of resolver.old) node) }
    ensures solved { IsOnlySolution (R.tree_of resolver.old) (R.user_of resolver.old)
        (solution (R.tree_of resolver.old) (R.user_of resolver.old)) }
    ensures accepted { IsAccepted (R.tree_of resolver.old) }
    ensures tree { R.tree_of resolver.new ≡ R.tree_of resolver.old }
    ensures user { R.user_of resolver.new ≡ R.user_of resolver.old }
    ensures grew { R.grew resolver.old resolver.new (node ∷ []) }
{
    let used = values_of_used(alloc, resolver, node)?;
    value_without(alloc, &Known::of_nodes(resolver.tree(), &used), node)
}
