//! The values of the nodes that a text or an answer is made from, copied from a resolver.

ghost use Rattle.std.specs.Prelude.{◌≡◌, [], ◌∷◌, IfOk};
ghost use Rattle.kc_tree.specs.Accepted.{IsAccepted};
ghost use Rattle.kc_tree.specs.declared.node.Node.{Node};
ghost use Rattle.kc_tree.specs.Nodes.{IsNodeOf, all_nodes};
ghost use Rattle.kc_tree.specs.Uses.{Uses};
ghost use Rattle.kc_value.specs.Assignment.{assignment_of};
ghost use Rattle.kc_value.specs.Solution.{solution, AreSolved, IsOnlySolution};
ghost use Rattle.kc_value.specs.UserValues.{UserValues, IsUserFor};

use crate::node_values::NodeValues;
use crate::resolver::Resolver;
use kc_tree::Node;
use std::alloc::{AllocError, Global};

/// The values of all nodes of the tree that a resolver answers for, by number. That the tree has one solution, and no
/// other, for any user values holds whatever the call returns; tree and user values stay.
///
/// # Errors
///
/// The error comes where memory is refused.
pub fn values_of_all<R: Resolver>(alloc: Global, resolver: &mut R) -> Result<NodeValues, AllocError>
    ensures values { IfOk result (λ v. AreSolved (R.tree_of resolver.old) (R.user_of resolver.old) v) }
    ensures solved { (u : UserValues) → IsOnlySolution (R.tree_of resolver.old) u (solution (R.tree_of resolver.old) u) }
    ensures tree { R.tree_of resolver.new ≡ R.tree_of resolver.old }
    ensures user { R.user_of resolver.new ≡ R.user_of resolver.old }
    ensures fitting { IsUserFor (R.tree_of resolver.old) (R.user_of resolver.old) }
    ensures grew { R.grew resolver.old resolver.new (all_nodes (R.tree_of resolver.old)) }
{
    // That the user values are those of a user of the tree is a clause of this call.
    let _ = resolver.user();
    let nodes: Vec<Node> = resolver.tree().nodes().collect(alloc)?;
    resolver.values_of(alloc, nodes.as_slice())
}

/// The values of the nodes that a node is computed from, by number, with what is said at [`values_of_all`].
///
/// The error comes where memory is refused.
pub(crate) fn values_of_used<R: Resolver>(
    alloc: Global,
    resolver: &mut R,
    node: Node,
) -> Result<NodeValues, AllocError>
    requires { IsNodeOf (R.tree_of resolver.old) node }
    ensures values { IfOk result (λ v. (n : Node) → Uses (R.tree_of resolver.old) node n
        → assignment_of (R.tree_of resolver.old) v n ≡ solution (R.tree_of resolver.old) (R.user_of resolver.old) n) }
    ensures solved { (u : UserValues) → IsOnlySolution (R.tree_of resolver.old) u (solution (R.tree_of resolver.old) u) }
    ensures accepted { IsAccepted (R.tree_of resolver.old) }
    ensures tree { R.tree_of resolver.new ≡ R.tree_of resolver.old }
    ensures user { R.user_of resolver.new ≡ R.user_of resolver.old }
    ensures fitting { IsUserFor (R.tree_of resolver.old) (R.user_of resolver.old) }
    ensures grew { R.grew resolver.old resolver.new (node ∷ []) }
{
    // That the user values are those of a user of the tree is a clause of this call.
    let _ = resolver.user();
    let nodes: Vec<Node> = resolver.tree().uses(node).collect(alloc)?;
    resolver.values_of(alloc, nodes.as_slice())
}
