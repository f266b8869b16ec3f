ghost use Rattle.std.specs.Prelude.{◌≡◌, List, [], ◌∷◌, ◌++◌, IfOk, OnOk};
ghost use Rattle.std.specs.Borrow.{sem};
ghost use Rattle.std.specs.Io.BufRead.{Rests};
ghost use Rattle.kc_tree.specs.declared.node.Node.{Node};
ghost use Rattle.kc_outline.specs.TreeValue.{TreeValue};
ghost use Rattle.kc_tree.specs.Nodes.{IsNodeOf};
ghost use Rattle.kc_tree.specs.Reached.{Reached};
ghost use Rattle.kc_value.specs.NodeLists.{AreNodesOf, AreValuesOf};
ghost use Rattle.kc_value.specs.UserValues.{UserValues, IsUserFor};
ghost use Rattle.kc_value.specs.Solution.{solution, IsOnlySolution};

use crate::node_values::NodeValues;
use crate::user::User;
use crate::value::{Value, copy_of};
use kc_tree::{Node, Tree};
use std::alloc::{AllocError, Global};

/// What answers with the values of a tree for the values of a user. What a resolver keeps between calls is
/// its own; `grew` and `knows` are what callers may say of it.
pub trait Resolver {
    /// The tree, as contracts see it.
    ghost tree_of: { Self → TreeValue };

    /// The user values, as contracts see them.
    ghost user_of: { Self → UserValues };

    /// What may have become of the resolver, from the first to the second, while the nodes were asked. Of one that keeps
    /// values: what was kept stays, only nodes that are reached from those asked were added, and each was counted once.
    /// [`Fresh`](crate::Fresh) gives it as always true. Each function over a resolver promises it for the nodes that it
    /// asks, whatever it returns.
    ghost grew: { Self → Self → List Node → Type 0 };

    /// That the value of the node is at hand: of a resolver that keeps values, that it is kept.
    ghost knows: { Self → Node → Type 0 };

    /// The tree that is answered for.
    fn tree(&self) -> &Tree
        ensures { result.now ≡ tree_of self.now };

    /// The user values that are answered for: those of a user of the tree.
    fn user(&self) -> &User
        ensures user { result.now ≡ user_of self.now }
        ensures fitting { IsUserFor (tree_of self.now) (user_of self.now) };

    /// The value of a node of the tree in the only solution. That there is one, and no other, holds whatever the call
    /// returns; tree and user values stay. The error comes where memory is refused.
    fn node(&mut self, node: Node) -> Result<&Value, AllocError>
        requires { IsNodeOf (tree_of self.old) node }
        ensures value { IfOk result (λ v. v.now ≡ solution (tree_of self.old) (user_of self.old) node) }
        ensures solved { IsOnlySolution (tree_of self.old) (user_of self.old) (solution (tree_of self.old) (user_of self.old)) }
        ensures fitting { IsUserFor (tree_of self.old) (user_of self.old) }
        ensures* after_borrow { sem 𝓛 (Rests Self.row self.entry (λ new.
            (tree_of new ≡ tree_of self.old) × (user_of new ≡ user_of self.old)
            × grew self.old new (node ∷ []) × OnOk result (knows new node))) };

    /// Copies the values of nodes of the tree into a list by number, by asking for one node after another. That there is
    /// one solution, and no other, for these user values and for any others, holds whatever the call returns; tree and user
    /// values stay.
    ///
    /// # Errors
    ///
    /// The error comes where memory is refused.
    fn values_of(&mut self, alloc: Global, nodes: &[Node]) -> Result<NodeValues, AllocError>
        requires { AreNodesOf (tree_of self.old) nodes.now }
        ensures values { IfOk result (λ v. AreValuesOf (tree_of self.old) (solution (tree_of self.old) (user_of self.old)) nodes.now v) }
        ensures tree { tree_of self.new ≡ tree_of self.old }
        ensures user { user_of self.new ≡ user_of self.old }
        ensures grew { grew self.old self.new nodes.now }
        ensures solved { (u : UserValues) → IsOnlySolution (tree_of self.old) u (solution (tree_of self.old) u) }
        ensures fitting { IsUserFor (tree_of self.old) (user_of self.old) }
    {
        // That the user values are those of a user of the tree is a clause of this call.
        let _ = self.user();
        let mut values = NodeValues::empty(alloc, self.tree().node_count())?;
        for node in nodes {
            let value = copy_of(self.node(*node)?)?;
            values.put(self.tree().number(*node), value)?;
        }
        Ok(values)
    }

    /// A resolver that was left alone was asked no node.
    ghost grew_nothing: { (r : Self) → grew r r [] };

    /// Asking some nodes and then others is asking all of them.
    ghost grew_then: { (r s t : Self) (p q : List Node)
        → grew r s p → grew s t q → grew r t (p ++ q) };

    /// Asking some nodes is a case of asking others from which at least as many nodes are reached.
    ghost grew_wider: { (r s : Self) (p q : List Node)
        → ((n : Node) → Reached (tree_of r) p n → Reached (tree_of r) q n) → grew r s p → grew r s q };

    /// What is at hand stays so, whatever is asked.
    ghost knows_after: { (r s : Self) (p : List Node) (n : Node)
        → IsNodeOf (tree_of r) n → knows r n → grew r s p → knows s n };
}
