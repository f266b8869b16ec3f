//! All nodes of a tree, by number.

ghost use Rattle.std.specs.Prelude.{◌≡◌};
ghost use Rattle.std.specs.Iterator.{YieldsFirst, item_count};
ghost use Rattle.kc_tree.specs.Accepted.{IsAccepted};
ghost use Rattle.kc_tree.specs.Nodes.{all_nodes};

use crate::node::Node;
use crate::tree::Tree;
use std::marker::Model;

/// The nodes of a tree in the order of their numbers. Contracts see the list of those that are left.
#[derive(Drop)]
pub struct Nodes {
    symbols: usize,
    next: usize,
    end: usize,
}

impl Model for Nodes {
    ghost use Rattle.std.specs.Prelude.{◌-◌, ◌≤◌, ◌^◌, List, map};
    ghost use Rattle.std.specs.List.{range_with_len};
    ghost use Rattle.kc_tree.specs.declared.node.Node.{Node};
    ghost use Rattle.kc_tree.specs.Nodes.{node_in};
    ghost use Rattle.kc_statement.specs.declared.limits.TheConstants.{MOST_SYMBOLS};

    ghost Value = { List Node };

    ghost view = { λ a. map (node_in a.symbols) (range_with_len a.next (a.end - a.next)) };

    ghost invariant = { λ a. (a.end ≤ 2 ^ 32) × (a.symbols ≤ MOST_SYMBOLS) };
}

impl Nodes {
    /// All nodes of a tree.
    pub(crate) fn of(tree: &Tree) -> Nodes
        ensures nodes { result ≡ all_nodes tree.now }
        ensures accepted { IsAccepted tree.now }
    {
        Nodes {
            symbols: tree.symbols().len(),
            next: 0,
            end: tree.node_count(),
        }
    }
}

impl Iterator for Nodes {
    type Item = Node;

    ghost next_gives = { YieldsFirst (λ left. left) };

    ghost remaining = { item_count (λ left. left) };

    fn next(&mut self) -> Option<Node> {
        if self.next >= self.end {
            return None;
        }
        let node = Node::in_tree(self.symbols, self.next);
        self.next += 1;
        Some(node)
    }
}
