//! The order of the nodes, within that of the cells.

ghost use Rattle.std.specs.Prelude.{◌≡◌, ◌≤◌, filter, map};
ghost use Rattle.std.specs.Iterator.{YieldsFirst, item_count};
ghost use Rattle.kc_tree.specs.Nodes.{node_in};
ghost use Rattle.kc_tree.specs.WholeRows.{is_node};
ghost use Rattle.kc_statement.specs.declared.limits.TheConstants.{MOST_SYMBOLS};

use crate::node::Node;
use std::marker::Model;

/// Each node once, after all that it uses. It takes no memory of its own. Contracts see the list of the nodes that are
/// left.
#[derive(Drop)]
pub struct NodeOrder<'a> {
    symbols: usize,
    /// A number below this one is that of a node, and one from it on that of a condition.
    nodes: usize,
    left: &'a [u32],
}

impl<'a> Model for NodeOrder<'a> {
    ghost use Rattle.std.specs.Prelude.{◌≤◌, List, filter, map};
    ghost use Rattle.kc_tree.specs.declared.node.Node.{Node};
    ghost use Rattle.kc_tree.specs.Nodes.{node_in};
    ghost use Rattle.kc_tree.specs.WholeRows.{is_node};
    ghost use Rattle.kc_statement.specs.declared.limits.TheConstants.{MOST_SYMBOLS};

    ghost Value = { List Node };

    ghost view = { λ a. map (node_in a.symbols) (filter (is_node a.nodes) a.left.now) };

    ghost invariant = { λ a. a.symbols ≤ MOST_SYMBOLS };
}

impl<'a> NodeOrder<'a> {
    /// The nodes among the cells of an order, in a tree with this number of symbols and of nodes.
    pub(crate) fn of(symbols: usize, nodes: usize, left: &'a [u32]) -> NodeOrder<'a>
        requires { symbols ≤ MOST_SYMBOLS }
        ensures { result ≡ map (node_in symbols) (filter (is_node nodes) left.entry.now) }
    {
        NodeOrder {
            symbols,
            nodes,
            left,
        }
    }
}

impl<'a> Iterator for NodeOrder<'a> {
    type Item = Node;

    ghost next_gives = { YieldsFirst (λ left. left) };

    ghost remaining = { item_count (λ left. left) };

    fn next(&mut self) -> Option<Node> {
        while let Some((first, left)) = self.left.split_first() {
            self.left = left;
            if (*first as usize) < self.nodes {
                return Some(Node::in_tree(self.symbols, *first as usize));
            }
        }
        None
    }
}
