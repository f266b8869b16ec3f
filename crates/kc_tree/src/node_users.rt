//! The nodes that are computed from a node, from the rows of what reads each cell.

ghost use Rattle.std.specs.Prelude.{◌≡◌, ◌≤◌, map};
ghost use Rattle.std.specs.Iterator.{YieldsFirst, item_count};
ghost use Rattle.kc_tree.specs.CellRows.{AreInside};
ghost use Rattle.kc_tree.specs.Nodes.{node_in};
ghost use Rattle.kc_tree.specs.Users.{AreLeveled, whole_users};
ghost use Rattle.kc_statement.specs.declared.limits.TheConstants.{MOST_SYMBOLS};

use crate::node::Node;
use arrayvec::ArrayVec;
use kc_graph::Rows;
use kc_outline::MOST_OPEN_BLOCKS;
use std::marker::Model;

/// The most rows that are gone over at once: that of a node, and of conditions that read one another. Those are of as many
/// blocks as may be open, and of a definition.
const MOST_ROWS: usize = MOST_OPEN_BLOCKS + 2;

/// The nodes that are computed from a node: those that read it, and those that read the conditions that read it. One may
/// come more than once. Contracts see the list of those that are left.
#[derive(Drop)]
pub struct NodeUsers<'a> {
    symbols: usize,
    /// A number below this one is that of a node, and one from it on that of a condition.
    nodes: usize,
    users: &'a Rows,
    /// What is left of the row of the node, of that of a condition in it, and so on: the last comes first.
    left: ArrayVec<&'a [u32], MOST_ROWS>,
}

impl<'a> Model for NodeUsers<'a> {
    ghost use Rattle.std.specs.Prelude.{◌≤◌, List, map, reverse};
    ghost use Rattle.kc_tree.specs.declared.node.Node.{Node};
    ghost use Rattle.kc_tree.specs.Nodes.{node_in};
    ghost use Rattle.kc_tree.specs.Users.{IsPath, users_left};
    ghost use Rattle.kc_statement.specs.declared.limits.TheConstants.{MOST_SYMBOLS};

    ghost Value = { List Node };

    ghost view = { λ a. map (node_in a.symbols) (users_left a.nodes a.users.now (reverse (map (λ r. r.now) a.left.items))) };

    ghost invariant = { λ a. (a.symbols ≤ MOST_SYMBOLS) × IsPath a.nodes a.users.now (reverse (map (λ r. r.now) a.left.items)) };
}

impl<'a> NodeUsers<'a> {
    /// The nodes that a row leads to, in a tree with this number of symbols and of nodes.
    pub(crate) fn of(symbols: usize, nodes: usize, users: &'a Rows, row: &'a [u32]) -> NodeUsers<'a>
        requires few { symbols ≤ MOST_SYMBOLS }
        requires leveled { AreLeveled nodes users.now }
        requires inside { AreInside users.now row.now }
        ensures { result ≡ map (node_in symbols) (whole_users nodes users.entry.now row.entry.now) }
    {
        let mut left = ArrayVec::new();
        left.push(row);
        NodeUsers {
            symbols,
            nodes,
            users,
            left,
        }
    }
}

impl<'a> Iterator for NodeUsers<'a> {
    type Item = Node;

    ghost next_gives = { YieldsFirst (λ left. left) };

    ghost remaining = { item_count (λ left. left) };

    fn next(&mut self) -> Option<Node> {
        while let Some(row) = self.left.pop() {
            let Some((first, rest)) = row.split_first() else {
                continue;
            };
            self.left.push(rest);
            if (*first as usize) < self.nodes {
                return Some(Node::in_tree(self.symbols, *first as usize));
            }
            let users = self.users;
            self.left.push(users.row(*first as usize));
        }
        None
    }
}
