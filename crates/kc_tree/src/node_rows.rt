//! The nodes that a node is computed from, from the rows of cells.

ghost use Rattle.std.specs.Prelude.{◌≡◌, ◌<◌, ◌≤◌, ◌^◌, List, Contains, length, map};
ghost use Rattle.std.specs.Iterator.{YieldsFirst, item_count};
ghost use Rattle.kc_tree.specs.Nodes.{node_in};
ghost use Rattle.kc_tree.specs.CellRows.{AreChains, AreInside, IsChain};
ghost use Rattle.kc_tree.specs.WholeRows.{whole_row};
ghost use Rattle.kc_statement.specs.declared.limits.TheConstants.{MOST_SYMBOLS};

use crate::node::Node;
use kc_graph::Rows;
use std::marker::Model;

/// The numbers of the nodes that a row leads to, in which any condition is the last. Contracts see the list of those that
/// are left.
#[derive(Drop)]
struct Chain<'a> {
    /// A number below this one is that of a node, and one from it on that of a condition.
    nodes: usize,
    rows: &'a Rows,
    left: &'a [u32],
}

impl<'a> Model for Chain<'a> {
    ghost use Rattle.std.specs.Prelude.{ℕ, List};
    ghost use Rattle.kc_tree.specs.CellRows.{AreChains, AreInside, IsChain};
    ghost use Rattle.kc_tree.specs.WholeRows.{whole_row};

    ghost Value = { List ℕ };

    ghost view = { λ a. whole_row a.nodes a.rows.now a.left.now };

    ghost invariant = { λ a. AreChains a.nodes a.rows.now × IsChain a.nodes a.left.now × AreInside a.rows.now a.left.now };
}

impl<'a> Iterator for Chain<'a> {
    type Item = u32;

    ghost next_gives = { YieldsFirst (λ left. left) };

    ghost remaining = { item_count (λ left. left) };

    fn next(&mut self) -> Option<u32> {
        while let Some((first, left)) = self.left.split_first() {
            if (*first as usize) < self.nodes {
                self.left = left;
                return Some(*first);
            }
            let rows = self.rows;
            self.left = rows.row(*first as usize);
        }
        None
    }
}

/// The nodes that a node is computed from: those that it reads itself, and those that the conditions read that it reads.
/// It takes no memory of its own. Contracts see the list of those that are left.
#[derive(Drop)]
pub struct NodeRow<'a> {
    symbols: usize,
    nodes: usize,
    rows: &'a Rows,
    /// These numbers of the row of the node are left.
    left: &'a [u32],
    /// The number before them leads to these nodes, which come first.
    chain: Chain<'a>,
}

impl<'a> Model for NodeRow<'a> {
    ghost use Rattle.std.specs.Prelude.{◌≤◌, ◌++◌, List, map};
    ghost use Rattle.kc_tree.specs.declared.node.Node.{Node};
    ghost use Rattle.kc_tree.specs.Nodes.{node_in};
    ghost use Rattle.kc_tree.specs.CellRows.{AreChains, AreInside};
    ghost use Rattle.kc_tree.specs.WholeRows.{whole_row};
    ghost use Rattle.kc_statement.specs.declared.limits.TheConstants.{MOST_SYMBOLS};

    ghost Value = { List Node };

    ghost view = { λ a. map (node_in a.symbols) (a.chain ++ whole_row a.nodes a.rows.now a.left.now) };

    ghost invariant = { λ a. (a.symbols ≤ MOST_SYMBOLS) × AreChains a.nodes a.rows.now × AreInside a.rows.now a.left.now };
}

impl<'a> NodeRow<'a> {
    /// The nodes that a row leads to, in a tree with this number of symbols and of nodes.
    pub(crate) fn of(symbols: usize, nodes: usize, rows: &'a Rows, left: &'a [u32]) -> NodeRow<'a>
        requires few { symbols ≤ MOST_SYMBOLS }
        requires chains { AreChains nodes rows.now }
        requires inside { AreInside rows.now left.now }
        ensures { result ≡ map (node_in symbols) (whole_row nodes rows.entry.now left.entry.now) }
    {
        NodeRow {
            symbols,
            nodes,
            rows,
            left,
            chain: Chain {
                nodes,
                rows,
                left: &[],
            },
        }
    }
}

impl<'a> Iterator for NodeRow<'a> {
    type Item = Node;

    ghost next_gives = { YieldsFirst (λ left. left) };

    ghost remaining = { item_count (λ left. left) };

    fn next(&mut self) -> Option<Node> {
        loop {
            if let Some(number) = self.chain.next() {
                return Some(Node::in_tree(self.symbols, number as usize));
            }
            if self.left.is_empty() {
                return None;
            }
            let (first, left) = self.left.split_at(1);
            self.left = left;
            self.chain = Chain {
                nodes: self.nodes,
                rows: self.rows,
                left: first,
            };
        }
    }
}
