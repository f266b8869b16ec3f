//! A graph of numbered nodes: an order in which each node comes after all that it uses, or a loop,
//! and the users of each node.
//!
//! Both walks are loops over vectors, with no recursion: their cost grows with the number of nodes
//! and uses.

ghost use Rattle.std.specs.Prelude.{◌≡◌, ◌+◌, ◌<◌, ◌^◌, IfErr, IfOk, IfSome, OnOk, length, slice_get};
ghost use Rattle.kc_graph.specs.Graph.{IsClosed, IsConverse, IsOrder, HasNoLoop, row, use_count};

mod search;
mod users;

use crate::rows::Rows;
use search::Search;
use std::alloc::{AllocError, Global};
use std::marker::Model;
use users::UserRows;

/// A graph has numbered nodes. They are numbered from 0, and row `p` holds the nodes that node `p` uses. Contracts see
/// its rows.
#[derive(Drop)]
pub struct Graph<'a> {
    rows: &'a Rows,
}

impl<'a> Model for Graph<'a> {
    ghost use Rattle.std.specs.Prelude.{ℕ, ◌<◌, ◌^◌, List, length};
    ghost use Rattle.kc_graph.specs.Graph.{IsClosed};

    ghost Value = { List (List ℕ) };

    ghost view = { λ a. a.rows.now };

    ghost invariant = { λ a. IsClosed a.rows.now × (length a.rows.now < 2 ^ 32) };
}

/// A fault says why no order of a graph was made.
#[derive(Debug, Drop)]
pub enum OrderFault {
    /// These nodes form a loop: each uses the next one, and the last uses the first.
    Loop(Vec<u32>),

    /// Memory ran out, which says nothing of the graph.
    NoMemory,
}

impl From<AllocError> for OrderFault {
    ghost use Rattle.std.specs.Prelude.{◌≡◌};
    ghost use Rattle.kc_graph.specs.declared.graph.OrderFault.TheVariants.{NoMemory};

    ghost from_gives = { λ _ e. e ≡ NoMemory };

    fn from(_error: AllocError) -> OrderFault {
        OrderFault::NoMemory
    }
}

impl<'a> Graph<'a> {
    ghost use Rattle.kc_graph.specs.OrderFault.{IsTrueFault};

    /// The rows are taken as a graph, in which each node that a row names has a row of its own, and 32 bits count the
    /// nodes.
    pub fn of(rows: &'a Rows) -> Graph<'a>
        requires closed { IsClosed rows.now }
        requires few { length rows.now < 2 ^ 32 }
        ensures { result ≡ rows.entry.now }
    {
        Graph { rows }
    }

    /// The result says how many nodes there are. Its clauses say as well that 32 bits count them, and that there
    /// are fewer than 2^63 uses, as memory has room for no more.
    pub fn len(&self) -> usize
        ensures len { result ≡ length self.now }
        ensures few { result < 2 ^ 32 }
        ensures few_uses { use_count self.now < 2 ^ 63 }
    {
        self.rows.len()
    }

    /// The result is the node at the next place of a node's row, or `None` past its end.
    fn use_at(&self, node: u32, next: usize) -> Option<u32>
        requires { node < length self.now }
        ensures used { result ≡ slice_get (row self.now node) next }
        ensures within { IfSome result (λ used. used < length self.now) }
        ensures further { IfSome result (λ _. next + 1 < 2 ^ 64) }
    {
        let used = self.rows.row(node as usize).get(next)?;
        Some(*used)
    }

    /// The result is the nodes in an order in which each comes after all that it uses.
    ///
    /// It fails with `OrderFault::Loop` where there is none, with nodes that form a loop, and with
    /// `OrderFault::NoMemory` where memory runs out.
    pub fn order(&self, alloc: Global) -> Result<Vec<u32>, OrderFault>
        ensures ok { IfOk result (λ order. IsOrder self.now order.items) }
        ensures acyclic { OnOk result (HasNoLoop self.now) }
        ensures err { IfErr result (IsTrueFault self.now) }
    {
        let nodes = self.len();
        let mut search = Search::new(alloc, nodes)?;
        for root in 0..nodes as u32 {
            search.visit(alloc, self, root)?;
        }
        Ok(search.into_order())
    }

    /// The result has the users of each node: row `q` holds the nodes that use node `q`, each as often as it does.
    ///
    /// It fails where memory runs out, and nowhere else.
    pub fn users(&self, alloc: Global) -> Result<Rows, AllocError>
        ensures converse { IfOk result (λ users. IsConverse self.now users) }
        ensures count { IfOk result (λ users. use_count users ≡ use_count self.now) }
    {
        let nodes = self.len() as u32;
        let mut users = UserRows::with_room(alloc, self)?;
        for user in 0..nodes {
            users.add_uses(self, user);
        }
        Ok(users.into_rows())
    }
}
