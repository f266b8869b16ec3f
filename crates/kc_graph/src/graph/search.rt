//! A depth-first search that makes an order of a graph's nodes, or finds a loop.
//!
//! A node's mark says how far the search is with the node: it has not come to it, it has it on the path from the root to
//! the node that it is at, or it has put it in the order.

ghost use Rattle.std.specs.Prelude.{◌≡◌, ◌-◌, ◌<◌, ◌≤◌, ◌^◌, [], ◌∷◌, ◌++◌, IfErr, IfOk, OnOk, drop, length, replicate, slice_index, slice_set, take};
ghost use Rattle.kc_graph.specs.OrderFault.{IsTrueFault};

use super::{Graph, OrderFault};
use std::alloc::{AllocError, Global};

/// A mark says how far the search is with a node.
#[derive(Clone, Copy)]
pub enum Mark {
    /// The search has not come to it.
    New,

    /// It is at a position of the path, and what it uses is done before the next place of its row.
    Open { position: u32, next: usize },

    /// It is at a position of the order.
    Done { position: u32 },
}

/// A search is a walk over a graph that is under way.
#[derive(Drop)]
pub struct Search {
    /// Each node has a mark.
    marks: Vec<Mark>,

    /// The nodes on the path from the root to the node that the search is at.
    path: Vec<u32>,

    /// The nodes that are done, each after all that it uses.
    order: Vec<u32>,
}

impl Search {
    ghost use Rattle.kc_graph.specs.Search.{IsSearchOf, IsSeen, StaysSeen, steps_left};

    /// The search has seen no node yet. It fails where memory runs out.
    pub fn new(alloc: Global, nodes: usize) -> Result<Search, AllocError>
        ensures marks { IfOk result (λ s. s.marks.items ≡ replicate nodes Mark.New) }
        ensures path { IfOk result (λ s. s.path.items ≡ []) }
        ensures order { IfOk result (λ s. s.order.items ≡ []) }
    {
        Ok(Search {
            marks: vec![in alloc; Mark::New; nodes]?,
            path: Vec::new(alloc),
            order: Vec::with_capacity(alloc, nodes)?,
        })
    }

    /// The result is the order that was made.
    pub fn into_order(self) -> Vec<u32>
        ensures { result.items ≡ self.order.items }
    {
        let Search {
            marks: _,
            path: _,
            order,
        } = self;
        order
    }

    /// A new node is put on the path. It fails where memory runs out.
    fn enter(&mut self, node: u32) -> Result<(), AllocError>
        requires inside { node < length self.old.marks.items }
        requires short { length self.old.path.items < 2 ^ 32 }
        ensures marks { let position = length self.old.path.items in OnOk result
            (self.new.marks.items ≡ slice_set self.old.marks.items node (Mark.Open position 0)) }
        ensures path { OnOk result (self.new.path.items ≡ self.old.path.items ++ node ∷ []) }
        ensures order { OnOk result (self.new.order.items ≡ self.old.order.items) }
    {
        let position = self.path.len() as u32;
        self.path.push(node)?;
        self.marks[node as usize] = Mark::Open { position, next: 0 };
        Ok(())
    }

    /// The last node of the path moves to the order. It fails where memory runs out.
    fn finish(&mut self, node: u32) -> Result<(), AllocError>
        requires inside { node < length self.old.marks.items }
        requires short { length self.old.order.items < 2 ^ 32 }
        ensures marks { let position = length self.old.order.items in OnOk result
            (self.new.marks.items ≡ slice_set self.old.marks.items node (Mark.Done position)) }
        ensures path { let left = length self.old.path.items - 1 in OnOk result
            (self.new.path.items ≡ take left self.old.path.items) }
        ensures order { OnOk result (self.new.order.items ≡ self.old.order.items ++ node ∷ []) }
    {
        let position = self.order.len() as u32;
        self.order.push(node)?;
        let _ = self.path.pop();
        self.marks[node as usize] = Mark::Done { position };
        Ok(())
    }

    /// The result is the nodes of the path from a position on. It fails where memory runs out.
    fn path_from(&self, alloc: Global, position: u32) -> Result<Vec<u32>, AllocError>
        requires { position ≤ length self.now.path.items }
        ensures { IfOk result (λ nodes. nodes.items ≡ drop position self.now.path.items) }
    {
        Vec::from_slice(alloc, &self.path[position as usize..])
    }

    /// The search takes one step from `top`, the last node of the path: past a use that is done, to a use that is new,
    /// or to the order where no use is left. A use that is on the path closes a loop.
    ///
    /// It fails with that loop, and where memory runs out.
    fn step(&mut self, alloc: Global, graph: &Graph<'_>, top: u32) -> Result<(), OrderFault>
        requires sound { IsSearchOf graph.now self.old }
        requires few { length graph.now < 2 ^ 32 }
        requires some { 0 < length self.old.path.items }
        requires last { slice_index self.old.path.items (length self.old.path.items - 1) ≡ top }
        ensures sound { OnOk result (IsSearchOf graph.now self.new) }
        ensures seen { OnOk result (StaysSeen self.old.marks.items self.new.marks.items) }
        ensures nearer { OnOk result
            (steps_left graph.now self.new.marks.items < steps_left graph.now self.old.marks.items) }
        ensures err { IfErr result (IsTrueFault graph.now) }
    {
        let Mark::Open { position, next } = self.marks[top as usize] else {
            unreachable!()
        };
        let Some(used) = graph.use_at(top, next) else {
            self.finish(top)?;
            return Ok(());
        };
        match self.marks[used as usize] {
            Mark::New => self.enter(used)?,
            Mark::Open {
                position: start,
                ..
            } => {
                return Err(OrderFault::Loop(self.path_from(alloc, start)?));
            }
            Mark::Done { .. } => self.marks[top as usize] = Mark::Open {
                position,
                next: next + 1,
            },
        }
        Ok(())
    }

    /// The search puts a node, and all that it uses, in the order.
    ///
    /// It fails with a loop that the node leads to, and where memory runs out.
    pub fn visit(&mut self, alloc: Global, graph: &Graph<'_>, root: u32) -> Result<(), OrderFault>
        requires sound { IsSearchOf graph.now self.old }
        requires few { length graph.now < 2 ^ 32 }
        requires rested { self.old.path.items ≡ [] }
        requires within { root < length graph.now }
        ensures sound { OnOk result (IsSearchOf graph.now self.new) }
        ensures rested { OnOk result (self.new.path.items ≡ []) }
        ensures stays { OnOk result (StaysSeen self.old.marks.items self.new.marks.items) }
        ensures seen { OnOk result (IsSeen self.new.marks.items root) }
        ensures err { IfErr result (IsTrueFault graph.now) }
    {
        match self.marks[root as usize] {
            Mark::New => self.enter(root)?,
            Mark::Open { .. } | Mark::Done { .. } => return Ok(()),
        }
        while let Some(&top) = self.path.last() {
            self.step(alloc, graph, top)?;
        }
        Ok(())
    }
}
