//! Graphs of numbered nodes: an order in which each node comes after all that it uses, or a loop, and the users of each
//! node.
#![tactic(auto)]

mod graph;
mod rows;

pub use graph::{Graph, OrderFault};
pub use rows::Rows;
