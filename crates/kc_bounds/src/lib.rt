//! Which values the nodes of a tree may have, whatever its user gives and chooses.
#![tactic(auto)]

mod cells;
mod choices;
mod comparisons;
mod conditions;
mod defaults;
mod expressions;
mod possible;
mod symbols;
mod table;
mod tri_choice;
mod tri_set;

pub use cells::bounds;
pub use possible::{Bounds, expr_set, symbol_set};
pub use tri_set::TriSet;
