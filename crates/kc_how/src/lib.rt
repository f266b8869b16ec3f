//! How a tree is given wanted values: lines of a `.config` that are enough, and all are needed.
#![tactic(auto)]

mod answering;
mod apart;
mod changed_values;
mod conditions_in_way;
mod copies;
mod fewest;
mod fragment;
mod impossible;
mod in_the_way;
mod line_test;
mod needed;
mod obstacle;
mod plain;
mod question;
mod symbols_in_way;

pub use answering::answer;
pub use changed_values::{Changes, named_symbols, other_changes, value_lines};
pub use fragment::fragment_text;
pub use impossible::first_impossible;
pub use in_the_way::obstacle_to;
pub use needed::needed_for;
pub use obstacle::{Cause, LackingCondition, LackingSymbol, Obstacle};
pub use plain::plain_candidates;
