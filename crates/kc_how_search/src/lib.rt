//! The search for lines of a `.config` that give symbols wanted values: what is to be tried, and in which order.
#![tactic(auto)]

mod cell_prices;
mod costs;
mod finder;
mod goals;
mod pins;
mod prices;
mod reached;
mod run;
mod search;
mod trial;
mod ways_compare;
mod ways_down;
mod ways_expr;
mod ways_text;
mod ways_up;
mod weights;

pub use search::{Search, candidates};
