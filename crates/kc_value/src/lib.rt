//! The values of a tree: the rule of each node, the one solution, and what answers with it.
#![tactic(auto)]

mod all_values;
mod asked_values;
mod assignable_values;
mod bounds;
mod change;
mod changed;
mod choice_value;
mod comparison;
mod conditions;
mod dropping;
mod edits;
mod evaluation;
mod expr_value;
mod factors;
mod filling;
mod fresh;
mod given;
mod given_values;
mod kept_values;
mod known;
mod node_values;
mod numeral;
mod places;
mod reason;
mod reason_branches;
mod resolver;
mod solved;
mod summary;
mod symbol_value;
mod term_text;
mod text_value;
mod user;
mod value;
mod without;

pub use all_values::AllValue;
pub use asked_values::values_of_all;
pub use assignable_values::{assignable, assignable_among};
pub use bounds::spelled;
pub use change::{Change, NewUser};
pub use changed::{changed_value, is_same_user_value};
pub use conditions::{comment_condition, dependency_tri, menu_condition};
pub use evaluation::eval;
pub use expr_value::tri;
pub use factors::{
    Factor, FactorPart, Origin, choice_factors, comment_factors, dependency_factors, menu_factors,
    prompt_factors, reverse_factors,
};
pub use fresh::Fresh;
pub use kept_values::{KeptValues, Meter};
pub use known::Known;
pub use node_values::NodeValues;
pub use places::{ActiveRange, DefaultPlace, RangePlace, active_range};
pub use reason::{Reason, reason_of, reason_over};
pub use resolver::Resolver;
pub use solved::Solved;
pub use symbol_value::reverse_value;
pub use user::User;
pub use value::Value;
pub use without::without_user;
