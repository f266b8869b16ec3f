//! The lines of a tree as facts: which line each part comes from, and which parts are at fault or make a step of a loop.
//! Nothing here needs values.
#![tactic(auto)]

mod attributes;
mod block_parts;
mod culprits;
mod culprits_of_choices;
mod culprits_of_symbols;
mod defaults;
mod explanation;
mod finding;
mod leaves;
mod line_index;
mod loop_step;
mod loop_steps;
mod parts;
mod showing;
mod shown;
mod sought;
mod type_names;

pub use attributes::help_of;
pub use block_parts::{block_part, is_if, is_if_kind};
pub use culprits_of_choices::choice_culprits;
pub use culprits_of_symbols::symbol_culprits;
pub use defaults::{free_default_before, is_unread_text, meant_tri};
pub use explanation::{Explanation, Place, Remark};
pub use finding::{Finding, Mention, WordedPart, explain_parts, explain_worded_parts};
pub use leaves::leaves_of;
pub use line_index::{LineIndex, is_attribute, push_place};
pub use loop_step::{Step, Way};
pub use loop_steps::step_between;
pub use parts::{Attribute, Family, Part, begins, is_of, says};
pub use showing::{shown_line, shown_text};
pub use shown::Fault;
pub use type_names::{type_name, type_words};
