//! What can be found in the lines of a tree without its values: names that nothing defines, and what is meant by them,
//! variables, files that are sourced twice, ranges and defaults that can't be meant. Nothing here depends on which report
//! asks.
#![tactic(auto)]

mod default_faults;
mod defaults_after;
mod doubtful_uses;
mod earlier_faults;
mod listed_names;
mod meant_symbols;
mod member_selections;
mod name_readings;
mod named_uses;
mod named_variables;
mod noted;
mod open_numbers;
mod ranges;
mod read_again;
mod read_order;
mod run_places;
mod source_lines;
mod sourced_twice;
mod tree_names;
mod undefined_names;
mod unknown_names;
mod unlisted_names;
mod variable_names;

pub use default_faults::{DefaultFault, FaultyDefault, faulty_defaults, range_of};
pub use defaults_after::{DefaultPlace, UnusedDefault, unused_defaults};
pub use doubtful_uses::DoubtfulUse;
pub use earlier_faults::{EarlierFault, EarlierFinding, earlier_findings, use_in};
pub use listed_names::{Extent, ListedName, ListedNames, list_names};
pub use member_selections::{AttributePlace, selected_members, token_word};
pub use name_readings::NameReading;
pub use named_uses::name_of;
pub use named_variables::{FileVariables, NamedVariable, file_variables};
pub use ranges::{has_exchanged_sides, is_free};
pub use read_order::{Mark, Reached, VariableFile, reading_order};
pub use sourced_twice::{RepeatedFile, repeated_files};
pub use tree_names::symbol_names;
pub use undefined_names::DoubtfulName;
pub use unknown_names::{fresh_flags, fresh_names};
pub use variable_names::{defined_names, used_names};
