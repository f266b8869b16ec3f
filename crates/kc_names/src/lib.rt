//! Names that are alike: whether a name may be meant by another one, of many names the one that is, and one that ends in
//! it. Nothing here knows of lines or trees.
#![tactic(auto)]

mod bare_names;
mod changes;
mod kept_names;
mod likeness;
mod long_words;
mod meant_names;
mod name_ends;
mod name_forms;
mod near_name;
mod near_names;

pub use bare_names::{bare_name, bare_word};
pub use changes::changes_up_to_two;
pub use long_words::differ_in_long_word;
pub use meant_names::{MeantNames, push_meant};
pub use near_name::{is_alike, is_near};
pub use near_names::NearNames;
