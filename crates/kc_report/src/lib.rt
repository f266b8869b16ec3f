//! Why a symbol has its value, and where it is defined, as lines of text.
#![tactic(auto)]

mod definitions_in_words;
mod extent;
mod factors_in_words;
mod promptless;
mod reasons_in_words;
mod reverses;
mod settable;
mod users;
mod why;

pub use definitions_in_words::push_definitions_of;
pub use extent::Extent;
pub use why::why_text;
