//! What is likely a mistake in a tree or in a `.config`.
#![tactic(auto)]

mod checking;
mod config_findings;
mod earlier_words;
mod entry_faults;
mod finding;
mod finding_places;
mod forced_words;
mod inputs;
mod kconfig_findings;
mod meant_lines;
mod said;
mod said_findings;
mod said_lines;
mod selections;
mod tree_findings;
mod undefined_names;
mod unset_symbols;
mod unused_defaults;
mod values;
mod variables;

pub use checking::check;
pub use entry_faults::without_strays;
pub use finding::{Finding, Findings, FoundAt, Judged};
pub use inputs::{CheckInputs, SourceText};
