//! The menu tree of a Kconfig for programs: an entry a row, and a JSON object a row.
#![tactic(auto)]

mod block_object;
mod conditions_as_text;
mod help;
mod menu_inputs;
mod menu_lines;
mod places_as_text;
mod settings;
mod symbol_now;
mod symbol_object;

pub use help::Help;
pub use menu_lines::menu_text;
