//! The words of the command line, and texts that are read or written without a file: the targets, hints, lines of
//! variables, commands as they are read, and values for make.
#![tactic(auto)]

mod arguments;
mod commands_read;
mod hints;
mod targets;
mod text_for_make;
mod variable_lines;
mod variables;
mod version;
mod wording;

pub use arguments::{Arguments, BadWords};
pub use commands_read::{CommandLine, CommandsRead};
pub use hints::{Hint, HintKind};
pub use targets::{Operands, Subcommand, Target};
pub use text_for_make::make_text;
pub use variable_lines::{lines_before_malformed, variables_in};
pub use wording::Wording;
