//! The text layer: from the texts of Kconfig files to their logical lines of tokens.
#![tactic(auto)]

mod bytes;
mod expansion;
mod fault;
mod files;
mod help;
mod items;
mod lexer;
mod line;
mod line_references;
mod place;
mod quotes;
mod reading;
mod stops;
mod text;
mod variables;

pub use fault::{FileFault, LinesFault, TextFault, TextProblem};
pub use files::{Folder, Library, NoFolder, ReadFiles, Sources, Texts};
pub use help::HelpText;
pub use items::{FileItem, leading_item};
pub use line::{Line, LineKind, Operator, Token};
pub use line_references::{references_in, value_references_in};
pub use reading::{MOST_LINES, lines_from, logical_lines};
pub use stops::{Stop, StopKind, stop_in, stop_in_value};
pub use text::{Text, TextRef};
pub use variables::{Assignment, Definition, Vars};
