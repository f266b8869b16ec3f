//! What a message of `--explain` says: words that name what is at fault, and the lines that show it. It is computed
//! only where there is a fault or a warning, from the lines, which are read again then.
#![tactic(auto)]

mod blocks;
mod characters;
mod choice_words;
mod corrections;
mod dollars;
mod expressions;
mod forms;
mod help_texts;
mod hints;
mod indentation;
mod items;
mod limits;
mod lines;
mod loops;
mod malformed;
mod meanings;
mod meant_lines;
mod messages;
mod named_symbols;
mod nearest;
mod outlines;
mod piece;
mod refusals;
mod said;
mod sought_names;
mod spelling;
mod statements;
mod strays;
mod symbol_words;
mod texts;
mod unknown;
mod unsupported;
mod variables;
mod warnings;

pub use choice_words::explain_choice;
pub use indentation::line_of;
pub use kc_lines::{Explanation, Place, Remark};
pub use lines::explain_line;
pub use loops::explain_loop;
pub use meanings::{fault_meaning, refusal_meaning, warning_meaning};
pub use refusals::{RefusalWords, SymbolNames};
pub use symbol_words::explain_symbol;
pub use texts::explain_text;
pub use warnings::{Naming, WarnedFile, explain_warnings};
