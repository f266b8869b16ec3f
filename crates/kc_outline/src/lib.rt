//! From the logical lines of a Kconfig to what they define: symbols, definitions, blocks, choices, comments and entries;
//! or the first line that is at fault.
#![tactic(auto)]

mod all_lines;
mod block;
mod choice;
mod context;
mod definition;
mod entry;
mod fault;
mod id;
mod limits;
mod line_faults;
mod lines_at_fault;
mod mistaken_line;
mod outline;
mod reading;
mod room;
mod stop;
mod symbol;

pub use all_lines::read_outline;
pub use block::{Block, BlockKind, Comment};
pub use choice::{Choice, ChoiceDefault};
pub use definition::Definition;
pub use entry::Entry;
pub use fault::{FaultyLine, LineFault, LineProblem};
pub use id::{BlockId, ChoiceId, CommentId};
pub use limits::MOST_OPEN_BLOCKS;
pub use lines_at_fault::faulty_lines;
pub use mistaken_line::form_mistake;
pub use outline::Outline;
pub use symbol::{Reverse, Symbol};
