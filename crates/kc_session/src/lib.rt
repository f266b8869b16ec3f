//! A session over a Kconfig tree, and the stream of commands that drives it.
//!
//! A stream is cut into lines. Each line is a command, but for those that a load takes as its body. A line is read, or
//! refused as too long, with the memory that was reserved at the start; a body takes memory as it is read.
#![tactic(auto)]

mod body;
mod body_buffer;
mod choices;
mod command;
mod command_line;
mod edits;
mod fault;
mod input;
mod kept;
mod line;
mod load;
mod merging;
mod next_command;
mod next_line;
mod opening;
mod replies;
mod serving;
mod session;
mod show;
mod values;
mod writing;

pub use body::Body;
pub use command::{Command, Refusal, Reply};
pub use fault::IoFault;
pub use merging::{MergeFault, merged};
pub use opening::{KconfigTexts, OpenFault, open, open_lines, open_seeded};
pub use serving::run;
pub use session::Session;
