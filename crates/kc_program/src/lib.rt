//! The program `kconf TARGET KCONFIG CONFIG [NAME=VALUE]...` over a folder of files and three streams: its words, its files,
//! and what it reports.
#![tactic(auto)]

mod exchanged;
mod explanations;
mod files;
mod fragments;
mod how;
mod how_kept;
mod listing;
mod messages;
mod notes;
mod opening;
mod refusals;
mod report_texts;
mod reports;
mod running;
mod sourcing;
mod unread_words;
mod variables_file;
mod wants;

pub use kc_folder::{Folder, FolderFault, SystemFolder};
pub use kc_tree::Seed;
pub use messages::Status;
pub use running::program;
pub use unread_words::answer_unread;
