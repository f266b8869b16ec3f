//! A folder of files: what the program reads from it, also relative to another folder, and which of its files were read.
#![tactic(auto)]

mod asked_folder;
mod defined_names;
mod folder;
mod folder_from;
mod known;
mod read_paths;

pub use asked_folder::{AskedFolder, Unread};
pub use defined_names::add_defined_names;
pub use folder::{Folder, FolderFault, SystemFolder};
pub use folder_from::FolderFrom;
pub use known::{Known, path_of_source};
pub use read_paths::paths_read;
