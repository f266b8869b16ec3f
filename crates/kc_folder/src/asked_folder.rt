//! The folder that the lines of a Kconfig ask for its files.

use crate::folder::{Folder, FolderFault};
use bumpalo::Bump;
use std::alloc::Global;
use std::str::from_utf8;

/// Why the text of a file can't be had.
#[derive(Clone, Copy, PartialEq, Eq)]
pub enum Unread {
    /// There is no file that can be read at the path.
    CannotRead,
    /// The file is not UTF-8.
    NotUtf8,
    /// Memory was refused.
    NoMemory,
}

/// The files of a folder, each of which has to be there and to be UTF-8.
#[derive(Drop)]
pub struct AskedFolder<'f, F> {
    alloc: Global,
    folder: &'f F,
}

impl<'f, F> AskedFolder<'f, F> {
    /// The files of a folder.
    pub fn new(alloc: Global, folder: &'f F) -> AskedFolder<'f, F> {
        AskedFolder { alloc, folder }
    }
}

impl<F: Folder> kc_text::Folder for AskedFolder<'_, F> {
    type Fault = Unread;

    ghost reads = { λ _ _ _ _. Unit {0} };

    fn read<'a>(
        &mut self,
        arena: &'a Bump,
        path: &str,
        _room: usize,
    ) -> Result<Option<&'a str>, Unread> {
        let bytes = match self.folder.read_kept(self.alloc, arena, path) {
            Ok(bytes) => bytes,
            Err(FolderFault::CannotRead) => return Err(Unread::CannotRead),
            Err(FolderFault::NoMemory) => return Err(Unread::NoMemory),
        };
        match from_utf8(bytes) {
            Ok(text) => Ok(Some(text)),
            Err(_) => Err(Unread::NotUtf8),
        }
    }
}
