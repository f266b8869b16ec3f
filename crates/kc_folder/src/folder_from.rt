//! The files of a folder whose relative paths are taken from a folder within it, for `-C`.

ghost use Rattle.std.specs.Prelude.{◌≡◌, IfOk};
ghost use Rattle.std.specs.String.{string_bytes};
ghost use Rattle.kc_folder.specs.PathsFrom.{is_taken_as_it_is, joined};

use crate::folder::{Folder, FolderFault};
use bumpalo::Bump;
use kc_tree::Seed;
use std::alloc::{AllocError, Global};

/// Files whose relative paths are taken from a path.
#[derive(Drop)]
pub struct FolderFrom<'a, F> {
    folder: &'a F,
    base: &'a str,
}

impl<'a, F> FolderFrom<'a, F> {
    /// The files of a folder, with relative paths taken from a base. An empty base changes none.
    pub fn new(folder: &'a F, base: &'a str) -> FolderFrom<'a, F> {
        FolderFrom { folder, base }
    }
}

impl<F: Folder> Folder for FolderFrom<'_, F> {
    fn read_bytes(&self, alloc: Global, path: &str) -> Result<Vec<u8>, FolderFault> {
        if is_taken_as_it_is(self.base, path) {
            return self.folder.read_bytes(alloc, path);
        }
        match joined(alloc, self.base, path) {
            Ok(joined) => self.folder.read_bytes(alloc, joined.as_str()),
            Err(AllocError) => Err(FolderFault::NoMemory),
        }
    }

    fn read_config(&self, alloc: Global, path: &str) -> Result<Vec<u8>, FolderFault> {
        if is_taken_as_it_is(self.base, path) {
            return self.folder.read_config(alloc, path);
        }
        match joined(alloc, self.base, path) {
            Ok(joined) => self.folder.read_config(alloc, joined.as_str()),
            Err(AllocError) => Err(FolderFault::NoMemory),
        }
    }

    fn read_plain(&self, alloc: Global, path: &str) -> Result<Vec<u8>, FolderFault> {
        if is_taken_as_it_is(self.base, path) {
            return self.folder.read_plain(alloc, path);
        }
        match joined(alloc, self.base, path) {
            Ok(joined) => self.folder.read_plain(alloc, joined.as_str()),
            Err(AllocError) => Err(FolderFault::NoMemory),
        }
    }

    fn read_kept<'a>(
        &self,
        alloc: Global,
        arena: &'a Bump,
        path: &str,
    ) -> Result<&'a [u8], FolderFault> {
        if is_taken_as_it_is(self.base, path) {
            return self.folder.read_kept(alloc, arena, path);
        }
        match joined(alloc, self.base, path) {
            Ok(joined) => self.folder.read_kept(alloc, arena, joined.as_str()),
            Err(AllocError) => Err(FolderFault::NoMemory),
        }
    }

    /// Why the file can't be read, and where it was looked for, if the base moved it.
    fn why_unread(&self, alloc: Global, path: &str) -> Result<String, AllocError> {
        if is_taken_as_it_is(self.base, path) {
            return self.folder.why_unread(alloc, path);
        }
        let joined = joined(alloc, self.base, path)?;
        let why = self.folder.why_unread(alloc, joined.as_str())?;
        format!(in alloc; "{why}: {joined}")
    }

    fn missing_base(&self, path: &str) -> Option<&str> {
        let is_missing = !is_taken_as_it_is(self.base, path)
            && self.folder.lacks_directory(self.base);
        is_missing.then_some(self.base)
    }

    fn seed(&self) -> Seed {
        self.folder.seed()
    }
}

/// Whether a path means the same with a base as without: the base is empty, or the path is, or begins with `/`.
fn is_taken_as_it_is(base: &str, path: &str) -> bool
    ensures { result ≡ is_taken_as_it_is base.now path.now }
{
    base.is_empty() || matches!(path.as_bytes(), [] | [b'/', ..])
}

/// A relative path, taken from a base: after it and a `/`, if it does not end with one.
fn joined(alloc: Global, base: &str, path: &str) -> Result<String, AllocError>
    ensures { IfOk result (λ whole. string_bytes whole ≡ joined base.now path.now) }
{
    let mut whole = String::from_str(alloc, base)?;
    if !base.ends_with('/') {
        whole.push_str("/")?;
    }
    whole.push_str(path)?;
    Ok(whole)
}
