//! The files that lines are read from: all given at the start, or each read when it is asked for.

ghost use Rattle.std.specs.Prelude.{◌≡◌, ◌≤◌, ℕ, List, [], length, if◌then◌else◌, IfSome, MatchOption, OnOk, OnErr, ◌-◌, Ok, None, Some, IfErr, IfOk, IsSome};
ghost use Rattle.std.specs.Str.{bytes_eq};
ghost use Rattle.kc_text.specs.FileList.{file_list};
ghost use Rattle.kc_text.specs.Faults.{GivesAfter, Fails};
ghost use Rattle.kc_text.specs.Sources.{added, count_with, other_bytes, text_of, without};
ghost use Rattle.kc_text.specs.LentFiles.{total_bytes};
ghost use Rattle.kc_text.specs.MoreFiles.{Extends, IsFileFaultOf};
ghost use Rattle.kc_text.specs.Folders.{FolderAnswer, answer_of, lacks};
ghost use Rattle.kc_text.specs.Libraries.{IsAnswer, StaysGiven, known_files};

use crate::fault::{FileFault, TextFault, TextProblem};
use crate::text::Text;
use bumpalo::Bump;
use std::alloc::Global;
use std::collections::BTreeMap;
use std::collections::btree_map::Iter;
use std::marker::Model;

/// The most bytes of all texts together.
pub(crate) const MAX_BYTES: usize = 16_777_216;

/// The most files.
pub(crate) const MAX_FILES: usize = 4_096;

/// The texts of the files, by their paths. Contracts see the list of the files in the order of their paths'
/// bytes, each as the bytes of its path and of its text.
#[derive(Drop)]
pub struct Sources {
    files: BTreeMap<String, String>,
    /// The number of bytes of all texts.
    bytes: usize,
    alloc: Global,
}

/// The totals of the files with one of a path.
#[derive(Clone, Copy)]
struct Totals {
    /// The number of files.
    files: usize,
    /// The number of bytes of the other texts.
    other_bytes: usize,
}

impl Model for Sources {
    ghost use Rattle.std.specs.Prelude.{List};
    ghost use Rattle.kc_text.specs.FileList.{File, file_list, IsCounted};

    ghost Value = { List File };

    ghost view = { λ s. file_list s.files };

    ghost invariant = { λ s. IsCounted s.files s.bytes };
}

impl Sources {
    /// No files.
    pub fn new(alloc: Global) -> Sources
        ensures { result ≡ [] }
    {
        Sources {
            files: BTreeMap::new(alloc),
            bytes: 0,
            alloc,
        }
    }

    /// Adds a copy of the text of a file, as `add_text` does.
    pub fn add(&mut self, path: &str, text: &str) -> Result<(), TextFault>
        ensures adds { GivesAfter result self.new (added path.now text.now self.old) }
        ensures texts { OnOk result ((q : List ℕ) → text_of q self.new ≡ (if bytes_eq path.now q then Some text.now else text_of q self.old)) }
        ensures unchanged { OnErr result (self.new ≡ self.old) }
    {
        let copy = Text::copy_of(self.alloc, text)?;
        self.add_text(path, copy)
    }

    /// Adds the text of a file. The text of a path that was added before is replaced.
    ///
    /// All texts together have at most 16,777,216 bytes, and there are at most 4,096 files: else this is K01
    /// with the path, at line 0. `NoMemory` comes where memory is refused. After an error the files are as
    /// before.
    pub fn add_text(&mut self, path: &str, text: Text) -> Result<(), TextFault>
        ensures adds { GivesAfter result self.new (added path.now text self.old) }
        ensures texts { OnOk result ((q : List ℕ) → text_of q self.new ≡ (if bytes_eq path.now q then Some text else text_of q self.old)) }
        ensures unchanged { OnErr result (self.new ≡ self.old) }
    {
        let len = text.as_str().len();
        let totals = self.totals_with(path);
        if totals.files > MAX_FILES || len > MAX_BYTES - totals.other_bytes {
            return Err(TextFault::at(self.alloc, TextProblem::Limit, path, 0));
        }
        let key = String::from_str(self.alloc, path)?;
        self.files.insert(key, text.into_string())?;
        self.bytes = totals.other_bytes + len;
        Ok(())
    }

    /// The totals of the files with one of a path, without the bytes of its text.
    fn totals_with(&self, path: &str) -> Totals
        ensures files { result.files ≡ count_with path.now self.now }
        ensures bytes { result.other_bytes ≡ other_bytes path.now self.now }
        ensures within { result.other_bytes ≤ 16777216 }
    {
        match self.files.get(path) {
            Some(text) => Totals {
                files: self.files.len(),
                other_bytes: self.bytes - text.len(),
            },
            None => Totals {
                files: self.files.len() + 1,
                other_bytes: self.bytes,
            },
        }
    }

    /// The path and the text of the file of a path.
    pub(crate) fn file(&self, path: &str) -> Option<(&str, &str)>
        ensures short { IfSome result (λ f. length f.1.now ≤ MAX_BYTES) }
        ensures found { MatchOption result (text_of path.now self.now ≡ None) (λ f. (f.0.now ≡ path.now) × (text_of path.now self.now ≡ Some f.1.now)) }
    {
        let (path, text) = self.files.get_key_value(path)?;
        Some((path.as_str(), text.as_str()))
    }

    /// The text of the file of a path.
    pub fn text(&self, path: &str) -> Option<&str>
        ensures { MatchOption result (text_of path.now self.now ≡ None) (λ text. text_of path.now self.now ≡ Some text.now) }
    {
        let (_, text) = self.file(path)?;
        Some(text)
    }

    /// Removes the file of a path, and gives its text. Where there is none, nothing is removed.
    pub fn take(&mut self, path: &str) -> Option<Text>
        ensures text { result ≡ text_of path.now self.old }
        ensures files { self.new ≡ without path.now self.old }
        ensures texts { (q : List ℕ) → text_of q self.new ≡ (if bytes_eq path.now q then None else text_of q self.old) }
    {
        let text = self.files.remove(path)?;
        self.bytes -= text.len();
        Some(Text::new(text))
    }
}

/// The texts of the files that were read, by their paths. Contracts see the list of the files in the order of their
/// paths' bytes, each as the bytes of its path and of its text.
#[derive(Drop)]
pub struct ReadFiles<'a> {
    alloc: Global,
    /// What keeps the paths and the texts.
    arena: &'a Bump,
    files: BTreeMap<&'a str, &'a str>,
    /// The number of bytes of all texts.
    bytes: usize,
}

impl<'a> Model for ReadFiles<'a> {
    ghost use Rattle.std.specs.Prelude.{List};
    ghost use Rattle.kc_text.specs.FileList.{File};
    ghost use Rattle.kc_text.specs.LentFiles.{lent_files, IsLentCounted};

    ghost Value = { List File };

    ghost view = { λ s. lent_files s.files };

    ghost invariant = { λ s. IsLentCounted s.files s.bytes };
}

impl<'a> ReadFiles<'a> {
    /// No files.
    pub fn new(alloc: Global, arena: &'a Bump) -> ReadFiles<'a>
        ensures { result ≡ [] }
    {
        ReadFiles {
            alloc,
            arena,
            files: BTreeMap::new(alloc),
            bytes: 0,
        }
    }

    /// The arena that keeps the texts.
    pub fn arena(&self) -> &'a Bump {
        self.arena
    }

    /// The path and the text of each file, in the order of the paths' bytes.
    pub fn iter(&self) -> Iter<'_, &'a str, &'a str> {
        self.files.iter()
    }

    /// The number of bytes that the texts may have more.
    pub fn room(&self) -> usize
        ensures { result ≡ 16777216 - total_bytes self.now }
    {
        MAX_BYTES - self.bytes
    }

    /// The path and the text of the file of a path.
    pub fn file(&self, path: &str) -> Option<(&'a str, &'a str)>
        ensures short { IfSome result (λ f. length f.1.now ≤ MAX_BYTES) }
        ensures found { MatchOption result (text_of path.now self.now ≡ None) (λ f. (f.0.now ≡ path.now) × (text_of path.now self.now ≡ Some f.1.now)) }
    {
        let (path, text) = self.files.get_key_value(path)?;
        Some((*path, *text))
    }

    /// Adds the text of a file that was not read before, and gives its path, which the arena keeps.
    ///
    /// All texts together have at most 16,777,216 bytes, and there are at most 4,096 files: else this is K01 with the
    /// path, at line 0. `NoMemory` comes where memory is refused. After an error the files are as before.
    pub fn add(&mut self, path: &str, text: &'a str) -> Result<&'a str, TextFault>
        requires { text_of path.now self.old ≡ None }
        ensures path { IfOk result (λ kept. kept.now ≡ path.now) }
        ensures adds { OnOk result (added path.now text.entry.now self.old ≡ Ok self.new) }
        ensures text { OnOk result (text_of path.now self.new ≡ Some text.entry.now) }
        ensures kept { OnOk result (Extends self.old self.new) }
        ensures fault { IfErr result (λ f. Fails f (added path.now text.entry.now self.old)) }
        ensures unchanged { OnErr result (self.new ≡ self.old) }
    {
        if self.files.len() >= MAX_FILES || text.len() > MAX_BYTES - self.bytes {
            return Err(TextFault::at(self.alloc, TextProblem::Limit, path, 0));
        }
        let path = self.arena.try_alloc_str(path)?;
        self.files.insert(path, text)?;
        self.bytes += text.len();
        Ok(path)
    }
}

/// Gives the texts of files when they are asked for.
pub trait Folder {
    /// Why the text of a file cannot be given.
    type Fault: Drop;

    /// What the folder answers for the bytes of a path, and what the folder is before and after that.
    ghost reads: { Self → List ℕ → FolderAnswer → Self → Type 0 };

    /// The text of the file of a path, which the arena keeps: none where there is no such file. For a file of more
    /// bytes than there is room for, any text of more bytes than the room is an answer.
    fn read<'a>(
        &mut self,
        arena: &'a Bump,
        path: &str,
        room: usize,
    ) -> Result<Option<&'a str>, Self::Fault>
        ensures { reads self.old path.now (answer_of result) self.new };
}

/// A folder without files.
#[derive(Drop)]
pub struct NoFolder;

impl Folder for NoFolder {
    type Fault = ();

    ghost reads = { λ _ _ answer _. answer ≡ lacks };

    fn read<'a>(
        &mut self,
        _arena: &'a Bump,
        _path: &str,
        _room: usize,
    ) -> Result<Option<&'a str>, ()> {
        Ok(None)
    }
}

/// Files that are read as they are asked for, each once.
#[derive(Drop)]
pub struct Library<'a, F> {
    /// The files that were read.
    pub files: ReadFiles<'a>,
    /// The folder that gives the others.
    pub folder: F,
}

/// The texts of files.
#[derive(Drop)]
pub enum Texts<'a, F> {
    /// All texts are there from the start.
    Given(&'a Sources),
    /// They are read as they are asked for.
    Read(Library<'a, F>),
}

impl<'a, F: Folder> Library<'a, F> {
    /// The path and the text of the file of a path: none where the folder has no such file. A file that was read
    /// before is not read again.
    pub fn text(&mut self, path: &str) -> Result<Option<(&'a str, &'a str)>, FileFault<F::Fault>>
        ensures once { IsSome (text_of path.now self.old.files) → self.new ≡ self.old }
        ensures asks { text_of path.now self.old.files ≡ None → (a : FolderAnswer) × (F.reads self.old.folder path.now a self.new.folder × IsAnswer a path.now self.old.files result) }
        ensures found { IfOk result (λ o. MatchOption o (text_of path.now self.new.files ≡ None) (λ f. (f.0.now ≡ path.now) × (text_of path.now self.new.files ≡ Some f.1.now))) }
        ensures short { IfOk result (λ o. IfSome o (λ f. length f.1.now ≤ MAX_BYTES)) }
        ensures failed { OnErr result (text_of path.now self.new.files ≡ None) }
        ensures fault { IfErr result (λ why. IsFileFaultOf why path.now) }
        ensures kept { Extends self.old.files self.new.files }
    {
        if let Some(file) = self.files.file(path) {
            return Ok(Some(file));
        }
        let room = self.files.room();
        let text = match self.folder.read(self.files.arena(), path, room) {
            Ok(Some(text)) => text,
            Ok(None) => return Ok(None),
            Err(fault) => return Err(FileFault::Folder(fault)),
        };
        match self.files.add(path, text) {
            Ok(path) => Ok(Some((path, text))),
            Err(fault) => Err(FileFault::Files(fault)),
        }
    }
}

impl<'a, F: Folder> Texts<'a, F> {
    /// The path and the text of the file of a path, if there is one.
    pub(crate) fn text(
        &mut self,
        path: &str,
    ) -> Result<Option<(&'a str, &'a str)>, FileFault<F::Fault>>
        ensures found { IfOk result (λ o. MatchOption o (text_of path.now (known_files self.new) ≡ None) (λ f. (f.0.now ≡ path.now) × (text_of path.now (known_files self.new) ≡ Some f.1.now))) }
        ensures short { IfOk result (λ o. IfSome o (λ f. length f.1.now ≤ MAX_BYTES)) }
        ensures failed { OnErr result (text_of path.now (known_files self.new) ≡ None) }
        ensures fault { IfErr result (λ why. IsFileFaultOf why path.now) }
        ensures kept { Extends (known_files self.old) (known_files self.new) }
        ensures given { StaysGiven self.old self.new }
    {
        match self {
            Texts::Given(sources) => Ok(sources.file(path)),
            Texts::Read(library) => library.text(path),
        }
    }
}
