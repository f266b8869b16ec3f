//! The files of a Kconfig that were read, and their logical lines.

ghost use Rattle.std.specs.Prelude.{◌≤◌, length};
ghost use Rattle.kc_text.specs.declared.reading.TheConstants.{MOST_LINES};

use crate::messages::Fault;
use crate::opening::Kconfig;
use crate::wants::SourceLine;
use bumpalo::Bump;
use kc_check::without_strays;
use kc_folder::{AskedFolder, Folder, Unread, add_defined_names};
use kc_text::{
    FileFault, Library, Line, LinesFault, ReadFiles, TextFault, TextProblem, Texts, lines_from,
};
use kc_tree::{Seed, TreeFault, all_faults};
use std::alloc::{AllocError, Global};
use std::collections::BTreeSet;

/// The files that were read of a Kconfig, each once when its `source` line came, and the lines that they give.
#[derive(Drop)]
pub struct Files<'a> {
    alloc: Global,
    /// The seed of the hash under which names are kept.
    seed: Seed,
    read: ReadFiles<'a>,
    /// The logical lines, which are none after a fault.
    lines: Vec<Line<'a>>,
    /// The fault that reading them came to, until it is taken.
    fault: Option<Fault>,
    /// The `source` line whose file can't be read, and the path of that file.
    unread: Option<(SourceLine, String)>,
    ghost few: { length lines.items ≤ MOST_LINES },
}

impl<'a> Files<'a> {
    /// The files of a Kconfig, whose texts and tokens the arena keeps.
    pub fn read<'k: 'a, F: Folder>(
        alloc: Global,
        arena: &'a Bump,
        kconfig: &Kconfig<'k, F>,
    ) -> Files<'a> {
        let mut texts = Texts::Read(Library {
            files: ReadFiles::new(alloc, arena),
            folder: AskedFolder::new(alloc, kconfig.folder),
        });
        let seed = kconfig.folder.seed();
        let lines = lines_from(alloc, arena, &mut texts, kconfig.vars, kconfig.top);
        let read = match texts {
            Texts::Read(library) => library.files,
            Texts::Given(_) => ReadFiles::new(alloc, arena),
        };
        match lines {
            Ok(lines) => Files {
                alloc,
                seed,
                read,
                lines,
                fault: None,
                unread: None,
            },
            Err(fault) => Files::of_fault(alloc, seed, read, fault),
        }
    }

    /// Files whose lines have a fault.
    fn of_fault(
        alloc: Global,
        seed: Seed,
        read: ReadFiles<'a>,
        fault: LinesFault<Unread>,
    ) -> Files<'a> {
        let (fault, unread) = match fault {
            LinesFault::Text(fault) => (Fault::from(fault), None),
            LinesFault::Stopped(why, missing) => stopped(alloc, why, missing),
        };
        Files {
            alloc,
            seed,
            read,
            lines: Vec::new(alloc),
            fault: Some(fault),
            unread,
        }
    }

    /// The fault that reading the files came to, once.
    pub fn take_fault(&mut self) -> Option<Fault> {
        self.fault.take()
    }

    /// The allocator of what the files need.
    pub fn alloc(&self) -> Global {
        self.alloc
    }

    /// The seed of the hash under which names are kept.
    pub fn seed(&self) -> Seed {
        self.seed
    }

    /// The files that were read.
    pub fn texts(&self) -> &ReadFiles<'a> {
        &self.read
    }

    /// The logical lines, which are none where reading them came to a fault.
    pub fn lines(&self) -> &[Line<'a>]
        ensures few { length result.now ≤ MOST_LINES }
    {
        self.lines.as_slice()
    }

    /// The text of the file of a path, where it was read.
    pub fn text(&self, path: &str) -> Option<&'a str> {
        let (_, text) = self.read.file(path)?;
        Some(text)
    }

    /// The `source` line that wants the file of a path, where that can't be read.
    pub fn unread_by(&self, path: &str) -> Option<&SourceLine> {
        match &self.unread {
            Some((line, unread)) if unread.as_str() == path => Some(line),
            _ => None,
        }
    }

    /// All faults of the lines, the symbols and the choices, without those that an unknown word before them explains.
    pub fn faults(&self) -> Result<Vec<TreeFault>, TextFault> {
        let lines = self.lines();
        let faults = all_faults(self.alloc, self.seed, lines)?;
        Ok(without_strays(self.alloc, lines, faults)?)
    }

    /// The variables that the lines of the files define.
    ///
    /// # Errors
    ///
    /// `AllocError` where memory is refused.
    pub fn defined_names(&self) -> Result<BTreeSet<String>, AllocError> {
        let mut names = BTreeSet::new(self.alloc);
        for (_, text) in self.read.iter() {
            add_defined_names(self.alloc, &mut names, text)?;
        }
        Ok(names)
    }
}

/// The fault of a file whose text is not there, and its `source` line with its path where the folder does not give it.
fn stopped(
    alloc: Global,
    why: FileFault<Unread>,
    missing: TextFault,
) -> (Fault, Option<(SourceLine, String)>) {
    match why {
        FileFault::Files(fault) => (Fault::from(fault), None),
        FileFault::Folder(why) => unread(alloc, why, missing),
    }
}

/// The fault of a file that can't be read, and its `source` line with its path, where it is not the top file: by the fault
/// that it is missing.
fn unread(alloc: Global, why: Unread, missing: TextFault) -> (Fault, Option<(SourceLine, String)>) {
    let TextFault::At(problem, path, line) = missing else {
        return (Fault::NoMemory, None);
    };
    let TextProblem::MissingSource(wanted) = problem else {
        return (Fault::NoMemory, None);
    };
    let unread = match String::from_str(alloc, wanted.as_str()) {
        Ok(wanted) if line > 0 => Some((SourceLine { path, line }, wanted)),
        _ => None,
    };
    match why {
        Unread::CannotRead => (Fault::CannotRead(wanted), unread),
        Unread::NotUtf8 => (Fault::NotUtf8(wanted), unread),
        Unread::NoMemory => (Fault::NoMemory, None),
    }
}
