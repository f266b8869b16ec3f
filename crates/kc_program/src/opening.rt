//! From the files of a folder to a session.

ghost use Rattle.std.specs.Prelude.{◌≡◌, IfOk, MatchOption, MatchResult};
ghost use Rattle.std.specs.Str.{IsUtf8};
ghost use Rattle.std.specs.String.{string_bytes};

use crate::files::Files;
use crate::messages::Fault;
use kc_files::{Prefix, Warning};
use kc_folder::{Folder, FolderFault};
use kc_session::{OpenFault, Session, open_lines};
use kc_text::{Text, Vars};
use std::alloc::Global;

/// The most bytes of a line of a `.config`, without its line end (docs/SECURITY.md).
const MOST_LINE: usize = 65_536;

/// The most bytes of a `.config` (docs/SECURITY.md).
const MOST_BYTES: usize = 16_777_216;

/// The `.config` that is loaded.
#[derive(Drop)]
pub struct ConfigFile {
    /// The path that its fault names.
    path: String,
    bytes: Vec<u8>,
}

impl ConfigFile {
    /// None: no line.
    pub fn none(alloc: Global) -> ConfigFile {
        ConfigFile {
            path: String::new(alloc),
            bytes: Vec::new(alloc),
        }
    }

    /// The path, which is empty where there is no file.
    pub fn path(&self) -> &str {
        self.path.as_str()
    }

    /// The bytes, which are none where there is no file.
    pub fn bytes(&self) -> &[u8] {
        self.bytes.as_slice()
    }

    /// Whether it has more bytes than a `.config` may have, or a line of it.
    pub fn is_too_long(&self) -> bool {
        self.bytes.len() > MOST_BYTES || self.long_line().is_some()
    }

    /// The number of the first line that has more bytes than one may have, without its line end.
    pub fn long_line(&self) -> Option<usize> {
        let mut lines = self.bytes.split_inclusive(|byte| *byte == b'\n');
        let index = lines.position(|line| without_line_end(line).len() > MOST_LINE)?;
        Some(index.saturating_add(1))
    }
}

/// A line without its line feed and the one carriage return before it.
fn without_line_end(line: &[u8]) -> &[u8] {
    match line {
        [text @ .., b'\r', b'\n'] => text,
        [text @ .., b'\n'] => text,
        _ => line,
    }
}

/// The `.config` of a path of a folder. Of one that is too long it has enough to be found too long.
pub fn read_config_file<F: Folder>(
    alloc: Global,
    folder: &F,
    path: &str,
) -> Result<ConfigFile, Fault> {
    match folder.read_config(alloc, path) {
        Ok(bytes) => Ok(ConfigFile {
            path: String::from_str(alloc, path)?,
            bytes,
        }),
        Err(FolderFault::CannotRead) => Err(Fault::CannotRead(Text::copy_of(alloc, path)?)),
        Err(FolderFault::NoMemory) => Err(Fault::NoMemory),
    }
}

/// A Kconfig that is to be opened with the values of a `.config`.
#[derive(Drop)]
pub struct Kconfig<'a, F> {
    /// Where its files are.
    pub folder: &'a F,
    /// The variables that it sees, each as its name and its text.
    pub variables: &'a [(&'a str, &'a str)],
    /// These variables.
    pub vars: &'a Vars,
    /// The path of its top file.
    pub top: &'a str,
    /// What stands before the names of symbols in files.
    pub prefix: &'a Prefix,
    pub config: &'a ConfigFile,
}

/// A session, and the warnings of the `.config` in the order of its lines.
pub type Opened = (Session, Vec<Warning>);

/// What is made of the lines of a Kconfig.
pub trait Opening {
    type Opened: Drop;

    /// What the lines of files give, or what is wrong with them or with the `.config`.
    fn open<F>(
        &self,
        files: &Files<'_>,
        kconfig: &Kconfig<'_, F>,
    ) -> Result<Self::Opened, OpenFault>;
}

/// A session alone.
#[derive(Clone, Copy)]
pub struct PlainOpening;

impl Opening for PlainOpening {
    type Opened = Opened;

    fn open<F>(&self, files: &Files<'_>, kconfig: &Kconfig<'_, F>) -> Result<Opened, OpenFault> {
        let config = kconfig.config.bytes();
        open_lines(
            files.alloc(),
            files.seed(),
            files.lines(),
            kconfig.prefix,
            config,
        )
    }
}

/// The session of a Kconfig with the values of its `.config`, and the warnings in the order of its lines.
pub fn open_kconfig<F: Folder>(
    files: &mut Files<'_>,
    kconfig: &Kconfig<'_, F>,
) -> Result<Opened, Fault> {
    open_files(files, kconfig, &PlainOpening)
}

/// What an opening makes of the files of a Kconfig, or the fault that reading them came to.
pub fn open_files<F: Folder, O: Opening>(
    files: &mut Files<'_>,
    kconfig: &Kconfig<'_, F>,
    opening: &O,
) -> Result<O::Opened, Fault> {
    if let Some(fault) = files.take_fault() {
        return Err(fault);
    }
    match opening.open(files, kconfig) {
        Ok(opened) => Ok(opened),
        Err(fault) => Err(fault_of(files.alloc(), fault, kconfig.config)),
    }
}

/// The fault of a Kconfig that has no session with a `.config`.
fn fault_of(alloc: Global, fault: OpenFault, config: &ConfigFile) -> Fault {
    match fault {
        OpenFault::Text(fault) => Fault::Text(fault),
        OpenFault::Tree(fault) => Fault::Tree(fault),
        OpenFault::Limit => match Text::copy_of(alloc, config.path.as_str()) {
            Ok(path) => Fault::Limit(path),
            Err(_) => Fault::NoMemory,
        },
        OpenFault::NoMemory => Fault::NoMemory,
    }
}

/// The text of the file of a path, by what reading it gave.
pub fn text_of(
    alloc: Global,
    path: &str,
    read: Result<Vec<u8>, FolderFault>,
) -> Result<String, Fault>
    ensures text { IfOk result (λ text. MatchResult read (λ bytes. string_bytes text ≡ bytes.items) (λ _. ⊥)) }
{
    match read {
        Ok(bytes) => match utf8_text(bytes) {
            Some(text) => Ok(text),
            None => Err(Fault::NotUtf8(Text::copy_of(alloc, path)?)),
        },
        Err(FolderFault::CannotRead) => Err(Fault::CannotRead(Text::copy_of(alloc, path)?)),
        Err(FolderFault::NoMemory) => Err(Fault::NoMemory),
    }
}

/// The text that bytes are, where they are UTF-8.
fn utf8_text(bytes: Vec<u8>) -> Option<String>
    ensures { MatchOption result (¬ (IsUtf8 bytes.items)) (λ text. string_bytes text ≡ bytes.items) }
{
    String::from_utf8(bytes).ok()
}
