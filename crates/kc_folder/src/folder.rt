//! Where the bytes of files come from.
ghost use Rattle.std.specs.Prelude.{◌≡◌};
ghost use Rattle.kc_folder.specs.Cuts.{IsCut};
ghost use Rattle.kc_folder.specs.FolderFaults.{is_missing, reason_of};

use bumpalo::Bump;
use bumpalo::collections::into_bump_slice;
use kc_tree::Seed;
use std::alloc::{AllocError, Allocator, Global};
use std::fs::{self, OpenFile};
use std::io::{self, ErrorKind, Read};
use std::random::RandomSource;
use std::rt::Files;
use std::str::from_utf8;

/// The most bytes that are expected of a file: more are never accepted.
const MOST_EXPECTED: u64 = 16_777_216;

/// How many bytes of a `.config` are read: more than are accepted, so that one that is too long is found so.
const MOST_CONFIG: u64 = MOST_EXPECTED + 1;

/// How many bytes of another file are read: more than are accepted, also where the last character is cut off.
const MOST_READ: u64 = MOST_EXPECTED + 8;

/// The most bytes of a character in UTF-8.
const MOST_OF_CHARACTER: usize = 4;

/// Why a file gave no bytes.
#[derive(Clone, Copy, Debug, PartialEq, Eq)]
pub enum FolderFault {
    /// There is no file that can be read at the path.
    CannotRead,
    /// Memory was refused.
    NoMemory,
}

impl From<io::Error> for FolderFault {
    ghost use Rattle.std.specs.Prelude.{◌≡◌};
    ghost use Rattle.std.specs.IoError.{error_kind};
    ghost use Rattle.kc_folder.specs.FolderFaults.{folder_fault};

    ghost from_gives = { λ error fault. fault ≡ folder_fault (error_kind error) };

    fn from(error: io::Error) -> FolderFault {
        match error.kind() {
            ErrorKind::OutOfMemory => FolderFault::NoMemory,
            _ => FolderFault::CannotRead,
        }
    }
}

/// Files that are read whole.
pub trait Folder {
    /// All bytes of the file of a path. Past 16,777,217 bytes, which are more than all files may have together, the rest
    /// may be left out, and what is there ends with a whole character then.
    fn read_bytes(&self, alloc: Global, path: &str) -> Result<Vec<u8>, FolderFault>;

    /// The same for a `.config`. Past 16,777,217 bytes, which are more than one may have, the rest may be left out.
    fn read_config(&self, alloc: Global, path: &str) -> Result<Vec<u8>, FolderFault> {
        self.read_bytes(alloc, path)
    }

    /// The same bytes, which an arena keeps.
    fn read_kept<'a>(
        &self,
        alloc: Global,
        arena: &'a Bump,
        path: &str,
    ) -> Result<&'a [u8], FolderFault> {
        let bytes = self.read_bytes(alloc, path)?;
        match arena.try_alloc_slice_copy(bytes.as_slice()) {
            Ok(kept) => Ok(kept),
            Err(_) => Err(FolderFault::NoMemory),
        }
    }

    /// The same for a file that is read again, for a message: `CannotRead` also where it has more than 16,777,216 bytes,
    /// and where reading it might not end, or might take bytes from others, as from a pipe.
    fn read_plain(&self, alloc: Global, path: &str) -> Result<Vec<u8>, FolderFault>;

    /// Why the file of a path can't be read, in a few words.
    ///
    /// # Errors
    ///
    /// `AllocError` where memory is refused.
    fn why_unread(&self, alloc: Global, _path: &str) -> Result<String, AllocError> {
        String::from_str(alloc, "no file can be read at this path")
    }

    /// Whether it is certain that there is no directory at a path.
    fn lacks_directory(&self, _path: &str) -> bool {
        false
    }

    /// The directory from which a path is taken, where it is certain that there is none.
    fn missing_base(&self, _path: &str) -> Option<&str> {
        None
    }

    /// The seed of the hash under which the paths of the files, and the names in them, are kept.
    fn seed(&self) -> Seed {
        Seed::fixed()
    }
}

/// The files of the system. A path that does not begin with `/` is taken from the working directory.
#[derive(Drop)]
pub struct SystemFolder<'a, R> {
    rt: &'a R,
}

impl<'a, R> SystemFolder<'a, R> {
    /// The files that the runtime reaches.
    pub fn new(rt: &'a R) -> SystemFolder<'a, R> {
        SystemFolder { rt }
    }
}

impl<R: Files> SystemFolder<'_, R> {
    /// Whether there is a directory at a path.
    fn has_directory(&self, path: &str) -> bool {
        match fs::metadata(self.rt, path) {
            Ok(metadata) => metadata.is_dir(),
            Err(_) => false,
        }
    }

    /// The bytes of the file of a path. The system is asked for their number once the file is open, since a path costs more
    /// than a file that is open.
    fn read_whole<A: Allocator>(&self, alloc: A, path: &str) -> Result<Vec<u8, A>, FolderFault> {
        let file = fs::open(self.rt, path)?;
        let expected = file.metadata()?.len().min(MOST_EXPECTED) as usize;
        let mut file = file.take(MOST_READ);
        let Ok(mut bytes) = vec![in alloc; 0u8; expected + 1] else {
            return Err(FolderFault::NoMemory);
        };
        let count = file.read(bytes.as_mut_slice()).unwrap_or(0);
        bytes.truncate(count);
        // There was room for one more, so the expected bytes were all. What failed is tried again.
        if count == 0 || count != expected {
            file.read_to_end(&mut bytes)?;
        }
        if bytes.len() as u64 == MOST_READ {
            bytes.truncate(whole_characters(bytes.as_slice()));
        }
        Ok(bytes)
    }
}

/// How many of the first bytes of a file are whole characters, where the last may be cut. All of the bytes where they
/// begin no text.
fn whole_characters(bytes: &[u8]) -> usize
    ensures { IsCut bytes.now result }
{
    let Err(fault) = from_utf8(bytes) else {
        return bytes.len();
    };
    let whole = fault.valid_up_to();
    if bytes.len() - whole < MOST_OF_CHARACTER {
        whole
    } else {
        bytes.len()
    }
}

/// Whether the system answers that there is nothing at a path.
fn is_missing(kind: ErrorKind) -> bool
    ensures { result ≡ is_missing kind }
{
    matches!(kind, ErrorKind::NotFound | ErrorKind::NotADirectory)
}

/// What is said of a file that can't be opened, by what the system answers.
fn reason_of(kind: ErrorKind) -> &'static str
    ensures { result.now ≡ reason_of kind }
{
    match kind {
        ErrorKind::NotFound => "no such file",
        ErrorKind::PermissionDenied => "permission denied",
        _ => "the system can't open it",
    }
}

impl<R: Files + RandomSource> Folder for SystemFolder<'_, R> {
    fn read_bytes(&self, alloc: Global, path: &str) -> Result<Vec<u8>, FolderFault> {
        self.read_whole(alloc, path)
    }

    fn read_kept<'a>(
        &self,
        _alloc: Global,
        arena: &'a Bump,
        path: &str,
    ) -> Result<&'a [u8], FolderFault> {
        let bytes = self.read_whole(arena, path)?;
        Ok(into_bump_slice(bytes))
    }

    fn read_config(&self, alloc: Global, path: &str) -> Result<Vec<u8>, FolderFault> {
        let mut file = fs::open(self.rt, path)?.take(MOST_CONFIG);
        let mut bytes = Vec::new(alloc);
        file.read_to_end(&mut bytes)?;
        Ok(bytes)
    }

    fn read_plain(&self, alloc: Global, path: &str) -> Result<Vec<u8>, FolderFault> {
        let metadata = fs::metadata(self.rt, path)?;
        if metadata.is_file() && metadata.len() <= MOST_EXPECTED {
            self.read_whole(alloc, path)
        } else {
            Err(FolderFault::CannotRead)
        }
    }

    fn why_unread(&self, alloc: Global, path: &str) -> Result<String, AllocError> {
        let why = match fs::open(self.rt, path) {
            Ok(_) if self.has_directory(path) => "it is a directory",
            Ok(_) => "it can't be read to its end",
            Err(error) => reason_of(error.kind()),
        };
        String::from_str(alloc, why)
    }

    fn lacks_directory(&self, path: &str) -> bool {
        match fs::metadata(self.rt, path) {
            Ok(metadata) => !metadata.is_dir(),
            Err(error) => is_missing(error.kind()),
        }
    }

    /// A seed that the system draws, and the fixed one where it gives no random bytes.
    fn seed(&self) -> Seed {
        Seed::drawn(self.rt).unwrap_or_else(|_| Seed::fixed())
    }
}
