//! What is said of a fault, or why nothing is.

use crate::meanings::fault_meaning;
use crate::piece::{Piece, Texts, words_of};
use kc_lines::Finding;
use std::alloc::{AllocError, AllocFailed, Global};

/// Why nothing is said.
#[derive(Clone, Copy, Debug, PartialEq, Eq)]
pub(crate) enum Unsaid {
    /// Memory was refused.
    NoMemory,
    /// No line shows the fault.
    Nothing,
}

/// Words for a fault and the lines that show it, if there are some.
pub(crate) type Said = Result<Finding, Unsaid>;

/// Words alone, whose lines are found otherwise.
pub(crate) type Words = Result<String, Unsaid>;

impl From<AllocError> for Unsaid {
    fn from(_refused: AllocError) -> Unsaid {
        Unsaid::NoMemory
    }
}

impl<T: Drop> From<AllocFailed<T>> for Unsaid {
    fn from(_refused: AllocFailed<T>) -> Unsaid {
        Unsaid::NoMemory
    }
}

/// A message alone, whose lines are found otherwise.
pub(crate) fn worded(alloc: Global, message: &[Piece], texts: &Texts<'_>) -> Words {
    Ok(words_of(alloc, message, texts)?)
}

/// A message, and the lines that show it.
pub(crate) fn say(alloc: Global, message: &[Piece], texts: &Texts<'_>, lines: &[usize]) -> Said {
    let words = words_of(alloc, message, texts)?;
    Ok(Finding::of_lines(alloc, words, lines)?)
}

/// What is said of a fault, or what its number means where nothing is.
pub(crate) fn or_meaning(alloc: Global, said: Said, number: u8) -> Result<Finding, AllocError> {
    match said {
        Ok(finding) => Ok(finding),
        Err(unsaid) => {
            let words = words_or_meaning(alloc, Err(unsaid), number)?;
            Finding::of_lines(alloc, words, &[])
        }
    }
}

/// Words for a fault, or what its number means where there are none.
pub(crate) fn words_or_meaning(
    alloc: Global,
    words: Words,
    number: u8,
) -> Result<String, AllocError> {
    match words {
        Ok(words) => Ok(words),
        Err(Unsaid::NoMemory) => Err(AllocError),
        Err(Unsaid::Nothing) => String::from_str(alloc, fault_meaning(number).unwrap_or("")),
    }
}
