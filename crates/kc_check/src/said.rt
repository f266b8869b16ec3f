//! What is said of a finding.

use kc_text::Text;
use std::alloc::{AllocError, Global};

/// What is said of a finding, apart from where it is.
#[derive(Debug, Drop)]
pub(crate) struct Said {
    /// The name of a symbol or of a variable, empty if there is none.
    pub name: Text,
    pub words: String,
}

impl Said {
    /// Words about a name.
    ///
    /// # Errors
    ///
    /// `AllocError` where memory is refused.
    pub fn of(alloc: Global, name: &str, words: String) -> Result<Said, AllocError> {
        Ok(Said {
            name: Text::copy_of(alloc, name)?,
            words,
        })
    }

    /// Nothing: neither a name nor words, of a part that a tree does not have.
    ///
    /// # Errors
    ///
    /// `AllocError` where memory is refused.
    pub fn nothing(alloc: Global) -> Result<Said, AllocError> {
        Said::of(alloc, "", String::new(alloc))
    }
}
