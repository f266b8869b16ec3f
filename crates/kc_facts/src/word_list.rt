//! Words of a list, each once, of which the first few are shown.

use std::alloc::{AllocError, Global};

/// The most words that are shown.
const MOST_SHOWN: usize = 8;

/// Words in the order in which they came first.
#[derive(Drop)]
pub(crate) struct WordList {
    shown: Vec<String>,
    /// What came when enough was shown, perhaps several times.
    more: Vec<String>,
}

impl WordList {
    /// Without words.
    pub(crate) fn new(alloc: Global) -> WordList {
        WordList {
            shown: Vec::new(alloc),
            more: Vec::new(alloc),
        }
    }

    /// Whether there are no words.
    pub(crate) fn is_empty(&self) -> bool {
        self.shown.is_empty()
    }

    /// Whether all that were added are the same words.
    pub(crate) fn has_one(&self) -> bool {
        self.shown.len() == 1
    }

    /// Adds words, if they are not among those that are shown.
    pub(crate) fn add(&mut self, words: String) -> Result<(), AllocError> {
        if self
            .shown
            .iter()
            .any(|there| there.as_str() == words.as_str())
        {
            return Ok(());
        }
        if self.shown.len() < MOST_SHOWN {
            self.shown.push(words)?;
        } else {
            self.more.push(words)?;
        }
        Ok(())
    }

    /// Adds the words to a text, with commas between them, and how many more there are.
    pub(crate) fn push_to(mut self, text: &mut String) -> Result<(), AllocError> {
        let mut between = "";
        for words in &self.shown {
            text.push_str(between)?;
            text.push_str(words.as_str())?;
            between = ", ";
        }
        self.more.sort_unstable();
        self.more.dedup();
        let more = self.more.len();
        if more > 0 {
            write!(text, ", and {more} more")?;
        }
        Ok(())
    }
}
