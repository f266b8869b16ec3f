//! What is known of the texts of variables without the order of the lines that define them, and the path that a `source`
//! line names by it, for a message.

use kc_tree::Seed;
use memchr::{memchr, memchr_iter, memrchr};
use std::alloc::{AllocError, Global};
use std::collections::HashMap;

/// The most bytes of a path: the system opens none that is longer.
const MAX_PATH_BYTES: usize = 4_096;

/// The word that a `source` line begins with.
const SOURCE: &str = "source";

/// The texts of variables by their names, the latest that was seen of each.
#[derive(Drop)]
pub struct Known {
    alloc: Global,
    texts: HashMap<String, String, Seed>,
}

impl Known {
    /// The variables that are passed in, each as its name and its text, kept under the hash of a seed.
    ///
    /// # Errors
    ///
    /// `AllocError` where memory is refused.
    pub fn new(alloc: Global, seed: Seed, variables: &[(&str, &str)]) -> Result<Known, AllocError> {
        let mut texts = HashMap::with_hasher(alloc, seed);
        for (name, text) in variables {
            let name = String::from_str(alloc, name)?;
            texts.insert(name, String::from_str(alloc, text)?)?;
        }
        Ok(Known { alloc, texts })
    }

    /// Takes over what the lines of a text define.
    ///
    /// # Errors
    ///
    /// `AllocError` where memory is refused.
    pub fn note_definitions(&mut self, text: &str) -> Result<(), AllocError> {
        let mut passed = 0;
        for place in memchr_iter(b'=', text.as_bytes()) {
            let definition = definition_at(text, passed, place);
            passed = place;
            if let Some((name, value)) = definition {
                self.note(name, value)?;
            }
        }
        Ok(())
    }

    /// Takes over a definition, with its value expanded at once.
    fn note(&mut self, name: &str, value: &str) -> Result<(), AllocError> {
        if let Some(text) = self.expand(value)? {
            let name = String::from_str(self.alloc, name)?;
            self.texts.insert(name, text)?;
        }
        Ok(())
    }

    /// A text with the texts of variables in place of its references, if it is well formed and short enough for a path.
    /// A variable that is not known is empty.
    ///
    /// # Errors
    ///
    /// `AllocError` where memory is refused.
    pub fn expand(&self, text: &str) -> Result<Option<String>, AllocError> {
        let mut pieces = text.split("$(");
        let mut path = String::from_str(self.alloc, pieces.next().unwrap_or(""))?;
        for piece in pieces {
            let Some((name, after)) = piece.split_once(')') else {
                return Ok(None);
            };
            path.push_str(self.text_of(name))?;
            path.push_str(after)?;
            if path.len() > MAX_PATH_BYTES {
                return Ok(None);
            }
        }
        Ok(Some(path))
    }

    fn text_of(&self, name: &str) -> &str {
        match self.texts.get(name) {
            Some(text) => text.as_str(),
            None => "",
        }
    }
}

/// The name and the value that a line defines by `=` or `:=`, where its first `=` is at a place, and the one before
/// it in the text at an earlier one.
fn definition_at(text: &str, earlier: usize, place: usize) -> Option<(&str, &str)> {
    let between = text.get(earlier..place)?;
    let name = match memrchr(b'\n', between.as_bytes()) {
        Some(end) => between.get(end..)?,
        None if earlier == 0 => between,
        None => return None,
    };
    let name = name.strip_suffix(':').unwrap_or(name).trim();
    let after = text.get(place..)?.strip_prefix('=')?;
    let end = memchr(b'\n', after.as_bytes()).unwrap_or(after.len());
    let value = after.get(..end)?.trim();
    is_name(name).then_some((name, value))
}

/// Whether a text has ASCII letters, digits, `_` and `-` alone.
fn is_name(text: &str) -> bool {
    !text.is_empty() && text.bytes().all(is_name_byte)
}

fn is_name_byte(byte: u8) -> bool {
    byte.is_ascii_alphanumeric() || byte == b'_' || byte == b'-'
}

/// What a `source` line has in its quotes.
pub fn path_of_source(line: &str) -> Option<&str> {
    let named = line.trim_start_matches([' ', '\t']).strip_prefix(SOURCE)?;
    in_quotes(named.trim_start_matches([' ', '\t']))
}

/// What is between the quotes of either kind with which a text begins, up to the first of its kind.
fn in_quotes(text: &str) -> Option<&str> {
    let (quote, quoted) = match text.strip_prefix('\'') {
        Some(quoted) => (b'\'', quoted),
        None => (b'"', text.strip_prefix('"')?),
    };
    quoted.get(..memchr(quote, quoted.as_bytes())?)
}
