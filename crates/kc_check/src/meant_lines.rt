//! Words about lines of a `.config` that are read as something other than what they are likely meant as.

use kc_files::{DroppedBackslash, name_in};
use std::alloc::{AllocError, Global};

/// What is said of a comment that is likely meant as a line which sets a name to n, by the prefix of names.
///
/// # Errors
///
/// `AllocError` where memory is refused.
pub(crate) fn comment_words(alloc: Global, prefix: &str, name: &str) -> Result<String, AllocError> {
    format!(in alloc; "a comment, which sets nothing; write # {prefix}{name} is not set")
}

/// What is said of a line that gives a string a text in which a backslash is dropped.
///
/// # Errors
///
/// `AllocError` where memory is refused.
pub(crate) fn dropped_words(
    alloc: Global,
    prefix: &str,
    line: &[u8],
    dropped: &DroppedBackslash,
) -> Result<String, AllocError> {
    let mut words = String::from_str(alloc, "`\\")?;
    if let Some(character) = character_at(prefix, line, dropped.place) {
        words.push(character)?;
        words.push_str("` is read as `")?;
        words.push(character)?;
    }
    words.push_str("`; write `\\\\` for a backslash")?;
    Ok(words)
}

/// The character at a place after the opening quote of the value of a line.
fn character_at(prefix: &str, line: &[u8], place: usize) -> Option<char> {
    let value = name_in(prefix, line).value?;
    let rest = value.strip_prefix('"')?.get(place..)?;
    rest.chars().next()
}
