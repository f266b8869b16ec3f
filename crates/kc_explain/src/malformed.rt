//! What is said of a line that a `.config` does not have (warning 4).

use crate::characters::push_character;
use crate::meanings::warning_meaning;
use crate::meant_lines::{meant_line, push_meant_line};
use crate::messages::ConfigMessage;
use crate::named_symbols::NamedSymbols;
use crate::piece::{texts, words_of};
use kc_files::has_name_bytes;
use std::alloc::{AllocError, Global};

/// How a tool of version control marks the two sides of a conflict.
static CONFLICT_MARKS: [&str; 4] = ["<<<<<<<", "=======", ">>>>>>>", "|||||||"];

/// The prefix that most `.config` files have.
const USUAL_PREFIX: &str = "CONFIG_";

/// What is said of a line that a `.config` does not have: what is wrong with it, and which line is meant, by the types of
/// symbols. A line that is no UTF-8 has no text.
pub(crate) fn malformed_words(
    alloc: Global,
    prefix: &str,
    text: Option<&str>,
    symbols: &NamedSymbols<'_>,
) -> Result<String, AllocError> {
    let Some(text) = text else {
        return words_of(alloc, ConfigMessage::NotText.row(), &texts!());
    };
    if CONFLICT_MARKS.iter().any(|mark| text.starts_with(*mark)) {
        return words_of(alloc, ConfigMessage::ConflictMark.row(), &texts!());
    }
    if text.starts_with('\u{feff}') {
        return character_words(alloc, ConfigMessage::ByteOrderMark, text, 1);
    }
    match text.split_once('=') {
        Some((name, value)) => assignment_words(alloc, prefix, name, value, symbols),
        None => String::from_str(alloc, warning_meaning(4).unwrap_or("")),
    }
}

/// The names of symbols that the name in such a line may be meant as: what comes after the prefix, and what comes after
/// the usual one in its place.
pub(crate) fn named_symbols<'n>(prefix: &str, name: &'n str) -> [&'n str; 2] {
    let name = name.trim();
    let name = name.strip_prefix(prefix).unwrap_or(name);
    [name, name.strip_prefix(USUAL_PREFIX).unwrap_or(name)]
}

/// What is said of a line with a `=`.
fn assignment_words(
    alloc: Global,
    prefix: &str,
    name: &str,
    value: &str,
    symbols: &NamedSymbols<'_>,
) -> Result<String, AllocError> {
    let bare = name.trim();
    if bare.is_empty() {
        return words_of(alloc, ConfigMessage::NothingNamed.row(), &texts!());
    }
    if !has_name_bytes(bare) {
        return name_words(alloc, name);
    }
    let message = match bare.strip_prefix(prefix) {
        Some("") => ConfigMessage::PrefixAlone,
        Some(_) if bare.len() < name.trim_start().len() => ConfigMessage::BlanksAround,
        Some(_) => ConfigMessage::BlanksBefore,
        None => ConfigMessage::WithoutPrefix,
    };
    let mut words = words_of(alloc, message.row(), &texts!(prefix: prefix))?;
    for name in &named_symbols(prefix, name) {
        if let Some(typed) = symbols.get(name) {
            let line = meant_line(alloc, prefix, name, typed.kind(), value)?;
            push_meant_line(alloc, &mut words, line)?;
            return Ok(words);
        }
    }
    Ok(words)
}

/// What is said of a name with a character that no name has.
fn name_words(alloc: Global, name: &str) -> Result<String, AllocError> {
    let start = name.trim_start();
    let within = start
        .bytes()
        .position(|byte| !byte.is_ascii_alphanumeric() && byte != b'_');
    let from = start.get(within.unwrap_or(0)..).unwrap_or("");
    let before = name.strip_suffix(from).unwrap_or("");
    let column = before.chars().count().saturating_add(1);
    character_words(alloc, ConfigMessage::NoName, from, column)
}

/// What is said of the first character of a text, which is in this column.
fn character_words(
    alloc: Global,
    message: ConfigMessage,
    from: &str,
    column: usize,
) -> Result<String, AllocError> {
    let mut character = String::new(alloc);
    if from.starts_with([' ', '\t']) {
        character.push_str("a blank")?;
    } else {
        push_character(&mut character, from)?;
    }
    words_of(
        alloc,
        message.row(),
        &texts!(text: character.as_str(), number: column),
    )
}
