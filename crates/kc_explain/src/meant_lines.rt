//! The line of a `.config` that is meant by one that can't be used, where that is clear.

use crate::dollars::is_escaped;
use crate::messages::ConfigMessage;
use crate::piece::{texts, words_of};
use kc_files::push_quoted;
use kc_lines::meant_tri;
use kc_statement::{SymbolType, Tri, numeral};
use std::alloc::{AllocError, Global};

/// The most bytes of a value that a message says to write.
const MOST_WRITTEN: usize = 160;

/// The line that gives a symbol of a name and a type the value that a text is meant as: whole, and one that is read. Names
/// have a prefix.
pub(crate) fn meant_line(
    alloc: Global,
    prefix: &str,
    name: &str,
    kind: SymbolType,
    text: &str,
) -> Result<Option<String>, AllocError> {
    let Some(value) = meant_value(alloc, kind, text)? else {
        return Ok(None);
    };
    let value = value.as_str();
    if value.len() > MOST_WRITTEN {
        return Ok(None);
    }
    let line = match kind {
        SymbolType::Bool | SymbolType::Tristate if value == "n" => {
            format!(in alloc; "# {prefix}{name} is not set")?
        }
        _ => format!(in alloc; "{prefix}{name}={value}")?,
    };
    Ok(Some(line))
}

/// Adds the line that is meant, if there is one.
pub(crate) fn push_meant_line(
    alloc: Global,
    words: &mut String,
    line: Option<String>,
) -> Result<(), AllocError> {
    let Some(line) = line else {
        return Ok(());
    };
    let added = words_of(
        alloc,
        ConfigMessage::Meant.row(),
        &texts!(form: line.as_str()),
    )?;
    words.push_str(added.as_str())
}

/// The value of a type that a text is meant as, as a line has it.
fn meant_value(alloc: Global, kind: SymbolType, text: &str) -> Result<Option<String>, AllocError> {
    let text = text.trim();
    let value = match kind {
        SymbolType::String => return Ok(Some(meant_text(alloc, text)?)),
        _ => match (plain_value(kind, text), before_comment(text)) {
            (None, Some(text)) => plain_value(kind, text),
            (value, _) => value,
        },
    };
    match value {
        Some(value) => Ok(Some(String::from_str(alloc, value)?)),
        None => Ok(None),
    }
}

/// The value of a type other than string that a text without a comment is meant as.
fn plain_value(kind: SymbolType, text: &str) -> Option<&str> {
    let text = match within(text, '"') {
        Some(text) => text,
        None => within(text, '\'').unwrap_or(text),
    };
    match kind {
        SymbolType::Bool => match tri_of(text)? {
            Tri::Module => None,
            tri => Some(tri.letter()),
        },
        SymbolType::Tristate => Some(tri_of(text)?.letter()),
        SymbolType::String | SymbolType::Int | SymbolType::Hex => {
            numeral(kind, text).is_some().then_some(text)
        }
    }
}

/// The value of a bool or a tristate that a word is meant as.
fn tri_of(word: &str) -> Option<Tri> {
    match word {
        "y" | "on" | "On" | "ON" => Some(Tri::Yes),
        "n" | "off" | "Off" | "OFF" => Some(Tri::No),
        "m" => Some(Tri::Module),
        _ => meant_tri(word),
    }
}

/// The text in quotes that a string is meant to have: what is in quotes already, with the quote that lacks at its end, or
/// in quotes of the other kind.
fn meant_text(alloc: Global, text: &str) -> Result<String, AllocError> {
    if is_quoted(text) {
        return String::from_str(alloc, text);
    }
    if let Some(open) = text.strip_prefix('"') {
        let backslash = if is_escaped(open) { "\\" } else { "" };
        return format!(in alloc; "\"{open}{backslash}\"");
    }
    let mut quoted = String::new(alloc);
    push_quoted(&mut quoted, within(text, '\'').unwrap_or(text))?;
    Ok(quoted)
}

/// Whether a value is read as a text in quotes: a quote closes it that has no backslash before it.
pub(crate) fn is_quoted(value: &str) -> bool {
    let mut pieces = value.split('"');
    if pieces.next() != Some("") {
        return false;
    }
    let mut is_closed = false;
    for piece in pieces {
        if is_closed {
            return true;
        }
        is_closed = !is_escaped(piece);
    }
    false
}

/// Whether a type takes a value.
pub(crate) fn is_taken(kind: SymbolType, value: &str) -> bool {
    match kind {
        SymbolType::Bool => matches!(value, "n" | "y"),
        SymbolType::Tristate => matches!(value, "n" | "m" | "y"),
        SymbolType::String => is_quoted(value),
        SymbolType::Int | SymbolType::Hex => numeral(kind, value).is_some(),
    }
}

/// The text between two quotes of a kind that has none within.
fn within(text: &str, quote: char) -> Option<&str> {
    let inside = text.strip_prefix(quote)?.strip_suffix(quote)?;
    (!inside.contains(quote)).then_some(inside)
}

/// The text before a comment, with a blank between them.
pub(crate) fn before_comment(text: &str) -> Option<&str> {
    let (before, _) = text.split_once('#')?;
    let is_apart = before.ends_with([' ', '\t']) && !before.trim().is_empty();
    is_apart.then_some(before.trim())
}
