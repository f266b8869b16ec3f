//! What may be meant by a character that is not allowed (K02), where that is clear.

use crate::messages::TextMessage;

/// The words that want a value after them, and no operator.
static BEFORE_VALUES: [&str; 7] = [
    "depends",
    "on",
    "visible",
    "if",
    "def_bool",
    "def_tristate",
    "default",
];

/// The words to be added for a character that is not allowed, or for a quote that is not closed, by the text before it
/// and the text from it on.
pub(crate) fn hint_at(before: &str, from: &str) -> Option<TextMessage> {
    if before.trim_start().starts_with("//") {
        return Some(TextMessage::CommentBegins);
    }
    match from.as_bytes() {
        [b'&', after @ ..] if joins(before, after) => Some(TextMessage::WriteAnd),
        [b'|', after @ ..] if joins(before, after) => Some(TextMessage::WriteOr),
        [b',', after @ ..] if lists(before, after) => Some(TextMessage::LineForEach),
        _ => None,
    }
}

/// Whether a sign between texts can only be meant to join two values of an expression. In a `default` it may also be
/// meant for bits of a number.
fn joins(before: &str, after: &[u8]) -> bool {
    let unquoted = before.rsplit(['"', '\'']).next().unwrap_or("");
    let mut words = before.split_whitespace();
    let is_expression = match words.next() {
        Some("depends" | "visible" | "if" | "def_bool" | "def_tristate") => true,
        _ => unquoted.split_whitespace().any(|word| word == "if"),
    };
    let last = before.split_whitespace().last().unwrap_or("");
    let ends_value = match last.bytes().last() {
        Some(byte) => is_word_byte(byte) || byte == b')',
        None => false,
    };
    let begins_value = match first_after_blanks(after) {
        Some(byte) => is_word_byte(byte) || matches!(byte, b'(' | b'!' | b'$'),
        None => false,
    };
    is_expression && ends_value && begins_value && !BEFORE_VALUES.contains(&last)
}

/// Whether a comma comes between two names after `select` or `imply`.
fn lists(before: &str, after: &[u8]) -> bool {
    let mut words = before.split_whitespace();
    let is_selection = matches!(words.next(), Some("select" | "imply"));
    let has_name = words
        .next()
        .is_some_and(|name| name.bytes().all(is_name_byte));
    let has_next = first_after_blanks(after).is_some_and(is_name_byte);
    is_selection && has_name && words.next().is_none() && has_next
}

/// The first byte of a text that is no blank.
fn first_after_blanks(text: &[u8]) -> Option<u8> {
    text.iter()
        .copied()
        .find(|byte| *byte != b' ' && *byte != b'\t')
}

/// Whether a byte can be in a name.
fn is_name_byte(byte: u8) -> bool {
    byte.is_ascii_alphanumeric() || byte == b'_'
}

/// Whether a byte can be in a word.
fn is_word_byte(byte: u8) -> bool {
    is_name_byte(byte) || matches!(byte, b'.' | b'/' | b'-')
}
