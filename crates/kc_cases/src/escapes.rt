//! The bytes that the lines of a section are.

use crate::blocks::is_stray;
use crate::malformed::{CaseFault, Problem};
use std::alloc::{AllocError, Global};

/// What was read of a line with escapes.
#[derive(Clone, Copy)]
enum State {
    /// Text, after which text or an escape may follow.
    Text,
    /// The backslash of an escape.
    Backslash,
    /// `\x`, after which two hexadecimal digits follow.
    Hex,
    /// `\x` and this digit.
    HexDigit(u8),
    /// `\e`, after which nothing may follow: the line has no line feed.
    Ended,
}

/// The bytes of lines. The first line has this number.
///
/// # Errors
///
/// `CaseFault::Malformed` at a line that begins as a title or a header, that ends with a space, or that has a malformed
/// escape.
pub(crate) fn bytes_of_lines(
    alloc: Global,
    lines: &str,
    first: usize,
    is_escaped: bool,
) -> Result<Vec<u8>, CaseFault> {
    let mut bytes = Vec::new(alloc);
    let mut number = first;
    for line in lines.split('\n') {
        if is_stray(line) {
            return Err(CaseFault::Malformed(number, Problem::StrayMark));
        }
        if line.ends_with(' ') {
            return Err(CaseFault::Malformed(number, Problem::TrailingSpace));
        }
        if !is_escaped {
            bytes.extend_from_slice(line.as_bytes())?;
            bytes.push(b'\n')?;
        } else if push_unescaped(&mut bytes, line, number)? {
            bytes.push(b'\n')?;
        }
        number = number.saturating_add(1);
    }
    Ok(bytes)
}

/// Adds the bytes of a line with escapes, of this number, but for its line feed. It gives whether the line has one.
///
/// # Errors
///
/// `CaseFault::Malformed` where an escape is unknown, or the line cuts it off.
pub(crate) fn push_unescaped(
    bytes: &mut Vec<u8>,
    line: &str,
    number: usize,
) -> Result<bool, CaseFault> {
    let mut state = Some(State::Text);
    for character in line.chars() {
        state = match state {
            Some(state) => pushed(bytes, state, character)?,
            None => None,
        };
    }
    match state {
        Some(State::Text) => Ok(true),
        Some(State::Ended) => Ok(false),
        _ => Err(CaseFault::Malformed(number, Problem::UnknownEscape)),
    }
}

/// Adds what a character after a state gives. It gives the state after it, `None` after an unknown escape.
fn pushed(bytes: &mut Vec<u8>, state: State, character: char) -> Result<Option<State>, AllocError> {
    match (state, character) {
        (State::Text, '\\') => Ok(Some(State::Backslash)),
        (State::Text, _) => push_character(bytes, character),
        (State::Backslash, 'x') => Ok(Some(State::Hex)),
        (State::Backslash, 'e') => Ok(Some(State::Ended)),
        (State::Backslash, _) => match escaped(character) {
            Some(character) => push_character(bytes, character),
            None => Ok(None),
        },
        (State::Hex, _) => Ok(hex_digit(character).map(State::HexDigit)),
        (State::HexDigit(high), _) => match hex_digit(character) {
            Some(low) => {
                bytes.push((high << 4) | low)?;
                Ok(Some(State::Text))
            }
            None => Ok(None),
        },
        (State::Ended, _) => Ok(None),
    }
}

/// The number that a hexadecimal digit is.
fn hex_digit(character: char) -> Option<u8> {
    u8::try_from(character.to_digit(16)?).ok()
}

/// Adds a character, after which text follows.
fn push_character(bytes: &mut Vec<u8>, character: char) -> Result<Option<State>, AllocError> {
    let mut room = [0; 4];
    bytes.extend_from_slice(character.encode_utf8(&mut room).as_bytes())?;
    Ok(Some(State::Text))
}

/// The character that a backslash and this one are.
fn escaped(character: char) -> Option<char> {
    match character {
        'n' => Some('\n'),
        'r' => Some('\r'),
        't' => Some('\t'),
        '0' => Some('\0'),
        's' => Some(' '),
        '\\' | '-' | '=' => Some(character),
        _ => None,
    }
}

/// A text this often. In each, `{n}` is its number from 0, and `{n+1}` the number of the next one.
pub(crate) fn repeated(alloc: Global, text: &str, times: usize) -> Result<Vec<u8>, AllocError> {
    let mut all = Vec::new(alloc);
    let is_numbered = text.contains("{n");
    for number in 0..times {
        if is_numbered {
            let one = numbered(alloc, text, number)?;
            all.extend_from_slice(one.as_str().as_bytes())?;
        } else {
            all.extend_from_slice(text.as_bytes())?;
        }
    }
    Ok(all)
}

/// A text with a number in the place of `{n}`, and the next number in the place of `{n+1}`.
fn numbered(alloc: Global, text: &str, number: usize) -> Result<String, AllocError> {
    let next = number.saturating_add(1);
    let number = format!(in alloc; "{number}")?;
    let next = format!(in alloc; "{next}")?;
    let with_number = text.replace(alloc, "{n}", number.as_str())?;
    with_number.as_str().replace(alloc, "{n+1}", next.as_str())
}
