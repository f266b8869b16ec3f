//! The names in the lines of a `.config` that can't be used.

use crate::line_form::has_name_bytes;
use std::alloc::{AllocError, Global};
use std::str;

/// The text of a line without the blanks at its end, if it is UTF-8, the name in it, which is empty where it has none,
/// and the value after the name: none where the line says that the name is not set.
#[derive(Clone, Copy)]
pub struct NamedLine<'c> {
    pub text: Option<&'c str>,
    pub name: &'c str,
    pub value: Option<&'c str>,
}

/// The names and the values in the lines of these numbers, which are in their order.
///
/// # Errors
///
/// `AllocError` where memory is refused.
pub fn named_lines<'c>(
    alloc: Global,
    prefix: &str,
    config: &'c [u8],
    numbers: &[usize],
) -> Result<Vec<NamedLine<'c>>, AllocError> {
    let mut names = Vec::new(alloc);
    let mut left = numbers.iter();
    let mut next = left.next();
    for (index, line) in config.split(|byte| *byte == b'\n').enumerate() {
        let Some(number) = next else {
            break;
        };
        if *number == index.saturating_add(1) {
            names.push(name_in(prefix, line))?;
            next = left.next();
        }
    }
    Ok(names)
}

/// The text, the name and the value in a line.
pub fn name_in<'c>(prefix: &str, line: &'c [u8]) -> NamedLine<'c> {
    let Ok(text) = str::from_utf8(line) else {
        return NamedLine {
            text: None,
            name: "",
            value: None,
        };
    };
    let text = text.trim_end_matches([' ', '\t', '\r']);
    let (name, value) = match unset_name(prefix, text) {
        Some(name) => (name, None),
        None => set_name(prefix, text),
    };
    NamedLine {
        text: Some(text),
        name: if has_name_bytes(name) { name } else { "" },
        value,
    }
}

/// The name that a line says is not set.
fn unset_name<'t>(prefix: &str, text: &'t str) -> Option<&'t str> {
    text.strip_prefix("# ")?
        .strip_prefix(prefix)?
        .strip_suffix(" is not set")
}

/// The name that a line gives a value, and this.
fn set_name<'t>(prefix: &str, text: &'t str) -> (&'t str, Option<&'t str>) {
    let Some(named) = text.strip_prefix(prefix) else {
        return ("", None);
    };
    match named.split_once('=') {
        Some((name, value)) => (name, Some(value)),
        None => ("", None),
    }
}
