//! Help texts that are empty, since their first line is not indented.

use crate::messages::TextMessage;
use crate::piece::{texts, words_of};
use kc_text::{FileItem, leading_item};
use std::alloc::{AllocError, Global};

/// The number of the `help` line without a text before the line of a number, where nothing but blank lines and comments
/// is between the two. The line may be meant as the first of that text.
pub(crate) fn empty_help_before(
    alloc: Global,
    text: &str,
    number: usize,
) -> Result<Option<usize>, AllocError> {
    let mut rest = text;
    let mut line = 1usize;
    let mut help = None;
    while let Some((item, after)) = leading_item(alloc, rest)? {
        if line >= number {
            return Ok(help);
        }
        help = help_with(alloc, help, line, &item)?;
        line = line.saturating_add(item.more()).saturating_add(1);
        rest = after;
    }
    Ok(None)
}

/// The number of the `help` line without a text after one more item, which begins in a line of this number.
fn help_with(
    alloc: Global,
    help: Option<usize>,
    line: usize,
    item: &FileItem<'_>,
) -> Result<Option<usize>, AllocError> {
    if let Some(text) = item.help() {
        let text = text.to_text(alloc)?;
        return Ok(text.as_str().is_empty().then_some(line));
    }
    let text = item.text().trim();
    if text.is_empty() || text.starts_with('#') {
        Ok(help)
    } else {
        Ok(None)
    }
}

/// Adds that the line of a number may be meant as text of an empty `help` before it, if there is one.
pub(crate) fn push_of_help(
    alloc: Global,
    words: &mut String,
    text: &str,
    number: usize,
) -> Result<(), AllocError> {
    let Some(help) = empty_help_before(alloc, text, number)? else {
        return Ok(());
    };
    let added = words_of(alloc, TextMessage::OfHelp.row(), &texts!(line: help))?;
    words.push_str(added.as_str())
}
