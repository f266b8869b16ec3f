//! From the text of a file to its cases as they stand there: blocks, each with sections.

use crate::malformed::{CaseFault, Problem};
use std::alloc::{AllocError, AllocFailed, Global};

/// What a line begins with that is the title of a case, with the line feed before it.
const TITLE_MARK: &str = "\n=== ";

/// What a line begins with that is the header of a section, with the line feed before it.
const HEADER_MARK: &str = "\n--- ";

/// A case, or a section of one, as it is in its file.
#[derive(Clone, Copy)]
pub(crate) struct Block<'a> {
    /// The number of its first line, from 1.
    pub(crate) line: usize,
    /// Its first line, without the mark before it, and the lines after that.
    text: &'a str,
}

impl<'a> Block<'a> {
    /// The first line: the title of a case, or the header of a section.
    pub(crate) fn head(&self) -> &'a str {
        match self.text.split_once('\n') {
            Some((head, _body)) => head,
            None => self.text,
        }
    }

    /// The lines after the first one, without the last line feed. There are none if it is the last.
    pub(crate) fn body(&self) -> Option<&'a str> {
        match self.text.split_once('\n') {
            Some((_head, body)) => Some(body),
            None => None,
        }
    }

    /// What is before the sections of a case: its title and a comment.
    pub(crate) fn comment(&self) -> &'a str {
        match self.text.split_once(HEADER_MARK) {
            Some((comment, _sections)) => comment,
            None => self.text,
        }
    }

    /// The sections of a case. What is between the title and the first of them is a comment.
    pub(crate) fn sections(&self, alloc: Global) -> Result<Vec<Block<'a>>, AllocFailed<Block<'a>>> {
        blocks_after(alloc, self.text, HEADER_MARK, self.line)
    }
}

/// The cases of a file whose text begins with a line feed that the file itself has not. What is before the first of
/// them is a comment.
pub(crate) fn cases_of<'a>(
    alloc: Global,
    text: &'a str,
) -> Result<Vec<Block<'a>>, AllocFailed<Block<'a>>> {
    blocks_after(alloc, text, TITLE_MARK, 0)
}

/// The text of a file with a line feed before it, so that its first line can be a title.
pub(crate) fn marked_text(alloc: Global, text: &str) -> Result<String, AllocError> {
    format!(in alloc; "\n{text}")
}

/// Checks what no case of a marked text is asked for: that no line has a carriage return, which is there as an
/// escape alone, and that nothing before the first title begins as a title or a header does.
///
/// # Errors
///
/// `CaseFault::Malformed` with the first line at fault.
pub(crate) fn check_text(text: &str) -> Result<(), CaseFault> {
    if let Some((before, _rest)) = text.split_once('\r') {
        return Err(CaseFault::Malformed(line_feeds(before), Problem::CarriageReturn));
    }
    match text.split_once(TITLE_MARK) {
        Some((comment, _cases)) => check_comment(comment, 0),
        None => check_comment(text, 0),
    }
}

/// Checks that no line of a comment after the line of this number begins as a title or a header does.
///
/// # Errors
///
/// `CaseFault::Malformed` with the line that does.
pub(crate) fn check_comment(comment: &str, line: usize) -> Result<(), CaseFault> {
    let mut number = line;
    for text in comment.split('\n').skip(1) {
        number = number.saturating_add(1);
        if is_stray(text) {
            return Err(CaseFault::Malformed(number, Problem::StrayMark));
        }
    }
    Ok(())
}

/// Whether a line that is no title and no header begins as one. A help text in a Kconfig may begin so.
pub(crate) fn is_stray(line: &str) -> bool {
    line.starts_with("===") || (line.starts_with("---") && !line.starts_with("---help---"))
}

/// The blocks of a text that begins at this line. Each begins after a mark, and goes on to the next one.
fn blocks_after<'a>(
    alloc: Global,
    text: &'a str,
    mark: &str,
    line: usize,
) -> Result<Vec<Block<'a>>, AllocFailed<Block<'a>>> {
    let mut blocks = Vec::new(alloc);
    let Some((before, rest)) = text.split_once(mark) else {
        return Ok(blocks);
    };
    let mut line = line.saturating_add(line_feeds(before)).saturating_add(1);
    for text in rest.split(mark) {
        blocks.push(Block { line, text })?;
        line = line.saturating_add(line_feeds(text)).saturating_add(1);
    }
    Ok(blocks)
}

/// How many line feeds a text has.
fn line_feeds(text: &str) -> usize {
    text.bytes().filter(|byte| *byte == b'\n').count()
}
