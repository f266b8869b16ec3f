//! The variables that the lines of a file give, for `--variables`.

use crate::messages::Fault;
use crate::opening::text_of;
use kc_command_line::{lines_before_malformed, variables_in};
use kc_folder::Folder;
use kc_text::Text;
use std::alloc::{AllocError, Global};

/// The most bytes of a file of variables.
const MAX_BYTES: usize = 16_777_216;

/// Why a file gives no variables.
#[derive(Drop)]
pub(crate) enum VariablesFileFault {
    /// It is not read.
    Unread(Fault),
    /// This line, counted from 1, is malformed.
    Malformed(usize),
}

/// The text of a file of variables, whose lines are blank, comments or `NAME=VALUE`. It is empty without a path.
///
/// # Errors
///
/// `Unread` with `CannotRead` or `NotUtf8` where there is no text at the path, with `Limit` where it has more than
/// 16,777,216 bytes, and with `NoMemory` where memory is refused. `Malformed` with the first line that is none of these.
pub(crate) fn read_variables<F: Folder>(
    alloc: Global,
    folder: &F,
    path: Option<&str>,
) -> Result<String, VariablesFileFault> {
    let Some(path) = path else {
        return Ok(String::new(alloc));
    };
    let text = match read_text(alloc, folder, path) {
        Ok(text) => text,
        Err(fault) => return Err(VariablesFileFault::Unread(fault)),
    };
    match lines_before_malformed(text.as_str()) {
        None => Ok(text),
        Some(before) => Err(VariablesFileFault::Malformed(before.saturating_add(1))),
    }
}

fn read_text<F: Folder>(alloc: Global, folder: &F, path: &str) -> Result<String, Fault> {
    let text = text_of(alloc, path, folder.read_bytes(alloc, path))?;
    if text.len() > MAX_BYTES {
        return Err(Fault::Limit(Text::copy_of(alloc, path)?));
    }
    Ok(text)
}

/// The variables of the lines of a text, and after them those of the words of a command line.
pub(crate) fn with_words<'a>(
    alloc: Global,
    text: &'a str,
    words: &[(&'a str, &'a str)],
) -> Result<Vec<(&'a str, &'a str)>, AllocError> {
    let mut variables = variables_in(alloc, text)?;
    variables.extend_from_slice(words)?;
    Ok(variables)
}
