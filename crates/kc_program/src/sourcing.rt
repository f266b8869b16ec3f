//! What is said of files that are wanted and can't be read, and of a file that sources itself.

use crate::files::Files;
use crate::opening::Kconfig;
use crate::wants::source_lines_to;
use kc_explain::{Explanation, line_of};
use kc_folder::{Folder, FolderFault, Known, path_of_source};
use kc_text::references_in;
use std::alloc::{AllocError, Global};
use std::str::from_utf8;

/// What is said of a wanted file that can't be read: why, each variable in the `source` line that has no text, and that
/// line.
///
/// # Errors
///
/// `AllocError` where memory is refused.
pub fn explain_unread<F: Folder>(
    alloc: Global,
    files: &Files<'_>,
    kconfig: &Kconfig<'_, F>,
    path: &str,
) -> Result<Explanation, AllocError> {
    let mut words = why_unread(alloc, kconfig.folder, path, "")?;
    if path != kconfig.top {
        push_pattern(&mut words, path)?;
    }
    with_source(alloc, files, kconfig, path, words)
}

/// Why the file of a path can't be read, with advice, unless there is no directory to read it from.
///
/// # Errors
///
/// `AllocError` where memory is refused.
pub fn why_unread<F: Folder>(
    alloc: Global,
    folder: &F,
    path: &str,
    advice: &str,
) -> Result<String, AllocError> {
    if let Some(base) = folder.missing_base(path) {
        return format!(in alloc; "no such directory: {base} (-C)");
    }
    let mut words = folder.why_unread(alloc, path)?;
    words.push_str(advice)?;
    Ok(words)
}

/// Adds, of a path in a `source` line that looks like a pattern, that it is none.
fn push_pattern(words: &mut String, path: &str) -> Result<(), AllocError> {
    match path
        .chars()
        .find(|character| matches!(*character, '*' | '?'))
    {
        Some(sign) => write!(
            words,
            ", and `{sign}` is a character of the path: `source` reads one file, and no pattern"
        ),
        None => Ok(()),
    }
}

/// What is said of a wanted file that is not UTF-8.
///
/// # Errors
///
/// `AllocError` where memory is refused.
pub fn explain_untrue<F: Folder>(
    alloc: Global,
    files: &Files<'_>,
    kconfig: &Kconfig<'_, F>,
    path: &str,
) -> Result<Explanation, AllocError> {
    let words = words_of_bytes(alloc, kconfig.folder, path)?;
    with_source(alloc, files, kconfig, path, words)
}

/// What is said of the bytes of a file that is not UTF-8.
///
/// # Errors
///
/// `AllocError` where memory is refused.
pub fn words_of_bytes<F: Folder>(
    alloc: Global,
    folder: &F,
    path: &str,
) -> Result<String, AllocError> {
    match line_that_is_not_utf8(alloc, folder, path)? {
        Some(number) => format!(in alloc; "in line {number}"),
        None => String::from_str(alloc, "a byte of it begins no character"),
    }
}

/// The number of the first line of a file that is not UTF-8, if the file can be read again and has one.
fn line_that_is_not_utf8<F: Folder>(
    alloc: Global,
    folder: &F,
    path: &str,
) -> Result<Option<usize>, AllocError> {
    let bytes = match folder.read_plain(alloc, path) {
        Ok(bytes) => bytes,
        Err(FolderFault::CannotRead) => return Ok(None),
        Err(FolderFault::NoMemory) => return Err(AllocError),
    };
    let Err(fault) = from_utf8(bytes.as_slice()) else {
        return Ok(None);
    };
    let before = bytes.iter().take(fault.valid_up_to());
    let ends = before.filter(|byte| **byte == b'\n').count();
    Ok(Some(ends.saturating_add(1)))
}

/// Words, and the `source` line that wants the file of a path, with the variables in it that have no text.
fn with_source<F: Folder>(
    alloc: Global,
    files: &Files<'_>,
    kconfig: &Kconfig<'_, F>,
    path: &str,
    words: String,
) -> Result<Explanation, AllocError> {
    let mut explanation = Explanation::new(alloc, words);
    let Some(source) = files.unread_by(path) else {
        return Ok(explanation);
    };
    let text = text_of_line(files, source.path.as_str(), source.line);
    let unknown = unknown_variables(alloc, files, kconfig, text)?;
    push_unknown(&mut explanation.words, unknown.as_slice())?;
    explanation.name_line(alloc, "", source.path.as_str(), source.line)?;
    Ok(explanation)
}

/// What is said of a `source` line in a file that puts a file within itself: which file, or the variables in the line that
/// have no text, and the `source` lines from the top file on.
///
/// # Errors
///
/// `AllocError` where memory is refused.
pub fn explain_recursion<F: Folder>(
    alloc: Global,
    files: &Files<'_>,
    kconfig: &Kconfig<'_, F>,
    path: &str,
    line: usize,
) -> Result<Explanation, AllocError> {
    let text = text_of_line(files, path, line);
    let words = recursion_words(alloc, files, kconfig, text)?;
    let mut explanation = Explanation::new(alloc, words);
    for source in source_lines_to(alloc, files, kconfig, path)?.as_slice() {
        explanation.name_line(alloc, "", source.path.as_str(), source.line)?;
    }
    explanation.name_line(alloc, "", path, line)?;
    Ok(explanation)
}

/// What is said of a `source` line that puts a file within itself.
fn recursion_words<F: Folder>(
    alloc: Global,
    files: &Files<'_>,
    kconfig: &Kconfig<'_, F>,
    line: &str,
) -> Result<String, AllocError> {
    let unknown = unknown_variables(alloc, files, kconfig, line)?;
    if unknown.is_empty() {
        if let Some(path) = path_in(alloc, files, kconfig, line)? {
            return format!(in alloc; "the file {path} is being read already");
        }
    }
    let mut words = String::from_str(alloc, "a file that sources itself")?;
    push_unknown(&mut words, unknown.as_slice())?;
    Ok(words)
}

/// The path that a `source` line of the plain form names.
fn path_in<F>(
    alloc: Global,
    files: &Files<'_>,
    kconfig: &Kconfig<'_, F>,
    line: &str,
) -> Result<Option<String>, AllocError> {
    let Some(path) = path_of_source(line) else {
        return Ok(None);
    };
    let mut known = Known::new(alloc, files.seed(), kconfig.variables)?;
    for (_, text) in files.texts().iter() {
        known.note_definitions(text)?;
    }
    known.expand(path)
}

/// The line of a number in the file of a path, which is empty where it was not read.
fn text_of_line<'a>(files: &Files<'a>, path: &str, number: usize) -> &'a str {
    line_of(files.text(path).unwrap_or(""), number)
}

/// The variables that a line refers to and that neither the command line nor a line of a file gives a text.
fn unknown_variables<'t, F: Folder>(
    alloc: Global,
    files: &Files<'_>,
    kconfig: &Kconfig<'_, F>,
    line: &'t str,
) -> Result<Vec<&'t str>, AllocError> {
    let mut known = files.defined_names()?;
    for (name, _) in kconfig.variables {
        known.insert(String::from_str(alloc, name)?)?;
    }
    let mut unknown = references_in(alloc, line)?;
    unknown.retain(|name| !known.contains(*name));
    Ok(unknown)
}

/// Adds which variables have no text, and how to give them one.
fn push_unknown(words: &mut String, unknown: &[&str]) -> Result<(), AllocError> {
    let Some((first, others)) = unknown.split_first() else {
        return Ok(());
    };
    write!(words, ", and {first}")?;
    for name in others {
        write!(words, ", {name}")?;
    }
    words.push_str(if others.is_empty() {
        " is not given: pass"
    } else {
        " are not given: pass"
    })?;
    push_values(words, unknown)
}

/// Adds the words of a command line that give variables a text.
fn push_values(words: &mut String, names: &[&str]) -> Result<(), AllocError> {
    for name in names {
        write!(words, " {name}=VALUE")?;
    }
    Ok(())
}
