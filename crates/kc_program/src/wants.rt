//! Which `source` lines want a file.

use crate::files::Files;
use crate::opening::Kconfig;
use bumpalo::Bump;
use kc_text::{
    Library, LinesFault, NoFolder, ReadFiles, Text, TextFault, TextProblem, Texts, lines_from,
};
use std::alloc::{AllocError, Global};

/// The most files that are open at once (docs/SECURITY.md).
const MOST_OPEN: usize = 64;

/// A `source` line that wants a file, by the path of its file and its number.
#[derive(Drop)]
pub struct SourceLine {
    pub path: Text,
    pub line: usize,
}

/// The `source` lines that lead from the top file to a file, from the top file on: those by which the file is first
/// wanted. They end before the top file, or where they can't be found again.
///
/// # Errors
///
/// `AllocError` where memory is refused.
pub fn source_lines_to<F>(
    alloc: Global,
    files: &Files<'_>,
    kconfig: &Kconfig<'_, F>,
    path: &str,
) -> Result<Vec<SourceLine>, AllocError> {
    let mut lines = Vec::new(alloc);
    let mut wanted = String::from_str(alloc, path)?;
    for _ in 0..MOST_OPEN {
        if wanted.as_str() == kconfig.top {
            break;
        }
        let Some(line) = source_line_of(alloc, files, kconfig, wanted.as_str())? else {
            break;
        };
        wanted = String::from_str(alloc, line.path.as_str())?;
        lines.push(line)?;
    }
    lines.reverse();
    Ok(lines)
}

/// The first `source` line that wants the file of a path, which is that at which the lines stop without this file. The
/// top file has none.
fn source_line_of<F>(
    alloc: Global,
    files: &Files<'_>,
    kconfig: &Kconfig<'_, F>,
    path: &str,
) -> Result<Option<SourceLine>, AllocError> {
    let arena = Bump::new(alloc);
    let mut texts = Texts::Read(Library {
        files: files_without(alloc, &arena, files.texts(), path)?,
        folder: NoFolder,
    });
    match lines_from(alloc, &arena, &mut texts, kconfig.vars, kconfig.top) {
        Ok(_lines) => Ok(None),
        Err(fault) => wanted_at(first_fault(fault), path),
    }
}

/// The fault that the lines have where no other file can be read.
fn first_fault(fault: LinesFault<()>) -> TextFault {
    match fault {
        LinesFault::Text(fault) => fault,
        LinesFault::Stopped(_why, missing) => missing,
    }
}

/// Files but that of a path, with their texts lent.
fn files_without<'a>(
    alloc: Global,
    arena: &'a Bump,
    files: &'a ReadFiles<'_>,
    path: &str,
) -> Result<ReadFiles<'a>, AllocError> {
    let mut others = ReadFiles::new(alloc, arena);
    for (other, text) in files.iter() {
        if *other == path || others.file(other).is_some() {
            continue;
        }
        if others.add(other, text).is_err() {
            return Err(AllocError);
        }
    }
    Ok(others)
}

/// The line that wants a file, where a fault is that the file of a path is missing.
fn wanted_at(fault: TextFault, path: &str) -> Result<Option<SourceLine>, AllocError> {
    let TextFault::At(problem, file, line) = fault else {
        return Err(AllocError);
    };
    match problem {
        TextProblem::MissingSource(missing) => {
            let is_wanted = line > 0 && missing.as_str() == path;
            Ok(is_wanted.then_some(SourceLine { path: file, line }))
        }
        _ => Ok(None),
    }
}
