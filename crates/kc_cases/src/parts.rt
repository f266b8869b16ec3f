//! The parts of a case: its sections, with the texts that they are.

use crate::blocks::{Block, check_comment};
use crate::escapes::{bytes_of_lines, repeated};
use crate::header::{Header, Kind};
use crate::malformed::{CaseFault, Problem};
use std::alloc::{AllocError, Global};
use std::str::from_utf8;

/// A part of a case.
#[derive(Drop)]
pub(crate) struct Part<'a> {
    /// The line of its header.
    pub(crate) line: usize,
    pub(crate) kind: Kind<'a>,
    /// Whether its header says that it has escapes.
    pub(crate) is_escaped: bool,
    /// Its text, which is UTF-8 but in a file, in commands and in an input.
    pub(crate) bytes: Vec<u8>,
}

impl Part<'_> {
    /// The text of a part whose bytes are UTF-8, else none.
    pub(crate) fn text(&self) -> &str {
        from_utf8(self.bytes.as_slice()).unwrap_or("")
    }
}

/// The parts of a case as it is in its file.
///
/// # Errors
///
/// `CaseFault::Malformed` with the first line at fault.
pub(crate) fn parts_of<'a>(alloc: Global, case: &Block<'a>) -> Result<Vec<Part<'a>>, CaseFault> {
    if case.head().is_empty() {
        return Err(CaseFault::Malformed(case.line, Problem::NoTitle));
    }
    check_comment(case.comment(), case.line)?;
    let sections = case.sections(alloc)?;
    if sections.is_empty() {
        return Err(CaseFault::Malformed(case.line, Problem::NoSections));
    }
    let mut parts = Vec::new(alloc);
    for section in sections.iter() {
        parts.push(part_of(alloc, section)?)?;
    }
    Ok(parts)
}

fn part_of<'a>(alloc: Global, section: &Block<'a>) -> Result<Part<'a>, CaseFault> {
    let Some(header) = Header::parse(section.head()) else {
        return Err(CaseFault::Malformed(section.line, Problem::UnknownHeader));
    };
    let once = match lines_of(&header, section.body()) {
        Some(lines) => {
            let first = section.line.saturating_add(1);
            bytes_of_lines(alloc, lines, first, header.is_escaped)?
        }
        None => Vec::new(alloc),
    };
    if has_to_be_text(&header) && from_utf8(once.as_slice()).is_err() {
        return Err(CaseFault::Malformed(section.line, Problem::NoText));
    }
    let bytes = match header.times {
        Some(times) => repeated(alloc, from_utf8(once.as_slice()).unwrap_or(""), times)?,
        None => once,
    };
    Ok(Part {
        line: section.line,
        kind: header.kind,
        is_escaped: header.is_escaped,
        bytes,
    })
}

/// Whether the bytes of a section have to be UTF-8. Those that are repeated have to be, too.
fn has_to_be_text(header: &Header<'_>) -> bool {
    match header.kind {
        Kind::File(_) | Kind::Commands | Kind::Input => header.times.is_some(),
        _ => true,
    }
}

/// The lines of a section. Empty lines at the end are no part of what is wanted.
fn lines_of<'a>(header: &Header<'_>, body: Option<&'a str>) -> Option<&'a str> {
    match header.kind {
        Kind::File(_) | Kind::Variables | Kind::Commands | Kind::Input => body,
        _ => without_empty_lines(body?),
    }
}

/// Lines without the empty ones at their end.
fn without_empty_lines(lines: &str) -> Option<&str> {
    let lines = lines.trim_end_matches('\n');
    if lines.is_empty() { None } else { Some(lines) }
}

/// The bytes of the file of a path: those of all parts that have lines of it, one after the other. There are none where
/// no part has any.
pub(crate) fn file_bytes(
    alloc: Global,
    parts: &[Part<'_>],
    path: &str,
) -> Result<Option<Vec<u8>>, AllocError> {
    let mut bytes = Vec::new(alloc);
    let mut is_there = false;
    for part in parts {
        if let Kind::File(found) = part.kind
            && found == path
        {
            bytes.extend_from_slice(part.bytes.as_slice())?;
            is_there = true;
        }
    }
    Ok(if is_there { Some(bytes) } else { None })
}

/// Whether a file of a case is in the directory of a path.
pub(crate) fn has_directory(parts: &[Part<'_>], path: &str) -> bool {
    let directory = path.trim_end_matches('/');
    directory == "."
        || parts.iter().any(|part| match part.kind {
            Kind::File(found) => is_in(found, directory),
            _ => false,
        })
}

/// Whether the file of a path is in a directory, or in one below it.
fn is_in(path: &str, directory: &str) -> bool {
    match path.strip_prefix(directory) {
        Some(rest) => rest.starts_with('/'),
        None => false,
    }
}

/// The pairs of a name and a text that the variables of a case are.
pub(crate) fn variables_of<'a>(
    alloc: Global,
    parts: &'a [Part<'_>],
) -> Result<Vec<(&'a str, &'a str)>, CaseFault> {
    let mut pairs = Vec::new(alloc);
    for part in parts {
        if let Kind::Variables = part.kind {
            push_variables(&mut pairs, part)?;
        }
    }
    Ok(pairs)
}

/// Adds the pairs of the lines of a part.
fn push_variables<'a>(
    pairs: &mut Vec<(&'a str, &'a str)>,
    part: &'a Part<'_>,
) -> Result<(), CaseFault> {
    for line in part.text().split_terminator('\n') {
        let Some((name, value)) = line.split_once('=') else {
            return Err(CaseFault::Malformed(part.line, Problem::NoVariable));
        };
        pairs.push((name, value))?;
    }
    Ok(())
}
