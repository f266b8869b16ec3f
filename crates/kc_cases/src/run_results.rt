//! What a run of the program gives, and how it differs from what is wanted.

use crate::fault_text::is_turned;
use crate::outcome::Difference;
use std::alloc::{AllocError, Global};

/// What the report of a loop begins with. It may begin with each node of the loop.
const LOOP: &str = "kconf: K19";

/// What a line begins with that names a node of a loop.
const NODE: &str = "kconf: on ";

/// What a line begins with that explains a node of a loop.
const STEP: &str = "  ";

/// What a run of the program gives.
#[derive(Drop)]
pub(crate) struct Results {
    pub(crate) output: String,
    pub(crate) errors: String,
    pub(crate) status: u8,
}

/// The difference of what a run gives from what the part of this line wants.
pub(crate) fn difference_of(
    alloc: Global,
    line: usize,
    wanted: &Results,
    found: &Results,
) -> Result<Option<Difference>, AllocError> {
    let is_same = wanted.output.as_str() == found.output.as_str()
        && wanted.status == found.status
        && are_same_errors(alloc, wanted.errors.as_str(), found.errors.as_str())?;
    if is_same {
        return Ok(None);
    }
    Ok(Some(Difference {
        line,
        wanted: shown(alloc, wanted)?,
        found: shown(alloc, found)?,
    }))
}

/// What a run gives, as it is reported: as the sections of a case.
fn shown(alloc: Global, results: &Results) -> Result<String, AllocError> {
    let Results {
        output,
        errors,
        status,
    } = results;
    format!(in alloc; "{output}--- errors\n{errors}--- status {status}\n")
}

/// Whether errors are those that are wanted, or report the same loop from another node on.
fn are_same_errors(alloc: Global, wanted: &str, found: &str) -> Result<bool, AllocError> {
    if wanted == found {
        return Ok(true);
    }
    let is_loop = wanted.starts_with(LOOP) && wanted.lines().next() == found.lines().next();
    Ok(
        is_loop
            && wanted.len() == found.len()
            && are_turned(alloc, wanted, found, NODE)?
            && are_turned(alloc, wanted, found, STEP)?,
    )
}

/// Whether the lines of a text that begin so are those of another text, from any of them on and round to it.
fn are_turned(
    alloc: Global,
    wanted: &str,
    found: &str,
    beginning: &str,
) -> Result<bool, AllocError> {
    let wanted = lines_with(alloc, wanted, beginning)?;
    let found = lines_with(alloc, found, beginning)?;
    is_turned(alloc, wanted.as_str(), found.as_str())
}

/// The lines of a text that begin so.
fn lines_with(alloc: Global, text: &str, beginning: &str) -> Result<String, AllocError> {
    let mut lines = String::new(alloc);
    for line in text.lines().filter(|line| line.starts_with(beginning)) {
        lines.push_str(line)?;
        lines.push('\n')?;
    }
    Ok(lines)
}
