//! What is said of a variable that its own expansion needs (K11).

use crate::items::{Definitions, Found};
use crate::messages::TextMessage;
use crate::piece::{texts, words_of};
use crate::texts::TextLine;
use kc_lines::Explanation;
use kc_text::value_references_in;
use std::alloc::{AllocError, Global};

/// The most variables that are followed from one line.
const MOST_FOLLOWED: usize = 4_096;

/// A variable that is followed, with the references in its text that are left to follow, the next one last.
#[derive(Drop)]
struct Step<'t> {
    name: &'t str,
    left: Vec<&'t str>,
}

/// What is said of a variable in a line that its own expansion needs, by the definitions before that in the same file:
/// the variable, and the lines by which it comes to itself.
pub(crate) fn explain_ring(
    line: &TextLine<'_>,
    found: &Found<'_>,
) -> Result<Explanation, AllocError> {
    let alloc = line.alloc;
    let names = found.names(alloc)?;
    for name in names.as_slice() {
        let ring = ring_of(alloc, &found.definitions, name)?;
        if let [first, ..] = ring.as_slice() {
            let words = words_of(alloc, TextMessage::NeedsItself.row(), &texts!(name: first))?;
            return name_ring(line, words, &found.definitions, ring.as_slice());
        }
    }
    line.plain(11)
}

/// Words, the lines that define a ring of variables, and the line that uses it.
fn name_ring(
    line: &TextLine<'_>,
    words: String,
    definitions: &Definitions,
    ring: &[&str],
) -> Result<Explanation, AllocError> {
    let mut explanation = Explanation::new(line.alloc, words);
    for name in ring {
        if let Some((number, _)) = definitions.get(*name) {
            explanation.name_line(line.alloc, "", line.path, *number)?;
        }
    }
    explanation.name_line(line.alloc, "", line.path, line.number)?;
    Ok(explanation)
}

/// The variables from a variable on that lead back to the first of them, each of which the text of the one before refers
/// to. They are found as the expansion of the variable finds them; there are none where it does not, or after 4,096 steps.
fn ring_of<'t>(
    alloc: Global,
    definitions: &'t Definitions,
    name: &'t str,
) -> Result<Vec<&'t str>, AllocError> {
    let mut path = Vec::new(alloc);
    path.push(step_of(alloc, definitions, name)?)?;
    for _ in 0..MOST_FOLLOWED {
        let Some(name) = next_reference(&mut path) else {
            let _ = path.pop();
            continue;
        };
        let ring = names_from(alloc, path.as_slice(), name)?;
        if !ring.is_empty() {
            return Ok(ring);
        }
        path.push(step_of(alloc, definitions, name)?)?;
    }
    Ok(Vec::new(alloc))
}

/// A variable whose references are not followed yet.
fn step_of<'t>(
    alloc: Global,
    definitions: &'t Definitions,
    name: &'t str,
) -> Result<Step<'t>, AllocError> {
    let mut left = match definitions.get(name) {
        Some((_, value)) => value_references_in(alloc, value.as_str())?,
        None => Vec::new(alloc),
    };
    left.reverse();
    Ok(Step { name, left })
}

/// The next reference of the last variable of a path.
fn next_reference<'t>(path: &mut Vec<Step<'t>>) -> Option<&'t str> {
    path.last_mut()?.left.pop()
}

/// The names of a path from the variable of a name on, which are none where it is not on the path.
fn names_from<'t>(
    alloc: Global,
    path: &[Step<'t>],
    name: &str,
) -> Result<Vec<&'t str>, AllocError> {
    let mut names = Vec::new(alloc);
    for step in path.iter().skip_while(|step| step.name != name) {
        names.push(step.name)?;
    }
    Ok(names)
}
