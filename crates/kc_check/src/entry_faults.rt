//! The errors of lines that an unknown word before them explains.

use kc_outline::LineProblem;
use kc_statement::read_keyword;
use kc_text::{Line, LineKind};
use kc_tree::TreeFault;
use std::alloc::{AllocError, Global};

/// How far the lines were read, and whether the entry there begins with an unknown word.
#[derive(Clone, Copy)]
struct Entry {
    /// The index of the next line.
    next: usize,
    is_unknown: bool,
}

impl Entry {
    /// Reads lines up to that of a path and a number.
    fn come_to(&mut self, lines: &[Line<'_>], path: &str, number: usize) {
        let left = lines.get(self.next..).unwrap_or(&[]);
        for line in left {
            self.next = self.next.saturating_add(1);
            self.is_unknown = self.is_unknown && !ends_entry(line);
            if line.number() == number && line.path() == path {
                return;
            }
        }
    }
}

/// Whether a line ends the entry before it, by its first word.
fn ends_entry(line: &Line<'_>) -> bool {
    match read_keyword(line) {
        Some(word) => !word.is_attribute(),
        None => line.kind() == LineKind::EndOfFile,
    }
}

/// The faults of lines, in their order, without those of attributes that have no statement since an unknown word is before
/// them in their entry: the attributes are right where the word is mended.
///
/// # Errors
///
/// `AllocError` where memory is refused.
pub fn without_strays(
    alloc: Global,
    lines: &[Line<'_>],
    faults: Vec<TreeFault>,
) -> Result<Vec<TreeFault>, AllocError> {
    let mut left = Vec::with_capacity(alloc, faults.len())?;
    let mut entry = Entry {
        next: 0,
        is_unknown: false,
    };
    for fault in faults {
        if !is_stray(lines, &mut entry, &fault) {
            left.push(fault)?;
        }
    }
    Ok(left)
}

/// Whether a fault, to whose line the entry comes, is that of an attribute after an unknown word.
fn is_stray(lines: &[Line<'_>], entry: &mut Entry, fault: &TreeFault) -> bool {
    let TreeFault::Line {
        problem,
        path,
        line,
    } = fault
    else {
        return false;
    };
    entry.come_to(lines, path.as_str(), *line);
    if *problem == LineProblem::UnknownStatement {
        entry.is_unknown = true;
    }
    entry.is_unknown && *problem == LineProblem::StrayAttribute
}
