//! The faults of Kconfigs, as they are compared.

use crate::header::Kind;
use crate::parts::Part;
use kc_session::OpenFault;
use kc_text::TextFault;
use kc_tree::TreeFault;
use std::alloc::{AllocError, Global};

/// A fault as the program reports it, without the program's name: a loop has a line for each node.
pub(crate) fn fault_text(alloc: Global, fault: &OpenFault) -> Result<String, AllocError> {
    match fault {
        OpenFault::Text(fault) => text_fault_text(alloc, fault),
        OpenFault::Tree(fault) => tree_fault_text(alloc, fault),
        OpenFault::Limit => String::from_str(alloc, "limit\n"),
        OpenFault::NoMemory => String::from_str(alloc, "memory\n"),
    }
}

fn text_fault_text(alloc: Global, fault: &TextFault) -> Result<String, AllocError> {
    match fault {
        TextFault::At(problem, path, line) => {
            let number = problem.number();
            format!(in alloc; "{path}:{line}: K{number:02}\n")
        }
        TextFault::NoMemory => String::from_str(alloc, "memory\n"),
    }
}

fn tree_fault_text(alloc: Global, fault: &TreeFault) -> Result<String, AllocError> {
    let mut out = format!(in alloc; "{fault}\n")?;
    if let TreeFault::Loop(nodes) = fault {
        for node in nodes {
            out.push_str("on ")?;
            out.push_str(node.name.as_str())?;
            out.push('\n')?;
        }
    }
    Ok(out)
}

/// The names of the nodes of a loop, a line each: none where the fault is another one.
pub(crate) fn loop_names(alloc: Global, fault: &OpenFault) -> Result<String, AllocError> {
    let mut names = String::new(alloc);
    if let OpenFault::Tree(TreeFault::Loop(nodes)) = fault {
        for node in nodes {
            names.push_str(node.name.as_str())?;
            names.push('\n')?;
        }
    }
    Ok(names)
}

/// Whether a part wants the fault of this text, or the loop of these names.
pub(crate) fn is_wanted(
    alloc: Global,
    part: &Part<'_>,
    fault: &str,
    names: &str,
) -> Result<bool, AllocError> {
    let want = part.text();
    match part.kind {
        Kind::Fault => Ok(want == fault),
        Kind::Loop => Ok(has_each_line(want, names) && has_each_line(names, want)),
        Kind::LoopInOrder => is_turned(alloc, want, names),
        _ => Ok(false),
    }
}

/// Whether a text has each line of another one.
fn has_each_line(text: &str, lines: &str) -> bool {
    lines
        .lines()
        .all(|line| text.lines().any(|found| found == line))
}

/// Whether lines are those of another text from any of them on, and round to it.
pub(crate) fn is_turned(alloc: Global, lines: &str, text: &str) -> Result<bool, AllocError> {
    // The text twice over has its lines from each of them on.
    let twice = format!(in alloc; "\n{text}{text}")?;
    let wanted = format!(in alloc; "\n{lines}")?;
    Ok(lines.len() == text.len() && twice.as_str().contains(wanted.as_str()))
}
