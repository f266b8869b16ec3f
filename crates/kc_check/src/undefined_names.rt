//! What is said of names in expressions, and after `select` and `imply`, that no line defines.

use crate::said::Said;
use kc_line_facts::{ListedName, NameReading, name_of};
use kc_lines::type_words;
use kc_names::push_meant;
use kc_text::Line;
use kc_tree::Tree;
use std::alloc::{AllocError, Global};

/// What is said of a name that is listed, which one of these lines has.
///
/// # Errors
///
/// `AllocError` where memory is refused.
pub(crate) fn said_of_name(
    alloc: Global,
    tree: &Tree,
    lines: &[Line<'_>],
    listed: &ListedName,
) -> Result<Said, AllocError> {
    let used = listed.doubtful.used;
    let meant = listed.meant.map(|symbol| tree.name(symbol));
    let words = words_of(alloc, name_of(lines, used), used.reading, meant)?;
    let owner = match used.owner {
        Some(symbol) => tree.name(symbol),
        None => "",
    };
    Said::of(alloc, owner, words)
}

/// What is said of a name in a line, by how it is read, and of what it may have been meant as.
fn words_of(
    alloc: Global,
    name: &str,
    reading: NameReading,
    meant: Option<&str>,
) -> Result<String, AllocError> {
    let mut words = match reading {
        NameReading::No => format!(in alloc; "undefined: {name} (always n)")?,
        NameReading::Text | NameReading::Default => {
            format!(in alloc; "undefined: {name} (a text)")?
        }
        NameReading::Select => format!(in alloc; "undefined: select {name} has no effect")?,
        NameReading::Imply => format!(in alloc; "undefined: imply {name} has no effect")?,
        NameReading::Condition(kind) => {
            let kind = type_words(kind);
            format!(in alloc; "{name} is {kind}, which is always n as a condition")?
        }
    };
    push_meant(&mut words, meant)?;
    Ok(words)
}
