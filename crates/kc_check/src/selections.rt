//! Selects that have no effect.

use crate::said::Said;
use kc_line_facts::token_word;
use kc_lines::push_place;
use kc_statement::{Keyword, read_keyword};
use kc_text::Line;
use kc_tree::Tree;
use std::alloc::{AllocError, Global};

/// That a `select` or an `imply` of the definition of a number, which a line has, names a member of a choice, which passes it
/// over (docs/VALUES.md).
///
/// # Errors
///
/// `AllocError` where memory is refused.
pub(crate) fn said_of_member(
    alloc: Global,
    tree: &Tree,
    line: &Line<'_>,
    definition: usize,
) -> Result<Said, AllocError> {
    let verb = match read_keyword(line) {
        Some(Keyword::Select) => "select",
        _ => "imply",
    };
    let name = line
        .tokens()
        .get(1)
        .and_then(|token| token_word(token))
        .unwrap_or("");
    let words = format!(in alloc; "{verb} {name} has no effect: {name} is a member of a choice")?;
    Said::of(alloc, name_at(tree, definition), words)
}

/// The name of the symbol that the definition of a number defines.
pub(crate) fn name_at(tree: &Tree, definition: usize) -> &str {
    match tree.definitions().get(definition) {
        Some(definition) => tree.name(definition.symbol()),
        None => "",
    }
}

/// Adds the place of a line, if there is one: ` (PATH:LINE)`.
pub(crate) fn push_bracketed(
    words: &mut String,
    line: Option<&Line<'_>>,
) -> Result<(), AllocError> {
    if let Some(line) = line {
        words.push_str(" (")?;
        push_place(words, line)?;
        words.push(')')?;
    }
    Ok(())
}
