//! Defaults that are never used, since one before them always counts.

use crate::said::Said;
use crate::said_lines::SaidLines;
use kc_facts::push_expr;
use kc_line_facts::{UnusedDefault, token_word};
use kc_lines::{LineIndex, push_place, shown_line};
use kc_statement::DefaultValue;
use kc_text::Line;
use kc_tree::Tree;
use std::alloc::{AllocError, Global};

/// That a default is never used, which a line has. The line of the one before it is one of those that say defaults.
///
/// # Errors
///
/// `AllocError` where memory is refused.
pub(crate) fn said_of_unused(
    alloc: Global,
    tree: &Tree,
    index: &LineIndex<'_, '_>,
    line: &Line<'_>,
    unused: &UnusedDefault,
    defaults: &mut SaidLines,
) -> Result<Said, AllocError> {
    let Some(definition) = tree.definitions().get(unused.definition) else {
        return Said::nothing(alloc);
    };
    let Some(default) = definition.defaults().get(unused.place) else {
        return Said::nothing(alloc);
    };
    let earlier = unused.before;
    let Some(before) = defaults.line(alloc, index, earlier.definition, earlier.place)? else {
        return Said::nothing(alloc);
    };
    let words = unused_words(alloc, tree, line, default, before)?;
    Said::of(alloc, tree.name(definition.symbol()), words)
}

/// That the default of a choice has no effect, which a line has, since the choice is never visible (docs/VALUES.md,
/// "Mode and selection").
///
/// # Errors
///
/// `AllocError` where memory is refused.
pub(crate) fn said_of_hidden(alloc: Global, line: &Line<'_>) -> Result<Said, AllocError> {
    let member = line.tokens().get(1).and_then(|token| token_word(token));
    let name = member.unwrap_or("");
    let words = format!(in alloc; "default {name} is never used: its choice is never visible")?;
    Said::of(alloc, "", words)
}

/// What is said of a default, which a line has, after one of another line without a condition.
fn unused_words(
    alloc: Global,
    tree: &Tree,
    line: &Line<'_>,
    default: &DefaultValue,
    before: &Line<'_>,
) -> Result<String, AllocError> {
    let mut value = String::new(alloc);
    push_expr(&mut value, tree, &default.value)?;
    let shown = shown_line(value.as_str());
    let mut words = format!(in alloc; "default {shown} is never used: the one of ")?;
    if before.path() == line.path() {
        let number = before.number();
        write!(words, "line {number}")?;
    } else {
        push_place(&mut words, before)?;
    }
    words.push_str(" has no condition")?;
    Ok(words)
}
