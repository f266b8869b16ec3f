//! The factors of conditions as lines of text.

use kc_facts::{
    LinedFactor, View, is_unchosen, push_choice, push_expr, push_low_values, push_valued_factor,
};
use kc_lines::{is_if, push_place, shown_line};
use kc_tree::{Tree, Tri};
use kc_value::{Factor, FactorPart, Origin};
use std::alloc::{AllocError, Global};

/// How far the values of a factor are from the beginning of its line, where there is room.
const VALUES_AT: usize = 68;

/// The word before the expression of a factor.
fn factor_word(tree: &Tree, origin: Origin) -> &'static str {
    match origin {
        Origin::Own(_) => "depends on ",
        Origin::Condition => "if ",
        Origin::Block(block, _) => {
            if is_if(tree, block) {
                "if "
            } else {
                "depends on "
            }
        }
        Origin::Visible(_, _) => "visible if ",
        Origin::Mode | Origin::Missing => "",
    }
}

/// Adds what the line of a factor says: `depends on A`, `if A`, `visible if A`, or the choice whose mode it is.
fn push_factor_words(
    text: &mut String,
    tree: &Tree,
    factor: &Factor<'_>,
) -> Result<(), AllocError> {
    text.push_str(factor_word(tree, factor.origin))?;
    match factor.part {
        FactorPart::Expression(expr) => push_expr(text, tree, expr),
        FactorPart::Mode(choice) => push_choice(text, tree, choice),
        FactorPart::Missing => Ok(()),
    }
}

/// Adds a factor of a definition or of its prompt, with its line: its value, its place, what it says, and where it is not y
/// the values of its symbols.
///
/// # Errors
///
/// `AllocError` where memory is refused.
pub(crate) fn push_factor(
    alloc: Global,
    text: &mut String,
    view: &View<'_>,
    row: &LinedFactor<'_, '_, '_>,
) -> Result<(), AllocError> {
    let factor = &row.factor;
    let mut line = String::new(alloc);
    if let Some(place) = row.line {
        push_place(&mut line, place)?;
        line.push_str(": ")?;
    }
    let mut words = String::new(alloc);
    push_factor_words(&mut words, view.tree(), factor)?;
    let shown = shown_line(words.as_str());
    line.push_str(shown)?;
    line.push_str(if shown.len() < words.len() {
        " ..."
    } else {
        ""
    })?;
    text.push_str("    ")?;
    text.push_str(factor.value.letter())?;
    text.push(' ')?;
    text.push_str(line.as_str())?;
    if factor.value != Tri::Yes {
        push_factor_values(alloc, text, view, factor, line.as_str())?;
    }
    text.push('\n')
}

/// Adds what makes a factor less than y: the values of its symbols; of the mode of a choice that no member is chosen, or
/// nothing, as what else makes it n has lines of its own.
fn push_deciding(
    text: &mut String,
    view: &View<'_>,
    factor: &Factor<'_>,
) -> Result<(), AllocError> {
    match factor.part {
        FactorPart::Mode(choice) if is_unchosen(view, choice) => {
            text.push_str("no member is chosen")
        }
        FactorPart::Mode(_) => Ok(()),
        FactorPart::Expression(_) | FactorPart::Missing => {
            push_valued_factor(text, view, factor, true)
        }
    }
}

/// Adds what makes a factor less than y after its line, if there is anything; where that is long, the values in the
/// parts that are less than y alone.
fn push_factor_values(
    alloc: Global,
    text: &mut String,
    view: &View<'_>,
    factor: &Factor<'_>,
    line: &str,
) -> Result<(), AllocError> {
    let mut values = String::new(alloc);
    push_deciding(&mut values, view, factor)?;
    if shown_line(values.as_str()).len() < values.len() {
        values = String::new(alloc);
        push_low_values(alloc, &mut values, view, factor)?;
    }
    if values.is_empty() {
        return Ok(());
    }
    let filled = line.chars().count().saturating_add(6);
    for _ in filled..VALUES_AT.saturating_sub(2) {
        text.push(' ')?;
    }
    text.push_str("  ")?;
    text.push_str(values.as_str())
}
