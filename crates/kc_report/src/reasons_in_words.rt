//! Why a symbol has its value, in words (this project's own, docs/VALUES.md, "Reasons").

use crate::reverses::push_reverse;
use kc_facts::{
    ReasonRow, ReasonSource, View, default_at, push_choice, push_line, push_module_words,
    push_reason_words, push_term, push_valued_expr, reason_rows,
};
use kc_lines::{Family, LineIndex, Part, push_place};
use kc_statement::Range;
use kc_text::Line;
use kc_tree::{Expr, SymId, Tree};
use kc_value::{DefaultPlace, RangePlace, Reason};
use std::alloc::{AllocError, Global};

/// The range of a place.
fn range_at(tree: &Tree, place: RangePlace) -> Option<&Range> {
    tree.definitions()
        .get(place.definition)?
        .ranges()
        .get(place.range)
}

/// Adds `if` and a condition with values, where there is one.
fn push_condition(
    text: &mut String,
    view: &View<'_>,
    condition: Option<&Expr>,
) -> Result<(), AllocError> {
    if let Some(condition) = condition {
        text.push_str(" if ")?;
        push_valued_expr(text, view.known(), condition)?;
    }
    Ok(())
}

/// Adds a line that a reason comes from: its place, and what it says.
pub(crate) fn push_said(
    text: &mut String,
    line: Option<&Line<'_>>,
    words: &str,
) -> Result<(), AllocError> {
    text.push_str("    ")?;
    if let Some(line) = line {
        push_place(text, line)?;
        text.push_str(": ")?;
    }
    push_line(text, "", words)
}

/// Adds the line of a default: its place, its value, and its condition with values.
fn push_default(
    alloc: Global,
    text: &mut String,
    view: &View<'_>,
    line: Option<&Line<'_>>,
    place: DefaultPlace,
) -> Result<(), AllocError> {
    let Some(default) = default_at(view.tree(), place) else {
        return Ok(());
    };
    let mut words = String::from_str(alloc, "default ")?;
    push_valued_expr(&mut words, view.known(), &default.value)?;
    push_condition(&mut words, view, default.condition.as_ref())?;
    push_said(text, line, words.as_str())
}

/// Adds the line of a range: its place, its bounds, and its condition with values.
fn push_range(
    alloc: Global,
    text: &mut String,
    view: &View<'_>,
    line: Option<&Line<'_>>,
    place: RangePlace,
) -> Result<(), AllocError> {
    let Some(range) = range_at(view.tree(), place) else {
        return Ok(());
    };
    let mut words = String::from_str(alloc, "range ")?;
    push_term(&mut words, view.tree(), &range.low)?;
    words.push(' ')?;
    push_term(&mut words, view.tree(), &range.high)?;
    push_condition(&mut words, view, range.condition.as_ref())?;
    push_said(text, line, words.as_str())
}

/// Adds a line that the reason of a symbol's value comes from.
fn push_source(
    alloc: Global,
    text: &mut String,
    view: &View<'_>,
    symbol: SymId,
    row: &ReasonRow<'_, '_>,
) -> Result<(), AllocError> {
    let line = row.line;
    match row.source {
        ReasonSource::Range(place) => push_range(alloc, text, view, line, place),
        ReasonSource::Default(place) => push_default(alloc, text, view, line, place),
        ReasonSource::Reverse(kind, number) => {
            let Some(symbol) = view.tree().symbols().get(symbol.0 as usize) else {
                return Ok(());
            };
            match kind.of(symbol).get(number) {
                Some(reverse) => push_reverse(alloc, text, view, line, reverse),
                None => Ok(()),
            }
        }
    }
}

/// Adds the lines that a reason comes from, with their places.
fn push_reason_lines(
    alloc: Global,
    text: &mut String,
    view: &View<'_>,
    index: &LineIndex<'_, '_>,
    symbol: SymId,
    reason: Reason,
) -> Result<(), AllocError> {
    let rows = reason_rows(alloc, view.tree(), index, symbol, reason)?;
    for row in rows.as_slice() {
        push_source(alloc, text, view, symbol, row)?;
    }
    Ok(())
}

/// Adds why a symbol has its value: the line `because ...`, and the lines that the reason comes from.
pub(crate) fn push_reason(
    alloc: Global,
    text: &mut String,
    view: &View<'_>,
    index: &LineIndex<'_, '_>,
    symbol: SymId,
    reason: Reason,
) -> Result<(), AllocError> {
    let mut words = String::new(alloc);
    let before = match reason {
        Reason::Default(_) => {
            words.push_str("by default")?;
            push_module_words(&mut words, view, symbol, reason)?;
            "  "
        }
        _ => {
            push_reason_words(alloc, &mut words, view, symbol, reason)?;
            "  because "
        }
    };
    push_line(text, before, words.as_str())?;
    push_reason_lines(alloc, text, view, index, symbol, reason)
}

/// Adds the choice of a member, with its place, and what it has selected.
pub(crate) fn push_choice_of_member(
    text: &mut String,
    view: &View<'_>,
    index: &LineIndex<'_, '_>,
    symbol: SymId,
    selected: Option<SymId>,
) -> Result<(), AllocError> {
    let Some(choice) = view.tree().choice_of(symbol) else {
        return Ok(());
    };
    text.push_str("  in the ")?;
    push_choice(text, view.tree(), choice)?;
    if let Some(line) = index.line(Part::Owner(Family::Choice, choice.0 as usize)) {
        text.push_str(" (")?;
        push_place(text, line)?;
        text.push(')')?;
    }
    text.push_str(", which selects ")?;
    match selected {
        Some(member) => text.push_str(view.tree().name(member))?,
        None => text.push_str("none of its members")?,
    }
    text.push('\n')
}
