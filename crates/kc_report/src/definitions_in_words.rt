//! The definitions of a symbol, with the factors of what each depends on.

ghost use Rattle.std.specs.Prelude.{◌≡◌, ◌≤◌};
ghost use Rattle.kc_report.specs.declared.extent.Extent.TheVariants.{Short, All};

use crate::extent::Extent;
use crate::factors_in_words::push_factor;
use kc_facts::{
    DefinitionRow, LinedFactor, View, definition_rows, push_quoted, push_why_no, symbol_below,
};
use kc_lines::{LineIndex, push_place, shown_line};
use kc_text::{Line, Token};
use kc_tree::{SymId, Symbol};
use kc_value::FactorPart;
use std::alloc::{AllocError, Global};

/// The most definitions that are shown, where not all are wanted.
const MOST_SHOWN: usize = 8;

/// The most factors of a definition that are shown, where not all are wanted.
const MOST_FACTORS: usize = 100;

/// The word that begins a line: `config` or `menuconfig`.
fn first_word<'l>(line: &'l Line<'_>) -> &'l str {
    match line.tokens().first() {
        Some(Token::Word(word)) => word.as_str(),
        _ => "config",
    }
}

/// Adds the line of a definition: its place, its name and its prompt.
fn push_head(
    text: &mut String,
    view: &View<'_>,
    row: &DefinitionRow<'_, '_, '_>,
) -> Result<(), AllocError> {
    let Some(definition) = view.tree().definitions().get(row.number) else {
        return Ok(());
    };
    text.push_str("  ")?;
    let word = match row.line {
        Some(line) => {
            push_place(text, line)?;
            text.push_str(": ")?;
            first_word(line)
        }
        None => "config",
    };
    text.push_str(word)?;
    text.push(' ')?;
    text.push_str(view.tree().name(definition.symbol()))?;
    if let Some(prompt) = definition.prompt() {
        text.push(' ')?;
        push_quoted(text, shown_line(prompt.text.as_str()))?;
    }
    text.push('\n')
}

/// Adds why a symbol is n, where it alone makes a factor n, and no factor of the definition was n before. Gives whether
/// a factor was n by now.
fn push_step(
    alloc: Global,
    text: &mut String,
    view: &View<'_>,
    row: &LinedFactor<'_, '_, '_>,
    is_explained: bool,
) -> Result<bool, AllocError> {
    let factor = &row.factor;
    let is_mode = matches!(factor.part, FactorPart::Mode(_));
    if is_explained || is_mode || !factor.value.is_no() {
        return Ok(is_explained);
    }
    let Some(symbol) = symbol_below(alloc, view, factor)? else {
        return Ok(true);
    };
    let mut words = String::new(alloc);
    if push_why_no(alloc, &mut words, view, symbol)? {
        text.push_str("      ")?;
        text.push_str(words.as_str())?;
        text.push('\n')?;
    }
    Ok(true)
}

/// Adds a definition: its line, and each factor of what it depends on, with one step further for the first that is n.
fn push_definition(
    alloc: Global,
    text: &mut String,
    view: &View<'_>,
    row: &DefinitionRow<'_, '_, '_>,
    extent: Extent,
) -> Result<(), AllocError> {
    push_head(text, view, row)?;
    let shown = shown_of(extent, row.factors.len(), MOST_FACTORS);
    let mut is_explained = false;
    for factor in row.factors.iter().take(shown) {
        push_factor(alloc, text, view, &factor.own)?;
        is_explained = push_step(alloc, text, view, &factor.own, is_explained)?;
        if let Some(condition) = &factor.choice {
            push_factor(alloc, text, view, condition)?;
            is_explained = push_step(alloc, text, view, condition, is_explained)?;
        }
    }
    let left = row.factors.len().saturating_sub(shown);
    if left > 0 {
        write!(text, "    ... {left} more: --all\n")?;
    }
    Ok(())
}

/// How many of a count are shown: at most some where not all are wanted.
fn shown_of(extent: Extent, count: usize, most: usize) -> usize
    ensures short { (extent ≡ Short) → result ≤ most }
    ensures all { (extent ≡ All) → result ≡ count }
    ensures within { result ≤ count }
{
    match extent {
        Extent::Short => count.min(most),
        Extent::All => count,
    }
}

/// Adds the definitions of a symbol as `why` has them (this project's own form): each with its place and the factors of what
/// it depends on, at most eight. Nothing for a symbol that the tree doesn't have.
///
/// # Errors
///
/// `AllocError` where memory is refused.
pub fn push_definitions_of(
    alloc: Global,
    text: &mut String,
    view: &View<'_>,
    index: &LineIndex<'_, '_>,
    symbol: SymId,
) -> Result<(), AllocError> {
    match view.tree().symbols().get(symbol.0 as usize) {
        Some(symbol) => push_definitions(alloc, text, view, index, symbol, Extent::Short),
        None => Ok(()),
    }
}

/// Adds the definitions of a symbol, each with the factors of what it depends on.
pub(crate) fn push_definitions(
    alloc: Global,
    text: &mut String,
    view: &View<'_>,
    index: &LineIndex<'_, '_>,
    symbol: &Symbol,
    extent: Extent,
) -> Result<(), AllocError> {
    let count = symbol.definitions().len();
    let shown = shown_of(extent, count, MOST_SHOWN);
    let rows = definition_rows(alloc, view, index, symbol, shown)?;
    for row in rows.as_slice() {
        push_definition(alloc, text, view, row, extent)?;
    }
    let left = count.saturating_sub(shown);
    if left > 0 {
        write!(text, "  ... {left} more definitions: --all\n")?;
    }
    Ok(())
}
