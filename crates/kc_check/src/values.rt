//! Findings about defaults and ranges.

use crate::said::Said;
use kc_facts::{push_expr, push_term};
use kc_line_facts::{DefaultFault, FaultyDefault, range_of};
use kc_lines::{meant_tri, shown_line};
use kc_statement::{DefaultValue, Range, SymbolType, Term, lone_term};
use kc_tree::{Definition, Tree};
use kc_value::RangePlace;
use std::alloc::{AllocError, Global};

/// What is wrong with a default.
///
/// # Errors
///
/// `AllocError` where memory is refused.
pub(crate) fn said_of_default(
    alloc: Global,
    tree: &Tree,
    faulty: &FaultyDefault,
) -> Result<Said, AllocError> {
    let Some(definition) = tree.definitions().get(faulty.definition) else {
        return Said::nothing(alloc);
    };
    let Some(default) = definition.defaults().get(faulty.place) else {
        return Said::nothing(alloc);
    };
    let words = match faulty.fault {
        DefaultFault::OfMember => member_words(alloc, tree, definition, default)?,
        DefaultFault::ReadAsNo => tri_words(alloc, tree, definition, default)?,
        DefaultFault::Outside => {
            let range = range_of(tree, definition.symbol(), faulty.definition);
            number_words(alloc, tree, default, range)?
        }
    };
    Said::of(alloc, tree.name(definition.symbol()), words)
}

/// What is said of the default of a member of a choice, which has no effect (docs/VALUES.md, "Choices").
fn member_words(
    alloc: Global,
    tree: &Tree,
    definition: &Definition,
    default: &DefaultValue,
) -> Result<String, AllocError> {
    let mut value = String::new(alloc);
    push_expr(&mut value, tree, &default.value)?;
    let shown = shown_line(value.as_str());
    let name = tree.name(definition.symbol());
    format!(in alloc; "default {shown} has no effect: {name} is a member of a choice")
}

/// What is said of a default that a bool or a tristate reads as n, though it is likely meant as a constant.
fn tri_words(
    alloc: Global,
    tree: &Tree,
    definition: &Definition,
    default: &DefaultValue,
) -> Result<String, AllocError> {
    let mut words = String::from_str(alloc, "default ")?;
    let term = lone_term(&default.value);
    if let Some(term) = term {
        push_shown_term(alloc, &mut words, tree, term)?;
    }
    let kind = match tree.symbol_type(definition.symbol()) {
        SymbolType::Tristate => "tristate",
        _ => "bool",
    };
    write!(words, " of a {kind} is n")?;
    if let Some(meant) = term.and_then(|term| meant_tri(text_of(term))) {
        words.push_str("; write ")?;
        words.push_str(meant.letter())?;
    }
    Ok(words)
}

/// The text of a term that is one in quotes, or a word that is no symbol.
fn text_of(term: &Term) -> &str {
    match term {
        Term::Text(text) => text.as_str(),
        Term::Undefined(word) => word.as_str(),
        Term::Tri(_) | Term::Symbol(_) => "",
    }
}

/// What is said of the default of an int or a hex that is outside the range that always bounds it.
fn number_words(
    alloc: Global,
    tree: &Tree,
    default: &DefaultValue,
    range: Option<&Range>,
) -> Result<String, AllocError> {
    let mut words = String::from_str(alloc, "default ")?;
    if let Some(term) = lone_term(&default.value) {
        push_shown_term(alloc, &mut words, tree, term)?;
    }
    words.push_str(" is outside the ")?;
    if let Some(range) = range {
        push_range(alloc, &mut words, tree, range)?;
    }
    Ok(words)
}

/// That the sides of a range are exchanged.
///
/// # Errors
///
/// `AllocError` where memory is refused.
pub(crate) fn said_of_range(
    alloc: Global,
    tree: &Tree,
    place: RangePlace,
) -> Result<Said, AllocError> {
    let Some(definition) = tree.definitions().get(place.definition) else {
        return Said::nothing(alloc);
    };
    let Some(range) = definition.ranges().get(place.range) else {
        return Said::nothing(alloc);
    };
    let mut words = String::new(alloc);
    push_range(alloc, &mut words, tree, range)?;
    words.push_str(": its low bound is above its high bound")?;
    Said::of(alloc, tree.name(definition.symbol()), words)
}

/// Adds a range: `range LOW HIGH`.
fn push_range(
    alloc: Global,
    words: &mut String,
    tree: &Tree,
    range: &Range,
) -> Result<(), AllocError> {
    words.push_str("range ")?;
    push_shown_term(alloc, words, tree, &range.low)?;
    words.push(' ')?;
    push_shown_term(alloc, words, tree, &range.high)
}

/// Adds a term, of a long one the first 160 bytes.
fn push_shown_term(
    alloc: Global,
    words: &mut String,
    tree: &Tree,
    term: &Term,
) -> Result<(), AllocError> {
    let mut text = String::new(alloc);
    push_term(&mut text, tree, term)?;
    words.push_str(shown_line(text.as_str()))
}
