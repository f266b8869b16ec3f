//! Values, types and lists in words.

use crate::expressions::push_quoted;
use kc_lines::{shown_line, shown_text};
use kc_tree::{Node, SymId, SymbolType, Tri, UserVal};
use kc_value::Known;
use std::alloc::{AllocError, Global};

/// Adds a text as a value of a type is written: a string in quotes, at most 160 bytes of it.
pub(crate) fn push_text_value(
    text: &mut String,
    kind: SymbolType,
    value: &str,
) -> Result<(), AllocError> {
    match kind {
        SymbolType::String => push_quoted(text, shown_text(value)),
        SymbolType::Bool | SymbolType::Tristate | SymbolType::Int | SymbolType::Hex => {
            text.push_str(value)
        }
    }
}

/// The text of the value of a symbol.
pub(crate) fn value_text<'k>(known: &Known<'k>, symbol: SymId) -> &'k str {
    match known.get(Node::Val(symbol)) {
        Some(value) => value.as_text(),
        None => Tri::No.letter(),
    }
}

/// Adds the value of a symbol.
pub fn push_value(text: &mut String, known: &Known<'_>, symbol: SymId) -> Result<(), AllocError> {
    let kind = known.tree().symbol_type(symbol);
    push_text_value(text, kind, value_text(known, symbol))
}

/// Adds a symbol with its value, as `A=y`.
pub fn push_valued(text: &mut String, known: &Known<'_>, symbol: SymId) -> Result<(), AllocError> {
    text.push_str(known.tree().name(symbol))?;
    text.push('=')?;
    push_value(text, known, symbol)
}

/// Adds a user value.
pub fn push_user(text: &mut String, kind: SymbolType, value: &UserVal) -> Result<(), AllocError> {
    match value {
        UserVal::Tri(tri) => text.push_str(tri.letter()),
        UserVal::Text(spelt) => push_text_value(text, kind, spelt.as_str()),
    }
}

/// Adds a line: blanks, at most 160 bytes of its words, and a line feed.
pub fn push_line(text: &mut String, indent: &str, words: &str) -> Result<(), AllocError> {
    text.push_str(indent)?;
    text.push_str(shown_line(words))?;
    text.push('\n')
}
