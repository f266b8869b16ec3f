//! Values as messages on lines of a `.config` write them.

use crate::expressions::push_quoted;
use crate::view::View;
use kc_lines::{shown_line, shown_text};
use kc_tree::{Node, SymId, SymbolType, UserVal};
use std::alloc::{AllocError, Global};

/// Adds a value that a line gives a symbol: a letter, a number, or a text in quotes, of a long one the first 160 bytes.
///
/// # Errors
///
/// `AllocError` where memory is refused.
pub fn push_asked(
    words: &mut String,
    view: &View<'_>,
    symbol: SymId,
    asked: &UserVal,
) -> Result<(), AllocError> {
    match asked {
        UserVal::Tri(tri) => words.push_str(tri.letter()),
        UserVal::Text(text) => push_text(words, view.tree().symbol_type(symbol), text.as_str()),
    }
}

/// Adds the value that a symbol has: `nothing` of an int or a hex without one.
///
/// # Errors
///
/// `AllocError` where memory is refused.
pub fn push_value_or_nothing(
    words: &mut String,
    view: &View<'_>,
    symbol: SymId,
) -> Result<(), AllocError> {
    let text = match view.known().get(Node::Val(symbol)) {
        Some(value) => value.as_text(),
        None => "",
    };
    push_text(words, view.tree().symbol_type(symbol), text)
}

/// Whether a symbol is an int or a hex without a value, for which kconf writes a line that it can't use.
pub fn has_no_value(view: &View<'_>, symbol: SymId) -> bool {
    let is_number = matches!(
        view.tree().symbol_type(symbol),
        SymbolType::Int | SymbolType::Hex
    );
    match view.known().get(Node::Val(symbol)) {
        Some(value) => is_number && value.as_text() == "",
        None => false,
    }
}

/// Adds the text of a value: that of a string in quotes.
fn push_text(words: &mut String, kind: SymbolType, text: &str) -> Result<(), AllocError> {
    match kind {
        SymbolType::String => push_quoted(words, shown_text(text)),
        SymbolType::Int | SymbolType::Hex if text == "" => words.push_str("nothing"),
        _ => words.push_str(shown_line(text)),
    }
}
