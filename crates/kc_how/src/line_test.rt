//! Whether a line can be written and read back.

ghost use Rattle.std.specs.Prelude.{◌≡◌, ◌↔◌, true, All};
ghost use Rattle.std.specs.List.{list_any};
ghost use Rattle.kc_tree.specs.Fits.{fits_type};
ghost use Rattle.kc_files.specs.ConfigLines.{is_feed};
ghost use Rattle.kc_files.specs.LineReading.{has_feed};
ghost use Rattle.kc_how.specs.Answer.{IsLine};

use kc_files::Assign;
use kc_tree::{SymbolType, Tree, Tri, UserVal, numeral};

/// Whether a user value is one of a type.
fn fits_type(kind: SymbolType, value: &UserVal) -> bool
    ensures { result ≡ fits_type kind value.now }
{
    match (kind, value) {
        (SymbolType::Bool, UserVal::Tri(tri)) => !matches!(tri, Tri::Module),
        (SymbolType::Tristate, UserVal::Tri(_)) => true,
        (SymbolType::String, UserVal::Text(_)) => true,
        (SymbolType::Int | SymbolType::Hex, UserVal::Text(text)) => {
            numeral(kind, text.as_str()).is_some()
        }
        (SymbolType::Bool | SymbolType::Tristate, UserVal::Text(_)) => false,
        (SymbolType::String | SymbolType::Int | SymbolType::Hex, UserVal::Tri(_)) => false,
    }
}

/// Whether a text has a line feed.
fn has_feed_in(text: &str) -> bool
    ensures { result ≡ list_any is_feed text.now }
{
    text.as_bytes().iter().any(|byte| *byte == b'\n')
}

/// Whether a value has a line feed, which would end its line.
fn has_feed(value: &UserVal) -> bool
    ensures { result ≡ has_feed value.now }
{
    match value {
        UserVal::Tri(_) => false,
        UserVal::Text(text) => has_feed_in(text.as_str()),
    }
}

/// Whether a line can be written and read back: it names a symbol of the tree, with a value of its type, which has no line
/// feed.
fn is_line(tree: &Tree, line: &Assign) -> bool
    ensures { (result ≡ true) ↔ IsLine tree.now line.now }
{
    if (line.symbol.0 as usize) >= tree.symbols().len() {
        return false;
    }
    if has_feed(&line.value) {
        return false;
    }
    fits_type(tree.symbol_type(line.symbol), &line.value)
}

/// Whether each line can.
pub(crate) fn are_lines(tree: &Tree, lines: &[Assign]) -> bool
    ensures { (result ≡ true) ↔ All (IsLine tree.now) lines.now }
{
    for line in lines {
        if !is_line(tree, line) {
            return false;
        }
    }
    true
}
