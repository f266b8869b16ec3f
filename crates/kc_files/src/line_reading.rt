//! What a line of a `.config` gives a tree.

ghost use Rattle.std.specs.Prelude.{◌≡◌, ◌<◌, ℕ, length, IfOk, IfSome};
ghost use Rattle.kc_outline.specs.TreeValue.{symbol_named};
ghost use Rattle.kc_files.specs.LineReading.{bad_value};
ghost use Rattle.kc_files.specs.LineSteps.{said, assigned_reading, unset_reading, reading_of, IsInside};

use crate::assign::Assign;
use crate::config_lines::trimmed;
use crate::line_form::{LineForm, line_form};
use crate::value_form::{no_given, value_given};
use crate::warning::WarningKind;
use kc_tree::{SymId, SymbolType, Tree, UserVal};
use std::alloc::{AllocError, Global};

/// What a line gives.
#[derive(Drop)]
pub(crate) enum Reading {
    /// A value for a symbol.
    Usable(Assign),
    /// A warning, and the line is skipped.
    Warned(WarningKind),
    /// The line is empty or a comment.
    Nothing,
}

/// The warning of a value that is none of a type.
fn bad_value(kind: SymbolType) -> WarningKind
    ensures { result ≡ bad_value kind }
{
    match kind {
        SymbolType::String => WarningKind::BadString,
        SymbolType::Bool | SymbolType::Tristate | SymbolType::Int | SymbolType::Hex => {
            WarningKind::BadValue
        }
    }
}

/// What a line gives a symbol: a value of its type, or a warning where there is none.
fn said(symbol: SymId, given: Option<UserVal>, bad: WarningKind) -> Reading
    ensures reading { result ≡ said symbol given bad }
    ensures inside { (symbols : ℕ) → symbol.0 < symbols → IsInside symbols result }
{
    match given {
        Some(value) => Reading::Usable(Assign { symbol, value }),
        None => Reading::Warned(bad),
    }
}

/// The symbol of a name, which is likely to be this one. Where it is, no table is asked.
fn find_likely(tree: &Tree, name: &str, likely: SymId) -> Option<SymId>
    ensures symbol { result ≡ symbol_named tree.now name.now }
    ensures inside { IfSome result (λ s. s.0 < length tree.now.symbols) }
{
    if (likely.0 as usize) < tree.symbols().len() && tree.name(likely) == name {
        return Some(likely);
    }
    tree.find(name)
}

/// What a line gives that has a value for a name.
///
/// The error comes where memory is refused for a copy of the value.
fn assigned_reading(
    alloc: Global,
    tree: &Tree,
    name: &str,
    value: &str,
    likely: SymId,
) -> Result<Reading, AllocError>
    ensures reading { IfOk result (λ r. r ≡ assigned_reading tree.now name.now value.now) }
    ensures inside { IfOk result (IsInside (length tree.now.symbols)) }
{
    let Some(symbol) = find_likely(tree, name, likely) else {
        return Ok(Reading::Warned(WarningKind::UndefinedSymbol));
    };
    let kind = tree.symbol_type(symbol);
    let given = value_given(alloc, kind, value)?;
    Ok(said(symbol, given, bad_value(kind)))
}

/// What a line gives that says that a name is not set.
fn unset_reading(tree: &Tree, name: &str, likely: SymId) -> Reading
    ensures reading { result ≡ unset_reading tree.now name.now }
    ensures inside { IsInside (length tree.now.symbols) result }
{
    match find_likely(tree, name, likely) {
        Some(symbol) => said(
            symbol,
            no_given(tree.symbol_type(symbol)),
            WarningKind::BadValue,
        ),
        None => Reading::Warned(WarningKind::UndefinedSymbol),
    }
}

/// What a line gives, which is without its line feed, and whose name is likely to be that of this symbol.
///
/// The error comes where memory is refused for a copy of its value.
pub(crate) fn read_line(
    alloc: Global,
    tree: &Tree,
    prefix: &str,
    line: &[u8],
    likely: SymId,
) -> Result<Reading, AllocError>
    ensures reading { IfOk result (λ r. r ≡ reading_of tree.now prefix.now line.now) }
    ensures inside { IfOk result (IsInside (length tree.now.symbols)) }
{
    match line_form(prefix, trimmed(line)) {
        LineForm::Assigned(name, value) => {
            assigned_reading(alloc, tree, name.as_str(), value.as_str(), likely)
        }
        LineForm::Unset(name) => Ok(unset_reading(tree, name.as_str(), likely)),
        LineForm::Nothing => Ok(Reading::Nothing),
        LineForm::Malformed => Ok(Reading::Warned(WarningKind::Malformed)),
    }
}
