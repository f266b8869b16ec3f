//! What the value of a line gives a symbol of a type.

ghost use Rattle.std.specs.Prelude.{◌≡◌, IfOk};
ghost use Rattle.kc_files.specs.ReadingSteps.{bool_given, tristate_given, numeral_given, value_given, no_given};

use crate::unquoting::unquoted;
use kc_tree::{SharedText, SymbolType, Tri, UserVal, numeral};
use std::alloc::{AllocError, Global};

/// The value of a bool that a text spells.
fn bool_given(text: &str) -> Option<Tri>
    ensures { result ≡ bool_given text.now }
{
    match text {
        "n" => Some(Tri::No),
        "y" => Some(Tri::Yes),
        _ => None,
    }
}

/// That of a tristate.
fn tristate_given(text: &str) -> Option<Tri>
    ensures { result ≡ tristate_given text.now }
{
    match text {
        "m" => Some(Tri::Module),
        _ => bool_given(text),
    }
}

/// That of an int or a hex: a numeral of the type, as it is spelt.
///
/// The error comes where memory is refused.
fn numeral_given(alloc: Global, kind: SymbolType, text: &str) -> Result<Option<UserVal>, AllocError>
    ensures { IfOk result (λ value. value ≡ numeral_given kind text.now) }
{
    if numeral(kind, text).is_none() {
        return Ok(None);
    }
    Ok(Some(UserVal::Text(SharedText::copy_of(alloc, text)?)))
}

/// The value of a type that a text spells in a `.config`: n, m and y for a bool or a tristate, a numeral, or a string in
/// quotes.
///
/// The error comes where memory is refused for a copy of the text.
pub(crate) fn value_given(
    alloc: Global,
    kind: SymbolType,
    text: &str,
) -> Result<Option<UserVal>, AllocError>
    ensures { IfOk result (λ value. value ≡ value_given text.now kind) }
{
    match kind {
        SymbolType::Bool => Ok(bool_given(text).map(UserVal::Tri)),
        SymbolType::Tristate => Ok(tristate_given(text).map(UserVal::Tri)),
        SymbolType::String => Ok(unquoted(alloc, text)?.map(UserVal::Text)),
        SymbolType::Int | SymbolType::Hex => numeral_given(alloc, kind, text),
    }
}

/// The value of a symbol that is not set: n, where its type has that.
pub(crate) fn no_given(kind: SymbolType) -> Option<UserVal>
    ensures { result ≡ no_given kind }
{
    match kind {
        SymbolType::Bool | SymbolType::Tristate => Some(UserVal::Tri(Tri::No)),
        SymbolType::String | SymbolType::Int | SymbolType::Hex => None,
    }
}
