//! The values that texts spell.
ghost use Rattle.std.specs.Prelude.{◌≡◌, IfOk, OnErr, IsTrue, is_some, not};
ghost use Rattle.kc_statement.specs.SymbolTypes.{is_tri_type};
ghost use Rattle.kc_session.specs.Values.{bool_of, tristate_of, value_of};

use kc_statement::SharedText;
use kc_tree::{SymbolType, Tri, UserVal, numeral};
use std::alloc::{AllocError, Global};

/// The value of a bool that a text spells.
fn bool_of(text: &str) -> Option<Tri>
    ensures { result ≡ bool_of text.now }
{
    match text {
        "n" => Some(Tri::No),
        "y" => Some(Tri::Yes),
        _ => None,
    }
}

/// That of a tristate.
fn tristate_of(text: &str) -> Option<Tri>
    ensures { result ≡ tristate_of text.now }
{
    match text {
        "m" => Some(Tri::Module),
        _ => bool_of(text),
    }
}

/// The value that a text spells for a symbol of this type: for a string, an int or a hex a copy of the text.
///
/// The error comes where memory is refused for that copy.
pub(crate) fn value_of(
    alloc: Global,
    kind: SymbolType,
    text: &str,
) -> Result<Option<UserVal>, AllocError>
    ensures value { IfOk result (λ v. v ≡ value_of kind text.now) }
    ensures starved { OnErr result (IsTrue (not (is_tri_type kind))) }
    ensures spelled { OnErr result (IsTrue (is_some (value_of kind text.now))) }
{
    match kind {
        SymbolType::Bool => Ok(bool_of(text).map(UserVal::Tri)),
        SymbolType::Tristate => Ok(tristate_of(text).map(UserVal::Tri)),
        SymbolType::String => Ok(Some(UserVal::Text(SharedText::copy_of(alloc, text)?))),
        SymbolType::Int | SymbolType::Hex => {
            if numeral(kind, text).is_none() {
                return Ok(None);
            }
            Ok(Some(UserVal::Text(SharedText::copy_of(alloc, text)?)))
        }
    }
}
