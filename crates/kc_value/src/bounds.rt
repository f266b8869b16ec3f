//! The bounds of a range, and what they make of a value.

ghost use Rattle.std.specs.Prelude.{◌≡◌, IfOk};
ghost use Rattle.std.specs.String.{string_bytes};
ghost use Rattle.kc_statement.specs.LentText.{lent_bytes};
ghost use Rattle.kc_value.specs.TextRule.{number_or_zero, is_inside, spelled, clamped};
ghost use Rattle.kc_value.specs.BoundsRange.{IsSmall, AreSmall};

use kc_tree::{LentText, SharedText, SymbolType, numeral};
use std::alloc::{AllocError, Global};

/// The bounds of a range, by the numerals of a symbol's type.
#[derive(Clone, Copy, PartialEq, Eq)]
pub struct Bounds {
    pub(crate) low: i128,
    pub(crate) high: i128,
}

/// The number of a text by the type of its symbol, 0 where it is no numeral of it.
pub(crate) fn number_or_zero(kind: SymbolType, text: &str) -> i128
    ensures number { result ≡ number_or_zero kind text.now }
    ensures small { IsSmall kind result }
{
    numeral(kind, text).unwrap_or(0)
}

/// Whether a number is inside the bounds, if there are any.
pub(crate) fn is_inside(bounds: Option<Bounds>, number: i128) -> bool
    ensures { result ≡ is_inside bounds number }
{
    match bounds {
        Some(bounds) => number >= bounds.low && number <= bounds.high,
        None => true,
    }
}

/// A bound as it is spelt: decimal digits for an int, `0x` and lower-case digits for a hex (this project's own).
///
/// # Errors
///
/// The error comes where memory is refused.
pub fn spelled(alloc: Global, kind: SymbolType, bound: i128) -> Result<String, AllocError>
    requires { IsSmall kind bound }
    ensures { IfOk result (λ text. string_bytes text ≡ spelled kind bound) }
{
    match kind {
        SymbolType::Hex => {
            let number = bound as u64;
            format!(in alloc; "0x{number:x}")
        }
        SymbolType::Int | SymbolType::Bool | SymbolType::Tristate | SymbolType::String => {
            format!(in alloc; "{bound}")
        }
    }
}

/// A text between bounds, if there are any: the bound past which its number is, or the text itself.
pub(crate) fn clamped(
    alloc: Global,
    kind: SymbolType,
    bounds: Option<Bounds>,
    text: LentText<'_>,
) -> Result<SharedText, AllocError>
    requires { AreSmall kind bounds }
    ensures { IfOk result (λ clamped_text. clamped_text ≡ clamped kind bounds (lent_bytes text.entry)) }
{
    let Some(bounds) = bounds else {
        return text.to_shared(alloc);
    };
    let number = number_or_zero(kind, text.as_str());
    if number < bounds.low {
        SharedText::new(alloc, spelled(alloc, kind, bounds.low)?)
    } else if number > bounds.high {
        SharedText::new(alloc, spelled(alloc, kind, bounds.high)?)
    } else {
        text.to_shared(alloc)
    }
}
