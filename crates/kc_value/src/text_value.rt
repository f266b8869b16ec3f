//! The value of a string, int or hex symbol.

ghost use Rattle.std.specs.Prelude.{◌≡◌, IfOk, not, option_map, None, Some, slice_get};
ghost use Rattle.std.specs.Option.{option_copied, option_map_or};
ghost use Rattle.kc_statement.specs.LentText.{lent_bytes};
ghost use Rattle.kc_statement.specs.Tristate.{least, is_no};
ghost use Rattle.kc_outline.specs.TreeValue.{kind_of};
ghost use Rattle.kc_value.specs.BoundsRange.{AreSmall};
ghost use Rattle.kc_value.specs.Known.{given};
ghost use Rattle.kc_value.specs.ExprValue.{own_condition};
ghost use Rattle.kc_value.specs.TextRule.{value_text, definition_text, default_text, bounds_in, bounds_of, is_range_active, user_text, text_rule};

use crate::bounds::{Bounds, clamped, is_inside, number_or_zero};
use crate::conditions::dependency_tri;
use crate::expr_value::own_condition_tri;
use crate::known::Known;
use crate::places::active_range_of;
use crate::symbol_value::first_active_default;
use crate::term_text::term_text;
use crate::value::Value;
use kc_tree::{Expr, LentText, Range, SharedText, Symbol, SymbolType, Tri, UserVal, lone_term};
use std::alloc::{AllocError, Global};

/// The text of a default's value: that of the one term that it is.
fn value_text<'a>(known: &Known<'a>, value: &'a Expr) -> LentText<'a>
    ensures { lent_bytes result ≡ value_text known.now.tree (given known.now) value.now }
{
    match lone_term(value) {
        Some(term) => term_text(known, term),
        None => LentText::Plain(""),
    }
}

/// The text of the first active default of a definition by number.
fn numbered_text<'a>(known: &Known<'a>, number: usize) -> Option<LentText<'a>>
    ensures { option_map lent_bytes result ≡ option_map_or (definition_text known.now.tree (given known.now)) (slice_get known.now.tree.definitions number) None }
{
    let definition = known.definition(number)?;
    let depends = dependency_tri(known, number);
    let (_, default) = first_active_default(known, definition, depends)?;
    Some(value_text(known, &default.value))
}

/// The text of the first active default of a symbol.
pub(crate) fn default_text<'a>(known: &Known<'a>, symbol: &Symbol) -> Option<LentText<'a>>
    ensures { option_map lent_bytes result ≡ default_text known.now.tree (given known.now) symbol.now }
{
    for number in symbol.definitions() {
        if let Some(text) = numbered_text(known, *number) {
            return Some(text);
        }
    }
    None
}

/// Whether the condition of a range in a definition with these dependencies is not n.
pub(crate) fn is_range_active(known: &Known<'_>, range: &Range, depends: Tri) -> bool
    ensures { result
        ≡ not (is_no (least (own_condition known.now.tree (given known.now) range.now.condition) depends)) }
{
    let own = own_condition_tri(known, range.condition.as_ref());
    !own.and(depends).is_no()
}

/// The bounds of a range, by the type of its symbol.
pub(crate) fn bounds_in(known: &Known<'_>, kind: SymbolType, range: &Range) -> Bounds
    ensures bounds { result ≡ bounds_in known.now.tree (given known.now) kind range.now }
    ensures small { AreSmall kind (Some result) }
{
    Bounds {
        low: number_or_zero(kind, term_text(known, &range.low).as_str()),
        high: number_or_zero(kind, term_text(known, &range.high).as_str()),
    }
}

/// Those of the first active range of a symbol, if it is an int or a hex.
#[tactic(auto, using(crate::proofs::ReasonParts::bounds_are))]
fn bounds_of(known: &Known<'_>, symbol: &Symbol) -> Option<Bounds>
    ensures bounds { result ≡ bounds_of known.now.tree (given known.now) symbol.now }
    ensures small { AreSmall (kind_of symbol.now) result }
{
    let range = active_range_of(known, symbol)?;
    Some(Bounds {
        low: range.low,
        high: range.high,
    })
}

/// What the user gave, where the symbol is visible and the value inside the bounds.
pub(crate) fn user_text(
    kind: SymbolType,
    bounds: Option<Bounds>,
    visibility: Tri,
    user: Option<&UserVal>,
) -> Option<&SharedText>
    ensures { option_map (λ w. w.now) result ≡ user_text kind bounds visibility (option_copied user.entry) }
{
    match (visibility, user) {
        (Tri::Module | Tri::Yes, Some(UserVal::Text(text))) => {
            if is_inside(bounds, number_or_zero(kind, text.as_str())) {
                Some(text)
            } else {
                None
            }
        }
        (Tri::No, _) | (_, Some(UserVal::Tri(_)) | None) => None,
    }
}

/// The value of a string, int or hex symbol (kconfig-language.rst, "Menu attributes", and Kconfiglib, "str_value"), and
/// whether the `.config` has its line: the user's value where the symbol is visible and the value inside the first
/// active range, else the first active default or the empty text, which that range clamps (this project's own). The
/// error comes where memory is refused.
pub(crate) fn text_value(
    alloc: Global,
    known: &Known<'_>,
    symbol: &Symbol,
    visibility: Tri,
    user: Option<&UserVal>,
) -> Result<Value, AllocError>
    ensures { IfOk result (λ v. v
        ≡ text_rule known.now.tree (given known.now) symbol.now visibility (option_copied user.entry)) }
{
    let kind = symbol.kind();
    let bounds = bounds_of(known, symbol);
    let default = default_text(known, symbol);
    let written = !visibility.is_no() || default.is_some();
    let text = match user_text(kind, bounds, visibility, user) {
        Some(text) => text.share()?,
        None => clamped(alloc, kind, bounds, default.unwrap_or(LentText::Plain("")))?,
    };
    Ok(Value::Shown(UserVal::Text(text), written))
}
