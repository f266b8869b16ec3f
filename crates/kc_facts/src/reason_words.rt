//! The reason of a value in words (this project's own, docs/VALUES.md, "Reasons").

ghost use Rattle.kc_value.specs.BoundsRange.{IsSmall};

use crate::expressions::push_valued_expr;
use crate::low_parts::{is_below, is_unchosen};
use crate::modules::{YES_WITHOUT_MODULES, lacks_modules};
use crate::view::View;
use crate::words::push_user;
use kc_tree::{DefaultValue, Node, SymId, SymbolType, Tree, Tri, UserVal};
use kc_value::{ActiveRange, DefaultPlace, Reason, active_range, spelled, tri};
use std::alloc::{AllocError, Global};

/// The default of a place.
pub fn default_at(tree: &Tree, place: DefaultPlace) -> Option<&DefaultValue> {
    tree.definitions()
        .get(place.definition)?
        .defaults()
        .get(place.default)
}

/// Adds the bounds of the range of a symbol that counts, as `12 25`.
pub fn push_bounds(
    alloc: Global,
    text: &mut String,
    view: &View<'_>,
    symbol: SymId,
) -> Result<(), AllocError> {
    let tree = view.tree();
    match active_range(view.known(), symbol) {
        Some(range) => push_spelled(alloc, text, tree.symbol_type(symbol), range),
        None => Ok(()),
    }
}

/// Adds the bounds of a range of a type, as they are spelt.
fn push_spelled(
    alloc: Global,
    text: &mut String,
    kind: SymbolType,
    range: ActiveRange,
) -> Result<(), AllocError>
    requires low { IsSmall kind range.low }
    requires high { IsSmall kind range.high }
{
    let low = spelled(alloc, kind, range.low)?;
    let high = spelled(alloc, kind, range.high)?;
    text.push_str(low.as_str())?;
    text.push(' ')?;
    text.push_str(high.as_str())
}

/// Adds the user value of a symbol.
fn push_user_value(text: &mut String, view: &View<'_>, symbol: SymId) -> Result<(), AllocError> {
    match view.user().get(symbol) {
        Some(value) => push_user(text, view.tree().symbol_type(symbol), value),
        None => text.push('-'),
    }
}

/// Adds the value of a default, as it is written, without what it is worth.
fn push_default_value(
    text: &mut String,
    view: &View<'_>,
    default: Option<DefaultPlace>,
) -> Result<(), AllocError> {
    match default.and_then(|place| default_at(view.tree(), place)) {
        Some(default) => push_valued_expr(text, view.known(), &default.value),
        None => Ok(()),
    }
}

/// Adds the words for a user value outside the range.
fn push_outside(
    alloc: Global,
    text: &mut String,
    view: &View<'_>,
    symbol: SymId,
    default: Option<DefaultPlace>,
) -> Result<(), AllocError> {
    text.push_str("the user value ")?;
    push_user_value(text, view, symbol)?;
    text.push_str(" is outside the range ")?;
    push_bounds(alloc, text, view, symbol)?;
    if default.is_some() {
        text.push_str(", and the first active default is ")?;
        push_default_value(text, view, default)
    } else {
        text.push_str(", and no default is active")
    }
}

/// Adds the words for a default past a bound of the range.
fn push_bound(
    alloc: Global,
    text: &mut String,
    view: &View<'_>,
    symbol: SymId,
    default: Option<DefaultPlace>,
) -> Result<(), AllocError> {
    if default.is_some() {
        text.push_str("its default ")?;
        push_default_value(text, view, default)?;
    } else {
        text.push_str("its empty default")?;
    }
    text.push_str(" is past the range ")?;
    push_bounds(alloc, text, view, symbol)
}

/// Whether a bool or a tristate has more than the user gave it.
fn is_more_than_given(view: &View<'_>, symbol: SymId) -> bool {
    match view.user().get(symbol) {
        Some(UserVal::Tri(given)) => is_below(*given, view.known().tri(Node::Val(symbol))),
        Some(UserVal::Text(_)) | None => false,
    }
}

/// Adds the words for a user value that counts in part: no value is more than the visibility, and a visible m is y
/// where modules are not built.
fn push_within(text: &mut String, view: &View<'_>, symbol: SymId) -> Result<(), AllocError> {
    text.push_str("of the user value")?;
    if is_more_than_given(view, symbol) {
        return Ok(());
    }
    text.push_str(", as far as its prompt is visible")
}

/// What the default of a place gives, within its condition.
fn default_tri(view: &View<'_>, place: DefaultPlace) -> Option<Tri> {
    let default = default_at(view.tree(), place)?;
    let value = tri(view.known(), &default.value);
    match &default.condition {
        Some(condition) => Some(value.and(tri(view.known(), condition))),
        None => Some(value),
    }
}

/// Whether a symbol is y since its user value or its default is m, which is y where modules are not built. No condition
/// is m there, so what an `imply` or a `select` gives is n or y.
fn is_yes_for_module(view: &View<'_>, symbol: SymId, reason: Reason) -> bool {
    if !lacks_modules(view, symbol, Tri::Module) {
        return false;
    }
    let given = match reason {
        Reason::UserWithin if is_more_than_given(view, symbol) => Some(Tri::Module),
        Reason::Default(place) => default_tri(view, place),
        _ => None,
    };
    given == Some(Tri::Module) && view.known().tri(Node::Val(symbol)) == Tri::Yes
}

/// Adds that m is y, where a symbol is y for that: `: m is y without MODULES`.
///
/// # Errors
///
/// `AllocError` where memory is refused.
pub fn push_module_words(
    text: &mut String,
    view: &View<'_>,
    symbol: SymId,
    reason: Reason,
) -> Result<(), AllocError> {
    if !is_yes_for_module(view, symbol, reason) {
        return Ok(());
    }
    text.push_str(": ")?;
    text.push_str(YES_WITHOUT_MODULES)
}

/// Adds the words for a member of a choice that selects none.
fn push_none_chosen(text: &mut String, view: &View<'_>, symbol: SymId) -> Result<(), AllocError> {
    match view.tree().choice_of(symbol) {
        Some(choice) if is_unchosen(view, choice) => {
            text.push_str("its choice is optional, and no member is chosen")
        }
        _ => text.push_str("its choice selects none of its members"),
    }
}

/// Adds the words of a reason, without those on an m that is y.
fn push_branch_words(
    alloc: Global,
    text: &mut String,
    view: &View<'_>,
    symbol: SymId,
    reason: Reason,
) -> Result<(), AllocError> {
    match reason {
        Reason::User => text.push_str("of the user value"),
        Reason::UserWithin => push_within(text, view, symbol),
        Reason::OutsideRange { default, .. } => push_outside(alloc, text, view, symbol, default),
        Reason::Default(_) => text.push_str("of its default"),
        Reason::Bound { default, .. } => push_bound(alloc, text, view, symbol, default),
        Reason::Implied(_) => text.push_str("it is implied"),
        Reason::Selected(_) => text.push_str("it is selected"),
        Reason::Chosen => text.push_str("its choice selects it"),
        Reason::OtherChosen(other) => {
            text.push_str("its choice selects ")?;
            text.push_str(view.tree().name(other))
        }
        Reason::NoneChosen => push_none_chosen(text, view, symbol),
        Reason::NoDependencies => text.push_str("its dependencies are n"),
        Reason::Nothing => text.push_str("nothing gives it a value"),
    }
}

/// Adds the words of a reason, which come after `because`.
pub fn push_reason_words(
    alloc: Global,
    text: &mut String,
    view: &View<'_>,
    symbol: SymId,
    reason: Reason,
) -> Result<(), AllocError> {
    push_branch_words(alloc, text, view, symbol, reason)?;
    push_module_words(text, view, symbol, reason)
}
