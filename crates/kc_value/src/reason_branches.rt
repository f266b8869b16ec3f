//! The branch that gives a value, of each kind of symbol.

ghost use Rattle.std.specs.Prelude.{◌≡◌, [], Option, None, false, map, option_map};
ghost use Rattle.std.specs.List.{position_or_len};
ghost use Rattle.std.specs.Option.{option_copied, option_map_or};
ghost use Rattle.kc_statement.specs.LentText.{lent_bytes};
ghost use Rattle.kc_statement.specs.declared.tri.Tri.{Tri};
ghost use Rattle.kc_tree.specs.declared.user_value.UserVal.{UserVal};
ghost use Rattle.kc_value.specs.Assignable.{same_tri};
ghost use Rattle.kc_value.specs.ChoiceRule.{selected_in};
ghost use Rattle.kc_value.specs.Reasons.{Parts, active_default, is_more, is_verbatim, parts, bounds_in_range, default_place_in, default_text_in, given_level, given_text, is_selected, IsTriReason, IsTextReason, IsMemberReason};
ghost use Rattle.kc_value.specs.Known.{given};
ghost use Rattle.kc_value.specs.Rule.{default_value, direct, has_modules, reverse_value, reverse_values};

use crate::bounds::{Bounds, is_inside, number_or_zero};
use crate::choice_value::selected;
use crate::known::Known;
use crate::places::{ActiveRange, DefaultPlace, active_range_of, default_place};
use crate::reason::Reason;
use crate::symbol_value::{LineValues, in_type, line_values, reverse_value, user_tri};
use crate::text_value::{default_text, user_text};
use kc_tree::{ChoiceId, LentText, Reverse, SymId, Symbol, SymbolType, Tri, UserVal};

/// Whether a value is more than another in the order n, m, y.
fn is_more(value: Tri, other: Tri) -> bool
    ensures { result ≡ is_more value other }
{
    value.or(other) != other
}

/// The place of the first `select` or `imply` line that gives a value; how many lines there are, if none does.
fn first_that_gives(known: &Known<'_>, reverses: &[Reverse], value: Tri) -> usize
    ensures { result ≡ position_or_len (same_tri value)
        (map (reverse_value known.now.tree (given known.now)) reverses.now) }
{
    for (place, reverse) in reverses.iter().enumerate() {
        if reverse_value(known, reverse) == value {
            return place;
        }
    }
    reverses.len()
}

/// Whether a symbol shows the user value as it is.
fn is_verbatim(user: Option<&UserVal>, shown: Tri) -> bool
    ensures { result ≡ is_verbatim (option_copied user.entry) shown }
{
    match user {
        Some(UserVal::Tri(value)) => *value == shown,
        Some(UserVal::Text(_)) | None => false,
    }
}

/// The branch of a bool or tristate symbol for which no user value and no `select` counts.
#[tactic(auto, using(crate::proofs::ReasonParts::default_level_is))]
fn line_reason(known: &Known<'_>, symbol: &Symbol, lines: LineValues) -> Reason
    requires default { lines.default ≡ default_value known.now.tree (given known.now) symbol.now }
    requires implied { lines.implied ≡ reverse_values known.now.tree (given known.now) symbol.now.implied }
    requires direct { lines.direct ≡ direct known.now.tree (given known.now) symbol.now }
    requires modules { lines.has_modules ≡ has_modules known.now.tree (given known.now) symbol.now }
    ensures { (vis : Tri) (u : Option UserVal) → let p = parts known.now.tree (given known.now) symbol.now vis u in
        is_selected p ≡ false → given_level p ≡ None → IsTriReason p result }
{
    let by_default = in_type(lines.has_modules, lines.default.and(lines.direct));
    let by_imply = in_type(lines.has_modules, lines.otherwise());
    if is_more(by_imply, by_default) {
        return Reason::Implied(first_that_gives(known, symbol.implied(), lines.implied));
    }
    match default_place(known, symbol) {
        Some(place) => Reason::Default(place),
        None if lines.direct.is_no() => Reason::NoDependencies,
        None => Reason::Nothing,
    }
}

/// The branch of a bool or tristate symbol that is no member of a choice.
#[tactic(auto, using(crate::proofs::ReasonParts::default_level_is))]
pub(crate) fn tri_reason(
    known: &Known<'_>,
    symbol: &Symbol,
    visibility: Tri,
    user: Option<&UserVal>,
) -> Reason
    ensures { IsTriReason (parts known.now.tree (given known.now) symbol.now visibility (option_copied user.entry)) result }
{
    let lines = line_values(known, symbol);
    let given = user_tri(visibility, user);
    let base = given.unwrap_or(lines.otherwise());
    let unselected = in_type(lines.has_modules, base);
    if is_more(
        in_type(lines.has_modules, base.or(lines.selected)),
        unselected,
    ) {
        return Reason::Selected(first_that_gives(known, symbol.selected(), lines.selected));
    }
    if given.is_none() {
        return line_reason(known, symbol, lines);
    }
    if is_verbatim(user, unselected) {
        Reason::User
    } else {
        Reason::UserWithin
    }
}

/// The bounds of a range, if there is one.
fn bounds_in_range(range: Option<ActiveRange>) -> Option<Bounds>
    ensures { result ≡ option_map bounds_in_range range }
{
    let range = range?;
    Some(Bounds {
        low: range.low,
        high: range.high,
    })
}

/// The branch of a string, int or hex symbol for which no user value counts.
fn unset_text_reason(
    kind: SymbolType,
    range: Option<ActiveRange>,
    default: Option<DefaultPlace>,
    text: &str,
) -> Reason
    ensures { (p : Parts) → p.kind ≡ kind → p.range ≡ range → default_place_in p ≡ default → default_text_in p ≡ text.now
        → given_text p ≡ None → IsTextReason p result }
{
    if let Some(active) = range
        && !is_inside(bounds_in_range(range), number_or_zero(kind, text))
    {
        return Reason::Bound {
            range: active.place,
            default,
        };
    }
    match default {
        Some(place) => Reason::Default(place),
        None => Reason::Nothing,
    }
}

/// The text of the first active default of a symbol, or the empty text.
#[tactic(auto, using(crate::proofs::ReasonParts::default_text_is))]
fn default_or_empty<'a>(known: &Known<'a>, symbol: &Symbol) -> LentText<'a>
    ensures { lent_bytes result
        ≡ option_map_or (λ f. f.text) (active_default known.now.tree (given known.now) symbol.now) [] }
{
    match default_text(known, symbol) {
        Some(text) => text,
        None => LentText::Plain(""),
    }
}

/// The branch of a string, int or hex symbol that is no member of a choice.
pub(crate) fn text_reason(
    known: &Known<'_>,
    symbol: &Symbol,
    visibility: Tri,
    user: Option<&UserVal>,
) -> Reason
    ensures { IsTextReason (parts known.now.tree (given known.now) symbol.now visibility (option_copied user.entry)) result }
{
    let kind = symbol.kind();
    let range = active_range_of(known, symbol);
    let default = default_place(known, symbol);
    if user_text(kind, None, visibility, user).is_none() {
        let text = default_or_empty(known, symbol);
        return unset_text_reason(kind, range, default, text.as_str());
    }
    match range {
        Some(active) if user_text(kind, bounds_in_range(range), visibility, user).is_none() => {
            Reason::OutsideRange {
                range: active.place,
                default,
            }
        }
        _ => Reason::User,
    }
}

/// The branch of a member of a choice.
pub(crate) fn member_reason(known: &Known<'_>, choice: ChoiceId, id: SymId) -> Reason
    ensures { IsMemberReason (selected_in known.now.tree (given known.now) choice) id result }
{
    match selected(known, choice) {
        Some(member) if member == id => Reason::Chosen,
        Some(member) => Reason::OtherChosen(member),
        None => Reason::NoneChosen,
    }
}
