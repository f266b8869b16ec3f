//! The mode and the selection of a choice, and the value of a member.

ghost use Rattle.std.specs.Prelude.{◌≡◌, ◌&&◌, find, filter_map, slice_get};
ghost use Rattle.kc_value.specs.ExprValue.{yes_if};
ghost use Rattle.kc_value.specs.Known.{given};
ghost use Rattle.kc_value.specs.ChoiceRule.{mode, is_visible, is_symbol, chosen_member, default_member, selection, selected_in, member_rule};

use crate::conditions::choice_prompt_tri;
use crate::expr_value::own_condition_tri;
use crate::known::Known;
use crate::value::Value;
use kc_tree::{Choice, ChoiceDefault, ChoiceId, Node, SymId, Tri, UserVal};

/// y for true, n for false.
fn yes_if(is_so: bool) -> Tri
    ensures { result ≡ yes_if is_so }
{
    if is_so { Tri::Yes } else { Tri::No }
}

/// The mode of a choice: y where the condition of its prompt is not n and, in an optional choice, the user chose a
/// member.
pub(crate) fn mode_value(known: &Known<'_>, choice: &Choice, chosen: Option<SymId>) -> Tri
    ensures { result ≡ mode known.now.tree (given known.now) choice.now chosen }
{
    let is_wanted = !choice.is_optional() || chosen.is_some();
    yes_if(is_wanted && !choice_prompt_tri(known, choice).is_no())
}

/// Whether a symbol of the tree is visible.
fn is_visible(known: &Known<'_>, symbol: SymId) -> bool
    ensures { result ≡ is_visible known.now.tree (given known.now) symbol }
{
    match known.symbol(symbol) {
        Some(_) => !known.tri(Node::Vis(symbol)).is_no(),
        None => false,
    }
}

/// Whether a symbol is the chosen one and visible.
fn is_chosen(known: &Known<'_>, symbol: SymId, chosen: Option<SymId>) -> bool
    ensures { result
        ≡ is_symbol chosen symbol && is_visible known.now.tree (given known.now) symbol }
{
    chosen == Some(symbol) && is_visible(known, symbol)
}

/// The member that is the chosen one and visible.
fn visible_chosen(known: &Known<'_>, members: &[SymId], chosen: Option<SymId>) -> Option<SymId>
    ensures { result
        ≡ find (λ s. is_symbol chosen s && is_visible known.now.tree (given known.now) s) members.now }
{
    members
        .iter()
        .copied()
        .find(|member| is_chosen(known, *member, chosen))
}

/// The chosen member, where the mode is y and the member is visible.
fn chosen_member(
    known: &Known<'_>,
    id: ChoiceId,
    choice: &Choice,
    chosen: Option<SymId>,
) -> Option<SymId>
    ensures { result ≡ chosen_member known.now.tree (given known.now) id choice.now chosen }
{
    if known.tri(Node::Mode(id)).is_no() {
        return None;
    }
    visible_chosen(known, choice.members(), chosen)
}

/// The member of a default that is active and whose member is visible.
fn default_member(known: &Known<'_>, default: &ChoiceDefault) -> Option<SymId>
    ensures { result ≡ default_member known.now.tree (given known.now) default.now }
{
    let member = default.symbol?;
    let is_active = !own_condition_tri(known, default.condition.as_ref()).is_no();
    if is_active && is_visible(known, member) {
        Some(member)
    } else {
        None
    }
}

/// That of the first such default.
fn first_default_member(known: &Known<'_>, defaults: &[ChoiceDefault]) -> Option<SymId>
    ensures { result ≡ slice_get (filter_map (default_member known.now.tree (given known.now)) defaults.now) 0 }
{
    for default in defaults {
        if let Some(member) = default_member(known, default) {
            return Some(member);
        }
    }
    None
}

/// The first member that is visible.
fn first_visible(known: &Known<'_>, members: &[SymId]) -> Option<SymId>
    ensures { result ≡ find (is_visible known.now.tree (given known.now)) members.now }
{
    members
        .iter()
        .copied()
        .find(|member| is_visible(known, *member))
}

/// The member that a choice selects (kconfig-language.rst, "choices", and Kconfiglib, "selection"): the chosen one
/// where it is visible, else that of the first active default whose member is visible, else the first visible one.
pub(crate) fn selection_value(
    known: &Known<'_>,
    id: ChoiceId,
    choice: &Choice,
    chosen: Option<SymId>,
) -> Option<SymId>
    ensures { result ≡ selection known.now.tree (given known.now) id choice.now chosen }
{
    if let Some(member) = chosen_member(known, id, choice, chosen) {
        return Some(member);
    }
    if let Some(member) = first_default_member(known, choice.defaults()) {
        return Some(member);
    }
    first_visible(known, choice.members())
}

/// The member that the selection of a choice has in a list by number.
pub(crate) fn selected(known: &Known<'_>, choice: ChoiceId) -> Option<SymId>
    ensures { result ≡ selected_in known.now.tree (given known.now) choice }
{
    known.choice(choice)?;
    known.get(Node::Sel(choice))?.as_member()
}

/// The value of a member: y where it is selected. It has a line where it is visible.
pub(crate) fn member_value(
    known: &Known<'_>,
    choice: ChoiceId,
    member: SymId,
    visibility: Tri,
) -> Value
    ensures { result ≡ member_rule known.now.tree (given known.now) choice member visibility }
{
    let is_selected = selected(known, choice) == Some(member);
    Value::Shown(UserVal::Tri(yes_if(is_selected)), !visibility.is_no())
}
