//! What the values make of a definition now.

ghost use Rattle.std.specs.Prelude.{◌≡◌, option_map};
ghost use Rattle.kc_statement.specs.Tristate.{letter};
ghost use Rattle.kc_tree.specs.declared.node.Node.TheVariants.{Vis, Val};
ghost use Rattle.kc_value.specs.Assignment.{as_text, as_tri, assignment_of};
ghost use Rattle.kc_value.specs.Known.{given as given_values};
ghost use Rattle.kc_menu.specs.Objects.{given, user_part};

use crate::menu_inputs::MenuInputs;
use crate::settings::Setting;
use kc_tree::{Node, SymId, Tree, Tri, UserVal};
use kc_value::{Known, User};
use serde::Serialize;

/// What the values make of a definition now.
#[derive(Drop, Serialize)]
pub(crate) struct SymbolNow<'m> {
    /// Whether the prompt of this definition is shown: n, m or y.
    shown: &'static str,
    /// The visibility of the symbol.
    vis: &'static str,
    /// The value of the symbol.
    value: &'m str,
    /// The values that a user can give a bool or a tristate with an effect.
    #[serde(skip_serializing_if = "Option::is_none")]
    can: Option<&'static [&'static str]>,
    /// What the user gave it: of a member of a choice y where he chose it.
    user: Option<&'m str>,
    /// The bounds of the active range of an int or a hex.
    #[serde(skip_serializing_if = "Option::is_none")]
    range: Option<(String, String)>,
}

/// What a symbol has now, with what a user can give it, and what the condition of the prompt of one of its definitions is
/// worth.
pub(crate) fn symbol_now<'m>(
    inputs: &MenuInputs<'m>,
    symbol: SymId,
    setting: Setting,
    shown: Tri,
) -> SymbolNow<'m>
    ensures shown { result.shown.now ≡ letter shown }
    ensures visibility { result.vis.now
        ≡ letter (as_tri (assignment_of inputs.now.view.tree inputs.now.view.values (Vis symbol))) }
    ensures value { result.value.now
        ≡ as_text (assignment_of inputs.now.view.tree inputs.now.view.values (Val symbol)) }
    ensures user { option_map (λ p. p.now) result.user
        ≡ user_part inputs.now.view.tree inputs.now.view.user symbol }
{
    let view = inputs.view();
    let known = view.known();
    SymbolNow {
        shown: shown.letter(),
        vis: known.tri(Node::Vis(symbol)).letter(),
        value: value_text(known, symbol),
        can: setting.can,
        user: user_text(view.tree(), view.user(), symbol),
        range: setting.range,
    }
}

/// The text of the value that a symbol shows.
fn value_text<'m>(known: &Known<'m>, symbol: SymId) -> &'m str
    ensures { result.now ≡ as_text (given_values known.now (Val symbol)) }
{
    match known.get(Node::Val(symbol)) {
        Some(value) => value.as_text(),
        None => "n",
    }
}

/// What the user gave a symbol, of a member of a choice y where he chose it.
fn user_text<'m>(tree: &Tree, user: &'m User, symbol: SymId) -> Option<&'m str>
    ensures { option_map (λ p. p.now) result ≡ user_part tree.now user.now symbol }
{
    let Some(choice) = tree.choice_of(symbol) else {
        return Some(given(user.get(symbol)?));
    };
    if user.chosen(choice).is_some_and(|chosen| chosen == symbol) {
        return Some(Tri::Yes.letter());
    }
    None
}

/// A user value as a text.
fn given(value: &UserVal) -> &str
    ensures { result.now ≡ given value.now }
{
    match value {
        UserVal::Tri(tri) => tri.letter(),
        UserVal::Text(text) => text.as_str(),
    }
}
