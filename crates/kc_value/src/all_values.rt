//! The same value for each bool and each tristate.
ghost use Rattle.std.specs.Prelude.{◌≡◌, ℕ, IfSome, true};
ghost use Rattle.kc_outline.specs.TreeValue.{TreeValue};
ghost use Rattle.kc_tree.specs.declared.node.Node.TheVariants.{Val};
ghost use Rattle.kc_tree.specs.Fits.{fits};
ghost use Rattle.kc_tree.specs.Nodes.{IsNodeOf};
ghost use Rattle.kc_value.specs.AllValues.{all_given, is_free_tri, is_yes_in_allnoconfig, tri_given, value_given};
ghost use Rattle.kc_value.specs.UserValues.{IsUserFor, no_values};

use crate::user::User;
use kc_tree::{SymId, SymbolType, Tree, Tri, UserVal};

/// Which value each bool and each tristate is given that is no member of a choice.
#[derive(Clone, Copy, Debug, PartialEq, Eq)]
pub enum AllValue {
    /// n, but y where a line `option allnoconfig_y` names the symbol.
    No,
    /// y.
    Yes,
}

/// Whether a symbol is a bool or a tristate that is no member of a choice.
fn is_free_tri(tree: &Tree, symbol: SymId) -> bool
    requires inside { IsNodeOf tree.now (Val symbol) }
    ensures { result ≡ is_free_tri tree.now symbol }
{
    tree.choice_of(symbol).is_none()
        && matches!(
            tree.symbol_type(symbol),
            SymbolType::Bool | SymbolType::Tristate
        )
}

/// Whether a line `option allnoconfig_y` names a symbol.
fn is_yes_in_allnoconfig(tree: &Tree, symbol: SymId) -> bool
    ensures { result ≡ is_yes_in_allnoconfig tree.now symbol }
{
    match tree.symbols().get(symbol.0 as usize) {
        Some(symbol) => symbol.is_yes_in_allnoconfig(),
        None => false,
    }
}

/// The value of each bool and each tristate, of this one.
fn tri_given(tree: &Tree, all: AllValue, symbol: SymId) -> Tri
    ensures { result ≡ tri_given tree.now all symbol }
{
    match all {
        AllValue::Yes => Tri::Yes,
        AllValue::No if is_yes_in_allnoconfig(tree, symbol) => Tri::Yes,
        AllValue::No => Tri::No,
    }
}

/// The value that a symbol is given, none if it is no bool and no tristate, or a member of a choice.
#[tactic(auto, using(crate::proofs::AllValueLaws::given_fits))]
pub(crate) fn value_given(tree: &Tree, all: AllValue, symbol: SymId) -> Option<UserVal>
    requires inside { IsNodeOf tree.now (Val symbol) }
    ensures value { result ≡ value_given tree.now all symbol }
    ensures fits { IfSome result (λ v. fits tree.now symbol v ≡ true) }
{
    if is_free_tri(tree, symbol) {
        Some(UserVal::Tri(tri_given(tree, all, symbol)))
    } else {
        None
    }
}
