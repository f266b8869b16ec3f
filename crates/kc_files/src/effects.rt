//! Which assignments of a `.config` have their effect.

ghost use Rattle.std.specs.Prelude.{◌≡◌, ◌↔◌, true};
ghost use Rattle.kc_value.specs.Assignment.{assignment_of};
ghost use Rattle.kc_files.specs.Effects.{has_effect, HasEffect};

use crate::assign::Assign;
use kc_tree::{Node, Tree};
use kc_value::{NodeValues, Value, is_same_user_value};

/// Whether an assignment of a `.config` has its effect over the values of a tree's nodes: its symbol has just that value,
/// a text byte for byte. So y has its effect for a member of a choice where that is selected, and n where it is not. What
/// has effect is this project's own.
#[tactic(auto, using(crate::proofs::EffectLaws::effect_is))]
pub fn has_effect(tree: &Tree, values: &NodeValues, assign: &Assign) -> bool
    ensures test { result ≡ has_effect (assignment_of tree.now values.now) assign.now }
    ensures exact { (result ≡ true) ↔ HasEffect (assignment_of tree.now values.now) assign.now }
{
    match values.get(tree.number(Node::Val(assign.symbol))) {
        Some(Value::Shown(value, _)) => is_same_user_value(value, &assign.value),
        Some(Value::Tri(_) | Value::Member(_)) | None => false,
    }
}
