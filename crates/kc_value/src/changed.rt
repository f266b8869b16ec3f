//! The values and selections that are others than without the user's own.

ghost use Rattle.std.specs.Prelude.{◌≡◌, ◌↔◌, true, IfOk};
ghost use Rattle.kc_tree.specs.Accepted.{IsAccepted};
ghost use Rattle.kc_tree.specs.Nodes.{IsNodeOf};
ghost use Rattle.kc_value.specs.ChangedValue.{same_user_value, same_value, changed_value, ChangesAreJustEnough};
ghost use Rattle.kc_value.specs.Known.{given};
ghost use Rattle.kc_value.specs.Solution.{solution, AreSolved, IsOnlySolution};
ghost use Rattle.kc_value.specs.UserValues.{UserValues};
ghost use Rattle.kc_value.specs.Without.{IsOwned};

use crate::known::Known;
use crate::value::{Value, copy_of};
use crate::without::value_without;
use kc_tree::{Node, Tri, UserVal};
use std::alloc::{AllocError, Global};

/// Whether two user values are the same; texts are so as they are spelt.
pub fn is_same_user_value(left: &UserVal, right: &UserVal) -> bool
    ensures { result ≡ same_user_value left.now right.now }
{
    match (left, right) {
        (UserVal::Tri(left), UserVal::Tri(right)) => *left == *right,
        (UserVal::Text(left), UserVal::Text(right)) => left.as_str() == right.as_str(),
        (UserVal::Tri(_), UserVal::Text(_)) | (UserVal::Text(_), UserVal::Tri(_)) => false,
    }
}

/// Whether two values are the same, and have a line in the `.config` alike.
#[tactic(auto, using(crate::proofs::SameLaws::same_is))]
fn is_same_value(left: &Value, right: &Value) -> bool
    ensures test { result ≡ same_value left.now right.now }
    ensures exact { (result ≡ true) ↔ (left.now ≡ right.now) }
{
    match (left, right) {
        (Value::Tri(left), Value::Tri(right)) => *left == *right,
        (Value::Shown(left, left_mark), Value::Shown(right, right_mark)) => {
            is_same_user_value(left, right) && *left_mark == *right_mark
        }
        (Value::Member(left), Value::Member(right)) => *left == *right,
        _ => false,
    }
}

/// A copy of the value of a node.
fn value_at(known: &Known<'_>, node: Node) -> Result<Value, AllocError>
    ensures value { IfOk result (λ v. v ≡ given known.now node) }
    ensures accepted { IsAccepted known.now.tree }
{
    match known.get(node) {
        Some(value) => copy_of(value),
        None => Ok(Value::Tri(Tri::No)),
    }
}

/// The value of a symbol or the selection of a choice, where it is another than it would be without the user's own
/// value or chosen member, all else as it is; none where that makes no difference. `known` has the value of each node,
/// by number. Texts are compared as they are spelt.
///
/// User values that hold just these, of all symbols and choices, give each visibility, value and selection as it is,
/// and each mode but that of an optional choice, which is n where it selects none. None of them can be omitted: user
/// values that give the same values and selections have one for each symbol and each choice that has one here. That the
/// tree has one solution, and no other, for any user values holds whatever the call returns.
///
/// The error comes where memory is refused.
#[tactic(auto, using(crate::proofs::ChangedLaws::just_enough), unfolding(crate::specs::ChangedValue::changed_value))]
pub fn changed_value(
    alloc: Global,
    known: &Known<'_>,
    node: Node,
) -> Result<Option<Value>, AllocError>
    requires inside { IsNodeOf known.now.tree node }
    requires owned { IsOwned node }
    ensures value { (u : UserValues) → AreSolved known.now.tree u known.now.values
        → IfOk result (λ v. v ≡ changed_value known.now.tree u node) }
    ensures solved { (u : UserValues) → IsOnlySolution known.now.tree u (solution known.now.tree u) }
    ensures laws { (u : UserValues) → ChangesAreJustEnough known.now.tree u }
{
    let value = value_at(known, node)?;
    let without = value_without(alloc, known, node)?;
    if is_same_value(&value, &without) {
        return Ok(None);
    }
    Ok(Some(value))
}
