ghost use Rattle.std.specs.Prelude.{◌≡◌, false, IfOk, None, if◌then◌else◌, is_ok, map};
ghost use Rattle.std.specs.Option.{option_copied};
ghost use Rattle.kc_statement.specs.Tristate.{is_no, least_of};
ghost use Rattle.kc_tree.specs.ConditionTable.{Condition, factors};
ghost use Rattle.kc_tree.specs.declared.node.Node.{Node};
ghost use Rattle.kc_tree.specs.declared.node.Node.TheVariants.{Vis, Val, Mode, Sel};
ghost use Rattle.kc_tree.specs.Uses.{Uses};
ghost use Rattle.kc_value.specs.Assignment.{Assignment};
ghost use Rattle.kc_value.specs.Conditions.{condition_value, factor_value};
ghost use Rattle.kc_value.specs.Counting.{raised};
ghost use Rattle.kc_value.specs.Dirty.{is_changed};
ghost use Rattle.kc_value.specs.Known.{given};
ghost use Rattle.kc_value.specs.Rule.{rule};
ghost use Rattle.kc_value.specs.UserValues.{UserValues, user_value};

use crate::choice_value::{mode_value, selection_value};
use crate::kept_values::Meter;
use crate::known::Known;
use crate::symbol_value::{symbol_value, symbol_visibility};
use crate::user::User;
use crate::value::Value;
use kc_tree::{ChoiceId, Node, SymId, Tri, UserVal};
use std::alloc::{AllocError, Global};

/// What the rule of a visibility gives.
#[tactic(auto, unfolding(crate::specs::Rule::rule))]
fn visibility(known: &Known<'_>, user: &User, id: SymId) -> Value
    ensures { result ≡ rule known.now.tree user.now (given known.now) (Vis id) }
{
    match known.symbol(id) {
        Some(symbol) => Value::Tri(symbol_visibility(known, symbol)),
        None => Value::Tri(Tri::No),
    }
}

/// What the user gave to a symbol that is visible; to one that is not it makes no difference, and is not read.
fn given_to(user: &User, id: SymId, visibility: Tri) -> Option<&UserVal>
    ensures { option_copied result ≡ (if is_no visibility then None else user_value user.now id) }
{
    if visibility.is_no() {
        return None;
    }
    user.get(id)
}

/// What the rule of a value gives.
#[tactic(auto, unfolding(crate::specs::Rule::rule), using(crate::proofs::UserLemmas::unseen_given))]
fn value(alloc: Global, known: &Known<'_>, user: &User, id: SymId) -> Result<Value, AllocError>
    ensures { IfOk result (λ v. v ≡ rule known.now.tree user.now (given known.now) (Val id)) }
{
    let Some(symbol) = known.symbol(id) else {
        return Ok(Value::Tri(Tri::No));
    };
    let visibility = known.tri(Node::Vis(id));
    symbol_value(
        alloc,
        known,
        id,
        symbol,
        visibility,
        given_to(user, id, visibility),
    )
}

/// What the rule of a mode gives.
#[tactic(auto, unfolding(crate::specs::Rule::rule))]
fn mode(known: &Known<'_>, user: &User, id: ChoiceId) -> Value
    ensures { result ≡ rule known.now.tree user.now (given known.now) (Mode id) }
{
    match known.choice(id) {
        Some(choice) => Value::Tri(mode_value(known, choice, user.chosen(id))),
        None => Value::Tri(Tri::No),
    }
}

/// What the rule of a selection gives.
#[tactic(auto, unfolding(crate::specs::Rule::rule))]
fn selection(known: &Known<'_>, user: &User, id: ChoiceId) -> Value
    ensures { result ≡ rule known.now.tree user.now (given known.now) (Sel id) }
{
    match known.choice(id) {
        Some(choice) => Value::Member(selection_value(known, id, choice, user.chosen(id))),
        None => Value::Tri(Tri::No),
    }
}

/// What the rule of a node gives over the values of the nodes that it uses; n for a node that the tree doesn't have. The
/// error comes where memory is refused for a text.
pub(crate) fn apply_rule(
    alloc: Global,
    known: &Known<'_>,
    user: &User,
    node: Node,
) -> Result<Value, AllocError>
    ensures { IfOk result (λ v. v ≡ rule known.now.tree user.now (given known.now) node) }
{
    match node {
        Node::Vis(id) => Ok(visibility(known, user, id)),
        Node::Val(id) => value(alloc, known, user, id),
        Node::Mode(id) => Ok(mode(known, user, id)),
        Node::Sel(id) => Ok(selection(known, user, id)),
    }
}

/// Evaluates a node, and raises the meter by one: what the node's rule gives (kconfig-language.rst, "Menu
/// attributes") over the values of the nodes that it uses. A node without a value counts as n.
///
/// A rule looks only at the nodes that its node uses: where two assignments give these the same values, it gives the node
/// the same. And it looks only at the user values that change its node: for others it gives the same. What a condition
/// is worth in it is the least of what its factors are worth, and these are in the table by which a node uses others.
///
/// The error comes where memory is refused for a text; the meter stays then.
#[tactic(auto, using(crate::proofs::Agreement::rule_agrees, crate::proofs::Agreement::rule_user, crate::proofs::FactorLaws::value_of_factors))]
pub fn eval(
    alloc: Global,
    known: &Known<'_>,
    user: &User,
    node: Node,
    meter: &mut Meter,
) -> Result<Value, AllocError>
    ensures value { IfOk result (λ v. v ≡ rule known.now.tree user.now (given known.now) node) }
    ensures counted { meter.new ≡ (if is_ok result then raised meter.old 1 else meter.old) }
    ensures agrees { (a b : Assignment) → ((m : Node) → Uses known.now.tree node m → a m ≡ b m)
        → rule known.now.tree user.now a node ≡ rule known.now.tree user.now b node }
    ensures user_enters { (w : UserValues) (a : Assignment) → is_changed known.now.tree user.now w node ≡ false
        → rule known.now.tree user.now a node ≡ rule known.now.tree w a node }
    ensures conditions { (a : Assignment) (c : Condition) → condition_value known.now.tree a c
        ≡ least_of (map (factor_value known.now.tree a) (factors known.now.tree c)) }
{
    let value = apply_rule(alloc, known, user, node)?;
    meter.raise();
    Ok(value)
}
