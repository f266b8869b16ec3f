//! Why a symbol has its value: the branch of the rule that gives it.

ghost use Rattle.std.specs.Prelude.{◌≡◌, [], ◌∷◌, Some, IfOk};
ghost use Rattle.kc_tree.specs.declared.node.Node.TheVariants.{Val};
ghost use Rattle.kc_tree.specs.Accepted.{IsAccepted};
ghost use Rattle.kc_tree.specs.Nodes.{IsNodeOf};
ghost use Rattle.kc_value.specs.declared.reason.Reason.{Reason};
ghost use Rattle.kc_value.specs.Reasons.{IsReason, given_by};
ghost use Rattle.kc_value.specs.Replay.{shown_in};
ghost use Rattle.kc_value.specs.Known.{given};
ghost use Rattle.kc_value.specs.Solution.{solution, AreSolved, IsOnlySolution};

use crate::asked_values::values_of_used;
use crate::known::Known;
use crate::places::{DefaultPlace, RangePlace};
use crate::reason_branches::{member_reason, text_reason, tri_reason};
use crate::resolver::Resolver;
use crate::user::User;
use kc_tree::{Node, SymId, SymbolType};
use std::alloc::{AllocError, Global};

/// The branch of the rule that gives a symbol its value (this project's own names for what docs/VALUES.md describes).
/// What a symbol shows has its type, so an m that a bool shows as y is no branch of its own.
#[derive(Clone, Copy, Debug, PartialEq, Eq)]
pub enum Reason {
    /// The user value, as it is.
    User,
    /// The user value, as far as the visibility and the type allow: the symbol shows another.
    UserWithin,
    /// The user value is outside the active range, so the first active default counts, or the empty text, as far as the
    /// range lets it.
    OutsideRange {
        range: RangePlace,
        default: Option<DefaultPlace>,
    },
    /// The first active default, as it is.
    Default(DefaultPlace),
    /// The first active default, or the empty text, is past a bound of the active range, and that bound is the value.
    Bound {
        range: RangePlace,
        default: Option<DefaultPlace>,
    },
    /// An `imply` line, by its place among those of the symbol: the first that gives the most, which is more than the
    /// default.
    Implied(usize),
    /// A `select` line, by its place among those of the symbol: the first that gives the most, which is more than the
    /// symbol would show without it.
    Selected(usize),
    /// Its choice selects it.
    Chosen,
    /// Its choice selects this member.
    OtherChosen(SymId),
    /// Its choice selects no member.
    NoneChosen,
    /// The dependencies of all its definitions are n.
    NoDependencies,
    /// Nothing gives it a value: it has n or the empty text.
    Nothing,
}

/// The reason over the values of the nodes that the value of the symbol is computed from.
#[tactic(auto, unfolding(crate::specs::Reasons::IsReason))]
fn reason_among(known: &Known<'_>, user: &User, id: SymId) -> Reason
    ensures reason { IsReason known.now.tree user.now (given known.now) id result }
    ensures accepted { IsAccepted known.now.tree }
{
    let Some(symbol) = known.symbol(id) else {
        return Reason::Nothing;
    };
    if let Some(choice) = symbol.choice() {
        return member_reason(known, choice, id);
    }
    let visibility = known.tri(Node::Vis(id));
    match symbol.kind() {
        SymbolType::Bool | SymbolType::Tristate => {
            tri_reason(known, symbol, visibility, user.get(id))
        }
        SymbolType::String | SymbolType::Int | SymbolType::Hex => {
            text_reason(known, symbol, visibility, user.get(id))
        }
    }
}

/// Why a symbol has its value, over the values of all nodes: the one branch of the rule that gives it, which gives just
/// this value. That the tree has one solution, and no other, holds besides.
pub fn reason_over(known: &Known<'_>, user: &User, symbol: SymId) -> Reason
    requires inside { IsNodeOf known.now.tree (Val symbol) }
    requires solved { AreSolved known.now.tree user.now known.now.values }
    ensures reason { IsReason known.now.tree user.now (solution known.now.tree user.now) symbol result }
    ensures only { (other : Reason) → IsReason known.now.tree user.now (solution known.now.tree user.now) symbol other
        → other ≡ result }
    ensures gives { shown_in (solution known.now.tree user.now (Val symbol))
        ≡ Some (given_by known.now.tree user.now (solution known.now.tree user.now) symbol result) }
    ensures one { IsOnlySolution known.now.tree user.now (solution known.now.tree user.now) }
{
    reason_among(known, user, symbol)
}

/// Why a symbol has its value, as [`reason_over`] says it, from a resolver, which is asked for the node of the value
/// alone.
///
/// # Errors
///
/// The error comes where memory is refused.
pub fn reason_of<R: Resolver>(
    alloc: Global,
    resolver: &mut R,
    symbol: SymId,
) -> Result<Reason, AllocError>
    requires { IsNodeOf (R.tree_of resolver.old) (Val symbol) }
    ensures reason { IfOk result (λ r. IsReason (R.tree_of resolver.old) (R.user_of resolver.old)
        (solution (R.tree_of resolver.old) (R.user_of resolver.old)) symbol r) }
    ensures only { IfOk result (λ r. (other : Reason) → IsReason (R.tree_of resolver.old) (R.user_of resolver.old)
        (solution (R.tree_of resolver.old) (R.user_of resolver.old)) symbol other → other ≡ r) }
    ensures gives { IfOk result (λ r. shown_in (solution (R.tree_of resolver.old) (R.user_of resolver.old) (Val symbol))
        ≡ Some (given_by (R.tree_of resolver.old) (R.user_of resolver.old)
        (solution (R.tree_of resolver.old) (R.user_of resolver.old)) symbol r)) }
    ensures tree { R.tree_of resolver.new ≡ R.tree_of resolver.old }
    ensures user { R.user_of resolver.new ≡ R.user_of resolver.old }
    ensures grew { R.grew resolver.old resolver.new (Val symbol ∷ []) }
{
    let used = values_of_used(alloc, resolver, Node::Val(symbol))?;
    let known = Known::of_nodes(resolver.tree(), &used);
    Ok(reason_among(&known, resolver.user(), symbol))
}
