//! The values that a user can give a symbol with an effect.

ghost use Rattle.std.specs.Prelude.{◌≡◌, [], ◌∷◌, false, Some, IfOk, filter, is_some};
ghost use Rattle.std.specs.List.{list_any};
ghost use Rattle.kc_tree.specs.declared.node.Node.{Node};
ghost use Rattle.kc_tree.specs.declared.node.Node.TheVariants.{Vis, Val};
ghost use Rattle.kc_tree.specs.declared.user_value.UserVal.TheVariants.{Tri as TriVal};
ghost use Rattle.kc_statement.specs.declared.tri.Tri.TheVariants.{No, Module, Yes};
ghost use Rattle.kc_tree.specs.Accepted.{IsAccepted};
ghost use Rattle.kc_tree.specs.Nodes.{IsNodeOf};
ghost use Rattle.kc_tree.specs.Uses.{Uses};
ghost use Rattle.kc_outline.specs.TreeValue.{choice_of};
ghost use Rattle.kc_value.specs.Assignable.{same_tri, values_of_type, is_shown_with_some, assignable_values};
ghost use Rattle.kc_value.specs.Known.{given};
ghost use Rattle.kc_value.specs.LineValues.{shown_by};
ghost use Rattle.kc_value.specs.Solution.{solution, AreSolved, IsOnlySolution};
ghost use Rattle.kc_value.specs.UserValues.{UserValues, IsUserFor};

use crate::asked_values::values_of_used;
use crate::known::Known;
use crate::resolver::Resolver;
use crate::symbol_value::{LineValues, line_values};
use kc_tree::{Node, SymId, SymbolType, Tree, Tri, UserVal};
use std::alloc::{AllocError, Global};

/// The values of a type: n and y of a bool, n, m and y of a tristate, and none of a string, an int or a hex.
fn values_of_type(kind: SymbolType) -> &'static [Tri]
    ensures { result.now ≡ values_of_type kind }
{
    match kind {
        SymbolType::Bool => &[Tri::No, Tri::Yes],
        SymbolType::Tristate => &[Tri::No, Tri::Module, Tri::Yes],
        SymbolType::String | SymbolType::Int | SymbolType::Hex => &[],
    }
}

/// Whether a symbol of this visibility shows a value with a user value; `lines` is what its lines give.
fn is_shown_with(lines: LineValues, visibility: Tri, given: Tri, value: Tri) -> bool
    ensures { result ≡ same_tri (shown_by lines visibility (Some (TriVal given))) value }
{
    lines.shown(visibility, Some(&UserVal::Tri(given))) == value
}

/// Whether it shows a value with one of some user values.
fn is_shown(lines: LineValues, visibility: Tri, given: &[Tri], value: Tri) -> bool
    ensures { result ≡ list_any (λ v. same_tri (shown_by lines visibility (Some (TriVal v))) value) given.now }
{
    given
        .iter()
        .any(|given| is_shown_with(lines, visibility, *given, value))
}

/// Those of n, m and y, in this order, that it shows with one of some user values. The error comes where memory is refused.
fn shown_with_some(
    alloc: Global,
    lines: LineValues,
    visibility: Tri,
    given: &[Tri],
) -> Result<Vec<Tri>, AllocError>
    ensures { IfOk result (λ v. v.items
        ≡ filter (λ w. list_any (λ v. same_tri (shown_by lines visibility (Some (TriVal v))) w) given.now) (No ∷ Module ∷ Yes ∷ [])) }
{
    values_of_type(SymbolType::Tristate)
        .iter()
        .copied()
        .filter(|value| is_shown(lines, visibility, given, *value))
        .collect(alloc)
}

/// The values that a symbol, which is no member of a choice, shows for some user value of its type, in the order n, m,
/// y, over the values of the nodes that it is computed from. The error comes where memory is refused.
fn shown_values(alloc: Global, known: &Known<'_>, id: SymId) -> Result<Vec<Tri>, AllocError>
    requires inside { IsNodeOf known.now.tree (Val id) }
    requires alone { is_some (choice_of known.now.tree id) ≡ false }
    ensures { (u : UserValues) → IsUserFor known.now.tree u → IfOk result (λ v. v.items
        ≡ filter (is_shown_with_some known.now.tree u (given known.now) id) (No ∷ Module ∷ Yes ∷ [])) }
{
    let Some(symbol) = known.symbol(id) else {
        return Ok(Vec::new(alloc));
    };
    let lines = line_values(known, symbol);
    let visibility = known.tri(Node::Vis(id));
    shown_with_some(alloc, lines, visibility, values_of_type(symbol.kind()))
}

/// Whether a symbol is a member of a choice.
fn is_member(tree: &Tree, symbol: SymId) -> bool
    ensures member { result ≡ is_some (choice_of tree.now symbol) }
    ensures accepted { IsAccepted tree.now }
{
    match tree.symbols().get(symbol.0 as usize) {
        Some(symbol) => symbol.choice().is_some(),
        None => false,
    }
}

/// A value alone. The error comes where memory is refused.
fn one_value(alloc: Global, value: Tri) -> Result<Vec<Tri>, AllocError>
    ensures { IfOk result (λ v. v.items ≡ value ∷ []) }
{
    let mut values = Vec::with_capacity(alloc, 1)?;
    values.push(value)?;
    Ok(values)
}

/// The values that a user can give a symbol with an effect, in the order n, m, y (Kconfiglib,
/// "assignable"): of a visible symbol those that it would show for some user value of its type, all else
/// as it is, y alone of a visible member of a choice, and none of an invisible symbol and of a string, an int
/// or a hex. The resolver is asked for the symbol's nodes alone. That the tree has one solution, and no other, holds
/// whatever the call returns.
///
/// The error comes where memory is refused.
pub fn assignable<R: Resolver>(
    alloc: Global,
    resolver: &mut R,
    symbol: SymId,
) -> Result<Vec<Tri>, AllocError>
    requires { IsNodeOf (R.tree_of resolver.old) (Vis symbol) }
    ensures values { IfOk result
        (λ v. v.items ≡ assignable_values (R.tree_of resolver.old) (R.user_of resolver.old) symbol) }
    ensures solved { IsOnlySolution (R.tree_of resolver.old) (R.user_of resolver.old)
        (solution (R.tree_of resolver.old) (R.user_of resolver.old)) }
    ensures tree { R.tree_of resolver.new ≡ R.tree_of resolver.old }
    ensures user { R.user_of resolver.new ≡ R.user_of resolver.old }
    ensures grew { R.grew resolver.old resolver.new (Vis symbol ∷ Val symbol ∷ []) }
{
    let used = values_of_used(alloc, resolver, Node::Val(symbol))?;
    assignable_among(alloc, &Known::of_nodes(resolver.tree(), &used), symbol)
}

/// The values that a user can give a symbol with an effect, as [`assignable`] has them, over the values of all nodes, or
/// of those that the value of the symbol is computed from. That the tree has one solution, and no other, holds whatever
/// the call returns.
///
/// The error comes where memory is refused.
pub fn assignable_among(
    alloc: Global,
    known: &Known<'_>,
    symbol: SymId,
) -> Result<Vec<Tri>, AllocError>
    requires inside { IsNodeOf known.now.tree (Vis symbol) }
    ensures values { (u : UserValues) → IsUserFor known.now.tree u → AreSolved known.now.tree u known.now.values
        → IfOk result (λ v. v.items ≡ assignable_values known.now.tree u symbol) }
    ensures used { (u : UserValues) → IsUserFor known.now.tree u
        → ((n : Node) → Uses known.now.tree (Val symbol) n → given known.now n ≡ solution known.now.tree u n)
        → IfOk result (λ v. v.items ≡ assignable_values known.now.tree u symbol) }
    ensures solved { (u : UserValues) → IsOnlySolution known.now.tree u (solution known.now.tree u) }
{
    if known.tri(Node::Vis(symbol)).is_no() {
        return Ok(Vec::new(alloc));
    }
    if is_member(known.tree(), symbol) {
        return one_value(alloc, Tri::Yes);
    }
    shown_values(alloc, known, symbol)
}
