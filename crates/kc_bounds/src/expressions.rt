//! Which values expressions may have.

ghost use Rattle.std.specs.Prelude.{◌≡◌};
ghost use Rattle.std.specs.Option.{option_copied};
ghost use Rattle.kc_statement.specs.declared.tri.Tri.{Tri};
ghost use Rattle.kc_statement.specs.Formula.{any_joined};
ghost use Rattle.kc_value.specs.ExprValue.{complements, conditions_value, expr_value, formula_value, modules_value, own_condition, symbol_tri, term_tri};
ghost use Rattle.kc_bounds.specs.Bounds.{CoversIn};
ghost use Rattle.kc_bounds.specs.TriSets.{IsIn};

use crate::comparisons::{comparison_set, constant_of};
use crate::table::ScopedBounds;
use crate::tri_set::TriSet;
use kc_tree::{Expr, ExprNode, Node, SymId, Term, Tri};

/// Which values a symbol may have; a number that the tree doesn't have is n.
pub(crate) fn symbol_set(bounds: &ScopedBounds<'_>, symbol: SymId) -> TriSet
    ensures { CoversIn bounds.now.tree bounds.now.modules result (λ a. symbol_tri bounds.now.tree a symbol) }
{
    match bounds.symbol(symbol) {
        Some(_) => bounds.node(Node::Val(symbol)),
        None => TriSet::only(Tri::No),
    }
}

/// Which values `MODULES` may have: n where it is not defined.
pub(crate) fn modules_set(bounds: &ScopedBounds<'_>) -> TriSet
    ensures { CoversIn bounds.now.tree bounds.now.modules result (λ a. modules_value bounds.now.tree a) }
{
    match bounds.tree().modules() {
        Some(symbol) => symbol_set(bounds, symbol).both(bounds.modules()),
        None => TriSet::only(Tri::No),
    }
}

/// Which values a term that is alone may have.
fn term_set(bounds: &ScopedBounds<'_>, term: &Term) -> TriSet
    ensures { CoversIn bounds.now.tree bounds.now.modules result (λ a. term_tri bounds.now.tree a term.now) }
{
    match term {
        Term::Tri(tri) => TriSet::only(*tri),
        Term::Text(text) => TriSet::only(constant_of(text.as_str()).unwrap_or(Tri::No)),
        Term::Symbol(symbol) => symbol_set(bounds, *symbol),
        Term::Undefined(_) => TriSet::only(Tri::No),
    }
}

/// The values of a set after `count` times `!`: each two cancel.
fn negated(set: TriSet, count: usize) -> TriSet
    ensures { (v : Tri) → IsIn set v → IsIn result (complements count v) }
{
    if count % 2 == 0 {
        set
    } else {
        set.complement()
    }
}

/// Which values an expression may have: those that its parts give, each of them by itself.
#[cycle(expressions)]
pub(crate) fn expr_set(bounds: &ScopedBounds<'_>, expr: &Expr) -> TriSet
    ensures { CoversIn bounds.now.tree bounds.now.modules result (λ a. expr_value bounds.now.tree a expr.now) }
{
    match expr.node() {
        ExprNode::Term(term) => term_set(bounds, term),
        ExprNode::BareModule(_) => TriSet::only(Tri::Module).and(modules_set(bounds)),
        ExprNode::Compare(comparison, operands) => {
            comparison_set(bounds, expr, *comparison, operands)
        }
        ExprNode::Not(count, inner) => negated(expr_set(bounds, inner), *count),
        ExprNode::Group(inner) => expr_set(bounds, inner),
        ExprNode::All(parts) => conditions_set(bounds, parts.as_slice()),
        ExprNode::Any(parts) => any_set(bounds, parts.as_slice()),
    }
}

/// Which values conditions, or the parts of an expression, may have that `&&` joins.
#[cycle(expressions)]
pub(crate) fn conditions_set(bounds: &ScopedBounds<'_>, parts: &[Expr]) -> TriSet
    ensures { CoversIn bounds.now.tree bounds.now.modules result (λ a. conditions_value bounds.now.tree a parts.now) }
{
    let mut least = TriSet::only(Tri::Yes);
    for part in parts {
        least = least.and(expr_set(bounds, part));
    }
    least
}

/// Which values expressions may have that `||` joins.
#[cycle(expressions)]
fn any_set(bounds: &ScopedBounds<'_>, parts: &[Expr]) -> TriSet
    ensures { CoversIn bounds.now.tree bounds.now.modules result (λ a. formula_value bounds.now.tree a (any_joined parts.now)) }
{
    let mut greatest = TriSet::only(Tri::No);
    for part in parts {
        greatest = greatest.or(expr_set(bounds, part));
    }
    greatest
}

/// Which values the condition after `if` may have, y where there is none.
pub(crate) fn own_condition_set(bounds: &ScopedBounds<'_>, condition: Option<&Expr>) -> TriSet
    ensures { CoversIn bounds.now.tree bounds.now.modules result (λ a. own_condition bounds.now.tree a (option_copied condition.entry)) }
{
    match condition {
        Some(expr) => expr_set(bounds, expr),
        None => TriSet::only(Tri::Yes),
    }
}
