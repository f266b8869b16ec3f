//! Which values comparisons may have.

ghost use Rattle.std.specs.Prelude.{◌≡◌, true, IfSome};
ghost use Rattle.std.specs.Ordering.{int_cmp};
ghost use Rattle.kc_statement.specs.declared.tri.Tri.{Tri};
ghost use Rattle.kc_statement.specs.Formula.{compare};
ghost use Rattle.kc_value.specs.ExprValue.{constant_of, expr_value, is_related, term_order, tri_number, yes_if};
ghost use Rattle.kc_bounds.specs.Bounds.{CoversIn};
ghost use Rattle.kc_bounds.specs.Counting.{CountsWithin, is_fixed};
ghost use Rattle.kc_bounds.specs.TriSets.{IsIn};
ghost use Rattle.kc_statement.specs.declared.expr.Term.TheVariants.{Symbol};

use crate::table::ScopedBounds;
use crate::tri_set::TriSet;
use kc_tree::{Comparison, Expr, Node, Operands, SymId, SymbolType, Term, Tri};
use kc_value::tri;
use std::cmp::Ordering;

/// The constant that a text in quotes is.
pub(crate) fn constant_of(text: &str) -> Option<Tri>
    ensures { result ≡ constant_of text.now }
{
    match text {
        "n" => Some(Tri::No),
        "m" => Some(Tri::Module),
        "y" => Some(Tri::Yes),
        _ => None,
    }
}

/// What a tristate value counts.
fn tri_number(tri: Tri) -> i128
    ensures { result ≡ tri_number tri }
{
    match tri {
        Tri::No => 0,
        Tri::Module => 1,
        Tri::Yes => 2,
    }
}

/// Whether a comparison holds of two terms of this order.
fn is_related(comparison: Comparison, order: Ordering) -> bool
    ensures { result ≡ is_related comparison order }
{
    match comparison {
        Comparison::Equal => order.is_eq(),
        Comparison::NotEqual => order.is_ne(),
        Comparison::Less => order.is_lt(),
        Comparison::LessOrEqual => order.is_le(),
        Comparison::Greater => order.is_gt(),
        Comparison::GreaterOrEqual => order.is_ge(),
    }
}

/// The value of a comparison of two tristate values.
fn compared_tri(comparison: Comparison, left: Tri, right: Tri) -> Tri
    ensures { result ≡ yes_if (is_related comparison (int_cmp (tri_number left) (tri_number right))) }
{
    if is_related(comparison, tri_number(left).cmp(&tri_number(right))) {
        Tri::Yes
    } else {
        Tri::No
    }
}

/// Which values a comparison of a tristate value with those of a set may have.
fn compared_with(comparison: Comparison, left: Tri, right: TriSet) -> TriSet
    ensures { (w : Tri) → IsIn right w
        → IsIn result (yes_if (is_related comparison (int_cmp (tri_number left) (tri_number w)))) }
{
    let no = TriSet::only(compared_tri(comparison, left, Tri::No)).only_if(right.no);
    let module = TriSet::only(compared_tri(comparison, left, Tri::Module)).only_if(right.module);
    let yes = TriSet::only(compared_tri(comparison, left, Tri::Yes)).only_if(right.yes);
    no.joined(module.joined(yes))
}

/// Which values a comparison of the values of two sets may have.
fn compared(comparison: Comparison, left: TriSet, right: TriSet) -> TriSet
    ensures { (v w : Tri) → IsIn left v → IsIn right w
        → IsIn result (yes_if (is_related comparison (int_cmp (tri_number v) (tri_number w)))) }
{
    let no = compared_with(comparison, Tri::No, right).only_if(left.no);
    let module = compared_with(comparison, Tri::Module, right).only_if(left.module);
    let yes = compared_with(comparison, Tri::Yes, right).only_if(left.yes);
    no.joined(module.joined(yes))
}

/// The values that a symbol may count as in a comparison, if it is a bool or a tristate. A number that the tree doesn't
/// have is n.
fn counted_symbol(bounds: &ScopedBounds<'_>, symbol: SymId) -> Option<TriSet>
    ensures { IfSome result (CountsWithin bounds.now.tree bounds.now.modules (Symbol symbol)) }
{
    let Some(found) = bounds.symbol(symbol) else {
        return Some(TriSet::only(Tri::No));
    };
    match found.kind() {
        SymbolType::Bool | SymbolType::Tristate => Some(bounds.node(Node::Val(symbol))),
        SymbolType::String | SymbolType::Int | SymbolType::Hex => None,
    }
}

/// The tristate values that a term may count as in a comparison, if it counts as one.
fn counted(bounds: &ScopedBounds<'_>, term: &Term) -> Option<TriSet>
    ensures { IfSome result (CountsWithin bounds.now.tree bounds.now.modules term.now) }
{
    match term {
        Term::Tri(tri) => Some(TriSet::only(*tri)),
        Term::Text(text) => match constant_of(text.as_str()) {
            Some(tri) => Some(TriSet::only(tri)),
            None => None,
        },
        Term::Symbol(symbol) => counted_symbol(bounds, *symbol),
        Term::Undefined(_) => None,
    }
}

/// Whether a term is no symbol, so that it counts the same whatever the values are.
fn is_fixed(term: &Term) -> bool
    ensures { result ≡ is_fixed term.now }
{
    match term {
        Term::Tri(_) | Term::Text(_) | Term::Undefined(_) => true,
        Term::Symbol(_) => false,
    }
}

/// The value of a comparison without symbols.
fn fixed_set(
    bounds: &ScopedBounds<'_>,
    expr: &Expr,
    comparison: Comparison,
    operands: &Operands,
) -> TriSet
    requires written { expr.now ≡ compare comparison operands.now.left operands.now.right }
    requires left { is_fixed operands.now.left ≡ true }
    requires right { is_fixed operands.now.right ≡ true }
    ensures { CoversIn bounds.now.tree bounds.now.modules result (λ a. expr_value bounds.now.tree a expr.now) }
{
    TriSet::only(tri(&bounds.nothing(), expr))
}

/// Which values a comparison may have, which is the expression: its own without symbols, those that the values of its
/// sides give, where both count as tristate values, and else n and y.
pub(crate) fn comparison_set(
    bounds: &ScopedBounds<'_>,
    expr: &Expr,
    comparison: Comparison,
    operands: &Operands,
) -> TriSet
    requires { expr.now ≡ compare comparison operands.now.left operands.now.right }
    ensures { CoversIn bounds.now.tree bounds.now.modules result (λ a. expr_value bounds.now.tree a expr.now) }
{
    if is_fixed(&operands.left) && is_fixed(&operands.right) {
        return fixed_set(bounds, expr, comparison, operands);
    }
    counted_set(bounds, comparison, operands)
}

/// Which values a comparison may have by those of its sides.
fn counted_set(bounds: &ScopedBounds<'_>, comparison: Comparison, operands: &Operands) -> TriSet
    ensures { CoversIn bounds.now.tree bounds.now.modules result (λ a. yes_if (is_related comparison
        (term_order bounds.now.tree a operands.now.left operands.now.right))) }
{
    let left = counted(bounds, &operands.left);
    let right = counted(bounds, &operands.right);
    match (left, right) {
        (Some(left), Some(right)) => compared(comparison, left, right),
        (Some(_), None) | (None, _) => TriSet::of_test(),
    }
}
