//! The values of expressions.

ghost use Rattle.std.specs.Prelude.{◌≡◌};
ghost use Rattle.std.specs.Option.{option_copied};
ghost use Rattle.kc_statement.specs.Formula.{any_joined};
ghost use Rattle.kc_value.specs.Known.{given};
ghost use Rattle.kc_value.specs.ExprValue.{symbol_tri, modules_value, term_tri, complements, formula_value, expr_value, conditions_value, own_condition};

use crate::comparison::{comparison_tri, constant_of};
use crate::known::Known;
use kc_tree::{Expr, ExprNode, Node, SymId, Term, Tri};

/// The value of a symbol, whatever its visibility.
pub(crate) fn symbol_tri(known: &Known<'_>, symbol: SymId) -> Tri
    ensures { result ≡ symbol_tri known.now.tree (given known.now) symbol }
{
    match known.symbol(symbol) {
        Some(_) => known.tri(Node::Val(symbol)),
        None => Tri::No,
    }
}

/// The value of `MODULES`, n where it is not defined.
pub(crate) fn modules_tri(known: &Known<'_>) -> Tri
    ensures { result ≡ modules_value known.now.tree (given known.now) }
{
    match known.tree().modules() {
        Some(symbol) => symbol_tri(known, symbol),
        None => Tri::No,
    }
}

/// The value of a term that is alone.
fn term_tri(known: &Known<'_>, term: &Term) -> Tri
    ensures { result ≡ term_tri known.now.tree (given known.now) term.now }
{
    match term {
        Term::Tri(tri) => *tri,
        Term::Text(text) => constant_of(text.as_str()).unwrap_or(Tri::No),
        Term::Symbol(symbol) => symbol_tri(known, *symbol),
        Term::Undefined(_) => Tri::No,
    }
}

/// A value after `count` times `!`: each two cancel.
fn negated(value: Tri, count: usize) -> Tri
    ensures { result ≡ complements count value }
{
    if count % 2 == 0 {
        value
    } else {
        value.complement()
    }
}

/// The value of an expression (kconfig-language.rst, "Menu dependencies"): `&&` is the least, `||` the greatest, `!` the
/// complement. A bool or tristate symbol counts as its value (n where it has none), n, m and y as themselves, and other
/// texts as n. A comparison is y or n.
/// An m that stood alone where a condition was read means `m && MODULES`.
#[cycle(expr_value)]
pub fn tri(known: &Known<'_>, expr: &Expr) -> Tri
    ensures { result ≡ expr_value known.now.tree (given known.now) expr.now }
{
    match expr.node() {
        ExprNode::Term(term) => term_tri(known, term),
        ExprNode::BareModule(_) => Tri::Module.and(modules_tri(known)),
        ExprNode::Compare(comparison, operands) => comparison_tri(known, *comparison, operands),
        ExprNode::Not(count, inner) => negated(tri(known, inner), *count),
        ExprNode::Group(inner) => tri(known, inner),
        ExprNode::All(parts) => conditions_tri(known, parts.as_slice()),
        ExprNode::Any(parts) => any_tri(known, parts.as_slice()),
    }
}

/// The value of conditions, or of the parts of an expression, that `&&` joins. After one that is n the others make no
/// difference.
#[cycle(expr_value)]
pub(crate) fn conditions_tri(known: &Known<'_>, parts: &[Expr]) -> Tri
    ensures { result ≡ conditions_value known.now.tree (given known.now) parts.now }
{
    let mut least = Tri::Yes;
    for part in parts {
        if least.is_no() {
            return Tri::No;
        }
        least = least.and(tri(known, part));
    }
    least
}

/// The value of expressions that `||` joins. After one that is y the others make no difference.
#[cycle(expr_value)]
fn any_tri(known: &Known<'_>, parts: &[Expr]) -> Tri
    ensures { result ≡ formula_value known.now.tree (given known.now) (any_joined parts.now) }
{
    let mut greatest = Tri::No;
    for part in parts {
        if matches!(greatest, Tri::Yes) {
            return Tri::Yes;
        }
        greatest = greatest.or(tri(known, part));
    }
    greatest
}

/// The value of the condition after `if`, y where there is none.
pub(crate) fn own_condition_tri(known: &Known<'_>, condition: Option<&Expr>) -> Tri
    ensures { result ≡ own_condition known.now.tree (given known.now) (option_copied condition.entry) }
{
    match condition {
        Some(expr) => tri(known, expr),
        None => Tri::Yes,
    }
}
