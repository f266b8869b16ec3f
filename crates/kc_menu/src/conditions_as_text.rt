//! The conditions of the parts of a tree as texts.

use kc_facts::push_expr;
use kc_statement::{Expr, ExprNode};
use kc_tree::{Tree, Tri};
use kc_value::{Factor, FactorPart, Origin};
use std::alloc::{AllocError, Global};

/// What some factors of a condition have in common.
#[derive(Clone, Copy, PartialEq, Eq)]
pub(crate) enum FactorsOf {
    /// Own `depends on` lines, and what all inside the blocks around depends on.
    Dependencies,
    /// What a prompt depends on besides: its own `if`, and `visible if` lines.
    Prompt,
}

/// Which factors a factor is one of, by where it is; the mode of a choice, which has an object of its own, is of none.
fn are_of(origin: Origin) -> Option<FactorsOf> {
    match origin {
        Origin::Own(_) | Origin::Block(_, _) => Some(FactorsOf::Dependencies),
        Origin::Condition | Origin::Visible(_, _) => Some(FactorsOf::Prompt),
        Origin::Mode | Origin::Missing => None,
    }
}

/// The expression of a factor, if it is one of these.
fn expression_of<'t>(factor: &Factor<'t>, wanted: FactorsOf) -> Option<&'t Expr> {
    if are_of(factor.origin) != Some(wanted) {
        return None;
    }
    match factor.part {
        FactorPart::Expression(expr) => Some(expr),
        FactorPart::Mode(_) | FactorPart::Missing => None,
    }
}

/// The expressions of those factors that are wanted, in their order.
fn expressions<'t>(
    alloc: Global,
    factors: &[Factor<'t>],
    wanted: FactorsOf,
) -> Result<Vec<&'t Expr>, AllocError> {
    let mut expressions = Vec::new(alloc);
    for factor in factors {
        if let Some(expr) = expression_of(factor, wanted) {
            expressions.push(expr)?;
        }
    }
    Ok(expressions)
}

/// Adds a factor that others stand beside: in parentheses where it is a list joined by `||`.
fn push_factor(text: &mut String, tree: &Tree, expr: &Expr) -> Result<(), AllocError> {
    if let ExprNode::Any(_) = expr.node() {
        text.push('(')?;
        push_expr(text, tree, expr)?;
        return text.push(')');
    }
    push_expr(text, tree, expr)
}

/// Expressions joined by `&&`; nothing where there is none.
fn joined(alloc: Global, tree: &Tree, factors: &[&Expr]) -> Result<Option<String>, AllocError> {
    let Some((first, rest)) = factors.split_first() else {
        return Ok(None);
    };
    let mut text = String::new(alloc);
    if rest.is_empty() {
        push_expr(&mut text, tree, first)?;
        return Ok(Some(text));
    }
    push_factor(&mut text, tree, first)?;
    for factor in rest {
        text.push_str(" && ")?;
        push_factor(&mut text, tree, factor)?;
    }
    Ok(Some(text))
}

/// Those factors of a condition that are wanted as a text, joined by `&&`; nothing where there is none.
pub(crate) fn factors_text(
    alloc: Global,
    tree: &Tree,
    factors: &[Factor<'_>],
    wanted: FactorsOf,
) -> Result<Option<String>, AllocError> {
    let expressions = expressions(alloc, factors, wanted)?;
    joined(alloc, tree, expressions.as_slice())
}

/// An expression as a text.
pub(crate) fn expr_text(alloc: Global, tree: &Tree, expr: &Expr) -> Result<String, AllocError> {
    let mut text = String::new(alloc);
    push_expr(&mut text, tree, expr)?;
    Ok(text)
}

/// The condition after an `if` as a text, nothing where there is none.
pub(crate) fn condition_text(
    alloc: Global,
    tree: &Tree,
    condition: Option<&Expr>,
) -> Result<Option<String>, AllocError> {
    match condition {
        Some(expr) => Ok(Some(expr_text(alloc, tree, expr)?)),
        None => Ok(None),
    }
}

/// What a condition is worth: the least of the values of its factors.
pub(crate) fn least_value(factors: &[Factor<'_>]) -> Tri {
    let mut least = Tri::Yes;
    for factor in factors {
        least = least.and(factor.value);
    }
    least
}
