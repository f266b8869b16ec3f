//! The leaves of expressions: their terms and comparisons.

use kc_statement::ExprNode;
use kc_tree::Expr;
use std::alloc::{AllocError, Global};

/// Adds the leaves of an expression, in their order.
#[cycle(add)]
fn add_expr<'e>(leaves: &mut Vec<&'e Expr>, expr: &'e Expr) -> Result<(), AllocError> {
    match expr.node() {
        ExprNode::Term(_) | ExprNode::BareModule(_) | ExprNode::Compare(_, _) => {
            leaves.push(expr)?;
            Ok(())
        }
        ExprNode::Not(_, inner) => add_expr(leaves, inner),
        ExprNode::Group(inner) => add_expr(leaves, inner),
        ExprNode::All(parts) => add_parts(leaves, parts.as_slice()),
        ExprNode::Any(parts) => add_parts(leaves, parts.as_slice()),
    }
}

/// Adds the leaves of expressions.
#[cycle(add)]
fn add_parts<'e>(leaves: &mut Vec<&'e Expr>, parts: &'e [Expr]) -> Result<(), AllocError> {
    for part in parts {
        add_expr(leaves, part)?;
    }
    Ok(())
}

/// The leaves of an expression, in their order: each is a term, an m that stands alone, or a comparison.
///
/// # Errors
///
/// `AllocError` where memory is refused.
pub fn leaves_of<'e>(alloc: Global, expr: &'e Expr) -> Result<Vec<&'e Expr>, AllocError> {
    let mut leaves = Vec::new(alloc);
    add_expr(&mut leaves, expr)?;
    Ok(leaves)
}
