//! Expressions that are one term.

ghost use Rattle.std.specs.Prelude.{◌≡◌};
ghost use Rattle.std.specs.Option.{option_copied};
ghost use Rattle.kc_statement.specs.Grammar.{lone_term, term_alone};

use crate::expr::{Expr, ExprNode, Term};

/// The term that an expression is. It is asked of the values of defaults, in which no m is bare: a bare m is none.
pub fn term_alone(expr: &Expr) -> Option<&Term>
    ensures { option_copied result ≡ term_alone expr.now }
{
    match expr.node() {
        ExprNode::Term(term) => Some(term),
        ExprNode::BareModule(_) | ExprNode::Compare(_, _) | ExprNode::Not(_, _) => None,
        ExprNode::Group(_) | ExprNode::All(_) | ExprNode::Any(_) => None,
    }
}

/// The term that an expression is, where its parentheses are dropped. It is asked of the values of defaults, as
/// [`term_alone`].
pub fn lone_term(expr: &Expr) -> Option<&Term>
    ensures { option_copied result ≡ lone_term expr.now }
{
    match expr.node() {
        ExprNode::Term(term) => Some(term),
        ExprNode::Group(inner) => lone_term(inner),
        ExprNode::BareModule(_) | ExprNode::Compare(_, _) | ExprNode::Not(_, _) => None,
        ExprNode::All(_) | ExprNode::Any(_) => None,
    }
}
