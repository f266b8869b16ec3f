//! What is wanted on the way, and what can be done for it.

use kc_tree::{ChoiceId, Expr, ExprNode, Reverse, SymId, Term, Tri};

/// Something that is to be so. Of a text it has the place among the texts of the search.
#[derive(Clone, Copy)]
pub(crate) enum Goal<'t> {
    /// The value of a bool or a tristate is at least this.
    AtLeast(SymId, Tri),
    /// It is at most this.
    AtMost(SymId, Tri),
    /// The value of a string, an int or a hex is this text.
    Text(SymId, usize),
    /// An expression is at least this.
    ExprAtLeast(&'t Expr, Tri),
    /// It is at most this.
    ExprAtMost(&'t Expr, Tri),
    /// A choice can be made.
    Open(ChoiceId),
    /// A choice can't be made.
    Closed(ChoiceId),
    /// What a `select` or an `imply` gives is at most this.
    ReverseAtMost(&'t Reverse, Tri),
}

/// What is done to the user values.
#[derive(Clone, Copy)]
pub(crate) enum Deed {
    Nothing,
    /// A bool or a tristate is given a value.
    Give(SymId, Tri),
    /// A string, an int or a hex is given the text of this place.
    GiveText(SymId, usize),
    /// A member of a choice is chosen.
    Choose(ChoiceId, SymId),
}

/// A way to a goal: first other goals, then a deed.
#[derive(Drop)]
pub(crate) struct Way<'t> {
    pub cost: u32,
    pub goals: Vec<Goal<'t>>,
    pub deed: Deed,
}

/// What is still to be done.
#[derive(Clone, Copy)]
pub(crate) enum Task<'t> {
    /// A goal, and how often it was tried.
    Goal(Goal<'t>, u32),
    /// A deed, unless its goal holds by then.
    Deed(Deed, Goal<'t>),
}

/// How deep parentheses and `!` can be, each twice.
const MOST_WRAPPED: usize = 256;

/// The goal that an expression is at least, or at most, a value: said of a symbol, where the expression is one, and
/// without the `!` and the parentheses around it.
pub(crate) fn expr_goal<'t>(expr: &'t Expr, is_least: bool, bound: Tri) -> Goal<'t> {
    let (mut expr, mut is_least, mut bound) = (expr, is_least, bound);
    for _ in 0..MOST_WRAPPED {
        match expr.node() {
            ExprNode::Group(inner) => expr = inner,
            ExprNode::Not(count, inner) => {
                if count % 2 == 1 {
                    is_least = !is_least;
                    bound = bound.complement();
                }
                expr = inner;
            }
            ExprNode::Term(Term::Symbol(symbol)) => return symbol_goal(*symbol, is_least, bound),
            _ => break,
        }
    }
    if is_least {
        Goal::ExprAtLeast(expr, bound)
    } else {
        Goal::ExprAtMost(expr, bound)
    }
}

/// The same of a symbol.
fn symbol_goal<'t>(symbol: SymId, is_least: bool, bound: Tri) -> Goal<'t> {
    if is_least {
        Goal::AtLeast(symbol, bound)
    } else {
        Goal::AtMost(symbol, bound)
    }
}

/// Whether a value is less than another one.
pub(crate) fn is_less(value: Tri, bound: Tri) -> bool {
    value.or(bound) != value
}
