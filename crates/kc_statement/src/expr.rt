ghost use Rattle.std.specs.Prelude.{◌≡◌};
ghost use Rattle.kc_statement.specs.NodeFormula.{node_formula, IsKept};

use crate::id::SymId;
use crate::shared_text::SharedText;
use crate::tri::Tri;
use std::marker::Model;

/// How a comparison compares (kconfig-language.rst, "Menu dependencies").
#[derive(Clone, Copy, Debug, PartialEq, Eq)]
pub enum Comparison {
    /// `=`
    Equal,
    /// `!=`
    NotEqual,
    /// `<`
    Less,
    /// `<=`
    LessOrEqual,
    /// `>`
    Greater,
    /// `>=`
    GreaterOrEqual,
}

/// A term of an expression (kconfig-language.rst, "Menu dependencies").
#[derive(Debug, Drop)]
pub enum Term {
    /// One of the words n, m and y.
    Tri(Tri),
    /// A text in quotes. The texts n, m and y are the constants that the words are.
    Text(SharedText),
    /// A defined symbol.
    Symbol(SymId),
    /// A word that no definition names.
    Undefined(SharedText),
}

/// The two terms of a comparison.
#[derive(Debug, Drop)]
pub struct Operands {
    pub left: Term,
    pub right: Term,
}

/// How an expression is written, by which m counts where it is alone (Kconfiglib, "_parse_expr").
#[derive(Clone, Copy, Debug, PartialEq, Eq)]
pub enum ExprKind {
    /// A condition: after `if`, `depends on` or `visible if`. There m alone means `m && MODULES`.
    Condition,
    /// The value of a default. There m is a term like any other.
    Value,
}

/// What an expression is on the outside (kconfig-language.rst, "Menu dependencies").
#[cycle(expr)]
#[derive(Debug, Drop)]
pub enum ExprNode {
    /// A term alone: in a condition no m.
    Term(Term),
    /// The constant m alone in a condition, a word or a text in quotes as it was written. It means `m && MODULES`.
    BareModule(Term),
    /// A comparison, whose terms are what they are anywhere, m too.
    Compare(Comparison, Box<Operands>),
    /// After a run of `!`, with their count, one or more. What comes after them has no `!` at its front.
    Not(usize, Box<Expr>),
    /// In parentheses.
    Group(Box<Expr>),
    /// Two or more, joined by `&&`, none of which is such a list itself.
    All(Vec<Expr>),
    /// Two or more, joined by `||`, none of which is such a list itself.
    Any(Vec<Expr>),
}

/// An expression as it was written (kconfig-language.rst, "Menu dependencies"). It is as deep as the parentheses of its
/// line, twice where `!` come before each, and not as its `!`, `&&` and `||` are many. Contracts see the formula that
/// it is, so that two expressions that are written alike are equal to them.
#[cycle(expr)]
#[derive(Debug, Drop)]
pub struct Expr {
    node: ExprNode,
}

impl Model for Expr {
    ghost use Rattle.kc_statement.specs.Formula.{Formula, marks};
    ghost use Rattle.kc_statement.specs.FormulaCode.{formula_code};

    ghost Value = { Formula };

    ghost coded = { formula_code };

    ghost use Rattle.kc_statement.specs.NodeFormula.{node_formula, IsKept};

    ghost view = { λ a. node_formula a.node };

    ghost invariant = { λ a. IsKept a.node };

    ghost size = { marks };

    ghost use Rattle.kc_statement.specs.NodeFalls.{node_falls};

    ghost size_decreases = { λ a h. node_falls a.node h };
}

impl Expr {
    /// The expression that a node is.
    pub(crate) fn of(node: ExprNode) -> Expr
        requires { IsKept node }
        ensures { result ≡ node_formula node }
    {
        Expr { node }
    }

    /// What it is on the outside.
    pub fn node(&self) -> &ExprNode
        ensures formula { node_formula result.now ≡ self.now }
        ensures kept { IsKept result.now }
    {
        &self.node
    }
}
