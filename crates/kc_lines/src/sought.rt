//! Which expressions, defaults and ranges read a node.

ghost use Rattle.std.specs.Prelude.{◌≡◌, position};
ghost use Rattle.std.specs.List.{list_any};
ghost use Rattle.kc_tree.specs.Uses.{modules_nodes, symbol_nodes};
ghost use Rattle.kc_lines.specs.LoopSteps.{has, reads, reads_default, reads_if, reads_range, reads_term, same_node};

use kc_outline::Outline;
use kc_statement::{DefaultValue, Expr, ExprNode, Range, SymId, Term};
use kc_tree::Node;

/// Whether two nodes are the same.
fn same_node(node: Node, other: Node) -> bool
    ensures { result ≡ same_node node other }
{
    match (node, other) {
        (Node::Vis(symbol), Node::Vis(other)) => symbol.0 == other.0,
        (Node::Val(symbol), Node::Val(other)) => symbol.0 == other.0,
        (Node::Mode(choice), Node::Mode(other)) => choice.0 == other.0,
        (Node::Sel(choice), Node::Sel(other)) => choice.0 == other.0,
        (Node::Vis(_) | Node::Val(_) | Node::Mode(_) | Node::Sel(_), _) => false,
    }
}

/// A node that is sought in what lines read.
#[derive(Clone, Copy)]
pub(crate) struct Sought<'o> {
    pub outline: &'o Outline,
    pub node: Node,
}

impl<'o> Sought<'o> {
    /// Whether it is a node.
    pub fn is(&self, node: Node) -> bool
        ensures { result ≡ same_node self.now.node node }
    {
        same_node(self.node, node)
    }

    /// Whether it is the value of a symbol of the tree.
    pub fn is_value(&self, symbol: SymId) -> bool
        ensures { result ≡ has self.now.node (symbol_nodes self.now.outline.now symbol) }
    {
        match self.outline.symbols().get(symbol.0 as usize) {
            Some(_) => self.is(Node::Val(symbol)),
            None => false,
        }
    }

    /// Whether it is the value of `MODULES`.
    pub fn is_modules(&self) -> bool
        ensures { result ≡ has self.now.node (modules_nodes self.now.outline.now) }
    {
        match self.outline.names().symbol("MODULES") {
            Some(modules) => self.is_value(modules),
            None => false,
        }
    }

    /// Whether a term reads it.
    fn in_term(&self, term: &Term) -> bool
        ensures { result ≡ reads_term self.now.outline.now self.now.node term.now }
    {
        match term {
            Term::Symbol(symbol) => self.is_value(*symbol),
            Term::Tri(_) | Term::Text(_) | Term::Undefined(_) => false,
        }
    }

    /// Whether an expression reads it.
    #[cycle(in_expr)]
    fn in_expr(&self, expr: &Expr) -> bool
        ensures { result ≡ reads self.now.outline.now self.now.node expr.now }
    {
        match expr.node() {
            ExprNode::Term(term) => self.in_term(term),
            ExprNode::BareModule(_) => self.is_modules(),
            ExprNode::Compare(_, operands) => {
                self.in_term(&operands.left) || self.in_term(&operands.right)
            }
            ExprNode::Not(_, inner) => self.in_expr(inner),
            ExprNode::Group(inner) => self.in_expr(inner),
            ExprNode::All(parts) => self.in_some(parts.as_slice()),
            ExprNode::Any(parts) => self.in_some(parts.as_slice()),
        }
    }

    /// Whether one of some expressions reads it.
    #[cycle(in_expr)]
    fn in_some(&self, parts: &[Expr]) -> bool
        ensures { result ≡ list_any (reads self.now.outline.now self.now.node) parts.now }
    {
        for part in parts {
            if self.in_expr(part) {
                return true;
            }
        }
        false
    }

    /// Whether the condition after `if` reads it, if there is one.
    pub fn in_condition(&self, condition: &Option<Expr>) -> bool
        ensures { result ≡ reads_if self.now.outline.now self.now.node condition.now }
    {
        match condition {
            Some(condition) => self.in_expr(condition),
            None => false,
        }
    }

    /// Whether a default reads it.
    fn in_default(&self, default: &DefaultValue) -> bool
        ensures { result ≡ reads_default self.now.outline.now self.now.node default.now }
    {
        self.in_expr(&default.value) || self.in_condition(&default.condition)
    }

    /// Whether a range reads it.
    fn in_range(&self, range: &Range) -> bool
        ensures { result ≡ reads_range self.now.outline.now self.now.node range.now }
    {
        self.in_term(&range.low) || self.in_term(&range.high) || self.in_condition(&range.condition)
    }

    /// The place of the first of some expressions that reads it.
    pub fn place_of(&self, lines: &[Expr]) -> Option<usize>
        ensures { result ≡ position (reads self.now.outline.now self.now.node) lines.now }
    {
        lines.iter().position(|line| self.in_expr(line))
    }

    /// The place of the first default that reads it.
    pub fn place_in_defaults(&self, defaults: &[DefaultValue]) -> Option<usize>
        ensures { result ≡ position (reads_default self.now.outline.now self.now.node) defaults.now }
    {
        defaults.iter().position(|default| self.in_default(default))
    }

    /// The place of the first range that reads it.
    pub fn place_in_ranges(&self, ranges: &[Range]) -> Option<usize>
        ensures { result ≡ position (reads_range self.now.outline.now self.now.node) ranges.now }
    {
        ranges.iter().position(|range| self.in_range(range))
    }
}
