//! What it costs to change the value of an expression or of a condition, by the costs of the cells that it reads. A cost is
//! the least of its ways, each the sum of what it needs, taken apart from one another: so it can't see that two are at odds.

use crate::costs::{Costs, NEVER, change_of, plus};
use crate::weights::{CHANGED_LINE, FALL, FALL_OF_USER, LINE, TEXT_LINE};
use kc_tree::{
    BlockId, Cell, Comparison, Expr, ExprNode, Node, Operands, Reverse, SymId, Term, Tree, Tri,
};
use kc_value::{Known, User, tri};

/// The most that it costs by the estimate to show a symbol whose text is to change.
pub(crate) const MOST_TO_SHOW: u32 = 60;

/// What is asked for costs: the tree, the values of all nodes, the user values, and the costs of the cells that were
/// passed.
#[derive(Drop)]
pub(crate) struct Prices<'p, 'c> {
    pub tree: &'p Tree,
    pub known: &'p Known<'p>,
    pub user: &'p User,
    cells: &'c [Costs],
}

/// About how many times a number has to be halved.
fn log2(number: usize) -> u32 {
    64 - (number as u64).leading_zeros().min(64)
}

impl<'p, 'c> Prices<'p, 'c> {
    pub fn new(
        tree: &'p Tree,
        known: &'p Known<'p>,
        user: &'p User,
        cells: &'c [Costs],
    ) -> Prices<'p, 'c> {
        Prices {
            tree,
            known,
            user,
            cells,
        }
    }

    /// Those of the cell of a number.
    fn numbered(&self, number: usize) -> Costs {
        match self.cells.get(number) {
            Some(costs) => *costs,
            None => Costs::of_constant(Tri::No),
        }
    }

    /// Those of a node.
    pub fn node(&self, node: Node) -> Costs {
        self.numbered(self.tree.number(node))
    }

    /// Those of the value of a symbol.
    pub fn symbol(&self, symbol: SymId) -> Costs {
        self.node(Node::Val(symbol))
    }

    /// Those of what a definition depends on.
    pub fn definition(&self, number: usize) -> Costs {
        if number >= self.tree.definitions().len() {
            return Costs::of_constant(Tri::No);
        }
        self.numbered(self.tree.cell_number(Cell::Definition(number)))
    }

    /// Those of what all inside a block depends on.
    pub fn depends(&self, block: Option<BlockId>) -> Costs {
        match block {
            Some(block) if block.0 < self.tree.blocks().len() => {
                self.numbered(self.tree.cell_number(Cell::Depends(block)))
            }
            Some(_) | None => Costs::of_constant(Tri::Yes),
        }
    }

    /// Those of what the prompts inside a block depend on besides.
    pub fn visible(&self, block: Option<BlockId>) -> Costs {
        match block {
            Some(block) if block.0 < self.tree.blocks().len() => {
                self.numbered(self.tree.cell_number(Cell::Visible(block)))
            }
            Some(_) | None => Costs::of_constant(Tri::Yes),
        }
    }

    /// Those of `MODULES`.
    pub fn modules(&self) -> Costs {
        match self.tree.modules() {
            Some(symbol) => self.symbol(symbol),
            None => Costs::of_constant(Tri::No),
        }
    }

    /// Those of a term alone.
    fn term(&self, term: &Term) -> Costs {
        match term {
            Term::Tri(tri) => Costs::of_constant(*tri),
            Term::Symbol(symbol) => self.symbol(*symbol),
            Term::Text(text) => Costs::of_constant(constant_of(text.as_str())),
            Term::Undefined(_) => Costs::of_constant(Tri::No),
        }
    }

    /// Those of an expression.
    #[cycle(price)]
    pub fn expr(&self, expr: &Expr) -> Costs {
        match expr.node() {
            ExprNode::Term(term) => self.term(term),
            ExprNode::BareModule(_) => Costs::of_constant(Tri::Module).and(self.modules()),
            ExprNode::Compare(comparison, operands) => {
                self.comparison(tri(self.known, expr), *comparison, operands)
            }
            ExprNode::Not(count, inner) => self.expr(inner).negated(*count),
            ExprNode::Group(inner) => self.expr(inner),
            ExprNode::All(parts) => self.all(parts.as_slice()),
            ExprNode::Any(parts) => self.any(parts.as_slice()),
        }
    }

    /// Those of expressions that `&&` joins.
    #[cycle(price)]
    pub fn all(&self, parts: &[Expr]) -> Costs {
        let mut costs = Costs::of_constant(Tri::Yes);
        for part in parts {
            costs = costs.and(self.expr(part));
        }
        costs
    }

    /// Those of expressions that `||` joins.
    #[cycle(price)]
    fn any(&self, parts: &[Expr]) -> Costs {
        let mut costs = Costs::of_constant(Tri::No);
        for part in parts {
            costs = costs.or(self.expr(part));
        }
        costs
    }

    /// Those of the condition after an `if`.
    pub fn condition(&self, condition: Option<&Expr>) -> Costs {
        match condition {
            Some(expr) => self.expr(expr),
            None => Costs::of_constant(Tri::Yes),
        }
    }

    /// What it costs at least to change the side of a comparison.
    fn side(&self, term: &Term) -> u32 {
        let Term::Symbol(symbol) = term else {
            return NEVER;
        };
        if self.tree.symbol_type(*symbol).is_tri() {
            let costs = self.symbol(*symbol);
            return change_of(costs.module.max(costs.no)).min(change_of(
                costs.yes.max(costs.below_yes),
            ));
        }
        plus(self.node(Node::Vis(*symbol)).module, TEXT_LINE).min(MOST_TO_SHOW)
    }

    /// Those of a comparison that has a value now.
    fn comparison(&self, now: Tri, comparison: Comparison, operands: &Operands) -> Costs {
        if let Some(costs) = self.equality(comparison, operands) {
            return costs;
        }
        let change = self.side(&operands.left).min(self.side(&operands.right));
        let costs = Costs {
            module: change,
            yes: change,
            below_yes: change,
            no: change,
        };
        costs.at(now)
    }

    /// Those of an equality of a tristate and a constant.
    fn equality(&self, comparison: Comparison, operands: &Operands) -> Option<Costs> {
        let (symbol, value) = match (&operands.left, &operands.right) {
            (Term::Symbol(symbol), Term::Tri(value)) => (*symbol, *value),
            (Term::Tri(value), Term::Symbol(symbol)) => (*symbol, *value),
            _ => return None,
        };
        if !self.tree.symbol_type(symbol).is_tri() {
            return None;
        }
        let costs = self.symbol(symbol).equal_to(value);
        match comparison {
            Comparison::Equal => Some(costs),
            Comparison::NotEqual => Some(costs.complement()),
            _ => None,
        }
    }

    /// What any way costs by which a symbol rises: more for one that many nodes read.
    pub fn rise_of(&self, id: SymId) -> u32 {
        log2(
            self.tree
                .user_table()
                .row(self.tree.number(Node::Val(id)))
                .len(),
        )
    }

    /// What any way costs by which a symbol falls.
    pub fn fall_of(&self, id: SymId) -> u32 {
        let weight = plus(0, self.rise_of(id).saturating_mul(4));
        match self.user.get(id) {
            Some(_) => plus(FALL_OF_USER, weight),
            None => plus(FALL, weight),
        }
    }

    /// What a line for a symbol costs.
    pub fn line_of(&self, id: SymId) -> u32 {
        match self.user.get(id) {
            Some(_) => CHANGED_LINE,
            None => LINE,
        }
    }

    /// Those of what a `select` or an `imply` gives.
    pub fn reverse(&self, reverse: &Reverse) -> Costs {
        self.symbol(reverse.by)
            .and(self.condition(reverse.condition.as_ref()))
            .and(self.definition(reverse.definition))
    }
}

/// The constant that a text is, n for another one.
fn constant_of(text: &str) -> Tri {
    match text {
        "m" => Tri::Module,
        "y" => Tri::Yes,
        _ => Tri::No,
    }
}
