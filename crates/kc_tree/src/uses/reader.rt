//! What expressions read: the numbers of the nodes are added to a row.

ghost use Rattle.std.specs.Prelude.{◌≡◌, ◌≤◌, ◌<◌, ◌^◌, flat_map, length, OnOk};
ghost use Rattle.kc_outline.specs.TreeValue.{modules_symbol};
ghost use Rattle.kc_tree.specs.Uses.{term_nodes, value_nodes, modules_nodes, conditions_nodes, own_condition_nodes, visibility_node, choice_default_nodes};
ghost use Rattle.kc_tree.specs.CellRows.{Adds, HaveSame, node_there};
ghost use Rattle.kc_tree.specs.Cells.{cell_count, default_alone_nodes, range_alone_nodes};
ghost use Rattle.kc_statement.specs.declared.limits.TheConstants.{MOST_SYMBOLS};

use crate::link::modules_symbol;
use crate::node::Node;
use kc_outline::{ChoiceDefault, Outline, Reverse};
use kc_statement::{DefaultValue, Expr, ExprNode, Range, SymId, Term};
use std::alloc::AllocError;

/// Puts numbers in rising order, each once.
#[inline(never)]
fn sort_row(row: &mut Vec<u32>)
    ensures { HaveSame row.new.items row.old.items }
{
    row.sort_unstable();
    row.dedup();
}

/// Leaves each number once. Most rows have one or none, which stay as they are.
#[inline]
pub fn each_once(row: &mut Vec<u32>)
    ensures { HaveSame row.new.items row.old.items }
{
    if row.len() > 1 {
        sort_row(row);
    }
}

/// Reads expressions of what lines define.
#[derive(Clone, Copy)]
pub struct Reader<'a> {
    pub outline: &'a Outline,
    /// The symbol `MODULES`.
    modules: Option<SymId>,
    ghost few: { length outline.now.symbols ≤ MOST_SYMBOLS },
    ghost few_cells: { cell_count outline.now < 2 ^ 32 },
    ghost modules_is: { modules ≡ modules_symbol outline.now },
}

impl<'a> Reader<'a> {
    /// Of what lines define.
    pub fn new(outline: &'a Outline) -> Reader<'a>
        requires few { length outline.now.symbols ≤ MOST_SYMBOLS }
        requires few_cells { cell_count outline.now < 2 ^ 32 }
        requires named { length outline.now.names ≤ MOST_SYMBOLS }
        ensures { result.outline ≡ outline.entry }
    {
        Reader {
            outline,
            modules: modules_symbol(outline),
        }
    }

    /// Adds a node, if the tree has the symbol or the choice of its number. Each call knows which kind of node it adds.
    #[inline]
    pub fn add_node(&self, row: &mut Vec<u32>, node: Node) -> Result<(), AllocError>
        ensures { OnOk result (Adds (length self.now.outline.now.symbols) row.old.items row.new.items (node_there self.now.outline.now node)) }
    {
        let outline = self.outline;
        let symbols = outline.symbols().len();
        let is_there = match node {
            Node::Vis(symbol) | Node::Val(symbol) => (symbol.0 as usize) < symbols,
            Node::Mode(choice) | Node::Sel(choice) => (choice.0 as usize) < outline.choices().len(),
        };
        if is_there {
            row.push(node.index_in(symbols))?;
        }
        Ok(())
    }

    /// Adds what a term reads.
    fn add_term(&self, row: &mut Vec<u32>, term: &Term) -> Result<(), AllocError>
        ensures { OnOk result (Adds (length self.now.outline.now.symbols) row.old.items row.new.items (term_nodes self.now.outline.now term.now)) }
    {
        match term {
            Term::Symbol(symbol) => self.add_node(row, Node::Val(*symbol)),
            Term::Tri(_) | Term::Text(_) | Term::Undefined(_) => Ok(()),
        }
    }

    /// Adds what an expression reads.
    #[cycle(add_expr)]
    fn add_expr(&self, row: &mut Vec<u32>, expr: &Expr) -> Result<(), AllocError>
        ensures { OnOk result (Adds (length self.now.outline.now.symbols) row.old.items row.new.items (value_nodes self.now.outline.now expr.now)) }
    {
        match expr.node() {
            ExprNode::Term(term) => self.add_term(row, term),
            ExprNode::BareModule(_) => self.add_modules(row),
            ExprNode::Compare(_, operands) => {
                self.add_term(row, &operands.left)?;
                self.add_term(row, &operands.right)
            }
            ExprNode::Not(_, inner) => self.add_expr(row, inner),
            ExprNode::Group(inner) => self.add_expr(row, inner),
            ExprNode::All(parts) => self.add_conditions(row, parts.as_slice()),
            ExprNode::Any(parts) => self.add_conditions(row, parts.as_slice()),
        }
    }

    /// Adds the value of `MODULES`.
    pub fn add_modules(&self, row: &mut Vec<u32>) -> Result<(), AllocError>
        ensures { OnOk result (Adds (length self.now.outline.now.symbols) row.old.items row.new.items (modules_nodes self.now.outline.now)) }
    {
        match self.modules {
            Some(modules) => self.add_node(row, Node::Val(modules)),
            None => Ok(()),
        }
    }

    /// Adds what each of some expressions reads.
    #[cycle(add_expr)]
    pub fn add_conditions(&self, row: &mut Vec<u32>, conditions: &[Expr]) -> Result<(), AllocError>
        ensures { OnOk result (Adds (length self.now.outline.now.symbols) row.old.items row.new.items (conditions_nodes self.now.outline.now conditions.now)) }
    {
        for condition in conditions {
            self.add_expr(row, condition)?;
        }
        Ok(())
    }

    /// Adds what the condition after `if` reads, if there is one.
    pub fn add_own_condition(
        &self,
        row: &mut Vec<u32>,
        condition: &Option<Expr>,
    ) -> Result<(), AllocError>
        ensures { OnOk result (Adds (length self.now.outline.now.symbols) row.old.items row.new.items (own_condition_nodes self.now.outline.now condition.now)) }
    {
        match condition {
            Some(condition) => self.add_expr(row, condition),
            None => Ok(()),
        }
    }

    /// Adds what each of some defaults reads besides the dependencies of its definition.
    pub fn add_defaults(
        &self,
        row: &mut Vec<u32>,
        defaults: &[DefaultValue],
    ) -> Result<(), AllocError>
        ensures { OnOk result (Adds (length self.now.outline.now.symbols) row.old.items row.new.items (flat_map (default_alone_nodes self.now.outline.now) defaults.now)) }
    {
        for default in defaults {
            self.add_expr(row, &default.value)?;
            self.add_own_condition(row, &default.condition)?;
        }
        Ok(())
    }

    /// Adds what each of some ranges reads besides the dependencies of its definition.
    pub fn add_ranges(&self, row: &mut Vec<u32>, ranges: &[Range]) -> Result<(), AllocError>
        ensures { OnOk result (Adds (length self.now.outline.now.symbols) row.old.items row.new.items (flat_map (range_alone_nodes self.now.outline.now) ranges.now)) }
    {
        for range in ranges {
            self.add_term(row, &range.low)?;
            self.add_term(row, &range.high)?;
            self.add_own_condition(row, &range.condition)?;
        }
        Ok(())
    }

    /// Adds the visibilities of symbols.
    pub fn add_visibilities(&self, row: &mut Vec<u32>, symbols: &[SymId]) -> Result<(), AllocError>
        ensures { OnOk result (Adds (length self.now.outline.now.symbols) row.old.items row.new.items (flat_map (visibility_node self.now.outline.now) symbols.now)) }
    {
        for symbol in symbols {
            self.add_node(row, Node::Vis(*symbol))?;
        }
        Ok(())
    }

    /// Adds what the defaults of a choice read.
    pub fn add_choice_defaults(
        &self,
        row: &mut Vec<u32>,
        defaults: &[ChoiceDefault],
    ) -> Result<(), AllocError>
        ensures { OnOk result (Adds (length self.now.outline.now.symbols) row.old.items row.new.items (flat_map (choice_default_nodes self.now.outline.now) defaults.now)) }
    {
        for default in defaults {
            if let Some(symbol) = default.symbol {
                self.add_node(row, Node::Vis(symbol))?;
            }
            self.add_own_condition(row, &default.condition)?;
        }
        Ok(())
    }
}
