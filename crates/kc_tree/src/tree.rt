ghost use Rattle.std.specs.Prelude.{◌≡◌, ℕ, ◌<◌, ◌≤◌, ◌^◌, IfSome, IfOk, IfErr, length, flat_map, Contains, ◌↔◌};
ghost use Rattle.kc_text.specs.declared.reading.TheConstants.{MOST_LINES};
ghost use Rattle.kc_outline.specs.Blocks.{AreBlocksEnclosing, AreOpenAt};
ghost use Rattle.kc_outline.specs.TreeValue.{choice_of, symbol_named, name_of, modules_symbol};
ghost use Rattle.kc_tree.specs.Nodes.{all_nodes, node_at, node_count, number_of, AreNumbered, IsNodeOf};
ghost use Rattle.kc_tree.specs.Uses.{Uses, condition_nodes, factor_nodes};
ghost use Rattle.kc_tree.specs.ConditionTable.{Condition, factors};
ghost use Rattle.kc_tree.specs.Order.{IsOrder};
ghost use Rattle.kc_tree.specs.Accepted.{IsAccepted};
ghost use Rattle.kc_tree.specs.Cells.{IsCellOf, cell_at, cell_count, cell_number};
ghost use Rattle.kc_tree.specs.CellLaws.{CellLaws, IsCellOrder, IsCellTable, IsReaderTable};
ghost use Rattle.kc_tree.specs.Fits.{fits, fits_type, type_of};

use crate::cell::{Cell, cell_count, node_count};
use crate::fault::TreeFault;
use crate::link::link;
use crate::node::Node;
use crate::node_order::NodeOrder;
use crate::node_rows::NodeRow;
use crate::node_users::NodeUsers;
use crate::nodes::Nodes;
use crate::user_value::UserVal;
use kc_graph::Rows;
use kc_outline::{
    Block, Choice, ChoiceId, Comment, Definition, Entry, Outline, Symbol, read_outline,
};
use kc_statement::{Seed, SymId, SymbolType, Tri, numeral};
use kc_text::Line;
use std::alloc::Global;
use std::marker::Model;

/// The tree of a Kconfig: its symbols, choices and entries, and the cells with what each reads, in a topological
/// order. Contracts see all but the order and what cells read.
#[derive(Drop)]
pub struct Tree {
    pub(crate) outline: Outline,
    pub(crate) modules: Option<SymId>,
    pub(crate) order: Vec<u32>,
    pub(crate) uses: Rows,
    pub(crate) used_by: Rows,
}

impl Model for Tree {
    ghost use Rattle.kc_outline.specs.TreeValue.{TreeValue};
    ghost use Rattle.kc_statement.specs.contracts.expr.Expr as expr;
    ghost use Rattle.std.specs.Coded.{codes};

    ghost Value = { TreeValue };

    ghost coded = { Prim.hlevel (codes, expr.the_row.coded) };

    ghost use Rattle.kc_tree.specs.Inside.{IsWellMade};

    ghost view = { λ a. a.outline };

    ghost invariant = { IsWellMade };
}

/// Whether a user value is one of a type.
fn fits_type(kind: SymbolType, value: &UserVal) -> bool
    ensures { result ≡ fits_type kind value.now }
{
    match (kind, value) {
        (SymbolType::Bool, UserVal::Tri(tri)) => !matches!(tri, Tri::Module),
        (SymbolType::Tristate, UserVal::Tri(_)) => true,
        (SymbolType::String, UserVal::Text(_)) => true,
        (SymbolType::Int | SymbolType::Hex, UserVal::Text(text)) => {
            numeral(kind, text.as_str()).is_some()
        }
        (SymbolType::Bool | SymbolType::Tristate, UserVal::Text(_)) => false,
        (SymbolType::String | SymbolType::Int | SymbolType::Hex, UserVal::Tri(_)) => false,
    }
}

impl Tree {
    ghost use Rattle.kc_tree.specs.Parsed.{IsTreeOf, IsFaultOf, IsOnlyTree, IsFirstFault};

    /// Reads the tree of logical lines (kconfig-language.rst, "Menu entries").
    ///
    /// Each name is in a tree once. Its symbols have numbers in the order of their first definitions, which are the
    /// entries `Entry::Symbol`. The members of a choice, none of which is a tristate, and the symbols that its defaults
    /// name are in that choice, and it lists all symbols that are in it. Each `Entry::EndMenu` comes once, after the
    /// one `Entry::Menu` of its block.
    ///
    /// # Errors
    ///
    /// - `TreeFault::Line` with the first line that is at fault: K04 its word is unknown, K20 it is unsupported, K06 its
    ///   attribute belongs to nothing that takes it, K07 a block is closed wrongly or left open, K05 its form, and K01
    ///   a limit of parentheses, blocks or symbols.
    /// - `TreeFault::Symbol` where no line is at fault, with the first symbol without type (K12), else with two types
    ///   (K13), else with two prompts in one definition (K14), else with a default or a range that does not fit its type
    ///   (K15), else with a `select` or an `imply` that does not (K16); else, where no choice has a fault, of a bad
    ///   `modules` (K18).
    /// - `TreeFault::Choice` where none of these up to K16 is there, with the line of the first choice with a fault (K17).
    /// - `TreeFault::Loop` where there is no other fault, with nodes that form a loop.
    /// - `TreeFault::NoMemory` where memory was refused.
    ///
    /// There are no more lines than `logical_lines` gives.
    pub fn parse(alloc: Global, lines: &[Line<'_>]) -> Result<Tree, TreeFault>
        requires { length lines.now ≤ MOST_LINES }
        ensures tree { IfOk result (IsTreeOf lines.now) }
        ensures only { IfOk result (IsOnlyTree lines.now) }
        ensures accepted { IfOk result IsAccepted }
        ensures open_blocks { (j : ℕ) → j ≤ length lines.now → AreOpenAt lines.now j }
        ensures enclosing { IfOk result (AreBlocksEnclosing lines.now) }
        ensures fault { IfErr result (IsFaultOf lines.now) }
        ensures first { IfErr result (IsFirstFault lines.now) }
    {
        Tree::parse_seeded(alloc, Seed::fixed(), lines)
    }

    /// The same for untrusted lines: the names of symbols are kept under the hash of a seed, so that they can't be chosen
    /// to be slow to find. The tree or the fault is that of `parse`, but for which of several loops is reported.
    ///
    /// # Errors
    ///
    /// Those of `parse`.
    #[tactic(auto, using(crate::proofs::OneTree::first_fault, crate::proofs::OneTree::first_line_fault))]
    pub fn parse_seeded(alloc: Global, seed: Seed, lines: &[Line<'_>]) -> Result<Tree, TreeFault>
        requires { length lines.now ≤ MOST_LINES }
        ensures tree { IfOk result (IsTreeOf lines.now) }
        ensures only { IfOk result (IsOnlyTree lines.now) }
        ensures accepted { IfOk result IsAccepted }
        ensures open_blocks { (j : ℕ) → j ≤ length lines.now → AreOpenAt lines.now j }
        ensures enclosing { IfOk result (AreBlocksEnclosing lines.now) }
        ensures fault { IfErr result (IsFaultOf lines.now) }
        ensures first { IfErr result (IsFirstFault lines.now) }
    {
        let outline = read_outline(alloc, seed, lines)?;
        link(alloc, lines, outline)
    }

    /// The symbol of a name.
    pub fn find(&self, name: &str) -> Option<SymId>
        ensures symbol { result ≡ symbol_named self.now name.now }
        ensures inside { IfSome result (λ s. s.0 < length self.now.symbols) }
    {
        let number = self.outline.names().find(name)?;
        Some(SymId(number as u32))
    }

    /// The name of a symbol, empty for one that the tree doesn't have.
    pub fn name(&self, symbol: SymId) -> &str
        ensures { result.now ≡ name_of self.now symbol }
    {
        self.outline.names().get(symbol.0 as usize)
    }

    /// The declared type of a symbol, bool for one that the tree doesn't have.
    pub fn symbol_type(&self, symbol: SymId) -> SymbolType
        ensures { result ≡ type_of self.now symbol }
    {
        match self.outline.symbols().get(symbol.0 as usize) {
            Some(found) => found.kind(),
            None => SymbolType::Bool,
        }
    }

    /// The choice that a symbol is a member of, none for a symbol that the tree doesn't have.
    pub fn choice_of(&self, symbol: SymId) -> Option<ChoiceId>
        ensures { result ≡ choice_of self.now symbol }
    {
        self.outline.symbols().get(symbol.0 as usize)?.choice()
    }

    /// The symbols by number.
    pub fn symbols(&self) -> &[Symbol]
        ensures symbols { result.now ≡ self.now.symbols }
        ensures accepted { IsAccepted self.now }
    {
        self.outline.symbols()
    }

    /// The definitions of symbols by number, which is the order of their lines.
    pub fn definitions(&self) -> &[Definition]
        ensures { result.now ≡ self.now.definitions }
    {
        self.outline.definitions()
    }

    /// The choices by number, which is the order of their lines.
    pub fn choices(&self) -> &[Choice]
        ensures choices { result.now ≡ self.now.choices }
        ensures accepted { IsAccepted self.now }
    {
        self.outline.choices()
    }

    /// The menus, `if` blocks and choices' blocks by number, which is the order of the lines that open them.
    pub fn blocks(&self) -> &[Block]
        ensures { result.now ≡ self.now.blocks }
    {
        self.outline.blocks()
    }

    /// The comments by number, which is the order of their lines.
    pub fn comments(&self) -> &[Comment]
        ensures { result.now ≡ self.now.comments }
    {
        self.outline.comments()
    }

    /// The symbol `MODULES`, which says whether modules are built, if it is defined.
    pub fn modules(&self) -> Option<SymId>
        ensures { result ≡ modules_symbol self.now }
    {
        self.modules
    }

    /// The entries in the order of their lines.
    pub fn entries(&self) -> &[Entry]
        ensures entries { result.now ≡ self.now.entries }
        ensures accepted { IsAccepted self.now }
    {
        self.outline.entries()
    }

    /// How many nodes there are: two for each symbol, and two for each choice.
    pub fn node_count(&self) -> usize
        ensures count { result ≡ node_count self.now }
        ensures accepted { IsAccepted self.now }
    {
        node_count(&self.outline)
    }

    /// All nodes, by number.
    pub fn nodes(&self) -> Nodes
        ensures nodes { result ≡ all_nodes self.now }
        ensures accepted { IsAccepted self.now }
    {
        Nodes::of(self)
    }

    /// The number of a node, from 0: twice that of its symbol for a visibility, and one more for a value; the modes and
    /// the selections of the choices follow, in the same way. The numbers of the nodes of the tree are one to one, and below
    /// the count of nodes.
    #[tactic(auto, using(crate::proofs::NodeNumbers::are_numbered))]
    pub fn number(&self, node: Node) -> usize
        ensures number { result ≡ number_of self.now node }
        ensures numbered { AreNumbered self.now }
        ensures accepted { IsAccepted self.now }
    {
        node.number_in(self.outline.symbols().len())
    }

    /// The node of a number, which is below the count of nodes.
    pub fn node(&self, number: usize) -> Node
        requires { number < node_count self.now }
        ensures node { result ≡ node_at self.now number }
        ensures inside { IsNodeOf self.now result }
        ensures accepted { IsAccepted self.now }
    {
        Node::in_tree(self.outline.symbols().len(), number)
    }

    /// Each node once, after all that it uses.
    pub fn order(&self) -> NodeOrder<'_>
        ensures order { IsOrder self.now result }
        ensures accepted { IsAccepted self.now }
    {
        NodeOrder::of(
            self.outline.symbols().len(),
            self.node_count(),
            self.order.as_slice(),
        )
    }

    /// The nodes that a node is computed from. A condition reads the nodes that its factors read.
    pub fn uses(&self, node: Node) -> NodeRow<'_>
        requires { IsNodeOf self.now node }
        ensures exact { (m : Node) → Contains result m ↔ Uses self.now node m }
        ensures factors { (c : Condition) → condition_nodes self.now c ≡ flat_map (factor_nodes self.now) (factors self.now c) }
        ensures accepted { IsAccepted self.now }
    {
        let symbols = self.outline.symbols().len();
        let row = self.uses.row(node.number_in(symbols));
        NodeRow::of(symbols, self.node_count(), &self.uses, row)
    }

    /// The nodes that are computed from a node. One may come more than once.
    pub fn used_by(&self, node: Node) -> NodeUsers<'_>
        requires { IsNodeOf self.now node }
        ensures exact { (m : Node) → Contains result m ↔ Uses self.now m node }
        ensures accepted { IsAccepted self.now }
    {
        let symbols = self.outline.symbols().len();
        let row = self.used_by.row(node.number_in(symbols));
        NodeUsers::of(symbols, self.node_count(), &self.used_by, row)
    }

    /// How many cells there are: the nodes, and the conditions that many of them read.
    pub fn cell_count(&self) -> usize
        ensures count { result ≡ cell_count self.now }
        ensures few { result < 2 ^ 32 }
        ensures accepted { IsAccepted self.now }
    {
        cell_count(&self.outline)
    }

    /// The number of a cell, from 0: the nodes have theirs, and those of the conditions follow.
    pub fn cell_number(&self, cell: Cell) -> usize
        requires { IsCellOf self.now cell }
        ensures number { result ≡ cell_number self.now cell }
        ensures inside { result < cell_count self.now }
        ensures accepted { IsAccepted self.now }
    {
        cell.number_in(&self.outline)
    }

    /// The cell of a number, which is below the count of cells.
    pub fn cell(&self, number: usize) -> Cell
        requires { number < cell_count self.now }
        ensures cell { result ≡ cell_at self.now number }
        ensures inside { IsCellOf self.now result }
        ensures accepted { IsAccepted self.now }
    {
        Cell::in_outline(&self.outline, number)
    }

    /// The numbers of the cells, each once, after those of all that its cell reads.
    pub fn cell_order(&self) -> &[u32]
        ensures order { IsCellOrder self.now result.now }
        ensures laws { CellLaws self.now }
        ensures accepted { IsAccepted self.now }
    {
        self.order.as_slice()
    }

    /// What each cell reads, by number: nodes, and conditions, whose rows have what they read in their turn.
    pub fn use_table(&self) -> &Rows
        ensures table { IsCellTable self.now result.now }
        ensures laws { CellLaws self.now }
        ensures few { length result.now < 2 ^ 32 }
        ensures accepted { IsAccepted self.now }
    {
        &self.uses
    }

    /// What reads each cell, by number, in the form of `use_table`.
    pub fn user_table(&self) -> &Rows
        ensures table { IsReaderTable self.now result.now }
        ensures laws { CellLaws self.now }
        ensures few { length result.now < 2 ^ 32 }
        ensures accepted { IsAccepted self.now }
    {
        &self.used_by
    }

    /// Whether a user value is one that the symbol takes: a bool takes n and y, a tristate n, m and y, a string all
    /// texts, an int and a hex the numerals of their types. False for a member of a choice, and for a symbol that the
    /// tree doesn't have.
    pub fn fits(&self, symbol: SymId, value: &UserVal) -> bool
        ensures { result ≡ fits self.now symbol value.now }
    {
        let Some(symbol) = self.outline.symbols().get(symbol.0 as usize) else {
            return false;
        };
        symbol.choice().is_none() && fits_type(symbol.kind(), value)
    }
}
