//! The sets of a tree's cells.

ghost use Rattle.std.specs.Prelude.{◌≡◌, ◌<◌, Bool, false, IfOk, replicate, slice_get};
ghost use Rattle.std.specs.Option.{option_copied};
ghost use Rattle.kc_tree.specs.Accepted.{IsAccepted};
ghost use Rattle.kc_tree.specs.Cells.{IsCellOf, cell_at, cell_count};
ghost use Rattle.kc_tree.specs.Nodes.{IsNodeOf};
ghost use Rattle.kc_tree.specs.declared.node.Node.TheVariants.{Val};
ghost use Rattle.kc_value.specs.Assignment.{as_tri};
ghost use Rattle.kc_value.specs.Kept.{cell_worth};
ghost use Rattle.kc_value.specs.Solution.{solution};
ghost use Rattle.kc_value.specs.UserValues.{UserValues};
ghost use Rattle.kc_value.specs.declared.value.Value.TheVariants.{Shown};
ghost use Rattle.kc_bounds.specs.Bounds.{AreScopedBounds, CoversIn, IsScoped};
ghost use Rattle.kc_bounds.specs.TriSets.{any_tri};

use crate::tri_set::TriSet;
use kc_tree::{
    Block, BlockId, Cell, Choice, ChoiceId, Definition, Node, SymId, Symbol, Tree, UserVal,
};
use kc_value::{KeptValues, Known, NodeValues};
use std::alloc::{AllocError, Global};
use std::marker::Model;

/// For each cell of a tree a set that has what the cell is worth, whatever the user gives and chooses with which `MODULES`
/// has one of some values. Contracts see the tree, these values, and the sets by number.
#[derive(Drop)]
pub(crate) struct ScopedBounds<'a> {
    tree: &'a Tree,
    /// The values of `MODULES` that count.
    modules: TriSet,
    sets: Vec<TriSet>,
    /// No values of nodes, for what is computed from none.
    nothing: NodeValues,
}

impl<'a> Model for ScopedBounds<'a> {
    ghost use Rattle.std.specs.Coded.{codes};
    ghost use Rattle.kc_statement.specs.contracts.expr.Expr as expr;
    ghost use Rattle.kc_bounds.specs.Bounds.{AreScopedBounds, ScopedValue};

    ghost Value = { ScopedValue };

    ghost coded = { Prim.hlevel (codes, expr.the_row.coded) };

    ghost view = { λ b. record { tree = b.tree.now; modules = b.modules; sets = b.sets.items } };

    ghost invariant = { λ b. AreScopedBounds (record { tree = b.tree.now; modules = b.modules; sets = b.sets.items }) };
}

/// As many sets of all values. The error comes where memory is refused.
fn all_of(alloc: Global, count: usize) -> Result<Vec<TriSet>, AllocError>
    ensures { IfOk result (λ sets. sets.items ≡ replicate count any_tri) }
{
    vec![in alloc; TriSet::any(); count]
}

impl<'a> ScopedBounds<'a> {
    /// All values for each cell.
    ///
    /// The error comes where memory is refused.
    pub(crate) fn any(
        alloc: Global,
        tree: &'a Tree,
        modules: TriSet,
    ) -> Result<ScopedBounds<'a>, AllocError>
        ensures { IfOk result (λ b. (b.tree ≡ tree.entry.now) × (b.modules ≡ modules)) }
    {
        // The laws of the numbers of cells are a clause of this call.
        let _ = tree.use_table();
        // That the tree has one solution for all user values is a clause of this call.
        let (nothing, _) = KeptValues::new(alloc, tree)?.into_parts();
        let sets = all_of(alloc, tree.cell_count())?;
        Ok(ScopedBounds {
            tree,
            modules,
            sets,
            nothing,
        })
    }

    /// The tree.
    pub(crate) fn tree(&self) -> &'a Tree
        ensures tree { result.now ≡ self.now.tree }
        ensures bounds { AreScopedBounds self.now }
    {
        self.tree
    }

    /// The values of `MODULES` that count.
    pub(crate) fn modules(&self) -> TriSet
        ensures { result ≡ self.now.modules }
    {
        self.modules
    }

    /// What rules read where no node has a value.
    pub(crate) fn nothing(&self) -> Known<'_>
        ensures { result.tree ≡ self.now.tree }
    {
        Known::of_nodes(self.tree, &self.nothing)
    }

    /// A symbol by number, if there is one.
    pub(crate) fn symbol(&self, id: SymId) -> Option<&'a Symbol>
        ensures { option_copied result ≡ slice_get self.now.tree.symbols id.0 }
    {
        self.tree.symbols().get(id.0 as usize)
    }

    /// A choice by number, if there is one.
    pub(crate) fn choice(&self, id: ChoiceId) -> Option<&'a Choice>
        ensures { option_copied result ≡ slice_get self.now.tree.choices id.0 }
    {
        self.tree.choices().get(id.0 as usize)
    }

    /// A definition by number, if there is one.
    pub(crate) fn definition(&self, number: usize) -> Option<&'a Definition>
        ensures { option_copied result ≡ slice_get self.now.tree.definitions number }
    {
        self.tree.definitions().get(number)
    }

    /// A block by number, if there is one. The blocks are nested, as those of each tree that was read.
    pub(crate) fn block(&self, id: BlockId) -> Option<&'a Block>
        ensures block { option_copied result ≡ slice_get self.now.tree.blocks id.0 }
        ensures accepted { IsAccepted self.now.tree }
    {
        // That the tree is accepted is a clause of this call.
        let _ = self.tree.symbols();
        self.tree.blocks().get(id.0)
    }

    /// Which values a cell may have.
    pub(crate) fn cell(&self, cell: Cell) -> TriSet
        requires { IsCellOf self.now.tree cell }
        ensures { CoversIn self.now.tree self.now.modules result (λ a. as_tri (cell_worth self.now.tree a cell)) }
    {
        match self.sets.get(self.tree.cell_number(cell)) {
            Some(set) => *set,
            None => TriSet::any(),
        }
    }

    /// Which tristate values a node may have; a text is n.
    pub(crate) fn node(&self, node: Node) -> TriSet
        requires { IsNodeOf self.now.tree node }
        ensures { CoversIn self.now.tree self.now.modules result (λ a. as_tri (a node)) }
    {
        self.cell(Cell::Node(node))
    }

    /// Puts a set that has what the cell of a number is worth in place of the one that is there.
    pub(crate) fn put(&mut self, number: usize, set: TriSet)
        requires inside { number < cell_count self.old.tree }
        requires covers { CoversIn self.old.tree self.old.modules set (λ a. as_tri (cell_worth self.old.tree a (cell_at self.old.tree number))) }
        ensures tree { self.new.tree ≡ self.old.tree }
        ensures modules { self.new.modules ≡ self.old.modules }
    {
        // The laws of the numbers of cells are a clause of this call.
        let _ = self.tree.use_table();
        self.sets[number] = set;
    }

    /// Whether a symbol may have a value. Where it may not, no user values that count give it that value.
    pub(crate) fn can_be(&self, symbol: SymId, value: &UserVal) -> bool
        ensures { result ≡ false → (w : UserValues) → IsScoped self.now.tree self.now.modules w → (written : Bool)
            → solution self.now.tree w (Val symbol) ≡ Shown value.now written → ⊥ }
    {
        match value {
            UserVal::Tri(tri) => match self.tree.symbols().get(symbol.0 as usize) {
                Some(_) => self.node(Node::Val(symbol)).has(*tri),
                None => true,
            },
            UserVal::Text(_) => true,
        }
    }
}
