//! The sets of all cells, each from those before it.

ghost use Rattle.std.specs.Prelude.{◌≡◌, ◌<◌, IfOk};
ghost use Rattle.kc_tree.specs.Cells.{IsCellOf, cell_count};
ghost use Rattle.kc_tree.specs.Nodes.{IsNodeOf};
ghost use Rattle.kc_tree.specs.declared.node.Node.TheVariants.{Vis, Val, Mode};
ghost use Rattle.kc_value.specs.Assignment.{as_tri};
ghost use Rattle.kc_value.specs.Kept.{cell_worth};
ghost use Rattle.kc_bounds.specs.Bounds.{CoversIn};

use crate::choices::{member_set, mode_set};
use crate::conditions::{block_depends, block_visible, definition_lines};
use crate::possible::Bounds;
use crate::symbols::{shown_set, visibility_set};
use crate::table::ScopedBounds;
use crate::tri_set::TriSet;
use kc_tree::{Cell, ChoiceId, Node, SymId, SymbolType, Tree, Tri};
use std::alloc::{AllocError, Global};

/// Which values the visibility of a symbol of the tree may have.
fn visibility_of(bounds: &ScopedBounds<'_>, id: SymId) -> TriSet
    requires { IsNodeOf bounds.now.tree (Vis id) }
    ensures { CoversIn bounds.now.tree bounds.now.modules result (λ a. as_tri (a (Vis id))) }
{
    // That the tree has one solution for all user values is a clause of this call.
    let _ = bounds.tree();
    match bounds.symbol(id) {
        Some(symbol) => visibility_set(bounds, symbol),
        None => TriSet::any(),
    }
}

/// Which values a symbol of the tree may have: that of a string, an int or a hex counts as n.
fn value_of(bounds: &ScopedBounds<'_>, id: SymId) -> TriSet
    requires { IsNodeOf bounds.now.tree (Val id) }
    ensures { CoversIn bounds.now.tree bounds.now.modules result (λ a. as_tri (a (Val id))) }
{
    // That the tree has one solution for all user values is a clause of this call.
    let _ = bounds.tree();
    let Some(symbol) = bounds.symbol(id) else {
        return TriSet::any();
    };
    match symbol.choice() {
        Some(choice) => member_set(bounds, choice, id),
        None => match symbol.kind() {
            SymbolType::Bool | SymbolType::Tristate => {
                shown_set(bounds, symbol, bounds.node(Node::Vis(id)))
            }
            SymbolType::String | SymbolType::Int | SymbolType::Hex => TriSet::only(Tri::No),
        },
    }
}

/// Which values a symbol of the tree may have: `MODULES` has only those that count.
fn value_in_scope(bounds: &ScopedBounds<'_>, id: SymId) -> TriSet
    requires { IsNodeOf bounds.now.tree (Val id) }
    ensures { CoversIn bounds.now.tree bounds.now.modules result (λ a. as_tri (a (Val id))) }
{
    let values = value_of(bounds, id);
    match bounds.tree().modules() {
        Some(modules) if modules.0 == id.0 => values.both(bounds.modules()),
        _ => values,
    }
}

/// Which values the mode of a choice of the tree may have.
fn mode_of(bounds: &ScopedBounds<'_>, id: ChoiceId) -> TriSet
    requires { IsNodeOf bounds.now.tree (Mode id) }
    ensures { CoversIn bounds.now.tree bounds.now.modules result (λ a. as_tri (a (Mode id))) }
{
    // That the tree has one solution for all user values is a clause of this call.
    let _ = bounds.tree();
    match bounds.choice(id) {
        Some(choice) => mode_set(bounds, choice),
        None => TriSet::any(),
    }
}

/// Which values a node may have, by the sets of those that it is computed from. A selection counts as n.
fn node_of(bounds: &ScopedBounds<'_>, node: Node) -> TriSet
    requires { IsNodeOf bounds.now.tree node }
    ensures { CoversIn bounds.now.tree bounds.now.modules result (λ a. as_tri (a node)) }
{
    match node {
        Node::Vis(id) => visibility_of(bounds, id),
        Node::Val(id) => value_in_scope(bounds, id),
        Node::Mode(id) => mode_of(bounds, id),
        Node::Sel(_) => TriSet::any(),
    }
}

/// Which values a cell may have, by the sets of those that it reads.
fn cell_of(bounds: &ScopedBounds<'_>, cell: Cell) -> TriSet
    requires { IsCellOf bounds.now.tree cell }
    ensures { CoversIn bounds.now.tree bounds.now.modules result (λ a. as_tri (cell_worth bounds.now.tree a cell)) }
{
    match cell {
        Cell::Node(node) => node_of(bounds, node),
        Cell::Definition(number) => definition_lines(bounds, number),
        Cell::Depends(block) => block_depends(bounds, block),
        Cell::Visible(block) => block_visible(bounds, block),
    }
}

/// Works out the set of the cell of a number from those that are there.
fn refine(bounds: &mut ScopedBounds<'_>, number: usize)
    requires { number < cell_count bounds.old.tree }
    ensures tree { bounds.new.tree ≡ bounds.old.tree }
    ensures modules { bounds.new.modules ≡ bounds.old.modules }
{
    let set = cell_of(bounds, bounds.tree().cell(number));
    bounds.put(number, set);
}

/// Which values the nodes of a tree may have, whatever its user gives and chooses with which `MODULES` has one of these
/// values. Each cell is taken once, after those that it reads. A set may have more values than its node: each part of a
/// rule is taken by itself. The error comes where memory is refused.
fn scoped_bounds(
    alloc: Global,
    tree: &Tree,
    modules: TriSet,
) -> Result<ScopedBounds<'_>, AllocError>
    ensures { IfOk result (λ b. (b.tree ≡ tree.entry.now) × (b.modules ≡ modules)) }
{
    let mut bounds = ScopedBounds::any(alloc, tree, modules)?;
    for number in tree.cell_order() {
        refine(&mut bounds, *number as usize);
    }
    Ok(bounds)
}

/// Which values the nodes of a tree may have, whatever its user gives and chooses (this project's own). What is never so
/// where `MODULES` is n, and never so where it is m or y, is never so.
///
/// # Errors
///
/// The error comes where memory is refused.
pub fn bounds(alloc: Global, tree: &Tree) -> Result<Bounds<'_>, AllocError>
    ensures { IfOk result (λ b. b.tree ≡ tree.entry.now) }
{
    let off = scoped_bounds(alloc, tree, TriSet::without_modules())?;
    let on = scoped_bounds(alloc, tree, TriSet::with_modules())?;
    Ok(Bounds::of(off, on))
}
