//! The nodes of trees: their order, what they use, and what uses them.
ghost use Rattle.std.specs.Prelude.{IsTrue};
ghost use Rattle.kc_tree.specs.Nodes.{IsNodeOf};

use crate::table::{Shown, compare};
use kc_tree::{Node, NodeRow, NodeUsers, Tree};
use std::alloc::{AllocError, Global};
use std::test::Fail;

/// Whether a tree has a node.
fn is_node_of(tree: &Tree, node: Node) -> bool
    ensures { IsTrue result → IsNodeOf tree.now node }
{
    match node {
        Node::Vis(symbol) | Node::Val(symbol) => (symbol.0 as usize) < tree.symbols().len(),
        Node::Mode(choice) | Node::Sel(choice) => (choice.0 as usize) < tree.choices().len(),
    }
}

/// What a node of a tree uses, nothing where it is not one of its nodes.
fn uses(tree: &Tree, node: Node) -> Option<NodeRow<'_>> {
    if is_node_of(tree, node) {
        Some(tree.uses(node))
    } else {
        None
    }
}

/// What uses a node of a tree, nothing where it is not one of its nodes.
fn used_by(tree: &Tree, node: Node) -> Option<NodeUsers<'_>> {
    if is_node_of(tree, node) {
        Some(tree.used_by(node))
    } else {
        None
    }
}

/// A within an `if`, with a select, and symbols with a type alone.
const TREE: &str = r#"
if C
config A
    tristate "a"
    default y
    depends on m && B = "x"
    select D
endif
config B
    bool
config C
    bool
config MODULES
    bool
config D
    bool
"#;

/// Its nodes, in the order of their numbers, with all that each uses, and with all that use it, in the same order.
const USES: &str = r#"
vis A | val B, val C, val MODULES | val A
val A | vis A, val B, val C, val MODULES | val D
vis B | - | val B
val B | vis B | vis A, val A, val D
vis C | - | val C
val C | vis C | vis A, val A, val D
vis MODULES | - | val MODULES
val MODULES | vis MODULES | vis A, val A, val D
vis D | - | val D
val D | val A, val B, val C, val MODULES, vis D | -
"#;

/// Appends a node of a symbol as `val A`.
fn push_node(out: &mut String, tree: &Tree, node: Node) -> Result<(), AllocError> {
    let (word, name) = match node {
        Node::Vis(symbol) => ("vis ", tree.name(symbol)),
        Node::Val(symbol) => ("val ", tree.name(symbol)),
        Node::Mode(_) | Node::Sel(_) => ("node ", "of a choice"),
    };
    out.push_str(word)?;
    out.push_str(name)
}

/// Appends the nodes of a tree that are among some, in the order of their numbers, as `vis A, val B`, and `-` where
/// there are none.
fn push_nodes(out: &mut String, tree: &Tree, nodes: &[Node]) -> Result<(), AllocError> {
    let mut is_first = true;
    for node in tree.nodes() {
        if nodes.contains(&node) {
            out.push_str(if is_first { " | " } else { ", " })?;
            push_node(out, tree, node)?;
            is_first = false;
        }
    }
    if nodes.is_empty() {
        out.push_str(" | -")?;
    }
    Ok(())
}

/// Appends a node with all that it uses and all that use it, each node once.
fn push_row(alloc: Global, out: &mut String, tree: &Tree, node: Node) -> Result<(), AllocError> {
    push_node(out, tree, node)?;
    if let Some(used) = uses(tree, node) {
        let used: Vec<Node> = used.collect(alloc)?;
        push_nodes(out, tree, used.as_slice())?;
    }
    if let Some(users) = used_by(tree, node) {
        let users: Vec<Node> = users.collect(alloc)?;
        push_nodes(out, tree, users.as_slice())?;
    }
    out.push_str("\n")
}

/// Whether all that a node of a tree uses is among these nodes.
fn uses_only(tree: &Tree, node: Node, nodes: &[Node]) -> bool {
    match uses(tree, node) {
        Some(mut used) => used.all(|used| nodes.contains(&used)),
        None => false,
    }
}

/// Whether each node comes in an order after all that it uses, and not twice.
fn is_in_order(tree: &Tree, order: &[Node]) -> bool {
    (0..order.len()).all(|place| {
        let (before, node) = (&order[..place], order[place]);
        uses_only(tree, node, before) && !before.contains(&node)
    })
}

/// Whether each cell of a tree is in the order of the cells, and none twice.
fn has_cells_in_order(tree: &Tree) -> bool {
    let order = tree.cell_order();
    (0..tree.cell_count()).all(|number| order.iter().any(|placed| *placed as usize == number))
        && order.len() == tree.cell_count()
}

/// The nodes of a tree, each with all that it uses and all that use it, where the nodes and the cells are in order.
pub(crate) fn show_all_uses(alloc: Global, tree: &Tree) -> Result<String, AllocError> {
    let order: Vec<Node> = tree.order().collect(alloc)?;
    if order.len() != tree.node_count()
        || !is_in_order(tree, order.as_slice())
        || !has_cells_in_order(tree)
    {
        return String::from_str(alloc, "not in order");
    }
    let mut out = String::from_str(alloc, "\n")?;
    for node in tree.nodes() {
        push_row(alloc, &mut out, tree, node)?;
    }
    Ok(out)
}

#[test]
fn nodes_use_what_they_read(rt: HostRuntime) -> Result<(), Fail> {
    compare(rt.alloc(), Shown::Uses, TREE, USES)
}
