//! From what lines define to a tree: the faults of symbols, the order of the cells or a loop of nodes, and what each
//! cell reads and is read by.

ghost use Rattle.std.specs.Prelude.{◌≡◌, ◌≤◌, ◌<◌, ◌^◌, IfErr, IfOk, OnOk, None, All, count_by, filter, length, map};
ghost use Rattle.kc_statement.specs.Keywords.{is_choice};
ghost use Rattle.kc_outline.specs.TreeValue.{choice_title, modules_symbol};
ghost use Rattle.kc_graph.specs.Graph.{IsOrder};
ghost use Rattle.kc_outline.specs.Nested.{AreNested};
ghost use Rattle.kc_tree.specs.Nodes.{node_count, node_name};
ghost use Rattle.kc_tree.specs.Cells.{cell_count};
ghost use Rattle.kc_tree.specs.CellRows.{AreRowsTo};
ghost use Rattle.kc_tree.specs.WholeRows.{is_node};
ghost use Rattle.kc_tree.specs.Accepted.{IsAccepted};
ghost use Rattle.kc_outline.specs.Entries.{AreMenusClosed, IsEntryOf, first_symbols, symbol_ids};
ghost use Rattle.kc_outline.specs.Members.{AreMembersListed};
ghost use Rattle.kc_outline.specs.NameList.{AreNames};
ghost use Rattle.kc_tree.specs.OutlineFaults.{outline_fault};
ghost use Rattle.kc_tree.specs.Faults.{IsLoopless, IsTreeProblem};
ghost use Rattle.kc_tree.specs.Linked.{named_node, IsLinkFault};
ghost use Rattle.kc_statement.specs.declared.limits.TheConstants.{MOST_SYMBOLS};

use crate::cell::node_count;
use crate::fault::{NamedNode, TreeFault};
use crate::node::Node;
use crate::outline_faults::{choice_lines, outline_faults, reported};
use crate::tree::Tree;
use crate::uses::used_rows;
use kc_graph::{Graph, OrderFault, Rows};
use kc_outline::{ChoiceId, Outline};
use kc_statement::SymId;
use kc_text::{Line, Text};
use std::alloc::{AllocError, Global};

/// The text of a choice's prompt, empty where it has none.
fn choice_title(outline: &Outline, choice: ChoiceId) -> &str
    ensures { result.now ≡ choice_title outline.now choice }
{
    match outline.choices().get(choice.0 as usize) {
        Some(choice) => match choice.prompt() {
            Some(prompt) => prompt.text.as_str(),
            None => "",
        },
        None => "",
    }
}

/// The name of a node: that of its symbol, or the prompt of its choice.
fn node_name(outline: &Outline, node: Node) -> &str
    ensures { result.now ≡ node_name outline.now node }
{
    match node {
        Node::Vis(symbol) | Node::Val(symbol) => outline.names().get(symbol.0 as usize),
        Node::Mode(choice) | Node::Sel(choice) => choice_title(outline, choice),
    }
}

/// The nodes of numbers, each with its name.
fn named_nodes(
    alloc: Global,
    outline: &Outline,
    numbers: &[u32],
) -> Result<Vec<NamedNode>, AllocError>
    requires { length outline.now.symbols ≤ MOST_SYMBOLS }
    ensures { IfOk result (λ nodes. nodes.items ≡ map (named_node outline.now) numbers.now) }
{
    let mut nodes = Vec::with_capacity(alloc, numbers.len())?;
    for number in numbers {
        let node = Node::in_tree(outline.symbols().len(), *number as usize);
        let name = Text::copy_of(alloc, node_name(outline, node))?;
        nodes.push(NamedNode { node, name })?;
    }
    Ok(nodes)
}

/// The symbol `MODULES`, if it is defined.
pub(crate) fn modules_symbol(outline: &Outline) -> Option<SymId>
    requires named { length outline.now.names ≤ MOST_SYMBOLS }
    ensures { result ≡ modules_symbol outline.now }
{
    let number = outline.names().find("MODULES")?;
    Some(SymId(number as u32))
}

/// Keeps the numbers of the nodes, and removes those of conditions.
fn keep_nodes(numbers: &mut Vec<u32>, nodes: usize)
    ensures { numbers.new.items ≡ filter (is_node nodes) numbers.old.items }
{
    numbers.retain(|number| (*number as usize) < nodes);
}

/// The cells in an order in which each comes after all that it reads.
///
/// It fails where nodes form a loop, with the nodes of one, and where memory is refused.
pub(crate) fn cell_order(
    alloc: Global,
    outline: &Outline,
    used: &Rows,
) -> Result<Vec<u32>, TreeFault>
    requires few { length outline.now.symbols ≤ MOST_SYMBOLS }
    requires few_cells { cell_count outline.now < 2 ^ 32 }
    requires nested { AreNested outline.now }
    requires rows { AreRowsTo outline.now (cell_count outline.now) used.now }
    ensures order { IfOk result (λ order. IsOrder used.now order.items) }
    ensures loopless { OnOk result (IsLoopless outline.now) }
    ensures fault { IfErr result (IsLinkFault outline.now) }
{
    match Graph::of(used).order(alloc) {
        Ok(order) => Ok(order),
        Err(OrderFault::Loop(mut numbers)) => {
            keep_nodes(&mut numbers, node_count(outline));
            let nodes = named_nodes(alloc, outline, numbers.as_slice())?;
            Err(TreeFault::Loop(nodes))
        }
        Err(OrderFault::NoMemory) => Err(TreeFault::NoMemory),
    }
}

/// The first fault of a symbol or a choice, reported with its name or its line.
fn check_outline(alloc: Global, lines: &[Line<'_>], outline: &Outline) -> Result<(), TreeFault>
    requires few { length outline.now.symbols ≤ MOST_SYMBOLS }
    requires few_choices { length outline.now.choices ≤ 2 ^ 30 }
    requires choices { length outline.now.choices ≡ count_by is_choice lines.now }
    ensures faultless { OnOk result (outline_fault outline.now ≡ None) }
    ensures fault { IfErr result (IsTreeProblem lines.now outline.now) }
{
    let faults = outline_faults(alloc, outline)?;
    let Some(first) = faults.as_slice().first() else {
        return Ok(());
    };
    let choices = choice_lines(alloc, lines)?;
    Err(reported(alloc, outline, choices.as_slice(), *first)?)
}

/// The tree of what lines define.
///
/// It fails with the first fault of a symbol or a choice; else where nodes form a loop, with the nodes of one and their
/// names; and where memory is refused.
pub(crate) fn link(alloc: Global, lines: &[Line<'_>], outline: Outline) -> Result<Tree, TreeFault>
    requires few { length outline.symbols ≤ MOST_SYMBOLS }
    requires few_choices { length outline.choices ≤ 2 ^ 30 }
    requires few_definitions { length outline.definitions ≤ 2 ^ 26 }
    requires few_blocks { length outline.blocks ≤ 2 ^ 26 }
    requires choices { length outline.choices ≡ count_by is_choice lines.now }
    requires named { length outline.names ≡ length outline.symbols }
    requires names { AreNames outline.names }
    requires members { AreMembersListed outline }
    requires entries { All (IsEntryOf outline) outline.entries }
    requires firsts { first_symbols outline.entries ≡ symbol_ids outline }
    requires menus { AreMenusClosed outline }
    requires nested { AreNested outline }
    ensures tree { IfOk result (λ tree. tree ≡ outline) }
    ensures accepted { IfOk result IsAccepted }
    ensures faultless { OnOk result (outline_fault outline ≡ None) }
    ensures loopless { OnOk result (IsLoopless outline) }
    ensures fault { IfErr result (IsTreeProblem lines.now outline) }
{
    check_outline(alloc, lines, &outline)?;
    let modules = modules_symbol(&outline);
    let uses = used_rows(alloc, &outline)?;
    let order = cell_order(alloc, &outline, &uses)?;
    let used_by = Graph::of(&uses).users(alloc)?;
    Ok(Tree {
        outline,
        modules,
        order,
        uses,
        used_by,
    })
}
