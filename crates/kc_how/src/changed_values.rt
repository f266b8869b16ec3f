//! Which values change besides those that lines name.

ghost use Rattle.std.specs.Prelude.{◌≡◌, ◌<◌, ◌++◌, ◌||◌, ℕ, IfOk, OnOk, count_by, length, false, slice_index_or};
ghost use Rattle.std.specs.List.{list_any};
ghost use Rattle.kc_tree.specs.declared.node.Node.TheVariants.{Val};
ghost use Rattle.kc_value.specs.Assignment.{as_tri, assignment_of};
ghost use Rattle.kc_how.specs.ChangedValues.{AreNamed, is_below, is_changed, is_less, is_lowered, line_at, names, value_lines};

use crate::copies::value_copy;
use kc_files::{Assign, has_effect};
use kc_tree::{Node, SymId, Tree, Tri, UserVal};
use kc_value::{NodeValues, Value};
use std::alloc::{AllocError, Global};

/// How many symbols change their values that no line names.
#[derive(Clone, Copy, Debug, PartialEq, Eq)]
pub struct Changes {
    /// Those that have another value.
    pub changed: usize,
    /// Those of them that are bools and tristates and have a lesser one.
    pub lower: usize,
}

/// Adds a symbol with its value, if it has one. The error comes where memory is refused.
fn add_value(
    lines: &mut Vec<Assign>,
    tree: &Tree,
    values: &NodeValues,
    symbol: SymId,
) -> Result<(), AllocError>
    ensures { OnOk result (lines.new.items ≡ lines.old.items ++ line_at (assignment_of tree.now values.now) symbol.0) }
{
    if let Some(Value::Shown(value, _)) = values.get(tree.number(Node::Val(symbol))) {
        let value = value_copy(value)?;
        lines.push(Assign { symbol, value })?;
    }
    Ok(())
}

/// The values of all symbols, each as a line that gives it, in the order of the tree.
///
/// # Errors
///
/// The error comes where memory is refused.
pub fn value_lines(
    alloc: Global,
    tree: &Tree,
    values: &NodeValues,
) -> Result<Vec<Assign>, AllocError>
    ensures { IfOk result (λ lines. lines.items ≡ value_lines (assignment_of tree.now values.now) (length tree.now.symbols)) }
{
    let mut lines = Vec::new(alloc);
    for number in 0..tree.symbols().len() {
        add_value(&mut lines, tree, values, SymId(number as u32))?;
    }
    Ok(lines)
}

/// Marks the symbol that a line names.
fn mark_one(marks: &mut Vec<bool>, line: &Assign)
    ensures whole { length marks.new.items ≡ length marks.old.items }
    ensures marks { (n : ℕ) → n < length marks.old.items
        → slice_index_or marks.new.items n false ≡ (names n line.now || slice_index_or marks.old.items n false) }
{
    let number = line.symbol.0 as usize;
    if number < marks.len() {
        marks[number] = true;
    }
}

/// Marks the symbols that lines name.
fn mark(marks: &mut Vec<bool>, lines: &[Assign])
    ensures whole { length marks.new.items ≡ length marks.old.items }
    ensures marks { (n : ℕ) → n < length marks.old.items
        → slice_index_or marks.new.items n false ≡ (list_any (names n) lines.now || slice_index_or marks.old.items n false) }
{
    for line in lines {
        mark_one(marks, line);
    }
}

/// By number, whether a wanted value or a line names the symbol.
///
/// # Errors
///
/// The error comes where memory is refused.
pub fn named_symbols(
    alloc: Global,
    tree: &Tree,
    wanted: &[Assign],
    lines: &[Assign],
) -> Result<Vec<bool>, AllocError>
    ensures { IfOk result (λ marks. AreNamed wanted.now lines.now (length tree.now.symbols) marks.items) }
{
    let mut marks = vec![in alloc; false; tree.symbols().len()]?;
    mark(&mut marks, wanted);
    mark(&mut marks, lines);
    Ok(marks)
}

/// Whether the symbol of a number is marked.
fn is_marked(marks: &[bool], symbol: SymId) -> bool
    ensures { result ≡ slice_index_or marks.now symbol.0 false }
{
    match marks.get(symbol.0 as usize) {
        Some(mark) => *mark,
        None => false,
    }
}

/// Whether a symbol that is not marked no longer has the value of a line.
fn is_changed(tree: &Tree, values: &NodeValues, marks: &[bool], line: &Assign) -> bool
    ensures { result ≡ is_changed (assignment_of tree.now values.now) marks.now line.now }
{
    !is_marked(marks, line.symbol) && !has_effect(tree, values, line)
}

/// Whether a tristate value is less than another one.
fn is_less(value: Tri, other: Tri) -> bool
    ensures { result ≡ is_less value other }
{
    match value {
        Tri::No => !other.is_no(),
        Tri::Module => matches!(other, Tri::Yes),
        Tri::Yes => false,
    }
}

/// Whether a tristate value is less than the value of a line.
fn is_below(value: Tri, before: &UserVal) -> bool
    ensures { result ≡ is_below value before.now }
{
    match before {
        UserVal::Tri(before) => is_less(value, *before),
        UserVal::Text(_) => false,
    }
}

/// Whether a symbol that is not marked has a lesser value than that of a line.
fn is_lowered(tree: &Tree, values: &NodeValues, marks: &[bool], line: &Assign) -> bool
    ensures { result ≡ is_lowered (assignment_of tree.now values.now) marks.now line.now }
{
    let value = values.tri(tree.number(Node::Val(line.symbol)));
    !is_marked(marks, line.symbol) && is_below(value, &line.value)
}

/// How many of the lines that gave symbols their values before give them no longer, over values after, where their symbols
/// are not marked.
pub fn other_changes(tree: &Tree, values: &NodeValues, before: &[Assign], marks: &[bool]) -> Changes
    ensures changed { result.changed ≡ count_by (is_changed (assignment_of tree.now values.now) marks.now) before.now }
    ensures lower { result.lower ≡ count_by (is_lowered (assignment_of tree.now values.now) marks.now) before.now }
{
    Changes {
        changed: count_changed(tree, values, before, marks),
        lower: count_lowered(tree, values, before, marks),
    }
}

/// How many symbols change.
fn count_changed(tree: &Tree, values: &NodeValues, before: &[Assign], marks: &[bool]) -> usize
    ensures { result ≡ count_by (is_changed (assignment_of tree.now values.now) marks.now) before.now }
{
    before
        .iter()
        .filter(|line| is_changed(tree, values, marks, line))
        .count()
}

/// How many bools and tristates fall.
fn count_lowered(tree: &Tree, values: &NodeValues, before: &[Assign], marks: &[bool]) -> usize
    ensures { result ≡ count_by (is_lowered (assignment_of tree.now values.now) marks.now) before.now }
{
    before
        .iter()
        .filter(|line| is_lowered(tree, values, marks, line))
        .count()
}
