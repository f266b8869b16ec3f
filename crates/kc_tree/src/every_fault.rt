//! All faults of logical lines at once.

ghost use Rattle.std.specs.Prelude.{◌≡◌, ◌<◌, ◌≤◌, ◌^◌, ◌++◌, All, IfOk, OnOk, count_by, filter, filter_map, length, option_to_list};
ghost use Rattle.kc_text.specs.declared.reading.TheConstants.{MOST_LINES};
ghost use Rattle.kc_outline.specs.Nested.{AreNested};
ghost use Rattle.kc_statement.specs.Keywords.{is_choice};
ghost use Rattle.kc_statement.specs.declared.limits.TheConstants.{MOST_SYMBOLS};
ghost use Rattle.kc_tree.specs.AllFaults.{AreFaultsOf, AreFaultsOfTree, AreLoops, AreRefusedForFirst, AreReported, line_fault_at};
ghost use Rattle.kc_tree.specs.Cells.{cell_count};
ghost use Rattle.kc_tree.specs.OutlineFaults.{IsInside};

use crate::fault::TreeFault;
use crate::link::cell_order;
use crate::outline_faults::{OutlineFault, choice_lines, outline_faults, reported};
use crate::uses::used_rows;
use kc_outline::{FaultyLine, LineFault, Outline, faulty_lines, read_outline};
use kc_statement::Seed;
use kc_text::{Line, Text};
use std::alloc::{AllocError, Global};

/// Adds the fault of a line, with the path and the number of the line.
fn add_line_fault(
    alloc: Global,
    lines: &[Line<'_>],
    faulty: FaultyLine,
    faults: &mut Vec<TreeFault>,
) -> Result<(), AllocError>
    ensures { OnOk result (faults.new.items ≡ faults.old.items ++ option_to_list (line_fault_at lines.now faulty)) }
{
    let Some(line) = lines.get(faulty.place) else {
        return Ok(());
    };
    let path = Text::copy_of(alloc, line.path())?;
    faults.push(TreeFault::Line {
        problem: faulty.problem,
        path,
        line: line.number(),
    })?;
    Ok(())
}

/// The faults of lines, each with the path and the number of its line.
fn reported_lines(
    alloc: Global,
    lines: &[Line<'_>],
    places: &[FaultyLine],
) -> Result<Vec<TreeFault>, AllocError>
    ensures { IfOk result (λ faults. faults.items ≡ filter_map (line_fault_at lines.now) places.now) }
{
    let mut faults = Vec::with_capacity(alloc, places.len())?;
    for faulty in places {
        add_line_fault(alloc, lines, *faulty, &mut faults)?;
    }
    Ok(faults)
}

/// The faults of symbols and choices, each with the name of its symbol, or the path and the number of its line.
fn reported_faults(
    alloc: Global,
    lines: &[Line<'_>],
    outline: &Outline,
    found: &[OutlineFault],
) -> Result<Vec<TreeFault>, AllocError>
    requires { All (IsInside (filter is_choice lines.now)) found.now }
    ensures { IfOk result (λ faults. AreReported lines.now outline.now found.now faults.items) }
{
    let choices = choice_lines(alloc, lines)?;
    let mut faults = Vec::with_capacity(alloc, found.len())?;
    for fault in found {
        faults.push(reported(alloc, outline, choices.as_slice(), *fault)?)?;
    }
    Ok(faults)
}

/// One loop of the nodes, if there is one.
fn loops(alloc: Global, outline: &Outline) -> Result<Vec<TreeFault>, AllocError>
    requires few { length outline.now.symbols ≤ MOST_SYMBOLS }
    requires few_cells { cell_count outline.now < 2 ^ 32 }
    requires named { length outline.now.names ≡ length outline.now.symbols }
    requires nested { AreNested outline.now }
    ensures { IfOk result (λ faults. AreLoops outline.now faults.items) }
{
    let used = used_rows(alloc, outline)?;
    let fault = match cell_order(alloc, outline, &used) {
        Ok(_) => return Ok(Vec::new(alloc)),
        Err(TreeFault::NoMemory) => return Err(AllocError),
        Err(fault) => fault,
    };
    let mut faults = Vec::with_capacity(alloc, 1)?;
    faults.push(fault)?;
    Ok(faults)
}

/// All faults of what lines define: of symbols and choices, or a loop where there is none of these.
fn tree_faults(
    alloc: Global,
    lines: &[Line<'_>],
    outline: &Outline,
) -> Result<Vec<TreeFault>, AllocError>
    requires few { length outline.now.symbols ≤ MOST_SYMBOLS }
    requires few_choices { length outline.now.choices ≤ 2 ^ 30 }
    requires few_definitions { length outline.now.definitions ≤ 2 ^ 26 }
    requires few_blocks { length outline.now.blocks ≤ 2 ^ 26 }
    requires choices { length outline.now.choices ≡ count_by is_choice lines.now }
    requires named { length outline.now.names ≡ length outline.now.symbols }
    requires nested { AreNested outline.now }
    ensures { IfOk result (λ faults. AreFaultsOfTree lines.now outline.now faults.items) }
{
    let found = outline_faults(alloc, outline)?;
    if found.is_empty() {
        return loops(alloc, outline);
    }
    reported_faults(alloc, lines, outline, found.as_slice())
}

/// All faults of logical lines (this project's own, after kconfig-language.rst), where `Tree::parse` gives the first of
/// them: it is the first here, too, and there are none where that gives a tree. Of several loops any may be the one that
/// either of them gives.
///
/// Where lines are at fault, these are all of them, in their order, each with the first problem that it has; a line is
/// judged by the lines before it as they are, also where those are at fault, and no line is read after one that opens
/// one block more than may be open. Where no line is at fault, these are the faults of symbols and choices: each symbol
/// without type (K12), then each with two types (K13), with two prompts in one definition (K14), with a default or a
/// range that does not fit (K15), with a `select` or an `imply` that does not (K16), each choice at fault with the first
/// problem that it has (K17), and each symbol with a bad `modules` (K18). A symbol is there once for each kind that it
/// has. Where there is none of these either, it is one loop (K19), if there is one.
///
/// There are no more lines than `logical_lines` gives. The names of symbols are kept under the hash of a seed.
///
/// # Errors
///
/// `AllocError` where memory was refused.
pub fn all_faults(
    alloc: Global,
    seed: Seed,
    lines: &[Line<'_>],
) -> Result<Vec<TreeFault>, AllocError>
    requires { length lines.now ≤ MOST_LINES }
    ensures faults { IfOk result (λ faults. AreFaultsOf lines.now faults.items) }
    ensures first { IfOk result (λ faults. AreRefusedForFirst lines.now faults.items) }
{
    match read_outline(alloc, seed, lines) {
        Ok(outline) => tree_faults(alloc, lines, &outline),
        Err(LineFault::At { .. }) => {
            let places = faulty_lines(alloc, seed, lines)?;
            reported_lines(alloc, lines, places.as_slice())
        }
        Err(LineFault::NoMemory) => Err(AllocError),
    }
}
