//! Trees of whole texts, and the faults of texts that have none.

ghost use Rattle.std.specs.Prelude.{◌≤◌, length};
ghost use Rattle.kc_text.specs.declared.reading.TheConstants.{MOST_LINES};

use bumpalo::Bump;
use kc_text::{Line, Sources, Vars, logical_lines};
use kc_tree::{Seed, Tree, TreeFault, all_faults};
use std::alloc::{AllocError, Global};
use std::test::Fail;

/// Which lines of a text a tree is made of.
#[derive(Clone, Copy)]
enum Part {
    /// All.
    Whole,
    /// All but the last, which is the end of the file.
    Cut,
}

/// The lines of a part.
fn lines_of_part<'a, 'b>(lines: &'a [Line<'b>], part: Part) -> &'a [Line<'b>]
    ensures { length result.now ≤ length lines.now }
{
    let count = match part {
        Part::Whole => lines.len(),
        Part::Cut => lines.len().saturating_sub(1),
    };
    &lines[..count]
}

/// A fault as the program reports it.
fn show_fault(alloc: Global, fault: &TreeFault) -> Result<String, AllocError> {
    format!(in alloc; "{fault}")
}

/// What a function shows of the tree of lines, or their fault. It owns a tree, so it has one way out for each.
fn shown_of_lines<F: FnOnce(Global, &Tree) -> Result<String, AllocError>>(
    alloc: Global,
    lines: &[Line<'_>],
    show: F,
) -> Result<String, AllocError>
    requires show { F.IsAlwaysCallable show }
    requires few { length lines.now ≤ MOST_LINES }
{
    match Tree::parse(alloc, lines) {
        Ok(tree) => show(alloc, &tree),
        Err(fault) => show_fault(alloc, &fault),
    }
}

/// What a function shows of the tree of a part of the lines of a file K.
fn shown_of_sources<F: FnOnce(Global, &Tree) -> Result<String, AllocError>>(
    alloc: Global,
    sources: &Sources,
    part: Part,
    show: F,
) -> Result<String, Fail>
    requires { F.IsAlwaysCallable show }
{
    let (vars, arena) = (Vars::none(alloc), Bump::new(alloc));
    let lines = logical_lines(alloc, &arena, sources, &vars, "K")?;
    let shown = shown_of_lines(alloc, lines_of_part(lines.as_slice(), part), show);
    Ok(shown?)
}

/// What a function shows of the tree of a part of a file K of this text, or its fault.
fn shown_of_part<F: FnOnce(Global, &Tree) -> Result<String, AllocError>>(
    alloc: Global,
    text: &str,
    part: Part,
    show: F,
) -> Result<String, Fail>
    requires { F.IsAlwaysCallable show }
{
    let mut sources = Sources::new(alloc);
    sources.add("K", text)?;
    shown_of_sources(alloc, &sources, part, show)
}

/// What a function shows of the tree of a file K of this text, or its fault.
pub(crate) fn shown<F: FnOnce(Global, &Tree) -> Result<String, AllocError>>(
    alloc: Global,
    text: &str,
    show: F,
) -> Result<String, Fail>
    requires { F.IsAlwaysCallable show }
{
    shown_of_part(alloc, text, Part::Whole, show)
}

/// Says that there is a tree.
fn show_nothing(alloc: Global, _tree: &Tree) -> Result<String, AllocError> {
    String::from_str(alloc, "a tree")
}

/// The fault of the lines of a text without the end of the file, or that they have a tree.
pub(crate) fn fault_of_cut(alloc: Global, text: &str) -> Result<String, Fail> {
    shown_of_part(alloc, text, Part::Cut, show_nothing)
}

/// Faults with a comma and a blank between each two, and that there is a tree where there are none.
fn show_faults(alloc: Global, faults: &[TreeFault]) -> Result<String, AllocError> {
    let Some((first, others)) = faults.split_first() else {
        return String::from_str(alloc, "a tree");
    };
    let mut out = show_fault(alloc, first)?;
    for fault in others {
        out.push_str(", ")?;
        out.push_str(show_fault(alloc, fault)?.as_str())?;
    }
    Ok(out)
}

/// All faults of lines; the first is that of `Tree::parse`.
fn faults_of_lines(alloc: Global, lines: &[Line<'_>]) -> Result<String, Fail>
    requires { length lines.now ≤ MOST_LINES }
{
    let first = shown_of_lines(alloc, lines, show_nothing)?;
    let faults = show_faults(alloc, all_faults(alloc, Seed::fixed(), lines)?.as_slice())?;
    if faults.starts_with(first.as_str()) {
        return Ok(faults);
    }
    Err(Fail::new(format!(in alloc; "{first}, not the first of {faults}")?))
}

/// All faults of a file K.
fn faults_of_sources(alloc: Global, sources: &Sources) -> Result<String, Fail> {
    let (vars, arena) = (Vars::none(alloc), Bump::new(alloc));
    let lines = logical_lines(alloc, &arena, sources, &vars, "K")?;
    faults_of_lines(alloc, lines.as_slice())
}

/// All faults of a file K. K may source a file b, which comes after ` & `.
pub(crate) fn faults_of(alloc: Global, text: &str) -> Result<String, Fail> {
    let (top, sourced) = text.split_once(" & ").unwrap_or((text, ""));
    let mut sources = Sources::new(alloc);
    sources.add("K", top)?;
    sources.add("b", sourced)?;
    faults_of_sources(alloc, &sources)
}
