//! Who selects and implies a symbol.

use crate::extent::Extent;
use crate::reasons_in_words::push_said;
use kc_facts::{
    ReverseKind, ReverseLine, View, push_reverse_names, push_valued, push_valued_factors,
    reverse_lines,
};
use kc_lines::LineIndex;
use kc_text::Line;
use kc_tree::{Reverse, SymId, Tri};
use kc_value::reverse_factors;
use std::alloc::{AllocError, Global};

/// The most lines that select or imply a symbol which are shown, where not all are wanted.
const MOST_SHOWN: usize = 3;

/// The `select` or the `imply` lines that name a symbol.
#[derive(Clone, Copy)]
pub(crate) struct ReverseList {
    pub kind: ReverseKind,
    pub symbol: SymId,
}

/// Adds a `select` or an `imply` line: where it is, the symbol that it belongs to, and its condition with values, as
/// `kernel/power/Kconfig:38: HIBERNATION=y if SWAP=y`.
pub(crate) fn push_reverse(
    alloc: Global,
    text: &mut String,
    view: &View<'_>,
    line: Option<&Line<'_>>,
    reverse: &Reverse,
) -> Result<(), AllocError> {
    let mut words = String::new(alloc);
    push_valued(&mut words, view.known(), reverse.by)?;
    let factors = reverse_factors(alloc, view.known(), reverse)?;
    if !factors.is_empty() {
        words.push_str(" if ")?;
        push_valued_factors(&mut words, view, factors.as_slice())?;
    }
    push_said(text, line, words.as_str())
}

/// How many of the lines that name a symbol give it a value.
#[derive(Clone, Copy)]
struct Tally {
    active: usize,
    greatest: Tri,
}

/// What the lines that name a symbol give it.
fn count_lines(lines: &[ReverseLine<'_, '_, '_>]) -> Tally {
    let mut active: usize = 0;
    let mut greatest = Tri::No;
    for line in lines {
        if !line.value.is_no() {
            active = active.saturating_add(1);
        }
        greatest = greatest.or(line.value);
    }
    Tally { active, greatest }
}

/// Adds who selects or implies a symbol: how many of the lines that name it give it a value, and the first of these, or
/// all lines where all are wanted. Where none does, the symbols that would. Nothing where no line names it.
pub(crate) fn push_reverses(
    alloc: Global,
    text: &mut String,
    view: &View<'_>,
    index: &LineIndex<'_, '_>,
    list: ReverseList,
    extent: Extent,
) -> Result<(), AllocError> {
    let Some(found) = view.tree().symbols().get(list.symbol.0 as usize) else {
        return Ok(());
    };
    let lines = reverse_lines(alloc, view, index, list.kind, found)?;
    if lines.is_empty() {
        return Ok(());
    }
    let counted = count_lines(lines.as_slice());
    push_tally(text, list.kind, counted, lines.len())?;
    if found.choice().is_some() {
        text.push_str(", without effect on a member of a choice")?;
    } else if counted.active == 0 && extent == Extent::Short {
        text.push_str(": ")?;
        let _ = push_reverse_names(alloc, text, view, list.kind, list.symbol, None)?;
    }
    text.push('\n')?;
    let mut shown: usize = 0;
    for row in lines.as_slice() {
        if !is_shown(extent, !row.value.is_no(), shown) {
            continue;
        }
        push_reverse(alloc, text, view, row.line, row.reverse)?;
        shown = shown.saturating_add(1);
    }
    push_rest(text, extent, counted.active.saturating_sub(shown))
}

/// Whether one more line is shown after this count of lines.
fn is_shown(extent: Extent, is_active: bool, shown: usize) -> bool {
    match extent {
        Extent::Short => is_active && shown < MOST_SHOWN,
        Extent::All => true,
    }
}

/// Adds how many lines give a symbol which value, out of how many.
fn push_tally(
    text: &mut String,
    kind: ReverseKind,
    counted: Tally,
    count: usize,
) -> Result<(), AllocError> {
    let done = kind.done();
    let active = counted.active;
    if active == 0 {
        return write!(text, "  {done} by none of {count}");
    }
    let letter = counted.greatest.letter();
    write!(text, "  {done} {letter} by {active} of {count}")
}

/// Adds how many lines are not shown.
fn push_rest(text: &mut String, extent: Extent, left: usize) -> Result<(), AllocError> {
    match extent {
        Extent::Short if left > 0 => write!(text, "    ... {left} more: --all\n"),
        _ => Ok(()),
    }
}
