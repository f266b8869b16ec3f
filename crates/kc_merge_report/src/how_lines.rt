//! The report on lines that give wanted values.

use crate::earlier_effects::EffectsBefore;
use crate::merge_lines::push_lost;
use kc_facts::{View, push_asked, push_shortfall, push_value_or_nothing};
use kc_files::{
    Assign, FragmentLine, FragmentLines, Input, LineSays, Prefix, ReadFault, read_fragments,
};
use kc_how::Changes;
use kc_tree::SymId;
use std::alloc::{AllocError, Global};

/// What lines that give wanted values cost.
#[derive(Debug, Drop)]
pub struct HowCosts {
    /// A line for each line of the `.config` that was lost.
    pub text: String,
    /// These lines, in their order.
    pub lost: Vec<LostLine>,
}

/// A line of a `.config` that was lost.
#[derive(Clone, Copy, Debug)]
pub struct LostLine {
    /// Its number, from 1.
    pub number: usize,
    pub symbol: SymId,
}

/// What a line is needed for.
#[derive(Clone, Copy)]
pub enum Need<'a> {
    /// A wanted value.
    Wanted(&'a Assign),
    /// A value of the `.config` that is kept.
    Kept(&'a Assign),
}

/// Adds a line for a line that is needed, over the values before it is merged (this project's own words): `NAME: m to y`,
/// and what it is needed for.
///
/// # Errors
///
/// `AllocError` where memory is refused.
pub fn push_needed_line(
    text: &mut String,
    view: &View<'_>,
    line: &Assign,
    need: Option<Need<'_>>,
) -> Result<(), AllocError> {
    text.push_str(view.tree().name(line.symbol))?;
    text.push_str(": ")?;
    push_value_or_nothing(text, view, line.symbol)?;
    text.push_str(" to ")?;
    push_asked(text, view, line.symbol, &line.value)?;
    if let Some(need) = need {
        push_need(text, view, line, need)?;
    }
    text.push('\n')?;
    Ok(())
}

/// Adds what a line is needed for.
fn push_need(
    text: &mut String,
    view: &View<'_>,
    line: &Assign,
    need: Need<'_>,
) -> Result<(), AllocError> {
    match need {
        Need::Wanted(wanted) if wanted.symbol == line.symbol => text.push_str(", wanted"),
        Need::Kept(kept) if kept.symbol == line.symbol => text.push_str(", kept"),
        Need::Wanted(wanted) => {
            text.push_str(", needed for ")?;
            push_line(text, view, wanted)
        }
        Need::Kept(kept) => {
            text.push_str(", needed to keep ")?;
            push_line(text, view, kept)
        }
    }
}

/// Adds that nothing gives a symbol a wanted value, and why it has another one (this project's own words).
///
/// # Errors
///
/// `AllocError` where memory is refused.
pub fn push_not_found(
    alloc: Global,
    text: &mut String,
    view: &View<'_>,
    wanted: &Assign,
) -> Result<(), AllocError> {
    text.push_str(view.tree().name(wanted.symbol))?;
    text.push_str(": wanted ")?;
    push_asked(text, view, wanted.symbol, &wanted.value)?;
    text.push_str(", is ")?;
    push_value_or_nothing(text, view, wanted.symbol)?;
    text.push_str(": ")?;
    push_shortfall(alloc, text, view, wanted.symbol, &wanted.value)?;
    text.push('\n')?;
    Ok(())
}

/// Adds a symbol with a value: `NAME=VALUE`.
fn push_line(text: &mut String, view: &View<'_>, line: &Assign) -> Result<(), AllocError> {
    text.push_str(view.tree().name(line.symbol))?;
    text.push('=')?;
    push_asked(text, view, line.symbol, &line.value)
}

/// Adds a line for each line of files that can't be used: its place, the name in it, and these words, in their order.
///
/// # Errors
///
/// `AllocError` where memory is refused.
pub fn push_unusable_lines(
    text: &mut String,
    files: &[Input<'_>],
    read: &FragmentLines<'_>,
    words: &[String],
) -> Result<(), AllocError> {
    let mut number = 0usize;
    for line in read.lines.as_slice() {
        if !matches!(&line.line.says, LineSays::Warned(_)) {
            continue;
        }
        push_place(text, files, line)?;
        if let Some(named) = read.unusable.get(number) {
            if named.name != "" {
                text.push_str(named.name)?;
                text.push_str(": ")?;
            }
        }
        if let Some(words) = words.get(number) {
            text.push_str(words.as_str())?;
        }
        text.push('\n')?;
        number = number.saturating_add(1);
    }
    Ok(())
}

/// Adds the place of a line: `PATH:LINE: `.
fn push_place(
    text: &mut String,
    files: &[Input<'_>],
    line: &FragmentLine,
) -> Result<(), AllocError> {
    let Some(file) = files.get(line.fragment) else {
        return Ok(());
    };
    let (path, number) = (file.path, line.line.number);
    write!(text, "{path}:{number}: ")
}

/// The lines of a `.config` that have lost their effect, over the values after a fragment was merged that does not name
/// their symbols, and why.
///
/// # Errors
///
/// - `ReadFault::Limit` where the fragment has more than 16,777,216 bytes.
/// - `ReadFault::NoMemory` where memory was refused.
pub fn how_costs(
    alloc: Global,
    view: &View<'_>,
    prefix: &Prefix,
    before: &EffectsBefore,
    fragment: &Input<'_>,
) -> Result<HowCosts, ReadFault> {
    let tree = view.tree();
    let read = read_fragments(alloc, tree, prefix, &[*fragment])?;
    let lost = before.lost(alloc, tree, view.values(), read.lines.as_slice())?;
    let mut text = String::new(alloc);
    push_lost(alloc, &mut text, view, before, lost.as_slice())?;
    Ok(HowCosts {
        text,
        lost: lost_lines(alloc, before, lost.as_slice())?,
    })
}

/// The lines of a `.config` that were lost, by their indices among those that had their effect.
fn lost_lines(
    alloc: Global,
    before: &EffectsBefore,
    lost: &[usize],
) -> Result<Vec<LostLine>, AllocError> {
    let mut lines = Vec::new(alloc);
    for index in lost {
        if let Some(line) = before.lines.get(*index) {
            lines.push(LostLine {
                number: line.number,
                symbol: line.assign.symbol,
            })?;
        }
    }
    Ok(lines)
}

/// How many lines are in the report of `how`.
#[derive(Clone, Copy, Debug)]
pub struct HowCounts {
    /// The values that are wanted.
    pub wanted: usize,
    /// The values of the `.config` that are kept.
    pub kept: usize,
    /// The lines that give them.
    pub lines: usize,
    /// The other symbols that change their values.
    pub changes: Changes,
    /// The lines of the `.config` that were lost.
    pub lost: usize,
}

/// Adds the counts, as the last line of a report; without a `.config`, whose path is empty, none of its lines.
///
/// # Errors
///
/// `AllocError` where memory is refused.
pub fn push_how_counts(
    text: &mut String,
    counts: HowCounts,
    config: &str,
) -> Result<(), AllocError> {
    let HowCounts {
        wanted,
        kept,
        lines,
        changes,
        lost,
    } = counts;
    write!(text, "{wanted} wanted")?;
    if kept > 0 {
        write!(text, ", {kept} kept")?;
    }
    match lines {
        1 => text.push_str(": 1 line")?,
        _ => write!(text, ": {lines} lines")?,
    }
    push_changes(text, changes)?;
    match lost {
        _ if config == "" => text.push('\n'),
        1 => write!(text, "; 1 line of {config} lost\n"),
        _ => write!(text, "; {lost} lines of {config} lost\n"),
    }
}

/// Adds how many other symbols change their values, nothing where none does.
fn push_changes(text: &mut String, changes: Changes) -> Result<(), AllocError> {
    let Changes { changed, lower } = changes;
    match changed {
        0 => return Ok(()),
        1 => text.push_str("; 1 other value changes")?,
        _ => write!(text, "; {changed} other values change")?,
    }
    match lower {
        0 => Ok(()),
        1 => text.push_str(", 1 is lower"),
        _ => write!(text, ", {lower} are lower"),
    }
}
