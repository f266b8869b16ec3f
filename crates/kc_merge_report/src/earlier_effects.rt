//! The lines of a `.config` that had their effect before fragments were merged.

use kc_facts::View;
use kc_files::{
    Assign, ConfigLine, FragmentLine, Input, LineSays, Outcome, Prefix, ReadFault, has_effect,
    outcomes_of, read_fragments,
};
use kc_text::Text;
use kc_tree::Tree;
use kc_value::NodeValues;
use std::alloc::{AllocError, Global};

/// A line of a `.config` with its number, and what it gives.
#[derive(Drop)]
pub(crate) struct UsableLine {
    pub number: usize,
    pub assign: Assign,
}

/// The lines of a `.config` that had their effect before fragments were merged.
#[derive(Drop)]
pub struct EffectsBefore {
    pub(crate) path: Text,
    pub(crate) lines: Vec<UsableLine>,
}

/// The lines of a `.config` that have their effect: those that no later one replaces, where the symbol has the value of the
/// line (this project's own).
///
/// # Errors
///
/// - `ReadFault::Limit` where the `.config` has more than 16,777,216 bytes.
/// - `ReadFault::NoMemory` where memory was refused.
pub fn effects_before(
    alloc: Global,
    view: &View<'_>,
    prefix: &Prefix,
    config: &Input<'_>,
) -> Result<EffectsBefore, ReadFault> {
    let tree = view.tree();
    let read = read_fragments(alloc, tree, prefix, &[*config])?;
    let outcomes = outcomes_of(alloc, tree, view.values(), read.lines.as_slice())?;
    let path = Text::copy_of(alloc, config.path)?;
    let lines = lines_that_got(alloc, read.lines, outcomes.as_slice())?;
    Ok(EffectsBefore { path, lines })
}

/// Of lines those that got the value which they give.
fn lines_that_got(
    alloc: Global,
    lines: Vec<FragmentLine>,
    outcomes: &[Outcome],
) -> Result<Vec<UsableLine>, AllocError> {
    let mut got = Vec::new(alloc);
    for (line, outcome) in lines.into_iter().zip(outcomes) {
        let ConfigLine { number, says } = line.line;
        match says {
            LineSays::Usable(assign) if *outcome == Outcome::Got => {
                got.push(UsableLine { number, assign })?;
            }
            _ => {}
        }
    }
    Ok(got)
}

impl EffectsBefore {
    /// The indices of the lines that have no effect any more, and that no line of a fragment names the symbol of.
    ///
    /// # Errors
    ///
    /// `AllocError` where memory is refused.
    pub(crate) fn lost(
        &self,
        alloc: Global,
        tree: &Tree,
        values: &NodeValues,
        fragments: &[FragmentLine],
    ) -> Result<Vec<usize>, AllocError> {
        let named = named_symbols(alloc, tree, fragments)?;
        let mut lost = Vec::new(alloc);
        for (index, line) in self.lines.iter().enumerate() {
            if !is_named(named.as_slice(), &line.assign)
                && !has_effect(tree, values, &line.assign)
            {
                lost.push(index)?;
            }
        }
        Ok(lost)
    }
}

/// By the number of a symbol, whether a usable line names it.
fn named_symbols(
    alloc: Global,
    tree: &Tree,
    lines: &[FragmentLine],
) -> Result<Vec<bool>, AllocError> {
    let mut named = vec![in alloc; false; tree.symbols().len()]?;
    for line in lines {
        if let LineSays::Usable(assign) = &line.line.says {
            if let Some(mark) = named.get_mut(assign.symbol.0 as usize) {
                *mark = true;
            }
        }
    }
    Ok(named)
}

/// Whether the symbol of an assignment has a mark.
fn is_named(named: &[bool], assign: &Assign) -> bool {
    named
        .get(assign.symbol.0 as usize)
        .copied()
        .unwrap_or(false)
}
