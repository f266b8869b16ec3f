//! The lines of a report on fragments that were merged.

use crate::earlier_effects::{EffectsBefore, UsableLine};
use kc_facts::{View, push_asked, push_shortfall, push_value_or_nothing};
use kc_files::{Assign, FoundInLine, FragmentLines, Input, LineFact, MergeCounts, assign_at};
use std::alloc::{AllocError, Global};

/// What a report on fragments is written from.
#[derive(Drop)]
pub(crate) struct MergeText<'r, 's, 'f> {
    pub view: &'r View<'s>,
    pub fragments: &'r [Input<'f>],
    pub read: &'r FragmentLines<'f>,
    /// What is said of each line that can't be used, in their order.
    pub unusable: &'r [String],
    /// What is reported of the lines, in their order.
    pub reported: &'r [FoundInLine],
    /// By the number of a symbol, the line that gives it the value that it has.
    pub giving: &'r [Option<usize>],
}

impl MergeText<'_, '_, '_> {
    /// The lines of the report on the lines of the fragments: one for each thing that is reported.
    ///
    /// # Errors
    ///
    /// `AllocError` where memory is refused.
    pub fn written(&self, alloc: Global) -> Result<String, AllocError> {
        let mut text = String::new(alloc);
        let mut unusable = 0usize;
        for found in self.reported {
            let line = found.line;
            match found.fact {
                LineFact::Unusable => {
                    self.push_unusable(&mut text, line, unusable)?;
                    unusable = unusable.saturating_add(1);
                }
                LineFact::ReplacesLine(earlier) => self.push_replaced(&mut text, line, earlier)?,
                LineFact::ReplacesMember(earlier) => self.push_member(&mut text, line, earlier)?,
                LineFact::WithoutEffect => self.push_other(alloc, &mut text, line)?,
            }
        }
        Ok(text)
    }

    /// What the line of an index gives, if it can be used.
    fn assign(&self, index: usize) -> Option<&Assign> {
        assign_at(self.read.lines.as_slice(), index)
    }

    /// Adds the place of the line of an index: `PATH:LINE`.
    fn push_at(&self, text: &mut String, index: usize) -> Result<(), AllocError> {
        let Some(line) = self.read.lines.get(index) else {
            return Ok(());
        };
        let Some(input) = self.fragments.get(line.fragment) else {
            return Ok(());
        };
        let path = input.path;
        let number = line.line.number;
        write!(text, "{path}:{number}")
    }

    /// Adds the place of the line of an index and the name of its symbol.
    fn push_head(
        &self,
        text: &mut String,
        index: usize,
        assign: &Assign,
    ) -> Result<(), AllocError> {
        self.push_at(text, index)?;
        let name = self.view.tree().name(assign.symbol);
        write!(text, ": {name}: ")
    }

    /// Adds why a line can't be used, in the words that were passed in for the one of this number among those.
    fn push_unusable(
        &self,
        text: &mut String,
        index: usize,
        number: usize,
    ) -> Result<(), AllocError> {
        self.push_at(text, index)?;
        text.push_str(": ")?;
        if let Some(named) = self.read.unusable.get(number) {
            if named.name != "" {
                text.push_str(named.name)?;
                text.push_str(": ")?;
            }
        }
        if let Some(words) = self.unusable.get(number) {
            text.push_str(words.as_str())?;
        }
        text.push('\n')?;
        Ok(())
    }

    /// Adds which line of its symbol a line takes the place of.
    fn push_replaced(
        &self,
        text: &mut String,
        index: usize,
        before: usize,
    ) -> Result<(), AllocError> {
        self.push_taken(text, index)?;
        if let Some(earlier) = self.assign(before) {
            push_asked(text, self.view, earlier.symbol, &earlier.value)?;
        }
        self.push_bracketed_at(text, before)
    }

    /// Adds which other member of its choice a line takes the place of.
    fn push_member(
        &self,
        text: &mut String,
        index: usize,
        before: usize,
    ) -> Result<(), AllocError> {
        self.push_taken(text, index)?;
        if let Some(earlier) = self.assign(before) {
            text.push_str(self.view.tree().name(earlier.symbol))?;
            text.push('=')?;
            push_asked(text, self.view, earlier.symbol, &earlier.value)?;
        }
        self.push_bracketed_at(text, before)
    }

    /// Adds that what a line gives takes the place of something.
    fn push_taken(&self, text: &mut String, index: usize) -> Result<(), AllocError> {
        if let Some(assign) = self.assign(index) {
            self.push_head(text, index, assign)?;
            push_asked(text, self.view, assign.symbol, &assign.value)?;
        }
        text.push_str(" takes the place of ")
    }

    /// Adds the place of the line of an index in brackets, at the end of a line: ` (PATH:LINE)`.
    fn push_bracketed_at(&self, text: &mut String, index: usize) -> Result<(), AllocError> {
        text.push_str(" (")?;
        self.push_at(text, index)?;
        text.push_str(")\n")
    }

    /// Adds that a symbol has another value than a line gives it, and why: where another line gives it that value, which
    /// chose it in its choice, that one.
    fn push_other(&self, alloc: Global, text: &mut String, index: usize) -> Result<(), AllocError> {
        let Some(assign) = self.assign(index) else {
            return Ok(());
        };
        self.push_head(text, index, assign)?;
        text.push_str("asked ")?;
        push_asked(text, self.view, assign.symbol, &assign.value)?;
        text.push_str(", got ")?;
        push_value_or_nothing(text, self.view, assign.symbol)?;
        text.push_str(": ")?;
        match self.giving.get(assign.symbol.0 as usize).copied().flatten() {
            Some(chooser) => {
                self.push_at(text, chooser)?;
                text.push_str(" chose it")?;
            }
            None => push_shortfall(alloc, text, self.view, assign.symbol, &assign.value)?,
        }
        text.push('\n')?;
        Ok(())
    }
}

/// Adds the lines of a `.config` that have lost their effect, by their indices, and why.
///
/// # Errors
///
/// `AllocError` where memory is refused.
pub(crate) fn push_lost(
    alloc: Global,
    text: &mut String,
    view: &View<'_>,
    before: &EffectsBefore,
    lost: &[usize],
) -> Result<(), AllocError> {
    for index in lost {
        if let Some(line) = before.lines.get(*index) {
            push_lost_line(alloc, text, view, before.path.as_str(), line)?;
        }
    }
    Ok(())
}

/// Adds a line of a `.config` that has lost its effect, and why.
fn push_lost_line(
    alloc: Global,
    text: &mut String,
    view: &View<'_>,
    path: &str,
    line: &UsableLine,
) -> Result<(), AllocError> {
    let symbol = line.assign.symbol;
    let name = view.tree().name(symbol);
    let number = line.number;
    write!(text, "{path}:{number}: {name}: was ")?;
    push_asked(text, view, symbol, &line.assign.value)?;
    text.push_str(", is ")?;
    push_value_or_nothing(text, view, symbol)?;
    text.push_str(": ")?;
    push_shortfall(alloc, text, view, symbol, &line.assign.value)?;
    text.push('\n')?;
    Ok(())
}

/// Adds the counts, as the last line of a report; without a `.config`, whose path is empty, none of its lines.
pub(crate) fn push_counts(
    text: &mut String,
    counts: &MergeCounts,
    config: &str,
) -> Result<(), AllocError> {
    let asked = counts.asked;
    let got = counts.got;
    let other = counts.other;
    let unusable = counts.unusable;
    let replaced = counts.replaced;
    let hint = if other > 0 { " (see kconf how)" } else { "" };
    write!(
        text,
        "{asked} asked: {got} got, {other} got another value{hint}, {unusable} unusable, {replaced} replaced"
    )?;
    match counts.lost {
        _ if config == "" => text.push('\n'),
        1 => write!(text, "; 1 line of {config} lost\n"),
        lost => write!(text, "; {lost} lines of {config} lost\n"),
    }
}
