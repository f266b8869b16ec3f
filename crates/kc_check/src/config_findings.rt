//! What is found in a `.config`, line by line.

use crate::finding::Finding;
use crate::inputs::CheckInputs;
use crate::meant_lines::{comment_words, dropped_words};
use crate::selections::push_bracketed;
use kc_facts::{View, has_no_value, push_asked, push_shortfall, push_value_or_nothing};
use kc_files::{
    Assign, ConfigFinding, DroppedBackslash, FoundInLine, FragmentLine, Input, LineFact,
    MeantComment, NamedLine, ReadFault, assign_at, findings_of_config, outcomes_of, read_fragments,
    text_lines,
};
use kc_lines::{Attribute, Family, LineIndex, Part, shown_line};
use kc_tree::{ChoiceId, Node, SymId, Tree};
use kc_value::{Reason, active_range, changed_value, reason_over, spelled};
use std::alloc::{AllocError, Global};

/// Adds what is found in a `.config`: the lines that can't be used, those that take the place of others, and those without
/// effect.
///
/// # Errors
///
/// - `ReadFault::Limit` where the `.config` is too long.
/// - `ReadFault::NoMemory` where memory is refused.
pub(crate) fn config_findings(
    alloc: Global,
    view: &View<'_>,
    index: &LineIndex<'_, '_>,
    inputs: &CheckInputs<'_, '_>,
    config: Input<'_>,
    found: &mut Vec<Finding>,
) -> Result<(), ReadFault> {
    let tree = view.tree();
    let read = read_fragments(alloc, tree, inputs.prefix, &[config])?;
    let lines = read.lines.as_slice();
    let outcomes = outcomes_of(alloc, tree, view.values(), lines)?;
    let all = findings_of_config(
        alloc,
        tree,
        inputs.prefix,
        config.bytes,
        lines,
        outcomes.as_slice(),
    )?;
    let report = Report {
        view,
        line_index: index,
        prefix: inputs.prefix.as_str(),
        path: config.path,
        lines,
        named: read.unusable.as_slice(),
        unusable: inputs.unusable,
    };
    let texts = text_lines(alloc, config.bytes)?;
    let mut unusable = 0usize;
    for one in all {
        let number = one.before.saturating_add(1);
        match &one.finding {
            ConfigFinding::Comment(comment) => report.add_comment(alloc, number, comment, found)?,
            ConfigFinding::Line(next) if next.fact == LineFact::Unusable => {
                report.add_unusable(alloc, number, unusable, found)?;
                unusable = unusable.saturating_add(1);
            }
            ConfigFinding::Line(next) => report.add_usable(alloc, number, next, found)?,
            ConfigFinding::Dropped(next) => {
                let text = texts.get(one.before).copied().unwrap_or(&[]);
                report.add_dropped(alloc, number, text, next, found)?;
            }
        }
    }
    Ok(())
}

/// The lines of a `.config`, and what can be said of them.
#[derive(Drop)]
struct Report<'r, 's, 'l, 'a, 'c> {
    view: &'r View<'s>,
    line_index: &'r LineIndex<'l, 'a>,
    prefix: &'r str,
    path: &'r str,
    lines: &'r [FragmentLine],
    /// The names in the lines that can't be used, and what is said of these, in their order.
    named: &'r [NamedLine<'c>],
    unusable: &'r [String],
}

impl Report<'_, '_, '_, '_, '_> {
    /// Adds that a line, which has a number, is a comment that is likely meant as a line.
    fn add_comment(
        &self,
        alloc: Global,
        number: usize,
        comment: &MeantComment,
        found: &mut Vec<Finding>,
    ) -> Result<(), AllocError> {
        let name = self.view.tree().name(comment.symbol);
        let words = comment_words(alloc, self.prefix, name)?;
        found.push(Finding::in_line(alloc, self.path, number, name, words)?)?;
        Ok(())
    }

    /// Adds that a line, which has a number, gives a string a text that loses a backslash.
    fn add_dropped(
        &self,
        alloc: Global,
        number: usize,
        text: &[u8],
        dropped: &DroppedBackslash,
        found: &mut Vec<Finding>,
    ) -> Result<(), AllocError> {
        if let Some(assign) = assign_at(self.lines, dropped.line) {
            let words = dropped_words(alloc, self.prefix, text, dropped)?;
            let name = self.view.tree().name(assign.symbol);
            found.push(Finding::in_line(alloc, self.path, number, name, words)?)?;
        }
        Ok(())
    }

    /// Adds that a line can't be used, but for the line that kconf writes for a number without a value. It has a number among
    /// those that can't be used.
    fn add_unusable(
        &self,
        alloc: Global,
        number: usize,
        place: usize,
        found: &mut Vec<Finding>,
    ) -> Result<(), AllocError> {
        let mut name = "";
        if let Some(named) = self.named.get(place) {
            if named.value == Some("") && is_number_without_value(self.view, named.name) {
                return Ok(());
            }
            name = named.name;
        }
        let words = match self.unusable.get(place) {
            Some(words) => String::from_str(alloc, words.as_str())?,
            None => String::new(alloc),
        };
        found.push(Finding::in_line(alloc, self.path, number, name, words)?)?;
        Ok(())
    }

    /// Adds what is found in a line that can be used, and has a number.
    fn add_usable(
        &self,
        alloc: Global,
        number: usize,
        next: &FoundInLine,
        found: &mut Vec<Finding>,
    ) -> Result<(), AllocError> {
        let Some(assign) = assign_at(self.lines, next.line) else {
            return Ok(());
        };
        let words = match next.fact {
            LineFact::ReplacesLine(earlier) => self.replaced_words(alloc, earlier, assign)?,
            LineFact::ReplacesMember(earlier) => self.member_words(alloc, earlier, assign)?,
            LineFact::WithoutEffect | LineFact::Unusable => self.effect_words(alloc, assign)?,
        };
        let name = self.view.tree().name(assign.symbol);
        found.push(Finding::in_line(alloc, self.path, number, name, words)?)?;
        Ok(())
    }

    /// Adds the place of an earlier line in brackets: ` (PATH:LINE)`.
    fn push_earlier(&self, words: &mut String, earlier: usize) -> Result<(), AllocError> {
        let Some(line) = self.lines.get(earlier) else {
            return Ok(());
        };
        let path = self.path;
        let number = line.line.number;
        write!(words, " ({path}:{number})")
    }

    /// What is said of a line that takes the place of an earlier one of its symbol.
    fn replaced_words(
        &self,
        alloc: Global,
        earlier: usize,
        assign: &Assign,
    ) -> Result<String, AllocError> {
        let mut words = String::new(alloc);
        push_asked(&mut words, self.view, assign.symbol, &assign.value)?;
        words.push_str(" takes the place of ")?;
        if let Some(before) = assign_at(self.lines, earlier) {
            push_asked(&mut words, self.view, before.symbol, &before.value)?;
        }
        self.push_earlier(&mut words, earlier)?;
        Ok(words)
    }

    /// What is said of a member that takes the place of that of an earlier line.
    fn member_words(
        &self,
        alloc: Global,
        earlier: usize,
        assign: &Assign,
    ) -> Result<String, AllocError> {
        let tree = self.view.tree();
        let mut words = String::from_str(alloc, "takes the place of ")?;
        if let Some(before) = assign_at(self.lines, earlier) {
            words.push_str(tree.name(before.symbol))?;
        }
        self.push_earlier(&mut words, earlier)?;
        words.push_str(" in the choice")?;
        if let Some(choice) = tree.choice_of(assign.symbol) {
            push_choice(&mut words, tree, choice)?;
            let part = Part::Owner(Family::Choice, choice.0 as usize);
            push_bracketed(&mut words, self.line_index.line(part))?;
        }
        Ok(words)
    }

    /// What is said of a line whose symbol has another value than it gives: why. Where the symbol has that value for
    /// the line, this is `y gives m: ..`.
    fn effect_words(&self, alloc: Global, assign: &Assign) -> Result<String, AllocError> {
        let view = self.view;
        let mut words = String::new(alloc);
        push_asked(&mut words, view, assign.symbol, &assign.value)?;
        if is_outside_range(view, assign.symbol) {
            self.push_outside(alloc, &mut words, assign)?;
            return Ok(words);
        }
        if is_changed(alloc, view, assign.symbol)? {
            words.push_str(" gives ")?;
            push_value_or_nothing(&mut words, view, assign.symbol)?;
            words.push_str(": ")?;
        } else {
            words.push_str(" has no effect: ")?;
        }
        push_shortfall(alloc, &mut words, view, assign.symbol, &assign.value)?;
        Ok(words)
    }

    /// Adds the range that a value is outside of, and the value of its symbol.
    fn push_outside(
        &self,
        alloc: Global,
        words: &mut String,
        assign: &Assign,
    ) -> Result<(), AllocError> {
        let tree = self.view.tree();
        let kind = tree.symbol_type(assign.symbol);
        let Some(range) = active_range(self.view.known(), assign.symbol) else {
            return Ok(());
        };
        let low = spelled(alloc, kind, range.low)?;
        let high = spelled(alloc, kind, range.high)?;
        write!(words, " is outside the range {low} {high}")?;
        let definition = range.place.definition;
        let part = Part::Said(
            Family::Definition,
            definition,
            Attribute::Range,
            range.place.range,
        );
        push_bracketed(words, self.line_index.line(part))?;
        words.push_str("; its value is ")?;
        push_value_or_nothing(words, self.view, assign.symbol)
    }
}

/// Whether a symbol has another value than it would have without its user value.
fn is_changed(alloc: Global, view: &View<'_>, symbol: SymId) -> Result<bool, AllocError> {
    let Some(_found) = view.tree().symbols().get(symbol.0 as usize) else {
        return Ok(false);
    };
    let changed = changed_value(alloc, view.known(), Node::Val(symbol))?;
    Ok(changed.is_some())
}

/// Whether the user value of a symbol is outside its range.
fn is_outside_range(view: &View<'_>, symbol: SymId) -> bool {
    let tree = view.tree();
    if (symbol.0 as usize) >= tree.symbols().len() {
        return false;
    }
    let reason = reason_over(view.known(), view.user(), symbol);
    matches!(reason, Reason::OutsideRange { .. })
}

/// Adds the prompt of a choice in quotes, if it has one.
fn push_choice(words: &mut String, tree: &Tree, choice: ChoiceId) -> Result<(), AllocError> {
    let prompt = tree
        .choices()
        .get(choice.0 as usize)
        .and_then(|choice| choice.prompt());
    if let Some(prompt) = prompt {
        let title = shown_line(prompt.text.as_str());
        write!(words, " \"{title}\"")?;
    }
    Ok(())
}

/// Whether a name is that of an int or a hex without a value.
fn is_number_without_value(view: &View<'_>, name: &str) -> bool {
    match view.tree().find(name) {
        Some(symbol) => has_no_value(view, symbol),
        None => false,
    }
}
