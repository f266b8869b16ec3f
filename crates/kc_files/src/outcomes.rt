//! What becomes of the lines of fragments.

ghost use Rattle.std.specs.Prelude.{◌≡◌, ◌<◌, All, IfOk, OnOk, length, reverse};
ghost use Rattle.kc_files.specs.Effects.{IsSaidInside};
ghost use Rattle.kc_value.specs.Assignment.{assignment_of};
ghost use Rattle.kc_files.specs.Outcomes.{IsPlacedFor, chosen_by, is_in, new_search, outcomes, outcome_by, replacer_in, searched_assign, searched_said};

use crate::assign::Assign;
use crate::effects::has_effect;
use crate::fragments::FragmentLine;
use crate::loading::is_yes;
use crate::numbered_lines::LineSays;
use kc_tree::Tree;
use kc_value::NodeValues;
use std::alloc::{AllocError, Global};
use std::marker::Model;

/// What becomes of a line that says something (this project's own).
#[derive(Clone, Copy, Debug, PartialEq, Eq)]
pub enum Outcome {
    /// Its symbol has the value that it gives.
    Got,
    /// Its symbol has another value.
    Other,
    /// It can't be used.
    Unusable,
    /// The later line of this index takes its place.
    Replaced(usize),
}

/// A line that was gone over: its index, and that of its fragment.
#[derive(Clone, Copy, Debug, PartialEq, Eq)]
pub(crate) struct Later {
    index: usize,
    fragment: usize,
}

/// Whether there is a line, and it is of this fragment.
fn is_in(fragment: usize, line: Option<Later>) -> bool
    ensures { result ≡ is_in fragment line }
{
    match line {
        Some(later) => later.fragment == fragment,
        None => false,
    }
}

/// The number of the choice of a tree that an assignment chooses a member of: that of a member that it sets to y.
fn chosen_by(tree: &Tree, assign: &Assign) -> Option<usize>
    ensures { result ≡ chosen_by tree.now assign.now }
{
    if !is_yes(&assign.value) {
        return None;
    }
    let choice = tree.choice_of(assign.symbol)?;
    let number = choice.0 as usize;
    if number < tree.choices().len() {
        Some(number)
    } else {
        None
    }
}

/// What becomes of an assignment, by the line that takes its place.
fn outcome_by(tree: &Tree, values: &NodeValues, replacer: Option<Later>, assign: &Assign) -> Outcome
    ensures { result ≡ outcome_by (assignment_of tree.now values.now) replacer assign.now }
{
    match replacer {
        Some(later) => Outcome::Replaced(later.index),
        None if has_effect(tree, values, assign) => Outcome::Got,
        None => Outcome::Other,
    }
}

/// A walk over lines, from the last one back. Contracts see the record of it.
#[derive(Drop)]
struct Search {
    /// What becomes of those that were gone over, the last first.
    found: Vec<Outcome>,
    /// By the number of a symbol, the first of them that names it.
    named: Vec<Option<Later>>,
    /// By the number of a choice, the first of them that chooses a member of it.
    chosen: Vec<Option<Later>>,
}

impl Model for Search {
    ghost use Rattle.kc_files.specs.Outcomes.{SearchValue};

    ghost Value = { SearchValue };

    ghost view = { λ s. record { found = s.found.items; named = s.named.items; chosen = s.chosen.items } };
}

impl Search {
    /// A walk before the last line, over the symbols and the choices of a tree.
    ///
    /// The error comes where memory is refused.
    fn new(alloc: Global, tree: &Tree) -> Result<Search, AllocError>
        ensures { IfOk result (λ s. s ≡ new_search tree.now) }
    {
        Ok(Search {
            found: Vec::new(alloc),
            named: vec![in alloc; None; tree.symbols().len()]?,
            chosen: vec![in alloc; None; tree.choices().len()]?,
        })
    }

    /// What becomes of the lines that were gone over, the last first.
    fn into_found(self) -> Vec<Outcome>
        ensures { result.items ≡ self.found }
    {
        self.found
    }

    /// The line that takes the place of an assignment in a fragment.
    fn replacer(&self, tree: &Tree, fragment: usize, assign: &Assign) -> Option<Later>
        requires symbol { assign.now.symbol.0 < length self.now.named }
        requires choices { length self.now.chosen ≡ length tree.now.choices }
        ensures { result ≡ replacer_in tree.now fragment assign.now self.now }
    {
        let next = self.named[assign.symbol.0 as usize];
        if is_in(fragment, next) {
            return next;
        }
        match chosen_by(tree, assign) {
            Some(choice) => self.chosen[choice],
            None => next,
        }
    }

    /// Goes over an assignment, which is in this line.
    fn look(
        &mut self,
        tree: &Tree,
        values: &NodeValues,
        line: Later,
        assign: &Assign,
    ) -> Result<(), AllocError>
        requires symbol { assign.now.symbol.0 < length self.old.named }
        requires choices { length self.old.chosen ≡ length tree.now.choices }
        ensures { OnOk result (self.new ≡ searched_assign tree.now (assignment_of tree.now values.now) line assign.now self.old) }
    {
        let replacer = self.replacer(tree, line.fragment, assign);
        self.found.push(outcome_by(tree, values, replacer, assign))?;
        let place = assign.symbol.0 as usize;
        if !is_in(line.fragment, self.named[place]) {
            if let Some(choice) = chosen_by(tree, assign) {
                self.chosen[choice] = Some(line);
            }
        }
        self.named[place] = Some(line);
        Ok(())
    }

    /// Goes over what the line of this index says.
    fn take(
        &mut self,
        tree: &Tree,
        values: &NodeValues,
        index: usize,
        line: &FragmentLine,
    ) -> Result<(), AllocError>
        requires symbol { IsSaidInside (length self.old.named) line.now.line.says }
        requires choices { length self.old.chosen ≡ length tree.now.choices }
        ensures { OnOk result (self.new ≡ searched_said tree.now (assignment_of tree.now values.now) index line.now.fragment line.now.line.says self.old) }
    {
        let fragment = line.fragment;
        match &line.line.says {
            LineSays::Usable(assign) => self.look(tree, values, Later { index, fragment }, assign),
            LineSays::Warned(_) => {
                self.found.push(Outcome::Unusable)?;
                Ok(())
            }
        }
    }
}

/// What becomes of each line, the last first.
///
/// The error comes where memory is refused.
#[tactic(auto, using(crate::proofs::OutcomeSearch::search_begins, crate::proofs::OutcomeSearch::search_ends, crate::proofs::OutcomeSearch::line_inside))]
fn outcomes_back(
    alloc: Global,
    tree: &Tree,
    values: &NodeValues,
    lines: &[FragmentLine],
) -> Result<Vec<Outcome>, AllocError>
    requires fitting { All (IsPlacedFor tree.now) lines.now }
    ensures { IfOk result (λ found. found.items ≡ reverse (outcomes tree.now (assignment_of tree.now values.now) lines.now)) }
{
    let mut search = Search::new(alloc, tree)?;
    let mut left = lines;
    while let [earlier @ .., line] = left {
        search.take(tree, values, earlier.len(), line)?;
        left = earlier;
    }
    Ok(search.into_found())
}

/// What becomes of each of these lines over the values of a tree, in their order. A usable line is replaced where a later
/// one takes its place: the next one of its fragment that names its symbol. Without one it counts. Then y of a choice's
/// member is replaced by the next line that counts and sets a member of the choice to y, as n of a member leaves the choice
/// as it is, and any other line by the next one that names its symbol. Of the lines that are not replaced each got its
/// value or another one.
///
/// # Errors
///
/// `AllocError` where memory is refused.
#[tactic(auto, using(crate::proofs::OutcomeSearch::found_in_order))]
pub fn outcomes_of(
    alloc: Global,
    tree: &Tree,
    values: &NodeValues,
    lines: &[FragmentLine],
) -> Result<Vec<Outcome>, AllocError>
    requires fitting { All (IsPlacedFor tree.now) lines.now }
    ensures { IfOk result (λ found. found.items ≡ outcomes tree.now (assignment_of tree.now values.now) lines.now) }
{
    let mut found = outcomes_back(alloc, tree, values, lines)?;
    found.reverse();
    Ok(found)
}
