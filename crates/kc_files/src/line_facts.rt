//! What is found in the lines of a `.config` or of fragments.

ghost use Rattle.std.specs.Prelude.{◌≡◌, ◌++◌, IfOk, OnOk, filter, option_map};
ghost use Rattle.kc_files.specs.LineFacts.{found_in_lines, found_of_line, give_other_values, in_line, is_new, is_reported, own_fact, reported_of};
ghost use Rattle.kc_files.specs.declared.line_facts.LineFact.TheVariants as fact;

use crate::fragments::FragmentLine;
use crate::outcomes::Outcome;
use crate::taken_lines::{Common, assign_at, noted_at, taken_lines};
use kc_value::is_same_user_value;
use std::alloc::{AllocError, Global};

/// What is found in a line (this project's own).
#[derive(Clone, Copy, Debug, PartialEq, Eq)]
pub enum LineFact {
    /// It takes the place of the line of this index, the last one of its symbol that it replaces.
    ReplacesLine(usize),
    /// It takes the place of the line of this index, the last one that chooses another member of its choice.
    ReplacesMember(usize),
    /// It can't be used.
    Unusable,
    /// Its symbol has another value than it gives.
    WithoutEffect,
}

/// Something that is found in the line of an index.
#[derive(Clone, Copy, Debug, PartialEq, Eq)]
pub struct FoundInLine {
    pub line: usize,
    pub fact: LineFact,
}

/// What is found in a line by what becomes of it.
fn own_fact(outcome: Outcome) -> Option<LineFact>
    ensures { result ≡ own_fact outcome }
{
    match outcome {
        Outcome::Unusable => Some(LineFact::Unusable),
        Outcome::Other => Some(LineFact::WithoutEffect),
        Outcome::Got | Outcome::Replaced(_) => None,
    }
}

/// That a line takes the place of one of its symbol, if it does.
fn replaces_line(earlier: Option<usize>) -> Option<LineFact>
    ensures { result ≡ option_map fact.ReplacesLine earlier }
{
    match earlier {
        Some(earlier) => Some(LineFact::ReplacesLine(earlier)),
        None => None,
    }
}

/// That a line takes the place of one of another member of its choice, if it does.
fn replaces_member(earlier: Option<usize>) -> Option<LineFact>
    ensures { result ≡ option_map fact.ReplacesMember earlier }
{
    match earlier {
        Some(earlier) => Some(LineFact::ReplacesMember(earlier)),
        None => None,
    }
}

/// Adds a fact of the line of an index, if there is one.
fn add_fact(
    found: &mut Vec<FoundInLine>,
    line: usize,
    fact: Option<LineFact>,
) -> Result<(), AllocError>
    ensures { OnOk result (found.new.items ≡ found.old.items ++ in_line line fact) }
{
    if let Some(fact) = fact {
        found.push(FoundInLine { line, fact })?;
    }
    Ok(())
}

/// Adds what is found in the line of an index.
fn add_line(
    found: &mut Vec<FoundInLine>,
    line: usize,
    same: Option<usize>,
    member: Option<usize>,
    outcome: Outcome,
) -> Result<(), AllocError>
    ensures { OnOk result (found.new.items ≡ found.old.items ++ found_of_line line same member outcome) }
{
    add_fact(found, line, replaces_line(same))?;
    add_fact(found, line, replaces_member(member))?;
    add_fact(found, line, own_fact(outcome))
}

/// What is found in lines, in their order, by what becomes of each: first whose place a line takes, and then that it can't
/// be used, or has no effect.
///
/// # Errors
///
/// `AllocError` where memory is refused.
pub fn found_in_lines(
    alloc: Global,
    lines: &[FragmentLine],
    outcomes: &[Outcome],
) -> Result<Vec<FoundInLine>, AllocError>
    ensures { IfOk result (λ r. r.items ≡ found_in_lines lines.now outcomes.now) }
{
    let same = taken_lines(alloc, lines, outcomes, Common::Symbol)?;
    let members = taken_lines(alloc, lines, outcomes, Common::Choice)?;
    let mut found = Vec::new(alloc);
    for (line, outcome) in outcomes.iter().enumerate() {
        let before = noted_at(same.as_slice(), line);
        let member = noted_at(members.as_slice(), line);
        add_line(&mut found, line, before, member, *outcome)?;
    }
    Ok(found)
}

/// Whether the lines of two indices can be used, and give different values.
fn give_other_values(lines: &[FragmentLine], index: usize, other: usize) -> bool
    ensures { result ≡ give_other_values lines.now index other }
{
    match (assign_at(lines, index), assign_at(lines, other)) {
        (Some(assign), Some(after)) => !is_same_user_value(&assign.value, &after.value),
        (Some(_), None) => false,
        (None, _) => false,
    }
}

/// Whether what is found in a line of a fragment is reported: a line that says again what an earlier one says is not.
fn is_reported(lines: &[FragmentLine], found: FoundInLine) -> bool
    ensures { result ≡ is_reported lines.now found }
{
    match found.fact {
        LineFact::ReplacesLine(earlier) => give_other_values(lines, earlier, found.line),
        LineFact::ReplacesMember(_) | LineFact::Unusable | LineFact::WithoutEffect => true,
    }
}

/// What is reported of the lines of fragments, in their order, by what becomes of each: what is found in them, but for
/// lines that say again what an earlier one says.
///
/// # Errors
///
/// `AllocError` where memory is refused.
pub fn reported_of(
    alloc: Global,
    lines: &[FragmentLine],
    outcomes: &[Outcome],
) -> Result<Vec<FoundInLine>, AllocError>
    ensures { IfOk result (λ r. r.items ≡ reported_of lines.now outcomes.now) }
{
    let found = found_in_lines(alloc, lines, outcomes)?;
    let mut reported = Vec::new(alloc);
    for fact in found.as_slice() {
        if is_reported(lines, *fact) {
            reported.push(*fact)?;
        }
    }
    Ok(reported)
}
