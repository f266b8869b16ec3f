//! What is said of a fault of a choice.

ghost use Rattle.std.specs.Prelude.{IfOk};
ghost use Rattle.kc_lines.specs.declared.shown.Fault.TheVariants.{Choice};
ghost use Rattle.kc_lines.specs.Named.{AreRemarksOf};

use crate::messages::ChoiceMessage;
use crate::outlines::{name_of, outline_of, owner_of, second_word};
use crate::piece::{texts, words_of};
use crate::said::{Unsaid, Words, worded, words_or_meaning};
use kc_lines::{
    Explanation, Family, Fault, LineIndex, Part, choice_culprits, explain_parts, type_words,
};
use kc_outline::{ChoiceId, Outline};
use kc_statement::{Seed, SymId};
use kc_text::Line;
use kc_tree::{ChoiceProblem, Problem};
use std::alloc::{AllocError, Global};

/// The most members of a choice that a message names.
const MOST_NAMED: usize = 8;

/// What is said of a fault of a choice, by the place of its `choice` line and the lines of its Kconfig: what is wrong,
/// and the lines that make it wrong (this project's own words). Of several such lines it is the first. Names are kept under
/// the hash of a seed.
///
/// # Errors
///
/// `AllocError` where memory is refused.
pub fn explain_choice(
    alloc: Global,
    seed: Seed,
    lines: &[Line<'_>],
    problem: ChoiceProblem,
    path: &str,
    line: usize,
) -> Result<Explanation, AllocError>
    ensures { IfOk result (λ e. AreRemarksOf (Choice problem) lines.now e.remarks.items) }
{
    let index = LineIndex::of(alloc, lines)?;
    let choice = choice_at(lines, &index, path, line);
    let (words, parts) = match outline_of(alloc, seed, lines)? {
        Some(outline) => said_of(alloc, &index, &outline, problem, choice)?,
        None => (Err(Unsaid::Nothing), Vec::new(alloc)),
    };
    let words = words_or_meaning(alloc, words, Problem::Choice(problem).number())?;
    explain_parts(
        alloc,
        Fault::Choice(problem),
        words,
        &index,
        parts.as_slice(),
    )
}

/// The choice whose line is at a place.
fn choice_at(
    lines: &[Line<'_>],
    index: &LineIndex<'_, '_>,
    path: &str,
    number: usize,
) -> Option<ChoiceId> {
    let starts = index.starts(Family::Choice);
    let choice = starts
        .iter()
        .position(|start| is_at(lines, *start, path, number))?;
    Some(ChoiceId(u32::try_from(choice).ok()?))
}

/// Whether the line of some number among all lines is at a place.
fn is_at(lines: &[Line<'_>], line: usize, path: &str, number: usize) -> bool {
    match lines.get(line) {
        Some(line) => line.number() == number && line.path() == path,
        None => false,
    }
}

/// The words for a fault of a choice, if there is one, and the parts that make it.
fn said_of(
    alloc: Global,
    index: &LineIndex<'_, '_>,
    outline: &Outline,
    problem: ChoiceProblem,
    choice: Option<ChoiceId>,
) -> Result<(Words, Vec<Part>), AllocError> {
    let Some(choice) = choice else {
        return Ok((Err(Unsaid::Nothing), Vec::new(alloc)));
    };
    let parts = choice_culprits(alloc, index, outline, problem, choice)?;
    let words = choice_words(alloc, index, outline, problem, choice, parts.as_slice());
    Ok((words, parts))
}

/// The words for a fault of a choice that these parts make.
fn choice_words(
    alloc: Global,
    index: &LineIndex<'_, '_>,
    outline: &Outline,
    problem: ChoiceProblem,
    choice: ChoiceId,
    parts: &[Part],
) -> Words {
    let part = *parts.first().ok_or(Unsaid::Nothing)?;
    match problem {
        ChoiceProblem::NoPrompt => worded(alloc, ChoiceMessage::NoPrompt.row(), &texts!()),
        ChoiceProblem::SecondPrompt => worded(alloc, ChoiceMessage::TwoPrompts.row(), &texts!()),
        ChoiceProblem::ForeignDefault => {
            default_words(alloc, outline, choice, second_word(index, part)?)
        }
        ChoiceProblem::MemberType => type_words_of(alloc, outline, owner_of(outline, part)?),
        ChoiceProblem::MemberWithoutPrompt => {
            let name = name_of(outline, owner_of(outline, part)?);
            worded(
                alloc,
                ChoiceMessage::MemberWithoutPrompt.row(),
                &texts!(name: name),
            )
        }
        ChoiceProblem::MemberDefinedAgain => {
            let name = name_of(outline, owner_of(outline, part)?);
            worded(
                alloc,
                ChoiceMessage::MemberDefinedAgain.row(),
                &texts!(name: name),
            )
        }
    }
}

/// The words for a default that is no member, by its name, with the members that there are.
fn default_words(alloc: Global, outline: &Outline, choice: ChoiceId, name: &str) -> Words {
    let choices = outline.choices();
    let choice = choices.get(choice.0 as usize).ok_or(Unsaid::Nothing)?;
    let members = member_words(alloc, outline, choice.members())?;
    let texts = texts!(name: name, list: members.as_str());
    worded(alloc, ChoiceMessage::ForeignDefault.row(), &texts)
}

/// The members of a choice in words: of many the first alone.
fn member_words(alloc: Global, outline: &Outline, members: &[SymId]) -> Result<String, AllocError> {
    let mut names = String::new(alloc);
    for member in members.iter().take(MOST_NAMED) {
        let comma = if names.is_empty() { "" } else { ", " };
        let name = name_of(outline, *member);
        write!(names, "{comma}{name}")?;
    }
    let message = match members.len() {
        0 => ChoiceMessage::NoMembers,
        1 => ChoiceMessage::OneMember,
        count if count <= MOST_NAMED => ChoiceMessage::Members,
        _ => ChoiceMessage::ManyMembers,
    };
    let more = members.len().saturating_sub(MOST_NAMED);
    words_of(
        alloc,
        message.row(),
        &texts!(list: names.as_str(), number: more),
    )
}

/// The words for a member that is no bool.
fn type_words_of(alloc: Global, outline: &Outline, member: SymId) -> Words {
    let symbols = outline.symbols();
    let symbol = symbols.get(member.0 as usize).ok_or(Unsaid::Nothing)?;
    let texts = texts!(name: name_of(outline, member), kind: type_words(symbol.kind()));
    worded(alloc, ChoiceMessage::MemberType.row(), &texts)
}
