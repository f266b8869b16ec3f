//! The parts that make a fault of a choice.

ghost use Rattle.std.specs.Prelude.{◌≡◌, [], IfOk, not, position, slice_get};
ghost use Rattle.std.specs.Option.{option_copied, option_map_or};
ghost use Rattle.kc_tree.specs.ChoiceFaults.{is_member};
ghost use Rattle.kc_lines.specs.Culprits.{choice_culprits, culprits_in, faulty_member, foreign_default, has_problem, member_culprits};

use crate::culprits::{first_definitions, first_part, pair};
use crate::line_index::LineIndex;
use crate::parts::{Attribute, Family, Part};
use kc_outline::{Choice, ChoiceDefault, ChoiceId, Outline, Symbol};
use kc_statement::SymId;
use kc_tree::{ChoiceProblem, is_defined_again, is_member, is_of_other_type, lacks_prompt};
use std::alloc::{AllocError, Global};

/// The place of the first default of a choice that names no member of it.
fn foreign_place(outline: &Outline, id: ChoiceId, defaults: &[ChoiceDefault]) -> Option<usize>
    ensures { result ≡ position (λ d. not (is_member outline.now id d.symbol)) defaults.now }
{
    defaults
        .iter()
        .position(|default| !is_member(outline, id, default.symbol))
}

/// The first default of a choice that names no member of it.
fn foreign_default(outline: &Outline, id: ChoiceId, choice: &Choice) -> Option<Part>
    ensures { result ≡ foreign_default outline.now id choice.now }
{
    let place = foreign_place(outline, id, choice.defaults())?;
    let (family, number) = (Family::Choice, id.0 as usize);
    Some(Part::Said(family, number, Attribute::Default, place))
}

/// Whether a member has a problem that only members have.
fn has_problem(outline: &Outline, problem: ChoiceProblem, member: SymId) -> bool
    ensures { result ≡ has_problem outline.now problem member }
{
    match problem {
        ChoiceProblem::MemberType => is_of_other_type(outline, member),
        ChoiceProblem::MemberWithoutPrompt => lacks_prompt(outline, member),
        ChoiceProblem::MemberDefinedAgain => is_defined_again(outline, member),
        ChoiceProblem::NoPrompt | ChoiceProblem::SecondPrompt | ChoiceProblem::ForeignDefault => {
            false
        }
    }
}

/// The place of the first member with a problem.
fn faulty_place(outline: &Outline, problem: ChoiceProblem, members: &[SymId]) -> Option<usize>
    ensures { result ≡ position (has_problem outline.now problem) members.now }
{
    members
        .iter()
        .position(|member| has_problem(outline, problem, *member))
}

/// The first member of a choice with a problem.
fn faulty_member<'o>(
    outline: &'o Outline,
    problem: ChoiceProblem,
    choice: &Choice,
) -> Option<&'o Symbol>
    ensures { option_copied result ≡ faulty_member outline.now problem choice.now }
{
    let members = choice.members();
    let place = faulty_place(outline, problem, members)?;
    let member = members.get(place)?;
    outline.symbols().get(member.0 as usize)
}

/// The parts of a member that make a problem that only members have.
///
/// The error comes where memory is refused.
fn member_culprits(
    alloc: Global,
    index: &LineIndex<'_, '_>,
    problem: ChoiceProblem,
    member: &Symbol,
) -> Result<Vec<Part>, AllocError>
    ensures { IfOk result (λ parts. parts.items ≡ member_culprits index.now problem member.now) }
{
    match problem {
        ChoiceProblem::MemberType => {
            pair(alloc, first_part(index, Attribute::Type, member), None)
        }
        ChoiceProblem::MemberWithoutPrompt => first_definitions(alloc, 1, member),
        ChoiceProblem::MemberDefinedAgain => first_definitions(alloc, 2, member),
        ChoiceProblem::NoPrompt | ChoiceProblem::SecondPrompt | ChoiceProblem::ForeignDefault => {
            Ok(Vec::new(alloc))
        }
    }
}

/// The parts of the first member with a problem that only members have.
///
/// The error comes where memory is refused.
fn of_members(
    alloc: Global,
    index: &LineIndex<'_, '_>,
    outline: &Outline,
    problem: ChoiceProblem,
    choice: &Choice,
) -> Result<Vec<Part>, AllocError>
    ensures { IfOk result (λ parts. parts.items
        ≡ option_map_or (member_culprits index.now problem) (faulty_member outline.now problem choice.now) []) }
{
    match faulty_member(outline, problem, choice) {
        Some(member) => member_culprits(alloc, index, problem, member),
        None => Ok(Vec::new(alloc)),
    }
}

/// The parts that make a fault of a choice (K17; docs/ERRORS.md), by the lines of a Kconfig and what they define: the
/// choice without prompt; its first two prompts; its first default that is no member; the first type of the first member
/// that is no bool; the first definition of the first member without prompt; or the first two definitions of the first
/// member that is defined again. There are none where there is no such choice.
///
/// # Errors
///
/// `AllocError` where memory is refused.
pub fn choice_culprits(
    alloc: Global,
    index: &LineIndex<'_, '_>,
    outline: &Outline,
    problem: ChoiceProblem,
    choice: ChoiceId,
) -> Result<Vec<Part>, AllocError>
    ensures { IfOk result (λ parts. parts.items ≡ choice_culprits index.now outline.now problem choice) }
{
    match outline.choices().get(choice.0 as usize) {
        Some(found) => culprits_in(alloc, index, outline, problem, choice, found),
        None => Ok(Vec::new(alloc)),
    }
}

/// Those of a choice that there is.
///
/// The error comes where memory is refused.
fn culprits_in(
    alloc: Global,
    index: &LineIndex<'_, '_>,
    outline: &Outline,
    problem: ChoiceProblem,
    id: ChoiceId,
    choice: &Choice,
) -> Result<Vec<Part>, AllocError>
    ensures { IfOk result (λ parts. parts.items ≡ culprits_in index.now outline.now problem id choice.now) }
{
    let (family, number) = (Family::Choice, id.0 as usize);
    match problem {
        ChoiceProblem::NoPrompt => pair(alloc, Some(Part::Owner(family, number)), None),
        ChoiceProblem::SecondPrompt => {
            let first = Part::Said(family, number, Attribute::Prompt, 0);
            let second = Part::Said(family, number, Attribute::Prompt, 1);
            pair(alloc, Some(first), Some(second))
        }
        ChoiceProblem::ForeignDefault => pair(alloc, foreign_default(outline, id, choice), None),
        ChoiceProblem::MemberType => of_members(alloc, index, outline, problem, choice),
        ChoiceProblem::MemberWithoutPrompt => of_members(alloc, index, outline, problem, choice),
        ChoiceProblem::MemberDefinedAgain => of_members(alloc, index, outline, problem, choice),
    }
}
