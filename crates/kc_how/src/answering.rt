//! The first list of lines that is enough, without those that are not needed.

ghost use Rattle.std.specs.Prelude.{◌≡◌, All, IfOk, IfSome, IfNone};
ghost use Rattle.kc_value.specs.Solution.{solution, IsOnlySolution};
ghost use Rattle.kc_value.specs.UserValues.{UserValues};
ghost use Rattle.kc_files.specs.LineReading.{IsAssignFor};
ghost use Rattle.kc_how.specs.Answer.{IsAnswer, IsEnough};
ghost use Rattle.kc_how.specs.Apart.{AreApart};
ghost use Rattle.kc_how.specs.Question.{IsAnswerTo, IsEnoughFor};

use crate::apart::are_apart;
use crate::copies::copies;
use crate::fewest::fewest;
use crate::line_test::are_lines;
use crate::question::Question;
use kc_files::Assign;
use kc_tree::Tree;
use kc_value::Solved;
use std::alloc::{AllocError, Global};

/// Copies of lines in the order of the tree; of those that are apart, as they are.
///
/// The error comes where memory is refused.
fn in_order(alloc: Global, tree: &Tree, lines: &[Assign]) -> Result<Vec<Assign>, AllocError>
    ensures { IfOk result (λ sorted. AreApart tree.now lines.now → sorted.items ≡ lines.now) }
{
    if are_apart(tree, lines) {
        copies(alloc, lines)
    } else {
        let mut sorted = copies(alloc, lines)?;
        sorted.sort_unstable_by_key(|line| line.symbol.0);
        Ok(sorted)
    }
}

/// Those of lines that are needed, if they are apart and enough, and can be read back.
///
/// The error comes where memory is refused.
#[tactic(auto, using(crate::proofs::FragmentLaws::are_assigns, crate::proofs::AnswerLaws::enough_for))]
fn needed_of(
    alloc: Global,
    question: &mut Question<'_>,
    lines: Vec<Assign>,
) -> Result<Option<Vec<Assign>>, AllocError>
    ensures asked { question.new.asked ≡ question.old.asked }
    ensures found { IfOk result (λ found. IfSome found (λ left. IsAnswerTo question.old.asked left.items)) }
    ensures none { IfOk result (λ found. IfNone found (IsEnoughFor question.old.asked lines.items → ⊥)) }
{
    let tree = question.tree();
    if !are_lines(tree, lines.as_slice()) {
        return Ok(None);
    }
    if !are_apart(tree, lines.as_slice()) {
        return Ok(None);
    }
    let others = copies(alloc, lines.as_slice())?;
    let enough = question.is_enough(others)?;
    if !enough {
        return Ok(None);
    }
    let left = fewest(alloc, question, lines)?;
    Ok(Some(left))
}

/// The lines of a list that are needed, if it is enough.
///
/// The error comes where memory is refused.
#[tactic(auto, using(crate::proofs::AnswerLaws::none_of))]
fn answer_of(
    alloc: Global,
    question: &mut Question<'_>,
    lines: &[Assign],
) -> Result<Option<Vec<Assign>>, AllocError>
    ensures asked { question.new.asked ≡ question.old.asked }
    ensures found { IfOk result (λ found. IfSome found (λ left. IsAnswerTo question.old.asked left.items)) }
    ensures none { IfOk result (λ found. IfNone found (IsEnoughFor question.old.asked lines.now → ⊥)) }
{
    let sorted = in_order(alloc, question.tree(), lines)?;
    needed_of(alloc, question, sorted)
}

/// The lines of the first list that is enough which are needed.
///
/// The error comes where memory is refused.
fn first_answer(
    alloc: Global,
    question: &mut Question<'_>,
    candidates: &[Vec<Assign>],
) -> Result<Option<Vec<Assign>>, AllocError>
    ensures found { IfOk result (λ found. IfSome found (λ left. IsAnswerTo question.old.asked left.items)) }
    ensures none { IfOk result (λ found. IfNone found
        (All (λ lines. IsEnoughFor question.old.asked lines.items → ⊥) candidates.now)) }
{
    for index in 0..candidates.len() {
        let found = answer_of(alloc, question, candidates[index].as_slice())?;
        if found.is_some() {
            return Ok(found);
        }
    }
    Ok(None)
}

/// How a tree with what the user gave is given wanted values: the lines of the first list that is enough, without those
/// that are not needed, in the order of the tree; none where no list is enough. This project's own.
///
/// Merged into what the user gave, the lines give each wanted symbol just its value, a text byte for byte; without any
/// one of them, some wanted symbol has another. They name different symbols, at most one of them a member of a choice, and
/// each can be written and read back. User values that no line names stay. That the tree has one solution, and no other,
/// for any user values holds whatever the call returns.
///
/// A list may be in any order, but one of which two lines name one symbol, or two members of one choice, is passed over,
/// and so is one with a line that can't be read back.
///
/// # Errors
///
/// The error comes where memory is refused.
pub fn answer(
    alloc: Global,
    solved: &Solved<'_>,
    wanted: &[Assign],
    candidates: &[Vec<Assign>],
) -> Result<Option<Vec<Assign>>, AllocError>
    requires { All (IsAssignFor solved.now.tree) wanted.now }
    ensures found { IfOk result (λ found. IfSome found (λ left. IsAnswer solved.now.tree solved.now.user wanted.now left.items)) }
    ensures none { IfOk result (λ found. IfNone found
        (All (λ lines. IsEnough solved.now.tree solved.now.user wanted.now lines.items → ⊥) candidates.now)) }
    ensures solved { (u : UserValues) → IsOnlySolution solved.now.tree u (solution solved.now.tree u) }
{
    let mut question = Question::new(alloc, solved, wanted)?;
    first_answer(alloc, &mut question, candidates)
}
