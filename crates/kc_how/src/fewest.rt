//! Leaving out lines that are not needed. A line that was needed before another one went may not be needed any more, so
//! lines are looked for until all that are left were looked at and each is needed.

ghost use Rattle.std.specs.Prelude.{◌≡◌, ◌↔◌, ◌<◌, ℕ, All, IfOk, IfSome, IfNone, length, true};
ghost use Rattle.std.specs.List.{remove};
ghost use Rattle.kc_how.specs.Answer.{IsLine};
ghost use Rattle.kc_how.specs.Question.{AreEnough, IsAnswerTo, IsEnoughFor};

use crate::copies::copies;
use crate::question::Question;
use kc_files::Assign;
use std::alloc::{AllocError, Global};

/// Whether lines are enough without the one of an index.
///
/// The error comes where memory is refused.
#[tactic(auto, using(crate::proofs::FewestLaws::assigns_left))]
fn is_needless(
    alloc: Global,
    question: &mut Question<'_>,
    lines: &[Assign],
    index: usize,
) -> Result<bool, AllocError>
    requires inside { index < length lines.now }
    requires lines { All (IsLine question.old.asked.tree) lines.now }
    ensures asked { question.new.asked ≡ question.old.asked }
    ensures needless { IfOk result (λ b. (b ≡ true) ↔ AreEnough question.old.asked (remove lines.now index)) }
{
    let mut others = copies(alloc, lines)?;
    others.remove(index);
    question.is_enough(others)
}

/// The index of the first line without which the others are enough.
///
/// The error comes where memory is refused.
fn first_needless(
    alloc: Global,
    question: &mut Question<'_>,
    lines: &[Assign],
) -> Result<Option<usize>, AllocError>
    requires lines { All (IsLine question.old.asked.tree) lines.now }
    ensures asked { question.new.asked ≡ question.old.asked }
    ensures inside { IfOk result (λ found. IfSome found (λ k. k < length lines.now)) }
    ensures enough { IfOk result (λ found. IfSome found (λ k. AreEnough question.old.asked (remove lines.now k))) }
    ensures none { IfOk result (λ found. IfNone found ((k : ℕ) → k < length lines.now → AreEnough question.old.asked (remove lines.now k) → ⊥)) }
{
    for index in 0..lines.len() {
        if is_needless(alloc, question, lines, index)? {
            return Ok(Some(index));
        }
    }
    Ok(None)
}

/// Leaves out lines that are not needed, each as it is looked at, from the last line to the first.
///
/// The error comes where memory is refused.
#[tactic(auto, using(crate::proofs::FewestLaws::enough_without))]
fn needed_once(
    alloc: Global,
    question: &mut Question<'_>,
    mut lines: Vec<Assign>,
) -> Result<Vec<Assign>, AllocError>
    requires { IsEnoughFor question.old.asked lines.items }
    ensures asked { question.new.asked ≡ question.old.asked }
    ensures enough { IfOk result (λ left. IsEnoughFor question.old.asked left.items) }
{
    let mut index = lines.len();
    while index > 0 {
        index -= 1;
        if is_needless(alloc, question, lines.as_slice(), index)? {
            lines.remove(index);
        }
    }
    Ok(lines)
}

/// Leaves out lines until each is needed.
///
/// The error comes where memory is refused.
#[tactic(auto, using(crate::proofs::FewestLaws::enough_without, crate::proofs::FewestLaws::answer_is))]
pub(crate) fn fewest(
    alloc: Global,
    question: &mut Question<'_>,
    lines: Vec<Assign>,
) -> Result<Vec<Assign>, AllocError>
    requires { IsEnoughFor question.old.asked lines.items }
    ensures asked { question.new.asked ≡ question.old.asked }
    ensures answer { IfOk result (λ left. IsAnswerTo question.old.asked left.items) }
{
    let mut left = needed_once(alloc, question, lines)?;
    while let Some(index) = first_needless(alloc, question, left.as_slice())? {
        left.remove(index);
    }
    Ok(left)
}
