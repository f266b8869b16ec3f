//! What each line is needed for.

ghost use Rattle.std.specs.Prelude.{◌≡◌, All, IfOk};
ghost use Rattle.kc_files.specs.LineReading.{IsAssignFor};
ghost use Rattle.kc_how.specs.Answer.{IsLine};
ghost use Rattle.kc_how.specs.Needed.{AreNeededFor};

use crate::copies::copies;
use crate::question::Question;
use kc_files::Assign;
use kc_value::Solved;
use std::alloc::{AllocError, Global};

/// What each of some lines is needed for, by what is asked.
///
/// The error comes where memory is refused.
#[tactic(auto, using(crate::proofs::FewestLaws::assigns_left))]
fn needed_by(
    alloc: Global,
    question: &mut Question<'_>,
    lines: &[Assign],
) -> Result<Vec<Option<usize>>, AllocError>
    requires { All (IsLine question.old.asked.tree) lines.now }
    ensures { IfOk result (λ found. AreNeededFor question.old.asked lines.now found.items) }
{
    let mut found = Vec::new(alloc);
    for index in 0..lines.len() {
        let mut others = copies(alloc, lines)?;
        others.remove(index);
        let lacking = question.lacking(others)?;
        found.push(lacking)?;
    }
    Ok(found)
}

/// What each of some lines is needed for: the index of the first wanted symbol that has another value than the wanted one
/// once all other lines were merged into what the user gave, none where there is none.
///
/// # Errors
///
/// The error comes where memory is refused.
pub fn needed_for(
    alloc: Global,
    solved: &Solved<'_>,
    wanted: &[Assign],
    lines: &[Assign],
) -> Result<Vec<Option<usize>>, AllocError>
    requires wanted { All (IsAssignFor solved.now.tree) wanted.now }
    requires lines { All (IsLine solved.now.tree) lines.now }
    ensures { IfOk result (λ found. AreNeededFor (record { tree = solved.now.tree; user = solved.now.user; wanted = wanted.now }) lines.now found.items) }
{
    let mut question = Question::new(alloc, solved, wanted)?;
    needed_by(alloc, &mut question, lines)
}
