//! All lines that have a problem.

ghost use Rattle.std.specs.Prelude.{◌≡◌, ◌≤◌, ◌==◌, ◌∷◌, List, Option, length, IfOk, OnOk};
ghost use Rattle.kc_text.specs.LineValue.{LineValue};
ghost use Rattle.kc_text.specs.declared.reading.TheConstants.{MOST_LINES};
ghost use Rattle.kc_outline.specs.ContextAfter.{HasRoom, IsPlaceAfter};
ghost use Rattle.kc_outline.specs.FaultyLines.{AreLineFaults, AreRefusedForFirst};
ghost use Rattle.kc_outline.specs.Reader.{IsFound, faults_with};

use crate::context::Context;
use crate::fault::{FaultyLine, LineProblem};
use crate::line_faults::opens_too_deep;
use crate::outline::Outline;
use crate::reading::read_line;
use kc_statement::{Seed, read_keyword, read_names};
use kc_text::Line;
use std::alloc::{AllocError, Global};

/// Reads a line after those that the outline and the context come from, and adds what it says, or what is wrong with it
/// to the faults. `following` lines come after it, and `place` before it.
fn read_or_report(
    alloc: Global,
    outline: &mut Outline,
    context: &mut Context,
    line: &Line<'_>,
    following: usize,
    place: usize,
    faults: &mut Vec<FaultyLine>,
) -> Result<(), AllocError>
    requires room { HasRoom context.old }
    ensures names { OnOk result (outline.new.names ≡ outline.old.names) }
    ensures place { OnOk result ((earlier : List LineValue) → IsPlaceAfter earlier context.old → IsPlaceAfter (line.now ∷ earlier) context.new) }
    ensures faults { OnOk result ((earlier : List LineValue) → IsPlaceAfter earlier context.old
        → (found : Option LineProblem) × IsFound outline.old.names earlier (following == 0) line.now found × (faults.new.items ≡ faults_with faults.old.items place found)) }
{
    let keyword = read_keyword(line);
    let Err(stop) = read_line(alloc, outline, context, line, keyword, following) else {
        return Ok(());
    };
    let Some(problem) = stop.problem() else {
        return Err(AllocError);
    };
    faults.push(FaultyLine { place, problem })?;
    context.pass(line, keyword, None)
}

/// All lines that have a problem, in their order, each with the first that it has (this project's own, after
/// kconfig-language.rst, "Menu structure"): where `read_outline` gives the first of them, this goes on. A line is judged
/// by the lines before it as they are, also where those have problems: a `menu` without a title opens a block. The
/// line that opens one block more than may be open is the last one that is read. There are no more lines than
/// `logical_lines` gives; their names are kept under the hash of a seed.
///
/// # Errors
///
/// `AllocError` where memory was refused.
pub fn faulty_lines(
    alloc: Global,
    seed: Seed,
    lines: &[Line<'_>],
) -> Result<Vec<FaultyLine>, AllocError>
    requires { length lines.now ≤ MOST_LINES }
    ensures faults { IfOk result (λ faults. AreLineFaults lines.now faults.items) }
    ensures first { IfOk result (λ faults. AreRefusedForFirst lines.now faults.items) }
{
    let names = read_names(alloc, seed, lines)?;
    let mut outline = Outline::new(alloc, names)?;
    let mut context = Context::new(alloc);
    let mut faults = Vec::new(alloc);
    for (place, line) in lines.iter().enumerate() {
        let is_last_read = opens_too_deep(&context, line, read_keyword(line));
        let following = lines.len() - place - 1;
        read_or_report(
            alloc,
            &mut outline,
            &mut context,
            line,
            following,
            place,
            &mut faults,
        )?;
        if is_last_read {
            return Ok(faults);
        }
    }
    Ok(faults)
}
