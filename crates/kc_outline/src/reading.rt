//! The reading of one line: what is wrong with it, or what it says, which the outline gets.

ghost use Rattle.std.specs.Prelude.{◌≡◌, ◌+◌, ◌==◌, ℕ, ◌≤◌, List, ◌∷◌, None, length, IfErr, OnOk};
ghost use Rattle.kc_text.specs.LineValue.{LineValue};
ghost use Rattle.kc_statement.specs.Keywords.{keyword_of};
ghost use Rattle.kc_statement.specs.declared.limits.TheConstants.{MOST_SYMBOLS};
ghost use Rattle.kc_outline.specs.ContextAfter.{HasRoom, IsContextAfter, IsPlaceAfter};
ghost use Rattle.kc_outline.specs.Reader.{IsFound, IsOutlineAfter, IsStop, IsUnchanged};

use crate::context::Context;
use crate::line_faults::early_problem;
use crate::outline::Outline;
use crate::stop::Stop;
use kc_statement::Keyword;
use kc_text::Line;
use std::alloc::Global;

/// Reads a line after those that the outline and the context come from, and adds what it says. `following` lines come
/// after it. A line that has a problem is not added.
pub(crate) fn read_line(
    alloc: Global,
    outline: &mut Outline,
    context: &mut Context,
    line: &Line<'_>,
    keyword: Option<Keyword>,
    following: usize,
) -> Result<(), Stop>
    requires keyword { keyword ≡ keyword_of line.now }
    requires room { HasRoom context.old }
    ensures outline { OnOk result ((earlier : List LineValue)
        → IsOutlineAfter outline.old.names (following + 1) earlier outline.old → IsContextAfter outline.old.names earlier context.old
        → IsOutlineAfter outline.old.names following (line.now ∷ earlier) outline.new) }
    ensures context { OnOk result ((earlier : List LineValue)
        → IsContextAfter outline.old.names earlier context.old
        → IsContextAfter outline.old.names (line.now ∷ earlier) context.new) }
    ensures names { OnOk result (outline.new.names ≡ outline.old.names) }
    ensures place { OnOk result ((earlier : List LineValue) → IsPlaceAfter earlier context.old → IsPlaceAfter (line.now ∷ earlier) context.new) }
    ensures sound { OnOk result ((earlier : List LineValue) → IsPlaceAfter earlier context.old → IsFound outline.old.names earlier (following == 0) line.now None) }
    ensures stop { IfErr result (λ stop. (earlier : List LineValue)
        → IsPlaceAfter earlier context.old
        → IsStop outline.old.names earlier (following == 0) line.now stop) }
    ensures unchanged { IfErr result (λ stop. IsUnchanged stop outline.old outline.new context.old context.new) }
{
    if let Some(problem) = early_problem(context, line, keyword, following == 0) {
        return Err(Stop::Problem(problem));
    }
    let Some(word) = keyword else {
        context.pass(line, None, None)?;
        return Ok(());
    };
    if outline.add_attribute(alloc, context, line, word)? {
        return Ok(());
    }
    let symbol = outline.add_statement(alloc, context, line, word)?;
    context.pass(line, keyword, symbol)?;
    Ok(())
}
