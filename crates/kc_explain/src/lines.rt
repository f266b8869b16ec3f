//! What is said of a fault of a line.

ghost use Rattle.std.specs.Prelude.{IfOk};
ghost use Rattle.kc_lines.specs.declared.shown.Fault.TheVariants.{Line as OfLine};
ghost use Rattle.kc_lines.specs.Named.{AreRemarksOf};

use crate::blocks::explain_block;
use crate::forms::explain_form;
use crate::help_texts::push_of_help;
use crate::limits::explain_limit;
use crate::piece::{Piece, Texts};
use crate::said::{Said, Unsaid, or_meaning, say};
use crate::statements::Statements;
use crate::strays::explain_stray;
use crate::unknown::explain_unknown;
use crate::unsupported::explain_unsupported;
use kc_lines::{Explanation, Fault};
use kc_outline::LineProblem;
use kc_statement::Keyword;
use kc_text::Line;
use kc_tree::Problem;
use std::alloc::{AllocError, Global};

/// A line that may be at fault, among the others.
#[derive(Clone, Copy)]
pub(crate) struct Suspect<'s, 'l, 'a> {
    pub statements: &'s Statements<'l, 'a>,
    pub line: &'l Line<'a>,
    /// Its number among all lines, from 0.
    pub at: usize,
}

impl<'s, 'l, 'a> Suspect<'s, 'l, 'a> {
    /// A message that it shows.
    pub fn say(&self, message: &[Piece], texts: &Texts<'_>) -> Said {
        say(self.statements.alloc, message, texts, &[self.at])
    }

    /// A message that another line shows, and then it.
    pub fn say_after(&self, message: &[Piece], texts: &Texts<'_>, line: usize) -> Said {
        say(self.statements.alloc, message, texts, &[line, self.at])
    }

    /// The keyword of the nearest line before it that is no attribute.
    pub fn owner(&self) -> Option<Keyword> {
        let statement = self.statements.statement_before(self.at)?;
        self.statements.keyword(statement)
    }
}

/// What is said of the fault of the line of a number in a file, by the lines of its Kconfig and the text of that file.
/// Where the text can't be had, it is empty. Of a file that is read more than once the line is meant where it is at
/// fault. Each line that is named is one of the lines.
///
/// # Errors
///
/// `AllocError` where memory is refused.
pub fn explain_line(
    alloc: Global,
    lines: &[Line<'_>],
    text: &str,
    problem: LineProblem,
    path: &str,
    number: usize,
) -> Result<Explanation, AllocError>
    ensures { IfOk result (λ e. AreRemarksOf OfLine lines.now e.remarks.items) }
{
    let statements = Statements::read(alloc, lines)?;
    let said = explain_first(&statements, text, problem, path, number);
    let finding = or_meaning(alloc, said, Problem::Line(problem).number())?;
    finding.explain(alloc, Fault::Line, lines)
}

/// What is said of the first line, of those with this path and number, that has something to be said.
fn explain_first(
    statements: &Statements<'_, '_>,
    text: &str,
    problem: LineProblem,
    path: &str,
    number: usize,
) -> Said {
    for (at, line) in statements.lines.iter().enumerate() {
        if line.number() != number || line.path() != path {
            continue;
        }
        let suspect = Suspect {
            statements,
            line,
            at,
        };
        match explain_here(&suspect, text, problem) {
            Err(Unsaid::Nothing) => {}
            said => return said,
        }
    }
    Err(Unsaid::Nothing)
}

/// What is said of the fault of a line, if it is at fault in this place.
fn explain_here(suspect: &Suspect<'_, '_, '_>, text: &str, problem: LineProblem) -> Said {
    match problem {
        LineProblem::Limit => explain_limit(suspect),
        LineProblem::UnknownStatement => explain_unknown(suspect, text),
        LineProblem::Malformed => or_of_help(suspect, text, explain_form(suspect)),
        LineProblem::StrayAttribute => or_of_help(suspect, text, explain_stray(suspect)),
        LineProblem::UnbalancedBlock => explain_block(suspect),
        LineProblem::Unsupported => explain_unsupported(suspect),
    }
}

/// What is said of a line, and that it may be meant as the first of a help text that is empty.
fn or_of_help(suspect: &Suspect<'_, '_, '_>, text: &str, said: Said) -> Said {
    let mut finding = said?;
    let alloc = suspect.statements.alloc;
    push_of_help(alloc, &mut finding.words, text, suspect.line.number())?;
    Ok(finding)
}
