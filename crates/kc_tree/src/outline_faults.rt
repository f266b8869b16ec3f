//! What is wrong with what lines define, in the order in which it is reported.

ghost use Rattle.std.specs.Prelude.{◌≡◌, ◌≤◌, ◌^◌, ◌++◌, IfOk, OnOk, Some, filter, length, map};
ghost use Rattle.kc_statement.specs.Keywords.{is_choice};
ghost use Rattle.kc_statement.specs.declared.limits.TheConstants.{MOST_SYMBOLS};
ghost use Rattle.kc_tree.specs.AllFaults.{reported};
ghost use Rattle.kc_tree.specs.OutlineFaults.{choice_faults, outline_faults, symbol_faults, IsInside};

use crate::choice_faults::problem_at;
use crate::fault::TreeFault;
use crate::problem::{ChoiceProblem, SymbolProblem};
use crate::symbol_faults::{are_symbols_faultless, has_problem};
use kc_outline::{ChoiceId, Outline};
use kc_statement::{Keyword, SymId, read_keyword};
use kc_text::{Line, Text};
use std::alloc::{AllocError, Global};

/// A fault of a symbol, or of a choice.
#[derive(Clone, Copy)]
pub(crate) enum OutlineFault {
    Symbol(SymbolProblem, SymId),
    Choice(ChoiceProblem, ChoiceId),
}

/// Adds each symbol that has a problem.
#[inline(never)]
fn add_symbol_faults(
    outline: &Outline,
    problem: SymbolProblem,
    faults: &mut Vec<OutlineFault>,
) -> Result<(), AllocError>
    requires { length outline.now.symbols ≤ MOST_SYMBOLS }
    ensures { OnOk result (faults.new.items ≡ faults.old.items ++ symbol_faults outline.now problem) }
{
    let count = outline.symbols().len();
    for number in 0..count {
        if has_problem(outline, problem, number) {
            faults.push(OutlineFault::Symbol(problem, SymId(number as u32)))?;
        }
    }
    Ok(())
}

/// Adds each choice that has a problem.
fn add_choice_faults(outline: &Outline, faults: &mut Vec<OutlineFault>) -> Result<(), AllocError>
    requires { length outline.now.choices ≤ 2 ^ 30 }
    ensures { OnOk result (faults.new.items ≡ faults.old.items ++ choice_faults outline.now) }
{
    let count = outline.choices().len();
    for number in 0..count {
        if let Some(problem) = problem_at(outline, number) {
            faults.push(OutlineFault::Choice(problem, ChoiceId(number as u32)))?;
        }
    }
    Ok(())
}

/// All faults of symbols and choices, kind by kind. Most outlines have none of a symbol, which one walk over the symbols
/// shows.
pub(crate) fn outline_faults(
    alloc: Global,
    outline: &Outline,
) -> Result<Vec<OutlineFault>, AllocError>
    requires few { length outline.now.symbols ≤ MOST_SYMBOLS }
    requires few_choices { length outline.now.choices ≤ 2 ^ 30 }
    ensures { IfOk result (λ faults. faults.items ≡ outline_faults outline.now) }
{
    let mut faults = Vec::new(alloc);
    if are_symbols_faultless(outline) {
        add_choice_faults(outline, &mut faults)?;
        return Ok(faults);
    }
    add_symbol_faults(outline, SymbolProblem::NoType, &mut faults)?;
    add_symbol_faults(outline, SymbolProblem::TypeConflict, &mut faults)?;
    add_symbol_faults(outline, SymbolProblem::SecondPrompt, &mut faults)?;
    add_symbol_faults(outline, SymbolProblem::UnfitDefault, &mut faults)?;
    add_symbol_faults(outline, SymbolProblem::UnfitSelect, &mut faults)?;
    add_choice_faults(outline, &mut faults)?;
    add_symbol_faults(outline, SymbolProblem::BadModules, &mut faults)?;
    Ok(faults)
}

/// Whether a line begins a choice.
fn is_choice(line: &Line<'_>) -> bool
    ensures { result ≡ is_choice line.now }
{
    matches!(read_keyword(line), Some(Keyword::Choice))
}

/// The lines that begin choices.
pub(crate) fn choice_lines<'l, 'a>(
    alloc: Global,
    lines: &'l [Line<'a>],
) -> Result<Vec<&'l Line<'a>>, AllocError>
    ensures { IfOk result (λ choices. map (λ l. l.now) choices.items ≡ filter is_choice lines.entry.now) }
{
    let mut choices = Vec::new(alloc);
    for line in lines {
        if is_choice(line) {
            choices.push(line)?;
        }
    }
    Ok(choices)
}

/// A fault with the name of its symbol, or the path and the number of the one of these lines that begins its choice.
pub(crate) fn reported(
    alloc: Global,
    outline: &Outline,
    choices: &[&Line<'_>],
    fault: OutlineFault,
) -> Result<TreeFault, AllocError>
    requires { IsInside (map (λ l. l.now) choices.now) fault }
    ensures { IfOk result (λ f. Some f ≡ reported (map (λ l. l.now) choices.now) outline.now fault) }
{
    match fault {
        OutlineFault::Symbol(problem, symbol) => {
            let name = Text::copy_of(alloc, outline.names().get(symbol.0 as usize))?;
            Ok(TreeFault::Symbol { problem, name })
        }
        OutlineFault::Choice(problem, choice) => {
            let Some(line) = choices.get(choice.0 as usize) else {
                unreachable!()
            };
            let path = Text::copy_of(alloc, line.path())?;
            Ok(TreeFault::Choice {
                problem,
                path,
                line: line.number(),
            })
        }
    }
}
