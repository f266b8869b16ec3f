//! From logical lines to what they define, or the first fault.

ghost use Rattle.std.specs.Prelude.{◌≡◌, ℕ, ◌≤◌, ◌+◌, ◌^◌, ◌==◌, ◌∷◌, List, All, count_by, length, IfOk, IfErr, OnOk};
ghost use Rattle.kc_outline.specs.Entries.{AreMenusClosed, IsEntryOf, first_symbols, symbol_ids};
ghost use Rattle.kc_outline.specs.Members.{AreMembersListed};
ghost use Rattle.kc_outline.specs.NameList.{AreNames};
ghost use Rattle.kc_outline.specs.Nested.{AreNested};
ghost use Rattle.kc_text.specs.LineValue.{LineValue};
ghost use Rattle.kc_statement.specs.Keywords.{is_choice};
ghost use Rattle.kc_outline.specs.TreeOf.{IsOutlineOf};
ghost use Rattle.kc_outline.specs.ContextAfter.{HasRoom, IsContextAfter};
ghost use Rattle.kc_outline.specs.Blocks.{AreBlocksEnclosing, AreOpenAt};
ghost use Rattle.kc_outline.specs.TreeValue.{TreeValue};
ghost use Rattle.kc_outline.specs.declared.fault.LineFault as fault;
ghost use Rattle.kc_outline.specs.declared.fault.LineFault.TheVariants.{NoMemory};
ghost use Rattle.kc_outline.specs.FirstProblem.{AreRefusedFor, IsReadFault};
ghost use Rattle.kc_outline.specs.Reader.{IsOutlineAfter, IsStop, IsReportedFor};
ghost use Rattle.kc_statement.specs.declared.limits.TheConstants.{MOST_SYMBOLS};
ghost use Rattle.kc_text.specs.declared.reading.TheConstants.{MOST_LINES};

use crate::context::Context;
use crate::fault::LineFault;
use crate::outline::Outline;
use crate::reading::read_line;
use crate::stop::Stop;
use kc_statement::{Seed, read_keyword, read_names};
use kc_text::{Line, Text};
use std::alloc::Global;

/// The fault of a line that was not added, or that its path could not be copied.
fn line_fault(alloc: Global, stop: Stop, line: &Line<'_>) -> LineFault
    ensures { IsReportedFor stop line.now result }
{
    let Some(problem) = stop.problem() else {
        return LineFault::NoMemory;
    };
    match Text::copy_of(alloc, line.path()) {
        Ok(path) => LineFault::At {
            problem,
            path,
            line: line.number(),
        },
        Err(_) => LineFault::NoMemory,
    }
}

/// What logical lines define (kconfig-language.rst, "Menu entries" and "Menu structure"), which are no more than
/// `logical_lines` gives. Its names are kept under the hash of a seed.
///
/// # Errors
///
/// - `LineFault::At` with the first line that has a problem: K04 its word is unknown, K20 it is unsupported, K06 its
///   attribute belongs to nothing that takes it, K07 a block is closed wrongly or left open, K05 its form, and K01 a limit
///   of parentheses, blocks or symbols.
/// - `LineFault::NoMemory` where memory was refused.
#[tactic(auto, using(crate::proofs::BlockLaws::open_at))]
pub fn read_outline(alloc: Global, seed: Seed, lines: &[Line<'_>]) -> Result<Outline, LineFault>
    requires { length lines.now ≤ MOST_LINES }
    ensures outline { IfOk result (IsOutlineOf lines.now) }
    ensures few { IfOk result (λ o. length o.symbols ≤ MOST_SYMBOLS) }
    ensures few_choices { IfOk result (λ o. length o.choices ≤ 2 ^ 30) }
    ensures few_definitions { IfOk result (λ o. length o.definitions ≤ 2 ^ 26) }
    ensures few_blocks { IfOk result (λ o. length o.blocks ≤ 2 ^ 26) }
    ensures choices { IfOk result (λ o. length o.choices ≡ count_by is_choice lines.now) }
    ensures named { IfOk result (λ o. length o.names ≡ length o.symbols) }
    ensures entries { IfOk result (λ o. All (IsEntryOf o) o.entries) }
    ensures members { IfOk result AreMembersListed }
    ensures firsts { IfOk result (λ o. first_symbols o.entries ≡ symbol_ids o) }
    ensures menus { IfOk result AreMenusClosed }
    ensures nested { IfOk result AreNested }
    ensures names { IfOk result (λ o. AreNames o.names) }
    ensures open_blocks { (j : ℕ) → j ≤ length lines.now → AreOpenAt lines.now j }
    ensures enclosing { IfOk result (AreBlocksEnclosing lines.now) }
    ensures only { IfOk result (λ o. (t : TreeValue) → IsOutlineOf lines.now t → t ≡ o) }
    ensures exact { IfOk result (λ o. (f : fault.LineFault) → IsReadFault lines.now f → f ≡ NoMemory) }
    ensures fault { IfErr result (IsReadFault lines.now) }
    ensures refused { IfErr result (AreRefusedFor lines.now) }
{
    let names = read_names(alloc, seed, lines)?;
    let mut outline = Outline::new(alloc, names)?;
    let mut context = Context::new(alloc);
    for (index, line) in lines.iter().enumerate() {
        let (keyword, following) = (read_keyword(line), lines.len() - index - 1);
        if let Err(stop) = read_line(alloc, &mut outline, &mut context, line, keyword, following) {
            return Err(line_fault(alloc, stop, line));
        }
    }
    Ok(outline)
}
