//! What is found where the reader of a Kconfig comes to it: variables that nobody gave and no line defines, and `source`
//! lines that are superfluous.

ghost use Rattle.std.specs.Prelude.{◌≡◌, ◌++◌, ◌<◌, ℕ, IfOk, OnOk, false, length, option_map, option_to_list, slice_get, slice_index_or};
ghost use Rattle.std.specs.BTreeMap.{get};
ghost use Rattle.std.specs.Option.{option_map_or};
ghost use Rattle.std.specs.Ordering.{nat_cmp};
ghost use Rattle.kc_text.specs.LineReferences.{lent_names};
ghost use Rattle.kc_line_facts.specs.EarlierFindings.{AreEarlier, again_by, fault_by, found_in_order, found_with, if_missing, is_missing, known_names, mark_line, mark_name, reached_names, sourced_again, use_in};

use crate::named_variables::NamedVariable;
use crate::read_order::{Mark, Reached, VariableFile, reading_order};
use crate::source_lines::{repeated_by_run, sources_by_run};
use crate::sourced_twice::{RepeatedFile, is_noted, repeated_files};
use crate::unknown_names::fresh_flags;
use crate::variable_names::defined_names;
use kc_text::Line;
use kc_tree::Tree;
use std::alloc::{AllocError, Global};
use std::collections::BTreeMap;

/// What is likely a mistake in a file of a Kconfig (this project's own).
#[derive(Clone, Copy, Debug, PartialEq, Eq)]
pub enum EarlierFault {
    /// A variable is missing, at its first use, by the number of that among the uses in the file.
    Missing(usize),
    /// The `source` line of a number, which begins the inclusion of a number, is superfluous: a line of a file has
    /// included that file before.
    SourcedAgain {
        line: usize,
        run: usize,
        first_file: usize,
        first_line: usize,
    },
}

/// What is found in the file of a number, before the logical line of an index.
#[derive(Clone, Copy, Debug, PartialEq, Eq)]
pub struct EarlierFinding {
    pub before: usize,
    pub file: usize,
    pub fault: EarlierFault,
}

/// The use of a number in the file of a number.
pub fn use_in<'v>(
    files: &'v [VariableFile<'_>],
    file: usize,
    number: usize,
) -> Option<&'v NamedVariable>
    ensures { option_map (λ u. u.now) result ≡ use_in files.now file number }
{
    files.get(file)?.found.uses.get(number)
}

/// The name of the variable to which a mark in the file of a number comes; empty for a `source` line.
fn mark_name<'v>(files: &'v [VariableFile<'_>], file: usize, mark: Mark) -> &'v str
    ensures { result.now ≡ mark_name files.now file mark }
{
    match mark {
        Mark::Use(number) => match use_in(files, file, number) {
            Some(variable) => variable.name.as_str(),
            None => "",
        },
        Mark::Source { .. } => "",
    }
}

/// The names of the variables to which marks come.
fn reached_names<'v>(
    alloc: Global,
    files: &'v [VariableFile<'_>],
    reached: &[Reached],
) -> Result<Vec<&'v str>, AllocError>
    ensures { IfOk result (λ names. lent_names names.items ≡ reached_names files.entry.now reached.now) }
{
    let mut names = Vec::new(alloc);
    for one in reached {
        names.push(mark_name(files, one.file, one.mark))?;
    }
    Ok(names)
}

/// Adds names.
fn push_all<'n>(names: &mut Vec<&'n str>, more: &[&'n str]) -> Result<(), AllocError>
    ensures { OnOk result (lent_names names.new.items ≡ lent_names names.old.items ++ lent_names more.now) }
{
    for name in more {
        names.push(*name)?;
    }
    Ok(())
}

/// The names that some line of the files defines, and those that were given. An empty name is among them.
fn known_names<'v>(
    alloc: Global,
    files: &'v [VariableFile<'_>],
    given: &[&'v str],
) -> Result<Vec<&'v str>, AllocError>
    ensures { IfOk result (λ names. lent_names names.items ≡ known_names files.entry.now (lent_names given.now)) }
{
    let defined = defined_names(alloc, files)?;
    let mut names = Vec::new(alloc);
    names.push("")?;
    push_all(&mut names, defined.as_slice())?;
    push_all(&mut names, given)?;
    Ok(names)
}

/// For each mark whether a variable is missing, which is used there first.
fn missing_flags(
    alloc: Global,
    files: &[VariableFile<'_>],
    given: &[&str],
    reached: &[Reached],
) -> Result<Vec<bool>, AllocError>
    ensures { IfOk result (λ flags. (k : ℕ) → slice_index_or flags.items k false ≡ is_missing files.now (lent_names given.now) reached.now k) }
{
    let names = reached_names(alloc, files, reached)?;
    let known = known_names(alloc, files, given)?;
    fresh_flags(alloc, names.as_slice(), known.as_slice())
}

/// That a variable is missing, by the number of its use, if it is.
fn if_missing(is_missing: bool, number: usize) -> Option<EarlierFault>
    ensures { result ≡ if_missing is_missing number }
{
    is_missing.then_some(EarlierFault::Missing(number))
}

/// The number of the line of a `source` line; 0 for a use.
fn mark_line(mark: Mark) -> usize
    ensures { result ≡ mark_line mark }
{
    match mark {
        Mark::Use(_) => 0,
        Mark::Source { line, .. } => line,
    }
}

/// That a `source` line is superfluous, by the one that is enough, if there is that one.
fn sourced_again(line: usize, run: usize, first: Option<&Reached>) -> Option<EarlierFault>
    ensures { result ≡ sourced_again line run (option_map (λ m. m.now) first.entry) }
{
    let first = first?;
    Some(EarlierFault::SourcedAgain {
        line,
        run,
        first_file: first.file,
        first_line: mark_line(first.mark),
    })
}

/// What marks are judged by: whether a variable is missing, by the numbers of the marks; the first `source` lines that put
/// files in place, and which of these times are superfluous, by the numbers of the times.
#[derive(Clone, Copy)]
struct Judging<'j> {
    missing: &'j [bool],
    sources: &'j BTreeMap<usize, Reached>,
    repeated: &'j BTreeMap<usize, RepeatedFile>,
}

/// That a `source` line is superfluous, if it is.
fn again_at(judging: Judging<'_>, line: usize, run: usize) -> Option<EarlierFault>
    ensures { result ≡ again_by (get nat_cmp judging.entry.repeated.now) (get nat_cmp judging.entry.sources.now) line run }
{
    let repeated = judging.repeated.get(&run)?;
    sourced_again(line, run, judging.sources.get(&repeated.first))
}

/// What is found at the mark of a number.
fn fault_at(judging: Judging<'_>, number: usize, mark: Mark) -> Option<EarlierFault>
    ensures { result ≡ fault_by (λ k. slice_index_or judging.entry.missing.now k false) (get nat_cmp judging.entry.repeated.now)
        (get nat_cmp judging.entry.sources.now) number mark }
{
    match mark {
        Mark::Use(place) => if_missing(is_noted(judging.missing, number), place),
        Mark::Source { line, run } => again_at(judging, line, run),
    }
}

/// Adds what is found at a mark, if something is.
fn push_found(
    found: &mut Vec<EarlierFinding>,
    mark: &Reached,
    fault: Option<EarlierFault>,
) -> Result<(), AllocError>
    ensures { OnOk result (found.new.items ≡ found.old.items ++ option_to_list (found_with mark.now fault)) }
{
    if let Some(fault) = fault {
        found.push(EarlierFinding {
            before: mark.before,
            file: mark.file,
            fault,
        })?;
    }
    Ok(())
}

/// What is found at marks, in their order.
fn found_in_order(
    alloc: Global,
    files: &[VariableFile<'_>],
    given: &[&str],
    repeated: &[RepeatedFile],
    reached: &[Reached],
) -> Result<Vec<EarlierFinding>, AllocError>
    ensures { IfOk result (λ found. found.items ≡ found_in_order files.now (lent_names given.now) repeated.now reached.now) }
{
    let missing = missing_flags(alloc, files, given, reached)?;
    let sources = sources_by_run(alloc, reached)?;
    let repeated = repeated_by_run(alloc, repeated)?;
    let judging = Judging {
        missing: missing.as_slice(),
        sources: &sources,
        repeated: &repeated,
    };
    let mut found = Vec::new(alloc);
    for number in 0..reached.len() {
        let one = &reached[number];
        let fault = fault_at(judging, number, one.mark);
        push_found(&mut found, one, fault)?;
    }
    Ok(found)
}

/// The variables that are missing, each at its first use, and the `source` lines that are superfluous, in the order in which
/// the reader of logical lines comes to them (this project's own). A variable is missing if it was not given and no line of
/// the files defines it. A `source` line is superfluous if the file counts where another line includes it before.
///
/// # Errors
///
/// `AllocError` where memory is refused.
pub fn earlier_findings(
    alloc: Global,
    lines: &[Line<'_>],
    tree: &Tree,
    files: &[VariableFile<'_>],
    given: &[&str],
) -> Result<Vec<EarlierFinding>, AllocError>
    ensures { IfOk result (λ found. AreEarlier lines.now tree.now files.now (lent_names given.now) found.items) }
{
    let reached = reading_order(alloc, lines, files)?;
    let repeated = repeated_files(alloc, lines, tree)?;
    found_in_order(alloc, files, given, repeated.as_slice(), reached.as_slice())
}
