//! Names that are likely mistakes, each once a line.

ghost use Rattle.std.specs.Prelude.{◌≡◌, ◌++◌, ℕ, false, IfOk, OnOk, slice_index_or};
ghost use Rattle.kc_line_facts.specs.DoubtfulNames.{are_same_line, doubtful_names, found_name, is_again, is_elsewhere, is_in_several, is_same_line, names_found};

use crate::doubtful_uses::{DoubtfulUse, doubtful_uses};
use crate::named_uses::{NamedUse, named_uses};
use crate::sourced_twice::{is_noted, note_run};
use kc_text::Line;
use kc_tree::Tree;
use std::alloc::{AllocError, Global};

/// A name in a line that is likely a mistake (this project's own).
#[derive(Clone, Copy, Debug, PartialEq, Eq)]
pub struct DoubtfulName {
    pub used: DoubtfulUse,
    /// A number that all uses of the name have, and no other use.
    pub first: usize,
    /// Whether all lines that use the name are one line of a file, as a typing error is.
    pub is_in_one_line: bool,
}

/// Whether two lines are one line of a file.
fn is_same_line(line: &Line<'_>, other: &Line<'_>) -> bool
    ensures { result ≡ is_same_line line.now other.now }
{
    line.number() == other.number() && line.path() == other.path()
}

/// Whether the lines of two indices are one line of a file.
fn are_same_line(lines: &[Line<'_>], index: usize, other: usize) -> bool
    ensures { result ≡ are_same_line lines.now index other }
{
    match (lines.get(index), lines.get(other)) {
        (Some(line), Some(other)) => is_same_line(line, other),
        (Some(_), None) => false,
        (None, _) => false,
    }
}

/// Whether a use is in another line of a file than the first one of its name.
fn is_elsewhere(lines: &[Line<'_>], uses: &[NamedUse], used: &NamedUse) -> bool
    ensures { result ≡ is_elsewhere lines.now uses.now used.now }
{
    match uses.get(used.first) {
        Some(first) => !are_same_line(lines, first.used.line, used.used.line),
        None => false,
    }
}

/// By the first use of each name, whether its uses are in several lines of files.
fn names_in_several(
    alloc: Global,
    lines: &[Line<'_>],
    uses: &[NamedUse],
) -> Result<Vec<bool>, AllocError>
    ensures { IfOk result (λ noted. (f : ℕ) → slice_index_or noted.items f false ≡ is_in_several lines.now uses.now f) }
{
    let mut noted = vec![in alloc; false; uses.len()]?;
    for place in 0..uses.len() {
        let used = &uses[place];
        note_run(&mut noted, used.first, is_elsewhere(lines, uses, used));
    }
    Ok(noted)
}

/// Whether the use before one of the same name is in the same line.
fn is_again(uses: &[NamedUse], used: &NamedUse) -> bool
    ensures { result ≡ is_again uses.now used.now }
{
    let Some(place) = used.before else {
        return false;
    };
    match uses.get(place) {
        Some(earlier) => earlier.used.line == used.used.line,
        None => false,
    }
}

/// Adds the name of a use, unless it is there again.
fn add_found(
    found: &mut Vec<DoubtfulName>,
    named: &NamedUse,
    is_again: bool,
    is_in_several: bool,
) -> Result<(), AllocError>
    ensures { OnOk result (found.new.items ≡ found.old.items ++ found_name is_again is_in_several named.now) }
{
    if !is_again {
        found.push(DoubtfulName {
            used: named.used,
            first: named.first,
            is_in_one_line: !is_in_several,
        })?;
    }
    Ok(())
}

/// The names of uses, each once a line, in their order.
fn names_found(
    alloc: Global,
    lines: &[Line<'_>],
    uses: &[NamedUse],
) -> Result<Vec<DoubtfulName>, AllocError>
    ensures { IfOk result (λ r. r.items ≡ names_found lines.now uses.now) }
{
    let several = names_in_several(alloc, lines, uses)?;
    let mut found = Vec::new(alloc);
    for place in 0..uses.len() {
        let named = &uses[place];
        let is_in_several = is_noted(several.as_slice(), named.first);
        add_found(&mut found, named, is_again(uses, named), is_in_several)?;
    }
    Ok(found)
}

/// The names in lines that are read as something other than the value of a symbol, in the order of the lines and of their
/// tokens, each once a line as it is read first: those that no line defines, and those of strings, ints and hexes that are
/// conditions (this project's own). Each token is looked at once.
///
/// # Errors
///
/// `AllocError` where memory is refused.
pub fn doubtful_names(
    alloc: Global,
    tree: &Tree,
    lines: &[Line<'_>],
) -> Result<Vec<DoubtfulName>, AllocError>
    ensures { IfOk result (λ r. r.items ≡ doubtful_names lines.now tree.now) }
{
    let uses = doubtful_uses(alloc, tree, lines)?;
    let named = named_uses(alloc, lines, uses.as_slice())?;
    names_found(alloc, lines, named.as_slice())
}
