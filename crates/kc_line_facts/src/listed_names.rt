//! Which names that are likely mistakes are listed.

ghost use Rattle.std.specs.Prelude.{◌≡◌, ◌++◌, IfOk, None, OnOk, map, slice_index_or};
ghost use Rattle.kc_line_facts.specs.ListedNames.{IsListing, has_prefix, is_always_listed, is_listed, line_of, listed_among, listed_if};

use crate::meant_symbols::meant_symbols;
use crate::name_readings::NameReading;
use crate::named_uses::name_of;
use crate::undefined_names::{DoubtfulName, doubtful_names};
use crate::unlisted_names::unlisted_firsts;
use kc_statement::is_name;
use kc_text::Line;
use kc_tree::{SymId, Tree};
use std::alloc::{AllocError, Global};
use std::collections::BTreeSet;

/// Which names that are defined nowhere are listed.
#[derive(Clone, Copy, Debug, PartialEq, Eq)]
pub enum Extent {
    /// Those that are likely mistakes: near a defined name, with the prefix of names, or as the value of a symbol.
    Near,
    /// All.
    All,
}

/// Whether a name is listed whatever it is, by how it is read.
fn is_always_listed(reading: NameReading) -> bool
    ensures { result ≡ is_always_listed reading }
{
    match reading {
        NameReading::Condition(_) => true,
        NameReading::Default => true,
        NameReading::No => false,
        NameReading::Text => false,
        NameReading::Select => false,
        NameReading::Imply => false,
    }
}

/// Whether a name begins with a prefix that is not empty.
fn has_prefix(prefix: &str, name: &str) -> bool
    ensures { result ≡ has_prefix prefix.now name.now }
{
    !prefix.is_empty() && name.as_bytes().starts_with(prefix.as_bytes())
}

/// Whether a name that is likely a mistake is listed (this project's own): always where it is a condition or a text that a
/// symbol is given, where it has the prefix of names, or where there is a name that it was likely meant as; where all are
/// listed, also each other name that a symbol can have.
pub fn is_listed(
    lines: &[Line<'_>],
    prefix: &str,
    extent: Extent,
    has_proposal: bool,
    doubtful: &DoubtfulName,
) -> bool
    ensures { result ≡ is_listed lines.now prefix.now extent has_proposal doubtful.now }
{
    let name = name_of(lines, doubtful.used);
    is_always_listed(doubtful.used.reading)
        || extent == Extent::All && is_name(name)
        || has_proposal
        || has_prefix(prefix, name)
}

/// A name that is listed, and the symbol that it may have been meant as.
#[derive(Clone, Copy, Debug, PartialEq, Eq)]
pub struct ListedName {
    pub doubtful: DoubtfulName,
    pub meant: Option<SymId>,
}

/// The names of a tree that are listed, in the order of their lines, and those that are not.
#[derive(Drop)]
pub struct ListedNames {
    pub names: Vec<ListedName>,
    /// The number of the line of each, among all lines from 0.
    pub lines: Vec<usize>,
    /// Of the names that no line defines, those that are listed nowhere, by the number that all uses of one have.
    pub unlisted: BTreeSet<usize>,
}

/// What a name of many is meant as.
fn meant_at(meant: &[Option<SymId>], place: usize) -> Option<SymId>
    ensures { result ≡ slice_index_or meant.now place None }
{
    match meant.get(place) {
        Some(symbol) => *symbol,
        None => None,
    }
}

/// Adds a name with the symbol that it is meant as, if it is listed.
fn add_listed(
    listed: &mut Vec<ListedName>,
    doubtful: &DoubtfulName,
    meant: Option<SymId>,
    is_listed: bool,
) -> Result<(), AllocError>
    ensures { OnOk result (listed.new.items ≡ listed.old.items ++ listed_if is_listed doubtful.now meant) }
{
    if is_listed {
        listed.push(ListedName {
            doubtful: *doubtful,
            meant,
        })?;
    }
    Ok(())
}

/// Those of names that are listed, with the symbols that they are meant as.
fn listed_among(
    alloc: Global,
    lines: &[Line<'_>],
    prefix: &str,
    extent: Extent,
    doubtful: &[DoubtfulName],
    meant: &[Option<SymId>],
) -> Result<Vec<ListedName>, AllocError>
    ensures { IfOk result (λ r. r.items ≡ listed_among lines.now prefix.now extent doubtful.now meant.now) }
{
    let mut listed = Vec::new(alloc);
    for place in 0..doubtful.len() {
        let name = &doubtful[place];
        let symbol = meant_at(meant, place);
        let is_one = is_listed(lines, prefix, extent, symbol.is_some(), name);
        add_listed(&mut listed, name, symbol, is_one)?;
    }
    Ok(listed)
}

/// The numbers of the lines of names.
fn lines_of(alloc: Global, listed: &[ListedName]) -> Result<Vec<usize>, AllocError>
    ensures { IfOk result (λ r. r.items ≡ map line_of listed.now) }
{
    let mut lines = Vec::with_capacity(alloc, listed.len())?;
    for name in listed {
        lines.push(name.doubtful.used.line)?;
    }
    Ok(lines)
}

/// The names of a tree that are listed, where names have a prefix: those in expressions that no line defines, and those of
/// strings, ints and hexes that are conditions (`is_listed`), each with the symbol that it may have been meant as; and the
/// names that no line defines and that are not listed (this project's own).
///
/// # Errors
///
/// `AllocError` where memory is refused.
pub fn list_names(
    alloc: Global,
    tree: &Tree,
    lines: &[Line<'_>],
    prefix: &str,
    extent: Extent,
) -> Result<ListedNames, AllocError>
    ensures { IfOk result (IsListing lines.now tree.now prefix.now extent) }
{
    let doubtful = doubtful_names(alloc, tree, lines)?;
    let doubtful = doubtful.as_slice();
    let meant = meant_symbols(alloc, lines, tree, prefix, doubtful)?;
    let names = listed_among(alloc, lines, prefix, extent, doubtful, meant.as_slice())?;
    let unlisted = unlisted_firsts(alloc, lines, doubtful, names.as_slice())?;
    let lines = lines_of(alloc, names.as_slice())?;
    Ok(ListedNames {
        names,
        lines,
        unlisted,
    })
}
