//! Which symbol a name in a line may have been meant as, where it is likely a mistake.

ghost use Rattle.std.specs.Prelude.{◌≡◌, IfOk, count_by};
ghost use Rattle.std.specs.Option.{option_copied};
ghost use Rattle.kc_line_facts.specs.MeantSymbols.{AreMeant, IsMeantAs, IsNearestSymbol, bare_symbol, if_long, is_nearest, is_undefined, owner_name, sought_for, symbol_if_long, symbol_of, unless_owner};
ghost use Rattle.kc_line_facts.specs.SymbolNames.{symbol_names};

use crate::name_readings::NameReading;
use crate::named_uses::name_of;
use crate::tree_names::symbol_names;
use crate::undefined_names::DoubtfulName;
use kc_names::{NearNames, bare_name, bare_word, differ_in_long_word};
use kc_text::Line;
use kc_tree::{SymId, Tree};
use std::alloc::{AllocError, Global};

/// How it is decided which symbol a name may have been meant as.
#[derive(Clone, Copy)]
pub(crate) enum Sought {
    /// None.
    Nothing,
    /// This one, whose name it is but for the prefix.
    Symbol(SymId),
    /// The one with the nearest name.
    Nearest,
}

/// Whether a name is read as one that no line defines.
pub(crate) fn is_undefined(reading: NameReading) -> bool
    ensures { result ≡ is_undefined reading }
{
    match reading {
        NameReading::No | NameReading::Text | NameReading::Default => true,
        NameReading::Select | NameReading::Imply => true,
        NameReading::Condition(_) => false,
    }
}

/// The symbol whose name is what comes after the prefix of a name.
fn bare_symbol(tree: &Tree, prefix: &str, name: &str) -> Option<SymId>
    ensures { result ≡ bare_symbol tree.now prefix.now name.now }
{
    match bare_word(prefix, name) {
        Some(bare) => tree.find(bare),
        None => None,
    }
}

/// That a symbol is meant, unless a line belongs to it.
fn unless_owner(owner: Option<SymId>, symbol: SymId) -> Sought
    ensures { result ≡ unless_owner owner symbol }
{
    match owner {
        Some(owner) if owner == symbol => Sought::Nothing,
        Some(_) => Sought::Symbol(symbol),
        None => Sought::Symbol(symbol),
    }
}

/// How it is decided what a name is meant as.
fn sought_for(lines: &[Line<'_>], tree: &Tree, prefix: &str, doubtful: &DoubtfulName) -> Sought
    ensures { result ≡ sought_for lines.now tree.now prefix.now doubtful.now }
{
    if !is_undefined(doubtful.used.reading) {
        return Sought::Nothing;
    }
    match bare_symbol(tree, prefix, name_of(lines, doubtful.used)) {
        Some(symbol) => unless_owner(doubtful.used.owner, symbol),
        None if doubtful.is_in_one_line => Sought::Nearest,
        None => Sought::Nothing,
    }
}

/// Whether the nearest name is sought.
fn is_nearest(sought: Sought) -> bool
    ensures { result ≡ is_nearest sought }
{
    matches!(sought, Sought::Nearest)
}

/// Of how many names the nearest one is sought.
fn count_nearest(lines: &[Line<'_>], tree: &Tree, prefix: &str, doubtful: &[DoubtfulName]) -> usize
    ensures { result ≡ count_by (λ d. is_nearest (sought_for lines.now tree.now prefix.now d)) doubtful.now }
{
    doubtful
        .iter()
        .filter(|doubtful| is_nearest(sought_for(lines, tree, prefix, doubtful)))
        .count()
}

/// The symbol of a number, if the tree has it.
fn symbol_of(tree: &Tree, number: usize) -> Option<SymId>
    ensures { result ≡ symbol_of tree.now number }
{
    if number < tree.symbols().len() {
        Some(SymId(number as u32))
    } else {
        None
    }
}

/// A symbol, if its name differs from another in a long word.
fn if_long(tree: &Tree, name: &str, symbol: SymId) -> Option<SymId>
    ensures { result ≡ if_long tree.now name.now symbol }
{
    if differ_in_long_word(name, tree.name(symbol)) {
        Some(symbol)
    } else {
        None
    }
}

/// The symbol of a number, if there is one and its name differs from another in a long word.
fn symbol_if_long(tree: &Tree, name: &str, number: Option<usize>) -> Option<SymId>
    ensures { result ≡ symbol_if_long tree.now name.now number }
{
    if_long(tree, name, symbol_of(tree, number?)?)
}

/// The symbol with the nearest name, if that differs in a long word, and is not the excepted one.
fn nearest_symbol(
    near: &NearNames<'_>,
    tree: &Tree,
    excepted: Option<&str>,
    name: &str,
) -> Option<SymId>
    ensures { IsNearestSymbol near.now tree.now (option_copied excepted.entry) name.now result }
{
    symbol_if_long(tree, name, near.nearest_number(name, excepted))
}

/// The name of the symbol that a line belongs to.
fn owner_name(tree: &Tree, owner: Option<SymId>) -> Option<&str>
    ensures { option_copied result ≡ owner_name tree.entry.now owner }
{
    match owner {
        Some(owner) => Some(tree.name(owner)),
        None => None,
    }
}

/// The symbol that a name is meant as, if there is one: the one whose name it is but for the prefix; else, if the name is in
/// one place, the one with the nearest name, if they differ in a long word; but not the symbol that the line belongs to.
fn meant_symbol(
    near: &NearNames<'_>,
    lines: &[Line<'_>],
    tree: &Tree,
    prefix: &str,
    doubtful: &DoubtfulName,
) -> Option<SymId>
    ensures { IsMeantAs near.now lines.now tree.now prefix.now doubtful.now result }
{
    match sought_for(lines, tree, prefix, doubtful) {
        Sought::Nothing => None,
        Sought::Symbol(symbol) => Some(symbol),
        Sought::Nearest => {
            let excepted = owner_name(tree, doubtful.used.owner);
            let name = bare_name(prefix, name_of(lines, doubtful.used));
            nearest_symbol(near, tree, excepted, name)
        }
    }
}

/// The symbols that names are meant as, by the names of all symbols.
fn meant_among(
    alloc: Global,
    near: &NearNames<'_>,
    lines: &[Line<'_>],
    tree: &Tree,
    prefix: &str,
    doubtful: &[DoubtfulName],
) -> Result<Vec<Option<SymId>>, AllocError>
    ensures { IfOk result (λ r. AreMeant near.now lines.now tree.now prefix.now doubtful.now r.items) }
{
    let mut meant = Vec::with_capacity(alloc, doubtful.len())?;
    for place in 0..doubtful.len() {
        let symbol = meant_symbol(near, lines, tree, prefix, &doubtful[place]);
        meant.push(symbol)?;
    }
    Ok(meant)
}

/// The symbols that names in lines are meant as, where names have a prefix (this project's own). Forms of the names of all
/// symbols are made where the nearest name is sought of many.
///
/// # Errors
///
/// `AllocError` where memory is refused.
pub(crate) fn meant_symbols(
    alloc: Global,
    lines: &[Line<'_>],
    tree: &Tree,
    prefix: &str,
    doubtful: &[DoubtfulName],
) -> Result<Vec<Option<SymId>>, AllocError>
    ensures { IfOk result (λ r. AreMeant (symbol_names tree.now) lines.now tree.now prefix.now doubtful.now r.items) }
{
    let asked = count_nearest(lines, tree, prefix, doubtful);
    let near = NearNames::of(alloc, symbol_names(alloc, tree)?, asked)?;
    meant_among(alloc, &near, lines, tree, prefix, doubtful)
}
