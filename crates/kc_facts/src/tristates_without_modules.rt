//! Tristates that are never m.

ghost use Rattle.std.specs.Prelude.{◌≡◌, IfOk, filter, length};
ghost use Rattle.std.specs.List.{range_with_len};
ghost use Rattle.kc_facts.specs.NeverModules.{is_of_tristate, is_tristate, never_modules, says_tristate};

use crate::unset_symbols::add_number;
use kc_lines::{Attribute, Family, LineIndex, Part};
use kc_statement::SymbolType;
use kc_tree::Tree;
use std::alloc::{AllocError, Global};

/// Whether a type is that of a tristate.
fn is_tristate(kind: SymbolType) -> bool
    ensures { result ≡ is_tristate kind }
{
    matches!(kind, SymbolType::Tristate)
}

/// Whether the definition of a number is that of a tristate.
fn is_of_tristate(tree: &Tree, number: usize) -> bool
    ensures { result ≡ is_of_tristate tree.now number }
{
    match tree.definitions().get(number) {
        Some(definition) => is_tristate(tree.symbol_type(definition.symbol())),
        None => false,
    }
}

/// Whether a line of the definition of a number says that its symbol is a tristate.
fn says_tristate(index: &LineIndex<'_, '_>, tree: &Tree, number: usize) -> bool
    ensures { result ≡ says_tristate index.now tree.now number }
{
    let part = Part::Said(Family::Definition, number, Attribute::Type, 0);
    is_of_tristate(tree, number) && index.line(part).is_some()
}

/// The definitions with a line which says that their symbol is a tristate.
fn tristate_definitions(
    alloc: Global,
    index: &LineIndex<'_, '_>,
    tree: &Tree,
) -> Result<Vec<usize>, AllocError>
    ensures { IfOk result (λ r. r.items ≡ filter (says_tristate index.now tree.now) (range_with_len 0 (length tree.now.definitions))) }
{
    let mut found = Vec::new(alloc);
    for number in 0..tree.definitions().len() {
        add_number(&mut found, number, says_tristate(index, tree, number))?;
    }
    Ok(found)
}

/// The definitions, by their numbers, with a line which says that their symbol is a tristate, where no line defines
/// MODULES, so that it is never m (this project's own).
///
/// # Errors
///
/// `AllocError` where memory is refused.
pub fn never_modules(
    alloc: Global,
    index: &LineIndex<'_, '_>,
    tree: &Tree,
) -> Result<Vec<usize>, AllocError>
    ensures { IfOk result (λ r. r.items ≡ never_modules index.now tree.now) }
{
    if tree.modules().is_some() {
        return Ok(Vec::new(alloc));
    }
    tristate_definitions(alloc, index, tree)
}
