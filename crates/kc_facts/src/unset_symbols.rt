//! Symbols to which no line gives a value.

ghost use Rattle.std.specs.Prelude.{◌≡◌, ◌<◌, ◌++◌, IfOk, OnOk, length, not};
ghost use Rattle.std.specs.List.{list_all};
ghost use Rattle.kc_facts.specs.Unset.{has_users, has_value, has_value_at, is_never_set, is_other, is_unset_at, is_used, is_used_at, number_if, unset_definitions};

use crate::forced_definitions::{is_first, symbol_at};
use kc_outline::Symbol;
use kc_tree::{Definition, Node, SymId, Tree};
use std::alloc::{AllocError, Global};

/// Whether a definition has a prompt or a default.
fn has_value(definition: &Definition) -> bool
    ensures { result ≡ has_value definition.now }
{
    definition.prompt().is_some() || !definition.defaults().is_empty()
}

/// Whether the definition of a number has a prompt or a default.
fn has_value_at(tree: &Tree, number: usize) -> bool
    ensures { result ≡ has_value_at tree.now number }
{
    match tree.definitions().get(number) {
        Some(definition) => has_value(definition),
        None => false,
    }
}

/// Whether no definition of these numbers has a prompt or a default.
fn are_without_value(tree: &Tree, numbers: &[usize]) -> bool
    ensures { result ≡ list_all (λ n. not (has_value_at tree.now n)) numbers.now }
{
    numbers.iter().all(|number| !has_value_at(tree, *number))
}

/// Whether a symbol is a bool or a tristate in no choice, to which no line gives a value.
fn is_never_set(tree: &Tree, symbol: &Symbol) -> bool
    ensures { result ≡ is_never_set tree.now symbol.now }
{
    symbol.kind().is_tri()
        && symbol.choice().is_none()
        && symbol.selected().is_empty()
        && symbol.implied().is_empty()
        && are_without_value(tree, symbol.definitions())
}

/// Whether a node is neither the visibility nor the value of a symbol.
fn is_other(symbol: SymId, node: Node) -> bool
    ensures { result ≡ is_other symbol node }
{
    match node {
        Node::Vis(other) => other != symbol,
        Node::Val(other) => other != symbol,
        Node::Mode(_) => true,
        Node::Sel(_) => true,
    }
}

/// Whether another symbol or a choice is computed from the value of a symbol of the tree.
fn has_users(tree: &Tree, symbol: SymId) -> bool
    requires { symbol.0 < length tree.now.symbols }
    ensures { result ≡ has_users tree.now symbol }
{
    tree.used_by(Node::Val(symbol))
        .any(|node| is_other(symbol, node))
}

/// The same of a symbol that the tree may not have.
fn is_used(tree: &Tree, symbol: SymId) -> bool
    ensures { result ≡ is_used tree.now symbol }
{
    match tree.symbols().get(symbol.0 as usize) {
        Some(_) => has_users(tree, symbol),
        None => false,
    }
}

/// Whether another symbol or a choice is computed from the value of the symbol that the definition of a number defines.
fn is_used_at(tree: &Tree, number: usize) -> bool
    ensures { result ≡ is_used_at tree.now number }
{
    match tree.definitions().get(number) {
        Some(definition) => is_used(tree, definition.symbol()),
        None => false,
    }
}

/// Whether the definition of a number is the first one of a symbol to which no line gives a value, and from which
/// something is computed.
fn is_unset_at(tree: &Tree, number: usize) -> bool
    ensures { result ≡ is_unset_at tree.now number }
{
    match symbol_at(tree, number) {
        Some(symbol) => {
            is_first(number, symbol) && is_never_set(tree, symbol) && is_used_at(tree, number)
        }
        None => false,
    }
}

/// Adds a number, if it is one of them.
pub(crate) fn add_number(
    numbers: &mut Vec<usize>,
    number: usize,
    is_one: bool,
) -> Result<(), AllocError>
    ensures { OnOk result (numbers.new.items ≡ numbers.old.items ++ number_if is_one number) }
{
    if is_one {
        numbers.push(number)?;
    }
    Ok(())
}

/// The first definitions, by their numbers, of the bools and tristates that are always n since no line gives them a value:
/// they have no prompt and no default, are in no choice, and no line selects or implies them. Those from which nothing is
/// computed are passed over (this project's own).
///
/// # Errors
///
/// `AllocError` where memory is refused.
pub fn unset_definitions(alloc: Global, tree: &Tree) -> Result<Vec<usize>, AllocError>
    ensures { IfOk result (λ r. r.items ≡ unset_definitions tree.now) }
{
    let mut unset = Vec::new(alloc);
    for number in 0..tree.definitions().len() {
        add_number(&mut unset, number, is_unset_at(tree, number))?;
    }
    Ok(unset)
}
