//! What is said of the symbols that are selected for more than their dependencies are worth.

ghost use Rattle.std.specs.Prelude.{◌≡◌, ◌++◌, IfOk, OnOk, option_to_list, position};
ghost use Rattle.std.specs.Option.{option_copied};
ghost use Rattle.kc_value.specs.Assignable.{same_tri};
ghost use Rattle.kc_value.specs.Assignment.{assignment_of};
ghost use Rattle.kc_value.specs.Known.{given};
ghost use Rattle.kc_value.specs.Solution.{AreSolved};
ghost use Rattle.kc_facts.specs.Forced.{forced_at, forced_by, forced_first, forced_of, forced_symbols, forcing, is_first, nearest, symbol_at, worth};

use crate::forced::{is_above, is_beyond, most_worth};
use crate::view::View;
use kc_outline::{Reverse, Symbol};
use kc_tree::{Tree, Tri};
use kc_value::{Known, dependency_tri, reverse_value};
use std::alloc::{AllocError, Global};

/// A symbol that is selected for more than its dependencies are worth.
#[derive(Clone, Copy, Debug, PartialEq, Eq)]
pub struct Forced {
    /// The number of the first definition of the symbol.
    pub definition: usize,
    /// The first `select` line that gives more, by its number among those that name the symbol.
    pub selection: usize,
    /// The number of the definition whose dependencies are worth most, the first of several.
    pub nearest: usize,
    /// What these are worth.
    pub worth: Tri,
}

/// Whether the dependencies of the definition of a number are worth just this.
#[tactic(auto, using(crate::proofs::ForcedLaws::worth_given))]
fn is_worth(known: &Known<'_>, number: usize, value: Tri) -> bool
    ensures { result ≡ same_tri (worth known.now.tree (given known.now) number) value }
{
    dependency_tri(known, number) == value
}

/// The place, among definitions, of the first one whose dependencies are worth just this.
fn place_worth(known: &Known<'_>, numbers: &[usize], value: Tri) -> Option<usize>
    ensures { result ≡ position (λ n. same_tri (worth known.now.tree (given known.now) n) value) numbers.now }
{
    numbers
        .iter()
        .position(|number| is_worth(known, *number, value))
}

/// Of definitions the first one whose dependencies are worth just this.
fn nearest(known: &Known<'_>, numbers: &[usize], value: Tri) -> Option<usize>
    ensures { result ≡ nearest known.now.tree (given known.now) value numbers.now }
{
    let place = place_worth(known, numbers, value)?;
    numbers.get(place).copied()
}

/// The place of the first of `select` lines that gives more than a value.
fn forcing(known: &Known<'_>, lines: &[Reverse], value: Tri) -> Option<usize>
    ensures { result ≡ forcing known.now.tree (given known.now) value lines.now }
{
    lines
        .iter()
        .position(|line| is_above(reverse_value(known, line), value))
}

/// What is said of a symbol at the definition of a number, if there is a nearest definition, and a `select` line that gives
/// more than this is worth.
fn forced_by(
    definition: usize,
    worth: Tri,
    nearest: Option<usize>,
    selection: Option<usize>,
) -> Option<Forced>
    ensures { result ≡ forced_by definition worth nearest selection }
{
    match (nearest, selection) {
        (Some(nearest), Some(selection)) => Some(Forced {
            definition,
            selection,
            nearest,
            worth,
        }),
        (Some(_), None) => None,
        (None, _) => None,
    }
}

/// What is said of a symbol that is selected for more than its dependencies are worth, at the definition of a number.
fn forced_of(known: &Known<'_>, definition: usize, symbol: &Symbol) -> Option<Forced>
    ensures { result ≡ forced_of known.now.tree (given known.now) definition symbol.now }
{
    let most = most_worth(known, symbol.definitions());
    let near = nearest(known, symbol.definitions(), most);
    let selection = forcing(known, symbol.selected(), most);
    forced_by(definition, most, near, selection)
}

/// Whether the definition of a number is the first one of a symbol.
pub(crate) fn is_first(number: usize, symbol: &Symbol) -> bool
    ensures { result ≡ is_first number symbol.now }
{
    match symbol.definitions().first() {
        Some(first) => *first == number,
        None => false,
    }
}

/// The symbol that the definition of a number defines.
pub(crate) fn symbol_at(tree: &Tree, number: usize) -> Option<&Symbol>
    ensures { option_copied result ≡ symbol_at tree.now number }
{
    let definition = tree.definitions().get(number)?;
    tree.symbols().get(definition.symbol().0 as usize)
}

/// What is said of a symbol at the definition of a number, if it is defined there first, and selected for more than its
/// dependencies are worth.
fn forced_first(known: &Known<'_>, number: usize, symbol: &Symbol) -> Option<Forced>
    ensures { result ≡ forced_first known.now.tree (given known.now) number symbol.now }
{
    if is_first(number, symbol) && is_beyond(known, symbol) {
        forced_of(known, number, symbol)
    } else {
        None
    }
}

/// What is said of the symbol that the definition of a number defines.
fn forced_at(known: &Known<'_>, number: usize) -> Option<Forced>
    ensures { result ≡ forced_at known.now.tree (given known.now) number }
{
    let symbol = symbol_at(known.tree(), number)?;
    forced_first(known, number, symbol)
}

/// Adds what is said of a symbol, if there is something.
fn add_forced(found: &mut Vec<Forced>, forced: Option<Forced>) -> Result<(), AllocError>
    ensures { OnOk result (found.new.items ≡ found.old.items ++ option_to_list forced) }
{
    if let Some(forced) = forced {
        found.push(forced)?;
    }
    Ok(())
}

/// Adds what is said of the symbols over the values of a tree.
fn forced_in(alloc: Global, known: &Known<'_>) -> Result<Vec<Forced>, AllocError>
    ensures { IfOk result (λ r. r.items ≡ forced_symbols known.now.tree (given known.now)) }
{
    let mut found = Vec::new(alloc);
    for number in 0..known.tree().definitions().len() {
        add_forced(&mut found, forced_at(known, number))?;
    }
    Ok(found)
}

/// The symbols that are selected for more than their dependencies are worth, in the order of their first definitions, each
/// with the `select` line that gives more and the definition that comes nearest (kconfig-language.rst, "reverse
/// dependencies").
///
/// # Errors
///
/// `AllocError` where memory is refused.
pub fn forced_symbols(alloc: Global, view: &View<'_>) -> Result<Vec<Forced>, AllocError>
    ensures forced { IfOk result (λ r. r.items
        ≡ forced_symbols view.now.tree (assignment_of view.now.tree view.now.values)) }
    ensures solved { AreSolved view.now.tree view.now.user view.now.values }
{
    let _tree = view.tree();
    forced_in(alloc, view.known())
}
