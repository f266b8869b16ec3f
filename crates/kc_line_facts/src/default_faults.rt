//! Defaults that are likely mistakes.

ghost use Rattle.std.specs.Prelude.{◌≡◌, ◌++◌, IfOk, OnOk};
ghost use Rattle.std.specs.Option.{option_copied};
ghost use Rattle.kc_lines.specs.Defaults.{is_digits};
ghost use Rattle.kc_line_facts.specs.FaultyDefaults.{default_fault, faulty_at, faulty_defaults, faulty_of, is_past_range, is_read_as_no, range_of, term_fault};

use crate::ranges::{certain_range, has_exchanged_sides, is_outside};
use kc_lines::{is_unread_text, meant_tri};
use kc_statement::{DefaultValue, Range, SymbolType, Term, lone_term};
use kc_tree::{Definition, SymId, Tree};
use std::alloc::{AllocError, Global};

/// What is wrong with a default (this project's own).
#[derive(Clone, Copy, Debug, PartialEq, Eq)]
pub enum DefaultFault {
    /// It is that of a member of a choice, which passes it over (docs/VALUES.md, "Choices").
    OfMember,
    /// A bool or a tristate reads it as n, though it is likely meant as a constant.
    ReadAsNo,
    /// It is a number outside the range that bounds its symbol, whatever the conditions are.
    Outside,
}

/// A default with what is wrong with it, by the number of its definition and its place there.
#[derive(Clone, Copy, Debug, PartialEq, Eq)]
pub struct FaultyDefault {
    pub definition: usize,
    pub place: usize,
    pub fault: DefaultFault,
}

/// Whether a word has digits alone.
pub(crate) fn is_digits(word: &str) -> bool
    ensures { result ≡ is_digits word.now }
{
    word.bytes().all(|byte| byte.is_ascii_digit())
}

/// Whether a bool or a tristate of a type reads a term as n, though it is likely meant as a constant.
fn is_read_as_no(kind: SymbolType, term: &Term) -> bool
    ensures { result ≡ is_read_as_no kind term.now }
{
    match term {
        Term::Text(_) => is_unread_text(kind, term),
        Term::Undefined(word) => meant_tri(word.as_str()).is_some() || is_digits(word.as_str()),
        Term::Tri(_) => false,
        Term::Symbol(_) => false,
    }
}

/// The range that bounds the values that the definition of a number gives a symbol whenever it gives one.
pub fn range_of(tree: &Tree, symbol: SymId, number: usize) -> Option<&Range>
    ensures { option_copied result ≡ range_of tree.now symbol number }
{
    let symbol = tree.symbols().get(symbol.0 as usize)?;
    certain_range(tree, symbol.definitions(), number)
}

/// Whether a term is a number outside the range that bounds what the definition of a number gives a symbol, and the sides
/// of that range are not exchanged.
fn is_past_range(tree: &Tree, symbol: SymId, number: usize, kind: SymbolType, term: &Term) -> bool
    ensures { result ≡ is_past_range tree.now symbol number kind term.now }
{
    match range_of(tree, symbol, number) {
        Some(range) => is_outside(kind, range, term) && !has_exchanged_sides(kind, range),
        None => false,
    }
}

/// What is wrong with a default that is one term, in the definition of a number, by the type of its symbol.
fn term_fault(
    tree: &Tree,
    symbol: SymId,
    number: usize,
    kind: SymbolType,
    term: &Term,
) -> Option<DefaultFault>
    ensures { result ≡ term_fault tree.now symbol number kind term.now }
{
    match kind {
        SymbolType::Bool | SymbolType::Tristate => {
            is_read_as_no(kind, term).then_some(DefaultFault::ReadAsNo)
        }
        SymbolType::Int | SymbolType::Hex => {
            is_past_range(tree, symbol, number, kind, term).then_some(DefaultFault::Outside)
        }
        SymbolType::String => None,
    }
}

/// What is wrong with a default in the definition of a number, which defines a symbol.
fn default_fault(
    tree: &Tree,
    number: usize,
    symbol: SymId,
    default: &DefaultValue,
) -> Option<DefaultFault>
    ensures { result ≡ default_fault tree.now number symbol default.now }
{
    if tree.choice_of(symbol).is_some() {
        return Some(DefaultFault::OfMember);
    }
    let term = lone_term(&default.value)?;
    term_fault(tree, symbol, number, tree.symbol_type(symbol), term)
}

/// Adds a default at a place in a definition, if something is wrong with it.
fn add_fault(
    found: &mut Vec<FaultyDefault>,
    definition: usize,
    place: usize,
    fault: Option<DefaultFault>,
) -> Result<(), AllocError>
    ensures { OnOk result (found.new.items ≡ found.old.items ++ faulty_at definition place fault) }
{
    if let Some(fault) = fault {
        found.push(FaultyDefault {
            definition,
            place,
            fault,
        })?;
    }
    Ok(())
}

/// Adds the faulty defaults of the definition of a number.
fn add_faulty(
    found: &mut Vec<FaultyDefault>,
    tree: &Tree,
    number: usize,
    definition: &Definition,
) -> Result<(), AllocError>
    ensures { OnOk result (found.new.items ≡ found.old.items ++ faulty_of tree.now number definition.now) }
{
    let symbol = definition.symbol();
    for (place, default) in definition.defaults().iter().enumerate() {
        let fault = default_fault(tree, number, symbol, default);
        add_fault(found, number, place, fault)?;
    }
    Ok(())
}

/// The defaults of a tree that are likely mistakes, in their order: those of members of choices, those that a bool or a
/// tristate reads as n, and numbers outside the range of their symbol (kconfig-language.rst, "default value", "numerical
/// ranges").
///
/// # Errors
///
/// `AllocError` where memory is refused.
pub fn faulty_defaults(alloc: Global, tree: &Tree) -> Result<Vec<FaultyDefault>, AllocError>
    ensures { IfOk result (λ r. r.items ≡ faulty_defaults tree.now) }
{
    let mut found = Vec::new(alloc);
    for (number, definition) in tree.definitions().iter().enumerate() {
        add_faulty(&mut found, tree, number, definition)?;
    }
    Ok(found)
}
