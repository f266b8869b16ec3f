//! The parts that make a fault of a symbol.

ghost use Rattle.std.specs.Prelude.{◌≡◌, IfOk, codes, not, option_map, option_to_list, position, slice_get};
ghost use Rattle.std.specs.Str.{bytes_eq};
ghost use Rattle.kc_outline.specs.TreeValue.{kind_of, name_of, same_type};
ghost use Rattle.kc_tree.specs.SymbolFaults.{is_unfit_default, is_unfit_range};
ghost use Rattle.kc_lines.specs.Culprits.{culprits_of, has_unfit_at, is_prompted_again_at, modules_attribute, other_type, reverse_part, second_prompt, selection, symbol_culprits, two_prompts, unfit_at, unfit_of, unfit_value};

use crate::culprits::{definitions, first_part, nth_part, pair};
use crate::line_index::LineIndex;
use crate::parts::{Attribute, Family, Part};
use kc_outline::{Definition, Outline, Reverse, Symbol};
use kc_statement::{DefaultValue, Range, SymId, SymbolType};
use kc_tree::{
    SymbolProblem, differ, has_unfit, is_prompted_again, is_unfit_default, is_unfit_range,
};
use std::alloc::{AllocError, Global};

/// The place of the first type of a symbol that is another than its first.
fn other_place(symbol: &Symbol) -> Option<usize>
    ensures { result ≡ position (λ k. not (same_type (kind_of symbol.now) k)) symbol.now.types }
{
    let kind = symbol.kind();
    symbol.types().iter().position(|given| differ(kind, *given))
}

/// The first type of a symbol that is another than its first.
fn other_type(index: &LineIndex<'_, '_>, symbol: &Symbol) -> Option<Part>
    ensures { result ≡ other_type index.now symbol.now }
{
    let place = other_place(symbol)?;
    nth_part(index, Attribute::Type, symbol, place)
}

/// The place of the first definition, by its number, that has two prompts.
fn place_prompted_again(outline: &Outline, numbers: &[usize]) -> Option<usize>
    ensures { result ≡ position (is_prompted_again_at outline.now) numbers.now }
{
    numbers
        .iter()
        .position(|number| is_prompted_again(outline, *number))
}

/// The first two prompts of the definition of a number.
///
/// The error comes where memory is refused.
fn two_prompts(alloc: Global, definition: usize) -> Result<Vec<Part>, AllocError>
    ensures { IfOk result (λ parts. parts.items ≡ two_prompts definition) }
{
    let family = Family::Definition;
    let first = Part::Said(family, definition, Attribute::Prompt, 0);
    let second = Part::Said(family, definition, Attribute::Prompt, 1);
    pair(alloc, Some(first), Some(second))
}

/// The first two prompts of the first definition of a symbol that has two.
///
/// The error comes where memory is refused.
fn second_prompt(alloc: Global, outline: &Outline, symbol: &Symbol) -> Result<Vec<Part>, AllocError>
    ensures { IfOk result (λ parts. parts.items ≡ second_prompt outline.now symbol.now) }
{
    let numbers = symbol.definitions();
    let Some(place) = place_prompted_again(outline, numbers) else {
        return Ok(Vec::new(alloc));
    };
    match numbers.get(place) {
        Some(definition) => two_prompts(alloc, *definition),
        None => Ok(Vec::new(alloc)),
    }
}

/// The place of the first default that does not fit a type.
fn unfit_default(kind: SymbolType, defaults: &[DefaultValue]) -> Option<usize>
    ensures { result ≡ position (is_unfit_default kind) defaults.now }
{
    defaults
        .iter()
        .position(|default| is_unfit_default(kind, default))
}

/// The place of the first range that does not fit a type.
fn unfit_range(kind: SymbolType, ranges: &[Range]) -> Option<usize>
    ensures { result ≡ position (is_unfit_range kind) ranges.now }
{
    ranges.iter().position(|range| is_unfit_range(kind, range))
}

/// The first default of a definition, by its number, that does not fit a type, else its first range.
fn unfit_of(kind: SymbolType, number: usize, definition: &Definition) -> Option<Part>
    ensures { result ≡ unfit_of kind number definition.now }
{
    let family = Family::Definition;
    match unfit_default(kind, definition.defaults()) {
        Some(place) => Some(Part::Said(family, number, Attribute::Default, place)),
        None => {
            let place = unfit_range(kind, definition.ranges())?;
            Some(Part::Said(family, number, Attribute::Range, place))
        }
    }
}

/// The first default or range of the definition of a number that does not fit a type.
fn unfit_at(outline: &Outline, kind: SymbolType, number: usize) -> Option<Part>
    ensures { result ≡ unfit_at outline.now kind number }
{
    let definition = outline.definitions().get(number)?;
    unfit_of(kind, number, definition)
}

/// The place of the first definition, by its number, with a default or a range that does not fit a type.
fn place_unfit(outline: &Outline, kind: SymbolType, numbers: &[usize]) -> Option<usize>
    ensures { result ≡ position (has_unfit_at outline.now kind) numbers.now }
{
    numbers
        .iter()
        .position(|number| has_unfit(outline, kind, *number))
}

/// The first default or range of a symbol that does not fit its type.
fn unfit_value(outline: &Outline, symbol: &Symbol) -> Option<Part>
    ensures { result ≡ unfit_value outline.now symbol.now }
{
    let kind = symbol.kind();
    let numbers = symbol.definitions();
    let place = place_unfit(outline, kind, numbers)?;
    unfit_at(outline, kind, *numbers.get(place)?)
}

/// The first of the `select` or of the `imply` lines that name a symbol.
fn first_reverse(attribute: Attribute, lines: &[Reverse]) -> Option<Part>
    ensures { result ≡ option_map (reverse_part attribute) (slice_get lines.now 0) }
{
    let line = lines.first()?;
    let family = Family::Definition;
    Some(Part::Said(family, line.definition, attribute, line.number))
}

/// The first `select` or `imply` line of a symbol, else the first that names it.
fn selection(index: &LineIndex<'_, '_>, symbol: &Symbol) -> Option<Part>
    ensures { result ≡ selection index.now symbol.now }
{
    first_part(index, Attribute::Select, symbol)
        .or(first_part(index, Attribute::Imply, symbol))
        .or(first_reverse(Attribute::Select, symbol.selected()))
        .or(first_reverse(Attribute::Imply, symbol.implied()))
}

/// Whether a symbol is the one that says whether modules are built.
fn is_modules(outline: &Outline, symbol: SymId) -> bool
    ensures { result ≡ bytes_eq (name_of outline.now symbol) (codes "MODULES") }
{
    outline.names().get(symbol.0 as usize) == "MODULES"
}

/// What is bad of MODULES, or of another symbol that has it.
fn modules_attribute(outline: &Outline, symbol: SymId) -> Attribute
    ensures { result ≡ modules_attribute outline.now symbol }
{
    if is_modules(outline, symbol) {
        Attribute::Type
    } else {
        Attribute::Modules
    }
}

/// The parts that make a fault of a symbol (docs/ERRORS.md), by the lines of a Kconfig and what they define. Of several
/// such parts it is the first: of a symbol without type (K12) all definitions; of two types (K13) the first, and the first
/// other one; the first two prompts of the first definition with two (K14); the first default of the first definition where
/// one does not fit, else its first range, with the first type (K15); the first `select` or `imply` of the symbol, else the
/// first that names it, with the first type (K16); and the type of MODULES, or the `modules` of another symbol (K18).
/// There are none where there is no such symbol.
///
/// # Errors
///
/// `AllocError` where memory is refused.
pub fn symbol_culprits(
    alloc: Global,
    index: &LineIndex<'_, '_>,
    outline: &Outline,
    problem: SymbolProblem,
    symbol: SymId,
) -> Result<Vec<Part>, AllocError>
    ensures { IfOk result (λ parts. parts.items ≡ symbol_culprits index.now outline.now problem symbol) }
{
    match outline.symbols().get(symbol.0 as usize) {
        Some(found) => culprits_of(alloc, index, outline, problem, symbol, found),
        None => Ok(Vec::new(alloc)),
    }
}

/// Those of a symbol that there is.
///
/// The error comes where memory is refused.
fn culprits_of(
    alloc: Global,
    index: &LineIndex<'_, '_>,
    outline: &Outline,
    problem: SymbolProblem,
    number: SymId,
    symbol: &Symbol,
) -> Result<Vec<Part>, AllocError>
    ensures { IfOk result (λ parts. parts.items ≡ culprits_of index.now outline.now problem number symbol.now) }
{
    let kind = first_part(index, Attribute::Type, symbol);
    match problem {
        SymbolProblem::NoType => definitions(alloc, symbol.definitions()),
        SymbolProblem::TypeConflict => pair(alloc, kind, other_type(index, symbol)),
        SymbolProblem::SecondPrompt => second_prompt(alloc, outline, symbol),
        SymbolProblem::UnfitDefault => pair(alloc, unfit_value(outline, symbol), kind),
        SymbolProblem::UnfitSelect => pair(alloc, selection(index, symbol), kind),
        SymbolProblem::BadModules => {
            let attribute = modules_attribute(outline, number);
            pair(alloc, first_part(index, attribute, symbol), None)
        }
    }
}
