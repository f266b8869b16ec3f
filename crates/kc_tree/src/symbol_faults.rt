//! What is wrong with a symbol.

ghost use Rattle.std.specs.Prelude.{◌≡◌, false, not, slice_get, IsTrue};
ghost use Rattle.std.specs.List.{list_any};
ghost use Rattle.std.specs.Option.{option_map_or};
ghost use Rattle.kc_outline.specs.TreeValue.{same_type};
ghost use Rattle.kc_tree.specs.SymbolFaults.{begins_as_number, has_any_problem, has_problem, has_two_prompts, has_types, has_unfit, has_unfit_default, has_unfit_select, is_bad_modules, is_prompted_again, is_unfit_default, is_unfit_range, is_unfit_term, AreSymbolsFaultless};

use crate::problem::SymbolProblem;
use kc_outline::{Outline, Symbol};
use kc_statement::{DefaultValue, Range, SymbolType, Term, lone_term, numeral};

/// Whether the definition of a number has two prompts or more (K14), which kconfig-language.rst, "input prompt", allows no
/// menu entry. There is no such definition past the last.
pub fn is_prompted_again(outline: &Outline, definition: usize) -> bool
    ensures { result ≡ option_map_or is_prompted_again (slice_get outline.now.definitions definition) false }
{
    match outline.definitions().get(definition) {
        Some(definition) => definition.prompts().len() > 1,
        None => false,
    }
}

/// Whether one of a symbol's definitions has two prompts or more.
fn has_two_prompts(outline: &Outline, symbol: &Symbol) -> bool
    ensures { result ≡ has_two_prompts outline.now symbol.now }
{
    for definition in symbol.definitions() {
        if is_prompted_again(outline, *definition) {
            return true;
        }
    }
    false
}

/// Whether two types differ, as no two of a symbol may (K13; kconfig-language.rst, "type definition").
pub fn differ(kind: SymbolType, other: SymbolType) -> bool
    ensures { result ≡ not (same_type kind other) }
{
    kind != other
}

/// Whether a line gives a symbol another type than the first.
fn has_types(symbol: &Symbol) -> bool
    ensures { result ≡ has_types symbol.now }
{
    let kind = symbol.kind();
    symbol.types().iter().any(|given| differ(kind, *given))
}

/// Whether a text is empty or begins as a number does.
fn begins_as_number(text: &str) -> bool
    ensures { result ≡ begins_as_number text.now }
{
    match text.as_bytes().first() {
        Some(first) => first.is_ascii_digit() || *first == b'-',
        None => true,
    }
}

/// Whether a term is no numeral of a type, int or hex, and should be one (K15): a text in quotes, or a word that nothing
/// defines and that is empty or begins as a number does (kconfig-language.rst, "type definition").
pub fn is_unfit_term(kind: SymbolType, term: &Term) -> bool
    ensures { result ≡ is_unfit_term kind term.now }
{
    match term {
        Term::Text(text) => numeral(kind, text.as_str()).is_none(),
        Term::Undefined(word) => {
            begins_as_number(word.as_str()) && numeral(kind, word.as_str()).is_none()
        }
        Term::Tri(_) | Term::Symbol(_) => false,
    }
}

/// Whether a default does not fit a type (K15): a string, an int and a hex take one term, and an int and a hex a numeral
/// (kconfig-language.rst, "default value").
pub fn is_unfit_default(kind: SymbolType, default: &DefaultValue) -> bool
    ensures { result ≡ is_unfit_default kind default.now }
{
    if kind.is_tri() {
        return false;
    }
    match lone_term(&default.value) {
        None => true,
        Some(term) => kind != SymbolType::String && is_unfit_term(kind, term),
    }
}

/// Whether a range does not fit a type (K15): only an int and a hex have ranges, of numerals (kconfig-language.rst,
/// "numerical ranges").
pub fn is_unfit_range(kind: SymbolType, range: &Range) -> bool
    ensures { result ≡ is_unfit_range kind range.now }
{
    match kind {
        SymbolType::Int | SymbolType::Hex => {
            is_unfit_term(kind, &range.low) || is_unfit_term(kind, &range.high)
        }
        SymbolType::Bool | SymbolType::Tristate | SymbolType::String => true,
    }
}

/// Whether one of some defaults does not fit a type.
fn has_unfit_value(kind: SymbolType, defaults: &[DefaultValue]) -> bool
    ensures { result ≡ list_any (is_unfit_default kind) defaults.now }
{
    defaults
        .iter()
        .any(|default| is_unfit_default(kind, default))
}

/// Whether one of some ranges does not fit a type.
fn has_unfit_range(kind: SymbolType, ranges: &[Range]) -> bool
    ensures { result ≡ list_any (is_unfit_range kind) ranges.now }
{
    ranges.iter().any(|range| is_unfit_range(kind, range))
}

/// Whether the definition of a number has a default or a range that does not fit a type (K15). There is no such definition
/// past the last.
pub fn has_unfit(outline: &Outline, kind: SymbolType, definition: usize) -> bool
    ensures { result ≡ option_map_or (has_unfit kind) (slice_get outline.now.definitions definition) false }
{
    match outline.definitions().get(definition) {
        Some(definition) => {
            has_unfit_value(kind, definition.defaults())
                || has_unfit_range(kind, definition.ranges())
        }
        None => false,
    }
}

/// Whether a default or a range of a symbol does not fit its type.
fn has_unfit_default(outline: &Outline, symbol: &Symbol) -> bool
    ensures { result ≡ has_unfit_default outline.now symbol.now }
{
    let kind = symbol.kind();
    for definition in symbol.definitions() {
        if has_unfit(outline, kind, *definition) {
            return true;
        }
    }
    false
}

/// Whether a symbol that is no bool and no tristate selects or implies, or is selected or implied.
fn has_unfit_select(symbol: &Symbol) -> bool
    ensures { result ≡ has_unfit_select symbol.now }
{
    !symbol.kind().is_tri()
        && (symbol.has_selections()
            || !symbol.selected().is_empty()
            || !symbol.implied().is_empty())
}

/// Whether the symbol is `MODULES` and no bool, or another one with `modules`. Few symbols need a look at their name.
fn is_bad_modules(outline: &Outline, number: usize, symbol: &Symbol) -> bool
    ensures { result ≡ is_bad_modules outline.now (record { 0 = number }) symbol.now }
{
    if matches!(symbol.kind(), SymbolType::Bool) {
        symbol.has_modules() && outline.names().get(number) != "MODULES"
    } else {
        symbol.has_modules() || outline.names().get(number) == "MODULES"
    }
}

/// Whether the symbol of a number has a problem of the kinds that symbols have.
#[inline(always)]
pub(crate) fn has_problem(outline: &Outline, problem: SymbolProblem, number: usize) -> bool
    ensures { result ≡ has_problem outline.now problem number }
{
    let Some(symbol) = outline.symbols().get(number) else {
        return false;
    };
    match problem {
        SymbolProblem::NoType => !symbol.has_type() && symbol.choice().is_none(),
        SymbolProblem::TypeConflict => has_types(symbol),
        SymbolProblem::SecondPrompt => has_two_prompts(outline, symbol),
        SymbolProblem::UnfitDefault => has_unfit_default(outline, symbol),
        SymbolProblem::UnfitSelect => has_unfit_select(symbol),
        SymbolProblem::BadModules => is_bad_modules(outline, number, symbol),
    }
}

/// Whether the symbol of a number has any problem of the kinds that symbols have.
fn has_any_problem(outline: &Outline, number: usize) -> bool
    ensures { result ≡ has_any_problem outline.now number }
{
    has_problem(outline, SymbolProblem::NoType, number)
        || has_problem(outline, SymbolProblem::TypeConflict, number)
        || has_problem(outline, SymbolProblem::SecondPrompt, number)
        || has_problem(outline, SymbolProblem::UnfitDefault, number)
        || has_problem(outline, SymbolProblem::UnfitSelect, number)
        || has_problem(outline, SymbolProblem::BadModules, number)
}

/// Whether no symbol has a problem: one walk over all symbols, where a walk for each kind finds them.
pub(crate) fn are_symbols_faultless(outline: &Outline) -> bool
    ensures { IsTrue result → AreSymbolsFaultless outline.now }
{
    let count = outline.symbols().len();
    for number in 0..count {
        if has_any_problem(outline, number) {
            return false;
        }
    }
    true
}
