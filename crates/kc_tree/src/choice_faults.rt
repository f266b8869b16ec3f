//! What is wrong with a choice.

ghost use Rattle.std.specs.Prelude.{◌≡◌, ◌<◌, ◌^◌, false, is_some, not, slice_get};
ghost use Rattle.std.specs.List.{list_any};
ghost use Rattle.std.specs.Option.{option_map_or};
ghost use Rattle.kc_outline.specs.TreeValue.{choice_of, prompt_of};
ghost use Rattle.kc_tree.specs.ChoiceFaults.{choice_problem, has_prompt, is_member, is_of_other_type, lacks_prompt, is_defined_again, member_problem, problem_at, symbol_has};

use crate::problem::ChoiceProblem;
use kc_outline::{Choice, ChoiceDefault, ChoiceId, Outline, Symbol};
use kc_statement::{SymId, SymbolType};

/// The choice that a symbol is a member of.
fn choice_of(outline: &Outline, symbol: SymId) -> Option<ChoiceId>
    ensures { result ≡ choice_of outline.now symbol }
{
    let symbol = outline.symbols().get(symbol.0 as usize)?;
    symbol.choice()
}

/// Whether the name of a default of a choice is that of one of its members (kconfig-language.rst, "choices"). A symbol that
/// is in two choices is a member of the first.
pub fn is_member(outline: &Outline, choice: ChoiceId, symbol: Option<SymId>) -> bool
    ensures { result ≡ is_member outline.now choice symbol }
{
    match symbol {
        Some(symbol) => choice_of(outline, symbol).is_some_and(|own| own == choice),
        None => false,
    }
}

/// Whether a definition by number has a prompt.
fn is_prompted(outline: &Outline, definition: usize) -> bool
    ensures { result ≡ option_map_or (λ d. is_some (prompt_of d)) (slice_get outline.now.definitions definition) false }
{
    match outline.definitions().get(definition) {
        Some(definition) => definition.prompt().is_some(),
        None => false,
    }
}

/// Whether one of a symbol's definitions has a prompt.
fn has_prompt(outline: &Outline, symbol: &Symbol) -> bool
    ensures { result ≡ has_prompt outline.now symbol.now }
{
    for definition in symbol.definitions() {
        if is_prompted(outline, *definition) {
            return true;
        }
    }
    false
}

/// Whether the symbol of a number is no bool, which a member of a choice has to be (kconfig-language.rst, "choices").
pub fn is_of_other_type(outline: &Outline, symbol: SymId) -> bool
    ensures { result ≡ symbol_has outline.now is_of_other_type symbol }
{
    match outline.symbols().get(symbol.0 as usize) {
        Some(symbol) => !matches!(symbol.kind(), SymbolType::Bool),
        None => false,
    }
}

/// Whether no definition of the symbol of a number has a prompt, which a member of a choice needs (kconfig-language.rst,
/// "choices").
pub fn lacks_prompt(outline: &Outline, symbol: SymId) -> bool
    ensures { result ≡ symbol_has outline.now lacks_prompt symbol }
{
    match outline.symbols().get(symbol.0 as usize) {
        Some(symbol) => !has_prompt(outline, symbol),
        None => false,
    }
}

/// Whether the symbol of a number has another count of definitions than one, which a member of a choice may not have
/// (kconfig-language.rst, "choices").
pub fn is_defined_again(outline: &Outline, symbol: SymId) -> bool
    ensures { result ≡ symbol_has outline.now is_defined_again symbol }
{
    match outline.symbols().get(symbol.0 as usize) {
        Some(symbol) => symbol.definitions().len() != 1,
        None => false,
    }
}

/// Whether one of some defaults names no member.
fn has_foreign_default(outline: &Outline, choice: ChoiceId, defaults: &[ChoiceDefault]) -> bool
    ensures { result ≡ list_any (λ d. not (is_member outline.now choice d.symbol)) defaults.now }
{
    defaults
        .iter()
        .any(|default| !is_member(outline, choice, default.symbol))
}

/// Whether one of some members is no bool.
fn has_other_type(outline: &Outline, members: &[SymId]) -> bool
    ensures { result ≡ list_any (symbol_has outline.now is_of_other_type) members.now }
{
    members
        .iter()
        .any(|member| is_of_other_type(outline, *member))
}

/// Whether one of some members has no prompt.
fn has_no_prompt(outline: &Outline, members: &[SymId]) -> bool
    ensures { result ≡ list_any (symbol_has outline.now lacks_prompt) members.now }
{
    members.iter().any(|member| lacks_prompt(outline, *member))
}

/// Whether one of some members is defined again.
fn has_other_definition(outline: &Outline, members: &[SymId]) -> bool
    ensures { result ≡ list_any (symbol_has outline.now is_defined_again) members.now }
{
    members
        .iter()
        .any(|member| is_defined_again(outline, *member))
}

/// The first problem of the members of a choice, where each is sought among all members before the next.
fn member_problem(outline: &Outline, members: &[SymId]) -> Option<ChoiceProblem>
    ensures { result ≡ member_problem outline.now members.now }
{
    if has_other_type(outline, members) {
        Some(ChoiceProblem::MemberType)
    } else if has_no_prompt(outline, members) {
        Some(ChoiceProblem::MemberWithoutPrompt)
    } else if has_other_definition(outline, members) {
        Some(ChoiceProblem::MemberDefinedAgain)
    } else {
        None
    }
}

/// The first problem of a choice of a number, if it has one.
fn problem_of(outline: &Outline, id: ChoiceId, choice: &Choice) -> Option<ChoiceProblem>
    ensures { result ≡ choice_problem outline.now id choice.now }
{
    if choice.prompt().is_none() {
        Some(ChoiceProblem::NoPrompt)
    } else if choice.prompts().len() > 1 {
        Some(ChoiceProblem::SecondPrompt)
    } else if has_foreign_default(outline, id, choice.defaults()) {
        Some(ChoiceProblem::ForeignDefault)
    } else {
        member_problem(outline, choice.members())
    }
}

/// The problem of the choice of a number, if there is such a choice and it has one.
pub(crate) fn problem_at(outline: &Outline, number: usize) -> Option<ChoiceProblem>
    requires { number < 2 ^ 32 }
    ensures { result ≡ problem_at outline.now number }
{
    let choice = outline.choices().get(number)?;
    problem_of(outline, ChoiceId(number as u32), choice)
}
