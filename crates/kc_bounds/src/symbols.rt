//! Which values the visibility and the value of a symbol may have.

ghost use Rattle.std.specs.Prelude.{◌≡◌, Option, map};
ghost use Rattle.kc_statement.specs.declared.tri.Tri.{Tri};
ghost use Rattle.kc_statement.specs.Tristate.{greatest_of};
ghost use Rattle.kc_outline.specs.TreeValue.{definitions_of};
ghost use Rattle.kc_tree.specs.declared.user_value.UserVal.{UserVal};
ghost use Rattle.kc_value.specs.Conditions.{prompt_value};
ghost use Rattle.kc_value.specs.Rule.{direct, has_modules, in_type, reverse_value, reverse_values, shown_value, visibility};
ghost use Rattle.kc_value.specs.Solution.{solution};
ghost use Rattle.kc_value.specs.UserValues.{UserValues};
ghost use Rattle.kc_bounds.specs.Bounds.{CoversIn, IsScoped};
ghost use Rattle.kc_bounds.specs.TriSets.{IsIn};

use crate::conditions::{dependency_set, mode_around, prompt_set};
use crate::defaults::default_set;
use crate::expressions::{modules_set, own_condition_set, symbol_set};
use crate::table::ScopedBounds;
use crate::tri_choice::TriChoice;
use crate::tri_set::TriSet;
use kc_tree::{Reverse, Symbol, SymbolType, Tri};

/// The values of a set as a symbol can have them: m is y unless the symbol is a tristate and `MODULES` is not n.
fn in_type(bounds: &ScopedBounds<'_>, symbol: &Symbol, set: TriSet) -> TriSet
    ensures { (w : UserValues) → IsScoped bounds.now.tree bounds.now.modules w → (v : Tri) → IsIn set v
        → IsIn result (in_type (has_modules bounds.now.tree (solution bounds.now.tree w) symbol.now) v) }
{
    match symbol.kind() {
        SymbolType::Bool | SymbolType::String | SymbolType::Int | SymbolType::Hex => set.in_bool(),
        SymbolType::Tristate => set.in_tristate(modules_set(bounds)),
    }
}

/// Which values the greatest condition of the prompts of a symbol may have.
fn prompts_set(bounds: &ScopedBounds<'_>, symbol: &Symbol) -> TriSet
    ensures { CoversIn bounds.now.tree bounds.now.modules result
        (λ a. greatest_of (map (prompt_value bounds.now.tree a) (definitions_of bounds.now.tree symbol.now))) }
{
    let mut greatest = TriSet::only(Tri::No);
    for number in symbol.definitions() {
        greatest = greatest.or(prompt_set(bounds, *number));
    }
    greatest
}

/// Which values the visibility of a symbol may have.
pub(crate) fn visibility_set(bounds: &ScopedBounds<'_>, symbol: &Symbol) -> TriSet
    ensures { CoversIn bounds.now.tree bounds.now.modules result (λ a. visibility bounds.now.tree a symbol.now) }
{
    let within = prompts_set(bounds, symbol).and(mode_around(bounds, symbol.choice()));
    in_type(bounds, symbol, within)
}

/// Which values the greatest of the dependencies of a symbol's definitions may have.
fn direct_set(bounds: &ScopedBounds<'_>, symbol: &Symbol) -> TriSet
    ensures { CoversIn bounds.now.tree bounds.now.modules result (λ a. direct bounds.now.tree a symbol.now) }
{
    let mut greatest = TriSet::only(Tri::No);
    for number in symbol.definitions() {
        greatest = greatest.or(dependency_set(bounds, *number));
    }
    greatest
}

/// Which values a `select` or an `imply` may give.
fn reverse_set(bounds: &ScopedBounds<'_>, reverse: &Reverse) -> TriSet
    ensures { CoversIn bounds.now.tree bounds.now.modules result (λ a. reverse_value bounds.now.tree a reverse.now) }
{
    let own = own_condition_set(bounds, reverse.condition.as_ref());
    let condition = own.and(dependency_set(bounds, reverse.definition));
    symbol_set(bounds, reverse.by).and(condition)
}

/// Which values the greatest that some `select` or `imply` lines give may have.
fn reverses_set(bounds: &ScopedBounds<'_>, reverses: &[Reverse]) -> TriSet
    ensures { CoversIn bounds.now.tree bounds.now.modules result (λ a. reverse_values bounds.now.tree a reverses.now) }
{
    let mut greatest = TriSet::only(Tri::No);
    for reverse in reverses {
        greatest = greatest.or(reverse_set(bounds, reverse));
    }
    greatest
}

/// Which values a bool or a tristate symbol may show, whose visibility has a value of this set, whatever the user gives
/// it: all up to the visibility, else its default or what is implied, within its dependencies; and at least what is
/// selected.
pub(crate) fn shown_set(bounds: &ScopedBounds<'_>, symbol: &Symbol, visibility: TriSet) -> TriSet
    ensures { (w : UserValues) → IsScoped bounds.now.tree bounds.now.modules w → (v : Tri) (u : Option UserVal) → IsIn visibility v
        → IsIn result (shown_value bounds.now.tree (solution bounds.now.tree w) symbol.now v u) }
{
    let implied = reverses_set(bounds, symbol.implied());
    let otherwise = default_set(bounds, symbol)
        .or(implied)
        .and(direct_set(bounds, symbol));
    let base = TriChoice::of_user(visibility).unwrap_or(otherwise);
    let selected = reverses_set(bounds, symbol.selected());
    in_type(bounds, symbol, base.or(selected))
}
