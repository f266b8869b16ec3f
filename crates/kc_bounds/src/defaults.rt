//! Which values the defaults of a symbol may give it.

ghost use Rattle.std.specs.Prelude.{◌≡◌, option_and_then, slice_get};
ghost use Rattle.kc_statement.specs.declared.tri.Tri.{Tri};
ghost use Rattle.kc_statement.specs.Tristate.{least};
ghost use Rattle.kc_value.specs.ExprValue.{expr_value, own_condition};
ghost use Rattle.kc_value.specs.Rule.{default_value, definition_default};
ghost use Rattle.kc_value.specs.Solution.{solution};
ghost use Rattle.kc_value.specs.UserValues.{UserValues};
ghost use Rattle.kc_bounds.specs.Bounds.{CoversIn, IsScoped};
ghost use Rattle.kc_bounds.specs.Given.{given};
ghost use Rattle.kc_bounds.specs.TriSets.{IsAmong, IsIn};

use crate::conditions::dependency_set;
use crate::expressions::{expr_set, own_condition_set};
use crate::table::ScopedBounds;
use crate::tri_choice::TriChoice;
use crate::tri_set::TriSet;
use kc_tree::{DefaultValue, Symbol, Tri};

/// What a default may give, in a definition whose dependencies have a value of this set.
fn default_choice(bounds: &ScopedBounds<'_>, default: &DefaultValue, depends: TriSet) -> TriChoice
    ensures { (w : UserValues) → IsScoped bounds.now.tree bounds.now.modules w → (v : Tri) → IsIn depends v → IsAmong result
        (given (least (own_condition bounds.now.tree (solution bounds.now.tree w) default.now.condition) v)
        (expr_value bounds.now.tree (solution bounds.now.tree w) default.now.value)) }
{
    let condition = own_condition_set(bounds, default.condition.as_ref()).and(depends);
    TriChoice::given(condition, expr_set(bounds, &default.value))
}

/// What the first active default of the definition of a number may give.
fn definition_choice(bounds: &ScopedBounds<'_>, number: usize) -> TriChoice
    ensures { (w : UserValues) → IsScoped bounds.now.tree bounds.now.modules w → IsAmong result (option_and_then
        (definition_default bounds.now.tree (solution bounds.now.tree w)) (slice_get bounds.now.tree.definitions number)) }
{
    let Some(definition) = bounds.definition(number) else {
        return TriChoice::nothing();
    };
    let depends = dependency_set(bounds, number);
    let mut found = TriChoice::nothing();
    for default in definition.defaults() {
        found = found.or(default_choice(bounds, default, depends));
    }
    found
}

/// Which values the first active default of a symbol may give it, n without one.
pub(crate) fn default_set(bounds: &ScopedBounds<'_>, symbol: &Symbol) -> TriSet
    ensures { CoversIn bounds.now.tree bounds.now.modules result (λ a. default_value bounds.now.tree a symbol.now) }
{
    let mut found = TriChoice::nothing();
    for number in symbol.definitions() {
        found = found.or(definition_choice(bounds, *number));
    }
    found.unwrap_or(TriSet::only(Tri::No))
}
