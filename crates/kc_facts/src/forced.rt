//! Symbols that are selected for more than their dependencies are worth.

ghost use Rattle.std.specs.Prelude.{◌≡◌, map};
ghost use Rattle.std.specs.List.{list_any};
ghost use Rattle.kc_statement.specs.Tristate.{greatest_of};
ghost use Rattle.kc_value.specs.Known.{given};
ghost use Rattle.kc_value.specs.Rule.{direct, reverse_value, reverse_values};
ghost use Rattle.kc_facts.specs.Forced.{is_above, is_beyond, worth};

use kc_outline::{Reverse, Symbol};
use kc_tree::Tri;
use kc_value::{Known, dependency_tri, reverse_value};

/// Whether a value is more than another.
pub(crate) fn is_above(value: Tri, other: Tri) -> bool
    ensures { result ≡ is_above value other }
{
    match (value, other) {
        (Tri::No, _) | (_, Tri::Yes) | (Tri::Module, Tri::Module) => false,
        (Tri::Module | Tri::Yes, Tri::No) | (Tri::Yes, Tri::Module) => true,
    }
}

/// What the dependencies of the definitions of these numbers are worth at most.
pub(crate) fn most_worth(known: &Known<'_>, numbers: &[usize]) -> Tri
    ensures { result ≡ greatest_of (map (worth known.now.tree (given known.now)) numbers.now) }
{
    let mut most = Tri::No;
    for number in numbers {
        most = most.or(dependency_tri(known, *number));
    }
    most
}

/// Whether one of `select` lines gives more than a value.
fn has_above(known: &Known<'_>, lines: &[Reverse], value: Tri) -> bool
    ensures { result ≡ list_any (λ r. is_above (reverse_value known.now.tree (given known.now) r) value) lines.now }
{
    lines
        .iter()
        .any(|line| is_above(reverse_value(known, line), value))
}

/// Whether the `select` lines of a symbol give more than its dependencies are worth.
#[tactic(auto, using(crate::proofs::ForcedLaws::selected_beyond, crate::proofs::ForcedLaws::not_selected))]
fn is_selected_beyond(known: &Known<'_>, symbol: &Symbol) -> bool
    ensures { result
        ≡ is_above (reverse_values known.now.tree (given known.now) symbol.now.selected) (direct known.now.tree (given known.now) symbol.now) }
{
    if !has_above(known, symbol.selected(), Tri::No) {
        return false;
    }
    let most = most_worth(known, symbol.definitions());
    has_above(known, symbol.selected(), most)
}

/// Whether a symbol is selected for more than its dependencies are worth, of several definitions the greatest: a `select`
/// passes over them (kconfig-language.rst, "reverse dependencies"). No `select` gives a member of a choice a value.
pub(crate) fn is_beyond(known: &Known<'_>, symbol: &Symbol) -> bool
    ensures { result ≡ is_beyond known.now.tree (given known.now) symbol.now }
{
    symbol.choice().is_none() && is_selected_beyond(known, symbol)
}
