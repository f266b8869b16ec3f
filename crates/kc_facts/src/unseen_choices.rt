//! Choices that are never visible.

ghost use Rattle.std.specs.Prelude.{◌≡◌, false, IfOk};
ghost use Rattle.std.specs.List.{list_any};
ghost use Rattle.std.specs.Option.{option_map_or};
ghost use Rattle.kc_statement.specs.Grammar.{lone_term};
ghost use Rattle.kc_value.specs.Factors.{part_of};
ghost use Rattle.kc_facts.specs.HiddenChoices.{hidden_choices, is_hidden, is_hidden_number, is_never, is_never_met};

use crate::unset_symbols::add_number;
use crate::view::View;
use kc_statement::{Term, lone_term};
use kc_tree::{ChoiceId, Expr, Tri};
use kc_value::{Factor, FactorPart, Known, choice_factors};
use std::alloc::{AllocError, Global};

/// Whether a term is n as a condition, whatever the values of symbols are.
fn is_never(term: &Term) -> bool
    ensures { result ≡ is_never term.now }
{
    match term {
        Term::Tri(value) => matches!(value, Tri::No),
        Term::Undefined(_) => true,
        Term::Text(_) => false,
        Term::Symbol(_) => false,
    }
}

/// Whether an expression is such a term.
fn is_never_expr(expr: &Expr) -> bool
    ensures { result ≡ option_map_or is_never (lone_term expr.now) false }
{
    match lone_term(expr) {
        Some(term) => is_never(term),
        None => false,
    }
}

/// Whether a factor of a condition is never met.
fn is_never_met(factor: &Factor<'_>) -> bool
    ensures { result ≡ is_never_met (part_of factor.now.part) }
{
    match factor.part {
        FactorPart::Expression(expr) => is_never_expr(expr),
        FactorPart::Mode(_) => false,
        FactorPart::Missing => false,
    }
}

/// Whether one of the factors of a condition is never met.
fn never_hold(factors: &[Factor<'_>]) -> bool
    ensures { result ≡ list_any (λ f. is_never_met (part_of f.part)) factors.now }
{
    factors.iter().any(|factor| is_never_met(factor))
}

/// Whether the condition of the prompt of a choice never holds.
#[tactic(auto, using(crate::proofs::HiddenLaws::hidden_by))]
fn is_hidden(alloc: Global, known: &Known<'_>, choice: ChoiceId) -> Result<bool, AllocError>
    ensures { IfOk result (λ is. is ≡ is_hidden known.now.tree choice) }
{
    let factors = choice_factors(alloc, known, choice)?;
    Ok(never_hold(factors.as_slice()))
}

/// The choices, by their numbers, that are never visible, whatever the user values are: a part of the condition of the
/// prompt is n alone, or a name that no line defines (docs/VALUES.md, "Mode and selection"). No member of such a choice is
/// selected, so its defaults have no effect.
///
/// # Errors
///
/// `AllocError` where memory is refused.
pub fn hidden_choices(alloc: Global, view: &View<'_>) -> Result<Vec<usize>, AllocError>
    ensures { IfOk result (λ r. r.items ≡ hidden_choices view.now.tree) }
{
    let known = view.known();
    let choices = view.tree().choices();
    let mut hidden = Vec::new(alloc);
    for number in 0..choices.len() {
        let is_one = is_hidden(alloc, known, ChoiceId(number as u32))?;
        add_number(&mut hidden, number, is_one)?;
    }
    Ok(hidden)
}
