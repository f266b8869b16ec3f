//! The parts of conditions that are below a value.

ghost use Rattle.std.specs.Prelude.{◌≡◌, IfSome, option_map};
ghost use Rattle.kc_value.specs.declared.factors.Origin.TheVariants.{Condition};
ghost use Rattle.kc_value.specs.Assignment.{assignment_of};
ghost use Rattle.kc_value.specs.Factors.{judged, judged_expression};
ghost use Rattle.kc_facts.specs.WhyRows.{choice_if};

use crate::view::View;
use kc_statement::ExprNode;
use kc_tree::{ChoiceId, Expr, Tri};
use kc_value::{Factor, FactorPart, Origin, tri};
use std::alloc::{AllocError, Global};

/// Whether a value is below another one.
pub(crate) fn is_below(value: Tri, bound: Tri) -> bool {
    value.or(bound) != value
}

/// The condition that the prompt of a choice has after `if`, which is all of the condition of that prompt that a member of
/// the choice has no factor for.
pub fn choice_condition<'s>(view: &View<'s>, choice: ChoiceId) -> Option<Factor<'s>>
    ensures judged { option_map judged result
        ≡ option_map (judged_expression view.now.tree (assignment_of view.now.tree view.now.values)) (choice_if view.now.tree choice) }
    ensures origin { IfSome result (λ f. f.origin ≡ Condition) }
{
    let prompt = view.tree().choices().get(choice.0 as usize)?.prompt()?;
    let condition = prompt.condition.as_ref()?;
    Some(Factor {
        part: FactorPart::Expression(condition),
        origin: Origin::Condition,
        value: tri(view.known(), condition),
    })
}

/// Whether a choice is optional, and the user chose none of its members.
pub fn is_unchosen(view: &View<'_>, choice: ChoiceId) -> bool {
    match view.tree().choices().get(choice.0 as usize) {
        Some(found) => found.is_optional() && view.user().chosen(choice).is_none(),
        None => false,
    }
}

/// Adds an expression, if it is below a value: of a list that `&&` joins, the parts that are.
fn add_expr<'s>(
    parts: &mut Vec<&'s Expr>,
    view: &View<'s>,
    expr: &'s Expr,
    bound: Tri,
) -> Result<(), AllocError> {
    let ExprNode::All(joined) = expr.node() else {
        if is_below(tri(view.known(), expr), bound) {
            parts.push(expr)?;
        }
        return Ok(());
    };
    for part in joined {
        if is_below(tri(view.known(), part), bound) {
            parts.push(part)?;
        }
    }
    Ok(())
}

/// Adds the condition of the prompt of a choice, if the mode is n for it.
fn add_choice<'s>(
    parts: &mut Vec<&'s Expr>,
    view: &View<'s>,
    choice: ChoiceId,
) -> Result<(), AllocError> {
    let Some(factor) = choice_condition(view, choice) else {
        return Ok(());
    };
    match factor.part {
        FactorPart::Expression(expr) => add_expr(parts, view, expr, Tri::Module),
        FactorPart::Mode(_) | FactorPart::Missing => Ok(()),
    }
}

/// The parts of factors that are below a value: of an expression that is a list joined by `&&`, the parts that are, and of
/// the mode of a choice the parts of the condition of its prompt.
pub(crate) fn parts_below<'s>(
    alloc: Global,
    view: &View<'s>,
    factors: &[Factor<'s>],
    bound: Tri,
) -> Result<Vec<&'s Expr>, AllocError> {
    let mut parts = Vec::new(alloc);
    for factor in factors {
        if !is_below(factor.value, bound) {
            continue;
        }
        match factor.part {
            FactorPart::Expression(expr) => add_expr(&mut parts, view, expr, bound)?,
            FactorPart::Mode(choice) => add_choice(&mut parts, view, choice)?,
            FactorPart::Missing => (),
        }
    }
    Ok(parts)
}
