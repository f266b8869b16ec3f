//! The definitions of a symbol, each with the factors of what it depends on, and the lines of all of these.

ghost use Rattle.std.specs.Prelude.{◌≡◌, All, IfOk, is_some, map, option_map, take};
ghost use Rattle.kc_value.specs.Assignment.{assignment_of};
ghost use Rattle.kc_value.specs.Factors.{judged, prompt_condition};
ghost use Rattle.kc_facts.specs.WhyRows.{AreDefinitionRows, AreListedFactors, IsDefinitionRow, IsFactorRow, after_part, lined};

use crate::factor_lines::FactorLines;
use crate::low_parts::choice_condition;
use crate::view::View;
use kc_lines::{Attribute, Family, LineIndex, Part};
use kc_text::Line;
use kc_tree::{Symbol, Tree};
use kc_value::{Factor, FactorPart, dependency_factors, prompt_factors};
use std::alloc::{AllocError, Global};

/// A factor, and the line that says it: none where no line does.
#[derive(Clone, Copy, Debug, Drop)]
pub struct LinedFactor<'t, 'l, 'a> {
    pub factor: Factor<'t>,
    pub line: Option<&'l Line<'a>>,
}

/// A factor of what a definition depends on.
#[derive(Clone, Copy, Debug, Drop)]
pub struct FactorRow<'t, 'l, 'a> {
    pub own: LinedFactor<'t, 'l, 'a>,
    /// Where the factor is the mode of a choice: the condition of the prompt of that choice, if it has one.
    pub choice: Option<LinedFactor<'t, 'l, 'a>>,
}

/// A definition, by its number in the tree, with its line.
#[derive(Drop)]
pub struct DefinitionRow<'t, 'l, 'a> {
    pub number: usize,
    pub line: Option<&'l Line<'a>>,
    /// What its prompt depends on; without a prompt, what it depends on itself.
    pub factors: Vec<FactorRow<'t, 'l, 'a>>,
}

/// Whether the definition of a number has a prompt.
fn is_prompted(tree: &Tree, number: usize) -> bool
    ensures { result ≡ is_some (prompt_condition tree.now number) }
{
    match tree.definitions().get(number) {
        Some(definition) => definition.prompt().is_some(),
        None => false,
    }
}

/// The factors of the prompt of the definition of a number, or of its dependencies where it has no prompt.
///
/// # Errors
///
/// `AllocError` where memory is refused.
pub fn definition_factors<'s>(
    alloc: Global,
    view: &View<'s>,
    number: usize,
) -> Result<Vec<Factor<'s>>, AllocError>
    ensures { IfOk result (λ v. AreListedFactors view.now.tree (assignment_of view.now.tree view.now.values) number v.items) }
{
    if is_prompted(view.tree(), number) {
        prompt_factors(alloc, view.known(), number)
    } else {
        dependency_factors(alloc, view.known(), number)
    }
}

/// What comes after a factor: after the mode of a choice, the condition of the prompt of that choice, if it has one.
///
/// The error comes where memory is refused.
fn choice_after<'s, 'l, 'a>(
    alloc: Global,
    view: &View<'s>,
    lines: &mut FactorLines<'_, 'l, 'a>,
    part: FactorPart<'s>,
) -> Result<Option<LinedFactor<'s, 'l, 'a>>, AllocError>
    ensures after { IfOk result (λ r. option_map lined r
        ≡ after_part view.now.tree (assignment_of view.now.tree view.now.values) lines.old part.entry) }
    ensures lines { lines.new ≡ lines.old }
{
    let FactorPart::Mode(choice) = part else {
        return Ok(None);
    };
    let Some(factor) = choice_condition(view, choice) else {
        return Ok(None);
    };
    let prompt = Part::Said(Family::Choice, choice.0 as usize, Attribute::Prompt, 0);
    let line = lines.line(alloc, prompt)?;
    Ok(Some(LinedFactor { factor, line }))
}

/// The row of a factor of the definition of a number.
///
/// The error comes where memory is refused.
fn factor_row<'s, 'l, 'a>(
    alloc: Global,
    view: &View<'s>,
    lines: &mut FactorLines<'_, 'l, 'a>,
    number: usize,
    factor: Factor<'s>,
) -> Result<FactorRow<'s, 'l, 'a>, AllocError>
    ensures factor { IfOk result (λ r. r.own.factor ≡ factor.entry) }
    ensures row { IfOk result (IsFactorRow view.now.tree (assignment_of view.now.tree view.now.values) lines.old number) }
    ensures lines { lines.new ≡ lines.old }
{
    let line = lines.find(alloc, view.tree(), number, &factor)?;
    let choice = choice_after(alloc, view, lines, factor.part)?;
    let own = LinedFactor { factor, line };
    Ok(FactorRow { own, choice })
}

/// The rows of factors of the definition of a number.
///
/// The error comes where memory is refused.
fn factor_rows<'s, 'l, 'a>(
    alloc: Global,
    view: &View<'s>,
    index: &LineIndex<'l, 'a>,
    number: usize,
    factors: &[Factor<'s>],
) -> Result<Vec<FactorRow<'s, 'l, 'a>>, AllocError>
    ensures judged { IfOk result (λ v. map (λ r. judged r.own.factor) v.items ≡ map judged factors.now) }
    ensures origins { IfOk result (λ v. map (λ r. r.own.factor.origin) v.items ≡ map (λ f. f.origin) factors.now) }
    ensures each { IfOk result (λ v. All (IsFactorRow view.now.tree (assignment_of view.now.tree view.now.values) index.now number) v.items) }
{
    let mut lines = FactorLines::new(alloc, index);
    let mut rows = Vec::new(alloc);
    for factor in factors {
        rows.push(factor_row(alloc, view, &mut lines, number, *factor)?)?;
    }
    Ok(rows)
}

/// The row of the definition of a number.
///
/// The error comes where memory is refused.
fn definition_row<'s, 'l, 'a>(
    alloc: Global,
    view: &View<'s>,
    index: &LineIndex<'l, 'a>,
    number: usize,
) -> Result<DefinitionRow<'s, 'l, 'a>, AllocError>
    ensures number { IfOk result (λ r. r.number ≡ number) }
    ensures row { IfOk result (IsDefinitionRow view.now.tree (assignment_of view.now.tree view.now.values) index.now) }
{
    let factors = definition_factors(alloc, view, number)?;
    let factors = factor_rows(alloc, view, index, number, factors.as_slice())?;
    let line = index.line(Part::Owner(Family::Definition, number));
    Ok(DefinitionRow {
        number,
        line,
        factors,
    })
}

/// The first of some numbers, at most as many as the count says.
fn first_of(numbers: &[usize], most: usize) -> &[usize]
    ensures { result.now ≡ take most numbers.now }
{
    &numbers[..most.min(numbers.len())]
}

/// The rows of the definitions of some numbers.
///
/// The error comes where memory is refused.
fn numbered_rows<'s, 'l, 'a>(
    alloc: Global,
    view: &View<'s>,
    index: &LineIndex<'l, 'a>,
    numbers: &[usize],
) -> Result<Vec<DefinitionRow<'s, 'l, 'a>>, AllocError>
    ensures { IfOk result (λ v. AreDefinitionRows view.now.tree (assignment_of view.now.tree view.now.values) index.now numbers.now v.items) }
{
    let mut rows = Vec::new(alloc);
    for number in numbers {
        rows.push(definition_row(alloc, view, index, *number)?)?;
    }
    Ok(rows)
}

/// The first definitions of a symbol, at most as many as the count says, in their order: of each its line, and a row for
/// each factor of its prompt, or of its dependencies where it has no prompt, with the line that says it. After the mode of
/// a choice comes the condition of the choice's prompt.
///
/// # Errors
///
/// `AllocError` where memory is refused.
pub fn definition_rows<'s, 'l, 'a>(
    alloc: Global,
    view: &View<'s>,
    index: &LineIndex<'l, 'a>,
    symbol: &Symbol,
    most: usize,
) -> Result<Vec<DefinitionRow<'s, 'l, 'a>>, AllocError>
    ensures { IfOk result (λ v. AreDefinitionRows view.now.tree (assignment_of view.now.tree view.now.values) index.now
        (take most symbol.now.definitions) v.items) }
{
    numbered_rows(alloc, view, index, first_of(symbol.definitions(), most))
}
