//! Parts of a symbol: its definitions, and the attributes of all of them.

ghost use Rattle.std.specs.Prelude.{◌≡◌, IfOk, count_by, map, slice_get, take};
ghost use Rattle.kc_lines.specs.declared.parts.Family.TheVariants.{Definition};
ghost use Rattle.kc_lines.specs.declared.parts.Part.TheVariants.{Owner};
ghost use Rattle.kc_lines.specs.Attributes.{says};
ghost use Rattle.kc_lines.specs.Culprits.{first_definitions, first_part, pair, parts_of, times_in};

use crate::line_index::LineIndex;
use crate::parts::{Attribute, Family, Part, says};
use kc_outline::Symbol;
use kc_text::Line;
use std::alloc::{AllocError, Global};

/// How many lines say an attribute.
fn times_said(lines: &[Line<'_>], attribute: Attribute) -> usize
    ensures { result ≡ count_by (says attribute) lines.now }
{
    lines.iter().filter(|line| says(attribute, line)).count()
}

/// How many lines of the definition of a number say an attribute.
fn times_in(index: &LineIndex<'_, '_>, attribute: Attribute, definition: usize) -> usize
    ensures { result ≡ times_in index.now attribute definition }
{
    times_said(index.attributes(Family::Definition, definition), attribute)
}

/// The part of a number among those of a symbol that say an attribute, in the order of their lines.
#[tactic(auto, using(crate::proofs::CulpritLaws::part_within, crate::proofs::CulpritLaws::part_after))]
pub(crate) fn nth_part(
    index: &LineIndex<'_, '_>,
    attribute: Attribute,
    symbol: &Symbol,
    number: usize,
) -> Option<Part>
    ensures { result ≡ slice_get (parts_of index.now attribute symbol.now) number }
{
    let mut left = number;
    for definition in symbol.definitions() {
        let count = times_in(index, attribute, *definition);
        if left < count {
            let family = Family::Definition;
            return Some(Part::Said(family, *definition, attribute, left));
        }
        left -= count;
    }
    None
}

/// The first part of a symbol that says an attribute.
pub(crate) fn first_part(
    index: &LineIndex<'_, '_>,
    attribute: Attribute,
    symbol: &Symbol,
) -> Option<Part>
    ensures { result ≡ first_part index.now attribute symbol.now }
{
    nth_part(index, attribute, symbol, 0)
}

/// Definitions by their numbers.
///
/// The error comes where memory is refused.
pub(crate) fn definitions(alloc: Global, numbers: &[usize]) -> Result<Vec<Part>, AllocError>
    ensures { IfOk result (λ parts. parts.items ≡ map (Owner Definition) numbers.now) }
{
    let mut parts = Vec::with_capacity(alloc, numbers.len())?;
    for number in numbers {
        parts.push(Part::Owner(Family::Definition, *number))?;
    }
    Ok(parts)
}

/// The numbers up to some count.
fn up_to(numbers: &[usize], most: usize) -> &[usize]
    ensures { result.now ≡ take most numbers.now }
{
    &numbers[..most.min(numbers.len())]
}

/// The first definitions of a symbol, of some count at most.
///
/// The error comes where memory is refused.
pub(crate) fn first_definitions(
    alloc: Global,
    most: usize,
    symbol: &Symbol,
) -> Result<Vec<Part>, AllocError>
    ensures { IfOk result (λ parts. parts.items ≡ first_definitions most symbol.now) }
{
    definitions(alloc, up_to(symbol.definitions(), most))
}

/// A list of two parts, if there are both.
///
/// The error comes where memory is refused.
pub(crate) fn pair(
    alloc: Global,
    first: Option<Part>,
    second: Option<Part>,
) -> Result<Vec<Part>, AllocError>
    ensures { IfOk result (λ parts. parts.items ≡ pair first second) }
{
    let mut parts = Vec::new(alloc);
    if let Some(part) = first {
        parts.push(part)?;
    }
    if let Some(part) = second {
        parts.push(part)?;
    }
    Ok(parts)
}
