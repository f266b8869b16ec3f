//! The lines that the reason of a value comes from.

ghost use Rattle.std.specs.Prelude.{◌≡◌, ◌∷◌, [], All, IfOk, map};
ghost use Rattle.kc_facts.specs.WhyRows.{AreReasonRows, IsReasonRow, range_sources, source_part, sources_of};

use crate::listed_reverses::reverse_part;
use crate::reverse_row::ReverseKind;
use kc_lines::{Attribute, Family, LineIndex, Part};
use kc_text::Line;
use kc_tree::{SymId, Tree};
use kc_value::{DefaultPlace, RangePlace, Reason};
use std::alloc::{AllocError, Global};

/// What the reason of a value comes from.
#[derive(Clone, Copy, Debug, PartialEq, Eq)]
pub enum ReasonSource {
    Range(RangePlace),
    Default(DefaultPlace),
    /// A `select` or an `imply` line, by its number among those that name the symbol.
    Reverse(ReverseKind, usize),
}

/// What a reason comes from, with its line.
#[derive(Clone, Copy, Debug, Drop)]
pub struct ReasonRow<'l, 'a> {
    pub source: ReasonSource,
    pub line: Option<&'l Line<'a>>,
}

/// One source.
///
/// The error comes where memory is refused.
fn one_source(alloc: Global, source: ReasonSource) -> Result<Vec<ReasonSource>, AllocError>
    ensures { IfOk result (λ v. v.items ≡ source ∷ []) }
{
    let mut sources = Vec::new(alloc);
    sources.push(source)?;
    Ok(sources)
}

/// A range, and a default if there is one.
///
/// The error comes where memory is refused.
fn range_sources(
    alloc: Global,
    range: RangePlace,
    default: Option<DefaultPlace>,
) -> Result<Vec<ReasonSource>, AllocError>
    ensures { IfOk result (λ v. v.items ≡ range_sources range default) }
{
    let mut sources = one_source(alloc, ReasonSource::Range(range))?;
    if let Some(default) = default {
        sources.push(ReasonSource::Default(default))?;
    }
    Ok(sources)
}

/// What a reason comes from.
///
/// The error comes where memory is refused.
fn sources_of(alloc: Global, reason: Reason) -> Result<Vec<ReasonSource>, AllocError>
    ensures { IfOk result (λ v. v.items ≡ sources_of reason) }
{
    match reason {
        Reason::OutsideRange { range, default } | Reason::Bound { range, default } => {
            range_sources(alloc, range, default)
        }
        Reason::Default(default) => one_source(alloc, ReasonSource::Default(default)),
        Reason::Implied(number) => {
            one_source(alloc, ReasonSource::Reverse(ReverseKind::Imply, number))
        }
        Reason::Selected(number) => {
            one_source(alloc, ReasonSource::Reverse(ReverseKind::Select, number))
        }
        _ => Ok(Vec::new(alloc)),
    }
}

/// The part that is what a reason comes from: none for a line that the tree doesn't have.
fn source_part(tree: &Tree, symbol: SymId, source: ReasonSource) -> Option<Part>
    ensures { result ≡ source_part tree.now symbol source }
{
    match source {
        ReasonSource::Range(place) => Some(Part::Said(
            Family::Definition,
            place.definition,
            Attribute::Range,
            place.range,
        )),
        ReasonSource::Default(place) => Some(Part::Said(
            Family::Definition,
            place.definition,
            Attribute::Default,
            place.default,
        )),
        ReasonSource::Reverse(kind, number) => {
            let symbol = tree.symbols().get(symbol.0 as usize)?;
            let reverse = kind.of(symbol).get(number)?;
            Some(reverse_part(kind, reverse))
        }
    }
}

/// The row of what a reason comes from.
fn reason_row<'l, 'a>(
    tree: &Tree,
    index: &LineIndex<'l, 'a>,
    symbol: SymId,
    source: ReasonSource,
) -> ReasonRow<'l, 'a>
    ensures source { result.source ≡ source }
    ensures row { IsReasonRow tree.now index.now symbol result }
{
    let line = match source_part(tree, symbol, source) {
        Some(part) => index.line(part),
        None => None,
    };
    ReasonRow { source, line }
}

/// The rows of what a reason comes from.
///
/// The error comes where memory is refused.
fn source_rows<'l, 'a>(
    alloc: Global,
    tree: &Tree,
    index: &LineIndex<'l, 'a>,
    symbol: SymId,
    sources: &[ReasonSource],
) -> Result<Vec<ReasonRow<'l, 'a>>, AllocError>
    ensures all { IfOk result (λ v. map (λ r. r.source) v.items ≡ sources.now) }
    ensures each { IfOk result (λ v. All (IsReasonRow tree.now index.now symbol) v.items) }
{
    let mut rows = Vec::new(alloc);
    for source in sources {
        rows.push(reason_row(tree, index, symbol, *source))?;
    }
    Ok(rows)
}

/// The lines that the reason of a symbol's value comes from, in the order in which they are listed: a range, and after it
/// the default that is outside of it; a default; a `select` or an `imply` line.
///
/// # Errors
///
/// `AllocError` where memory is refused.
pub fn reason_rows<'l, 'a>(
    alloc: Global,
    tree: &Tree,
    index: &LineIndex<'l, 'a>,
    symbol: SymId,
    reason: Reason,
) -> Result<Vec<ReasonRow<'l, 'a>>, AllocError>
    ensures { IfOk result (λ v. AreReasonRows tree.now index.now symbol reason v.items) }
{
    let sources = sources_of(alloc, reason)?;
    source_rows(alloc, tree, index, symbol, sources.as_slice())
}
