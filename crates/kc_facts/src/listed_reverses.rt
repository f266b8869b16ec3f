//! The `select` and `imply` lines that name a symbol.

ghost use Rattle.std.specs.Prelude.{◌≡◌, IfOk};
ghost use Rattle.kc_value.specs.Assignment.{assignment_of};
ghost use Rattle.kc_facts.specs.WhyRows.{AreReverseLines, IsReverseLine, reverse_attribute, reverse_part, reverses_of};

use crate::factor_lines::FactorLines;
use crate::reverse_row::ReverseKind;
use crate::view::View;
use kc_lines::{Attribute, Family, LineIndex, Part};
use kc_text::Line;
use kc_tree::{Reverse, Symbol, Tri};
use kc_value::reverse_value;
use std::alloc::{AllocError, Global};

/// A `select` or an `imply` line, and what it gives the symbol that it names.
#[derive(Clone, Copy, Debug, Drop)]
pub struct ReverseLine<'t, 'l, 'a> {
    pub reverse: &'t Reverse,
    pub value: Tri,
    pub line: Option<&'l Line<'a>>,
}

/// What such a line says.
fn reverse_attribute(kind: ReverseKind) -> Attribute
    ensures { result ≡ reverse_attribute kind }
{
    match kind {
        ReverseKind::Select => Attribute::Select,
        ReverseKind::Imply => Attribute::Imply,
    }
}

/// The part that is a `select` or an `imply` line.
pub(crate) fn reverse_part(kind: ReverseKind, reverse: &Reverse) -> Part
    ensures { result ≡ reverse_part kind reverse.now }
{
    let attribute = reverse_attribute(kind);
    Part::Said(
        Family::Definition,
        reverse.definition,
        attribute,
        reverse.number,
    )
}

/// The row of a `select` or an `imply` line.
///
/// The error comes where memory is refused.
fn reverse_line<'s, 'l, 'a>(
    alloc: Global,
    view: &View<'_>,
    lines: &mut FactorLines<'_, 'l, 'a>,
    kind: ReverseKind,
    reverse: &'s Reverse,
) -> Result<ReverseLine<'s, 'l, 'a>, AllocError>
    ensures reverse { IfOk result (λ r. r.reverse.now ≡ reverse.entry.now) }
    ensures row { IfOk result (IsReverseLine view.now.tree (assignment_of view.now.tree view.now.values) lines.old kind) }
    ensures lines { lines.new ≡ lines.old }
{
    let line = lines.line(alloc, reverse_part(kind, reverse))?;
    Ok(ReverseLine {
        reverse,
        value: reverse_value(view.known(), reverse),
        line,
    })
}

/// The rows of `select` or of `imply` lines.
///
/// The error comes where memory is refused.
fn lines_of<'s, 'l, 'a>(
    alloc: Global,
    view: &View<'_>,
    index: &LineIndex<'l, 'a>,
    kind: ReverseKind,
    reverses: &'s [Reverse],
) -> Result<Vec<ReverseLine<'s, 'l, 'a>>, AllocError>
    ensures { IfOk result (λ v. AreReverseLines view.now.tree (assignment_of view.now.tree view.now.values) index.now kind
        reverses.entry.now v.items) }
{
    let mut lines = FactorLines::new(alloc, index);
    let mut rows = Vec::new(alloc);
    for reverse in reverses {
        rows.push(reverse_line(alloc, view, &mut lines, kind, reverse)?)?;
    }
    Ok(rows)
}

/// All `select` or all `imply` lines that name a symbol, in their order, each with its line and what it gives.
///
/// # Errors
///
/// `AllocError` where memory is refused.
pub fn reverse_lines<'s, 'l, 'a>(
    alloc: Global,
    view: &View<'_>,
    index: &LineIndex<'l, 'a>,
    kind: ReverseKind,
    symbol: &'s Symbol,
) -> Result<Vec<ReverseLine<'s, 'l, 'a>>, AllocError>
    ensures { IfOk result (λ v. AreReverseLines view.now.tree (assignment_of view.now.tree view.now.values) index.now kind
        (reverses_of kind symbol.entry.now) v.items) }
{
    lines_of(alloc, view, index, kind, kind.of(symbol))
}
