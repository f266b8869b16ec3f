//! What lines without a fault of a line define, and whose the parts are that make a fault.

use crate::said::Unsaid;
use crate::statements::second_word_of;
use kc_lines::{LineIndex, Part};
use kc_outline::{LineFault, Outline, read_outline};
use kc_statement::{Seed, SymId};
use kc_text::{Line, MOST_LINES};
use std::alloc::{AllocError, Global};

/// What lines define: nothing where a line is at fault, or where there are more lines than a Kconfig has.
pub(crate) fn outline_of(
    alloc: Global,
    seed: Seed,
    lines: &[Line<'_>],
) -> Result<Option<Outline>, AllocError> {
    if lines.len() > MOST_LINES {
        return Ok(None);
    }
    match read_outline(alloc, seed, lines) {
        Ok(outline) => Ok(Some(outline)),
        Err(LineFault::At { .. }) => Ok(None),
        Err(LineFault::NoMemory) => Err(AllocError),
    }
}

/// The name of a symbol.
pub(crate) fn name_of(outline: &Outline, symbol: SymId) -> &str {
    outline.names().get(symbol.0 as usize)
}

/// The symbol of the definition that a part is, or belongs to.
pub(crate) fn owner_of(outline: &Outline, part: Part) -> Result<SymId, Unsaid> {
    let number = match part {
        Part::Owner(_, number) | Part::Said(_, number, _, _) => number,
    };
    let definitions = outline.definitions();
    let definition = definitions.get(number).ok_or(Unsaid::Nothing)?;
    Ok(definition.symbol())
}

/// The second word of the line of a part.
pub(crate) fn second_word<'l>(index: &LineIndex<'l, '_>, part: Part) -> Result<&'l str, Unsaid> {
    let line = index.line(part).ok_or(Unsaid::Nothing)?;
    second_word_of(line).ok_or(Unsaid::Nothing)
}
