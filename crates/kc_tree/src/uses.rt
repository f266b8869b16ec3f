//! What each cell reads: nodes, and conditions, by their numbers.

ghost use Rattle.std.specs.Prelude.{◌≡◌, ◌<◌, ◌≤◌, ◌^◌, length, IfOk};
ghost use Rattle.kc_tree.specs.CellRows.{AreRowsTo};
ghost use Rattle.kc_tree.specs.Cells.{cell_count};
ghost use Rattle.kc_statement.specs.declared.limits.TheConstants.{MOST_SYMBOLS};

mod conditions;
mod nodes;
mod reader;

use crate::cell::{Cell, cell_count};
use kc_graph::Rows;
use kc_outline::Outline;
use reader::Reader;
use std::alloc::{AllocError, Global};

/// The rows of all cells by number, each without repeats: at a cost in proportion to the terms, but for the sort of each
/// row. What a definition and a block depend on is read once, and what reads these conditions has their numbers.
pub(crate) fn used_rows(alloc: Global, outline: &Outline) -> Result<Rows, AllocError>
    requires few { length outline.now.symbols ≤ MOST_SYMBOLS }
    requires few_cells { cell_count outline.now < 2 ^ 32 }
    requires named { length outline.now.names ≡ length outline.now.symbols }
    ensures { IfOk result (λ rows. AreRowsTo outline.now (cell_count outline.now) rows) }
{
    let reader = Reader::new(outline);
    let count = cell_count(outline);
    let mut row = Vec::new(alloc);
    let mut rows = Rows::with_capacity(alloc, count)?;
    for number in 0..count {
        row.clear();
        reader.add_read(&mut row, Cell::in_outline(outline, number))?;
        rows.add_row(row.as_slice())?;
    }
    Ok(rows)
}
