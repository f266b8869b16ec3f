//! What conditions read: their own lines, and the condition of the block around.

ghost use Rattle.std.specs.Prelude.{◌≡◌, ◌∷◌, [], ◌++◌, OnOk, map};
ghost use Rattle.kc_tree.specs.declared.cell.Cell.TheVariants.{Definition, Depends, Visible};
ghost use Rattle.kc_tree.specs.CellRows.{IsRowOf};
ghost use Rattle.kc_tree.specs.Cells.{IsCellOf, cell_number, definition_cells, depends_cells, visible_cells};

use super::reader::{Reader, each_once};
use crate::cell::Cell;
use kc_outline::BlockId;
use kc_statement::Expr;
use std::alloc::AllocError;

impl<'a> Reader<'a> {
    /// Adds a cell of the tree.
    fn add_cell(&self, row: &mut Vec<u32>, cell: Cell) -> Result<(), AllocError>
        requires { IsCellOf self.now.outline.now cell }
        ensures { OnOk result (row.new.items ≡ row.old.items ++ cell_number self.now.outline.now cell ∷ []) }
    {
        row.push(cell.number_in(self.outline) as u32)?;
        Ok(())
    }

    /// Adds the condition of a definition, if the tree has it.
    pub fn add_definition(&self, row: &mut Vec<u32>, number: usize) -> Result<(), AllocError>
        ensures { OnOk result (row.new.items ≡ row.old.items ++ map (cell_number self.now.outline.now) (definition_cells self.now.outline.now number)) }
    {
        if number < self.outline.definitions().len() {
            self.add_cell(row, Cell::Definition(number))?;
        }
        Ok(())
    }

    /// Adds what all inside a block depends on, if there is a block.
    pub fn add_depends(&self, row: &mut Vec<u32>, block: Option<BlockId>) -> Result<(), AllocError>
        ensures { OnOk result (row.new.items ≡ row.old.items ++ map (cell_number self.now.outline.now) (depends_cells self.now.outline.now block)) }
    {
        let Some(block) = block else {
            return Ok(());
        };
        if block.0 < self.outline.blocks().len() {
            self.add_cell(row, Cell::Depends(block))?;
        }
        Ok(())
    }

    /// Adds what the prompts inside a block depend on besides, if there is a block.
    pub fn add_visible(&self, row: &mut Vec<u32>, block: Option<BlockId>) -> Result<(), AllocError>
        ensures { OnOk result (row.new.items ≡ row.old.items ++ map (cell_number self.now.outline.now) (visible_cells self.now.outline.now block)) }
    {
        let Some(block) = block else {
            return Ok(());
        };
        if block.0 < self.outline.blocks().len() {
            self.add_cell(row, Cell::Visible(block))?;
        }
        Ok(())
    }

    /// Reads what the definition of a number depends on.
    fn read_definition(&self, row: &mut Vec<u32>, number: usize) -> Result<(), AllocError>
        requires { row.old.items ≡ [] }
        ensures { OnOk result (IsRowOf self.now.outline.now (Definition number) row.new.items) }
    {
        let Some(definition) = self.outline.definitions().get(number) else {
            return Ok(());
        };
        self.add_conditions(row, definition.depends())?;
        each_once(row);
        self.add_depends(row, definition.block())
    }

    /// Reads what all inside a block depends on.
    fn read_depends(&self, row: &mut Vec<u32>, block: BlockId) -> Result<(), AllocError>
        requires { row.old.items ≡ [] }
        ensures { OnOk result (IsRowOf self.now.outline.now (Depends block) row.new.items) }
    {
        let Some(block) = self.outline.blocks().get(block.0) else {
            return Ok(());
        };
        self.add_conditions(row, block.depends())?;
        each_once(row);
        self.add_depends(row, block.parent())
    }

    /// Reads what the prompts inside a block depend on besides.
    fn read_visible(&self, row: &mut Vec<u32>, block: BlockId) -> Result<(), AllocError>
        requires { row.old.items ≡ [] }
        ensures { OnOk result (IsRowOf self.now.outline.now (Visible block) row.new.items) }
    {
        let Some(block) = self.outline.blocks().get(block.0) else {
            return Ok(());
        };
        self.add_conditions(row, block.visible())?;
        each_once(row);
        self.add_visible(row, block.parent())
    }

    /// Reads what a cell reads into an empty row, each number once. In the row of a condition the nodes come first.
    pub fn add_read(&self, row: &mut Vec<u32>, cell: Cell) -> Result<(), AllocError>
        requires { row.old.items ≡ [] }
        ensures { OnOk result (IsRowOf self.now.outline.now cell row.new.items) }
    {
        match cell {
            Cell::Node(node) => {
                self.add_used(row, node)?;
                each_once(row);
                Ok(())
            }
            Cell::Definition(number) => self.read_definition(row, number),
            Cell::Depends(block) => self.read_depends(row, block),
            Cell::Visible(block) => self.read_visible(row, block),
        }
    }
}
