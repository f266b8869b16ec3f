//! What nodes read.

ghost use Rattle.std.specs.Prelude.{◌≡◌, OnOk, Some, flat_map, length, slice_get};
ghost use Rattle.kc_tree.specs.CellRows.{Adds, AddsCells};
ghost use Rattle.kc_tree.specs.Cells.{choice_prompt_cells, free_value_cells, node_cells, prompt_cells, reverse_cells, symbol_value_cells, value_cells, visibility_cells};
ghost use Rattle.kc_tree.specs.Uses.{choice_value_nodes, type_nodes};

use super::reader::Reader;
use crate::node::Node;
use kc_outline::{Choice, ChoiceId, Reverse, Symbol};
use kc_statement::{SymId, SymbolType};
use std::alloc::AllocError;

impl<'a> Reader<'a> {
    /// Adds what the prompt in a definition reads, if it has one.
    fn add_prompt(&self, row: &mut Vec<u32>, number: usize) -> Result<(), AllocError>
        ensures { OnOk result (AddsCells self.now.outline.now row.old.items row.new.items (prompt_cells self.now.outline.now number)) }
    {
        let Some(definition) = self.outline.definitions().get(number) else {
            return Ok(());
        };
        let Some(prompt) = definition.prompt() else {
            return Ok(());
        };
        self.add_own_condition(row, &prompt.condition)?;
        self.add_definition(row, number)?;
        self.add_visible(row, definition.block())
    }

    /// Adds what the prompts in some definitions read.
    fn add_prompts(&self, row: &mut Vec<u32>, definitions: &[usize]) -> Result<(), AllocError>
        ensures { OnOk result (AddsCells self.now.outline.now row.old.items row.new.items (flat_map (prompt_cells self.now.outline.now) definitions.now)) }
    {
        for number in definitions {
            self.add_prompt(row, *number)?;
        }
        Ok(())
    }

    /// Adds what the type of a symbol reads: a tristate acts as bool where there are no modules.
    fn add_type(&self, row: &mut Vec<u32>, symbol: &Symbol) -> Result<(), AllocError>
        ensures { OnOk result (Adds (length self.now.outline.now.symbols) row.old.items row.new.items (type_nodes self.now.outline.now symbol.now)) }
    {
        match symbol.kind() {
            SymbolType::Tristate => self.add_modules(row),
            SymbolType::Bool | SymbolType::String | SymbolType::Int | SymbolType::Hex => Ok(()),
        }
    }

    /// Adds what the visibility of a symbol reads.
    fn add_visibility(&self, row: &mut Vec<u32>, symbol: &Symbol) -> Result<(), AllocError>
        ensures { OnOk result (AddsCells self.now.outline.now row.old.items row.new.items (visibility_cells self.now.outline.now symbol.now)) }
    {
        self.add_prompts(row, symbol.definitions())?;
        self.add_type(row, symbol)?;
        match symbol.choice() {
            Some(choice) => self.add_node(row, Node::Mode(choice)),
            None => Ok(()),
        }
    }

    /// Adds what the defaults and ranges in a definition read.
    fn add_values(&self, row: &mut Vec<u32>, number: usize) -> Result<(), AllocError>
        ensures { OnOk result (AddsCells self.now.outline.now row.old.items row.new.items (value_cells self.now.outline.now number)) }
    {
        let Some(definition) = self.outline.definitions().get(number) else {
            return Ok(());
        };
        self.add_defaults(row, definition.defaults())?;
        self.add_ranges(row, definition.ranges())?;
        self.add_definition(row, number)
    }

    /// Adds what the defaults and ranges in some definitions read.
    fn add_all_values(&self, row: &mut Vec<u32>, definitions: &[usize]) -> Result<(), AllocError>
        ensures { OnOk result (AddsCells self.now.outline.now row.old.items row.new.items (flat_map (value_cells self.now.outline.now) definitions.now)) }
    {
        for number in definitions {
            self.add_values(row, *number)?;
        }
        Ok(())
    }

    /// Adds what a `select` or an `imply` reads.
    fn add_reverse(&self, row: &mut Vec<u32>, reverse: &Reverse) -> Result<(), AllocError>
        ensures { OnOk result (AddsCells self.now.outline.now row.old.items row.new.items (reverse_cells self.now.outline.now reverse.now)) }
    {
        self.add_node(row, Node::Val(reverse.by))?;
        self.add_own_condition(row, &reverse.condition)?;
        self.add_definition(row, reverse.definition)
    }

    /// Adds what each `select` or `imply` reads.
    fn add_reverses(&self, row: &mut Vec<u32>, reverses: &[Reverse]) -> Result<(), AllocError>
        ensures { OnOk result (AddsCells self.now.outline.now row.old.items row.new.items (flat_map (reverse_cells self.now.outline.now) reverses.now)) }
    {
        for reverse in reverses {
            self.add_reverse(row, reverse)?;
        }
        Ok(())
    }

    /// Adds what the value of a symbol reads that is no member of a choice.
    fn add_free_value(
        &self,
        row: &mut Vec<u32>,
        id: SymId,
        symbol: &Symbol,
    ) -> Result<(), AllocError>
        requires { slice_get self.now.outline.now.symbols id.0 ≡ Some symbol.now }
        ensures { OnOk result (AddsCells self.now.outline.now row.old.items row.new.items (free_value_cells self.now.outline.now id symbol.now)) }
    {
        self.add_node(row, Node::Vis(id))?;
        self.add_all_values(row, symbol.definitions())?;
        self.add_reverses(row, symbol.selected())?;
        self.add_reverses(row, symbol.implied())?;
        self.add_type(row, symbol)
    }

    /// Adds what the value of a symbol reads: that of a member, whether its choice selects it.
    fn add_value(&self, row: &mut Vec<u32>, id: SymId, symbol: &Symbol) -> Result<(), AllocError>
        requires { slice_get self.now.outline.now.symbols id.0 ≡ Some symbol.now }
        ensures { OnOk result (AddsCells self.now.outline.now row.old.items row.new.items (symbol_value_cells self.now.outline.now id symbol.now)) }
    {
        let Some(choice) = symbol.choice() else {
            return self.add_free_value(row, id, symbol);
        };
        self.add_node(row, Node::Vis(id))?;
        self.add_node(row, Node::Sel(choice))
    }

    /// Adds what the prompt of a choice reads, if it has one.
    fn add_choice_prompt(&self, row: &mut Vec<u32>, choice: &Choice) -> Result<(), AllocError>
        ensures { OnOk result (AddsCells self.now.outline.now row.old.items row.new.items (choice_prompt_cells self.now.outline.now choice.now)) }
    {
        let Some(prompt) = choice.prompt() else {
            return Ok(());
        };
        self.add_own_condition(row, &prompt.condition)?;
        self.add_depends(row, Some(choice.block()))?;
        self.add_visible(row, Some(choice.block()))
    }

    /// Adds what the selection of a choice reads: its mode, the visibilities of its members, and its defaults.
    fn add_selection(
        &self,
        row: &mut Vec<u32>,
        id: ChoiceId,
        choice: &Choice,
    ) -> Result<(), AllocError>
        ensures { OnOk result (Adds (length self.now.outline.now.symbols) row.old.items row.new.items (choice_value_nodes self.now.outline.now id choice.now)) }
    {
        self.add_node(row, Node::Mode(id))?;
        self.add_visibilities(row, choice.members())?;
        self.add_choice_defaults(row, choice.defaults())
    }

    /// Adds what a node reads, if the tree has the symbol or the choice of its number.
    pub fn add_used(&self, row: &mut Vec<u32>, node: Node) -> Result<(), AllocError>
        ensures { OnOk result (AddsCells self.now.outline.now row.old.items row.new.items (node_cells self.now.outline.now node)) }
    {
        let (symbols, choices) = (self.outline.symbols(), self.outline.choices());
        match node {
            Node::Vis(id) => match symbols.get(id.0 as usize) {
                Some(symbol) => self.add_visibility(row, symbol),
                None => Ok(()),
            },
            Node::Val(id) => match symbols.get(id.0 as usize) {
                Some(symbol) => self.add_value(row, id, symbol),
                None => Ok(()),
            },
            Node::Mode(id) => match choices.get(id.0 as usize) {
                Some(choice) => self.add_choice_prompt(row, choice),
                None => Ok(()),
            },
            Node::Sel(id) => match choices.get(id.0 as usize) {
                Some(choice) => self.add_selection(row, id, choice),
                None => Ok(()),
            },
        }
    }
}
