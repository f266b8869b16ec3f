//! What one more line changes of an outline, a part at a time. A number that names nothing changes nothing.

ghost use Rattle.std.specs.Prelude.{◌≡◌, [], ◌∷◌, ◌++◌, None, Some, true, false, option_map, IfOk, OnOk};
ghost use Rattle.std.specs.Borrow.{sem, LendsIf};
ghost use Rattle.std.specs.Option.{option_map_or};
ghost use Rattle.kc_outline.specs.declared.block.BlockKind.TheVariants.{Menu, If, Choice as ChoiceBlock};
ghost use Rattle.kc_outline.specs.declared.entry.Entry.TheVariants.{EndMenu};
ghost use Rattle.kc_outline.specs.TreeOf.{choice_default, menu_entry, choice_entry, comment_entry};
ghost use Rattle.kc_outline.specs.Adding.{with_some, change_at};
ghost use Rattle.kc_outline.specs.Adding.{new_definition, definition_with_depends, definition_with_prompt, definition_with_default, definition_with_range, definition_with_select, definition_with_imply, change_definition, definition_entry};
ghost use Rattle.kc_outline.specs.Adding.{symbol_with_type, change_symbol, numbered, placed, selecting, selected, implied, selects_of, implies_of};
ghost use Rattle.kc_outline.specs.Adding.{new_block, block_with_depends, block_with_visible, change_block, new_comment, comment_with_depends, change_comment};
ghost use Rattle.kc_outline.specs.Adding.{choice_with_prompt, choice_with_default, optional_choice, change_choice, with_member, with_choice};
ghost use Rattle.kc_outline.specs.Lending.{IsChanged};
ghost use Rattle.kc_outline.specs.contracts.outline.Outline.{the_row};
ghost use Rattle.kc_outline.specs.contracts.symbol.Symbol as symbol;

use super::Outline;
use crate::block::{Block, BlockKind, Comment};
use crate::choice::{Choice, ChoiceDefault};
use crate::context::Owner;
use crate::definition::Definition;
use crate::entry::Entry;
use crate::id::{BlockId, ChoiceId, CommentId};
use crate::room::push_one;
use crate::symbol::{Reverse, Symbol};
use kc_statement::{DefaultValue, Expr, Prompt, Range, SymId, SymbolType};
use kc_text::Text;
use std::alloc::{AllocError, Global};

impl Outline {
    /// The entry of one more definition of a symbol.
    fn definition_entry(&self, symbol: SymId) -> Entry
        ensures { result ≡ definition_entry self.now.symbols symbol }
    {
        match self.symbols.get(symbol.0 as usize) {
            None => Entry::Symbol(symbol),
            Some(found) => {
                if found.definitions.is_empty() {
                    Entry::Symbol(symbol)
                } else {
                    Entry::Again(symbol)
                }
            }
        }
    }

    /// Adds the definition that a `config` line makes.
    #[inline(never)]
    pub(super) fn add_definition(
        &mut self,
        alloc: Global,
        symbol: SymId,
        block: Option<BlockId>,
        choice: Option<ChoiceId>,
        owner: Option<Owner>,
    ) -> Result<(), AllocError>
        ensures { OnOk result (self.new ≡ record self.old {
          symbols = numbered symbol owner (placed symbol choice self.old.symbols);
          definitions = self.old.definitions ++ new_definition symbol block ∷ [];
          choices = with_member choice symbol self.old.choices;
          entries = self.old.entries ++ definition_entry self.old.symbols symbol ∷ [];
        }) }
    {
        let entry = self.definition_entry(symbol);
        self.entries.push(entry)?;
        self.definitions
            .push(Definition::new(alloc, symbol, block))?;
        self.add_symbol_choice(symbol, choice);
        self.add_number(symbol, owner)?;
        self.add_member(choice, symbol)
    }

    /// Adds a menu, which is its own owner.
    #[inline(never)]
    pub(super) fn add_menu(
        &mut self,
        alloc: Global,
        title: Text,
        block: Option<BlockId>,
        owner: Option<Owner>,
    ) -> Result<(), AllocError>
        ensures { OnOk result (self.new ≡ record self.old {
          blocks = self.old.blocks ++ new_block (Menu title) block [] ∷ [];
          entries = with_some self.old.entries (menu_entry owner);
        }) }
    {
        let kind = BlockKind::Menu(title);
        self.blocks
            .push(Block::new(alloc, kind, block, Vec::new(alloc)))?;
        if let Some(Owner::Menu(menu)) = owner {
            self.entries.push(Entry::Menu(menu))?;
        }
        Ok(())
    }

    /// Adds the end of the menu that a line closes.
    pub(super) fn add_end_menu(&mut self, block: Option<BlockId>) -> Result<(), AllocError>
        ensures { OnOk result (self.new ≡ record self.old { entries = with_some self.old.entries (option_map EndMenu block) }) }
    {
        if let Some(menu) = block {
            self.entries.push(Entry::EndMenu(menu))?;
        }
        Ok(())
    }

    /// Adds an `if`, which has no entry.
    #[inline(never)]
    pub(super) fn add_if(
        &mut self,
        alloc: Global,
        condition: Expr,
        block: Option<BlockId>,
    ) -> Result<(), AllocError>
        ensures { OnOk result (self.new ≡ record self.old {
          blocks = self.old.blocks ++ new_block If block (condition ∷ []) ∷ [];
        }) }
    {
        let mut depends = Vec::new(alloc);
        push_one(&mut depends, condition)?;
        self.blocks
            .push(Block::new(alloc, BlockKind::If, block, depends))?;
        Ok(())
    }

    /// Adds a choice, which is its own owner, with its block.
    #[inline(never)]
    pub(super) fn add_choice(
        &mut self,
        alloc: Global,
        block: Option<BlockId>,
        owner: Option<Owner>,
    ) -> Result<(), AllocError>
        ensures { OnOk result (self.new ≡ record self.old {
          blocks = self.old.blocks ++ new_block ChoiceBlock block [] ∷ [];
          choices = with_choice owner self.old.choices;
          entries = with_some self.old.entries (choice_entry owner);
        }) }
    {
        let kind = BlockKind::Choice;
        self.blocks
            .push(Block::new(alloc, kind, block, Vec::new(alloc)))?;
        if let Some(Owner::Choice(choice, own)) = owner {
            self.choices.push(Choice::new(alloc, own))?;
            self.entries.push(Entry::Choice(choice))?;
        }
        Ok(())
    }

    /// Adds a comment, which is its own owner.
    #[inline(never)]
    pub(super) fn add_comment(
        &mut self,
        alloc: Global,
        title: Text,
        block: Option<BlockId>,
        choice: Option<ChoiceId>,
        owner: Option<Owner>,
    ) -> Result<(), AllocError>
        ensures { OnOk result (self.new ≡ record self.old {
          comments = self.old.comments ++ new_comment title block choice ∷ [];
          entries = with_some self.old.entries (comment_entry owner);
        }) }
    {
        self.comments
            .push(Comment::new(alloc, title, block, choice))?;
        if let Some(Owner::Comment(comment)) = owner {
            self.entries.push(Entry::Comment(comment))?;
        }
        Ok(())
    }
}

// Each of these writes at one place of a list.
#[tactic(auto, using(crate::proofs::ChangeLaws::change_laws))]
impl Outline {
    /// The symbol whose definition owns a line, to be changed.
    #[tactic(auto, using(crate::proofs::ChangeLaws::change_laws, crate::proofs::LendingLaws::change_at_result))]
    pub(super) fn symbol_mut(&mut self, owner: Option<Owner>) -> Option<&mut Symbol>
        ensures* lent { sem 𝓛 (LendsIf the_row symbol.the_row self.entry result (λ x. record self.old { symbols = change_symbol owner (λ _. x) self.old.symbols }) self.old) }
        ensures owned { IsChanged (change_symbol owner) self.old.symbols result }
    {
        match owner {
            Some(Owner::Definition(symbol, _)) => self.symbols.get_mut(symbol.0 as usize),
            _ => None,
        }
    }

    /// Gives a symbol the choice in which a `config` line defines it.
    fn add_symbol_choice(&mut self, symbol: SymId, choice: Option<ChoiceId>)
        ensures { self.new ≡ record self.old { symbols = placed symbol choice self.old.symbols } }
    {
        if let Some(found) = self.symbols.get_mut(symbol.0 as usize) {
            found.add_choice(choice);
        }
    }

    /// Gives a symbol the number of the definition that a `config` line makes.
    fn add_number(&mut self, symbol: SymId, owner: Option<Owner>) -> Result<(), AllocError>
        ensures { OnOk result (self.new ≡ record self.old { symbols = numbered symbol owner self.old.symbols }) }
    {
        let Some(Owner::Definition(_, number)) = owner else {
            return Ok(());
        };
        let Some(found) = self.symbols.get_mut(symbol.0 as usize) else {
            return Ok(());
        };
        found.add_definition(number)
    }

    /// Gives the choice that a `config` line is in its symbol as a member.
    fn add_member(&mut self, choice: Option<ChoiceId>, symbol: SymId) -> Result<(), AllocError>
        ensures { OnOk result (self.new ≡ record self.old { choices = with_member choice symbol self.old.choices }) }
    {
        let Some(choice) = choice else {
            return Ok(());
        };
        let Some(choice) = self.choices.get_mut(choice.0 as usize) else {
            return Ok(());
        };
        choice.add_member(symbol)
    }

    /// Adds a type to the owner's symbol.
    pub(super) fn add_type(
        &mut self,
        owner: Option<Owner>,
        kind: SymbolType,
    ) -> Result<(), AllocError>
        ensures { OnOk result (self.new ≡ record self.old { symbols = change_symbol owner (symbol_with_type kind) self.old.symbols }) }
    {
        match self.symbol_mut(owner) {
            Some(symbol) => symbol.add_type(kind),
            None => Ok(()),
        }
    }

    /// Notes that the owner's symbol selects or implies.
    fn add_own_selection(&mut self, owner: Option<Owner>)
        ensures { self.new ≡ record self.old { symbols = selecting owner self.old.symbols } }
    {
        if let Some(symbol) = self.symbol_mut(owner) {
            symbol.add_own_selection();
        }
    }

    /// Adds an `optional` line to the choice that owns it.
    pub(super) fn add_optional(&mut self, owner: Option<Owner>)
        ensures { self.new ≡ record self.old { choices = change_choice owner optional_choice self.old.choices } }
    {
        let Some(Owner::Choice(choice, _)) = owner else {
            return;
        };
        let Some(choice) = self.choices.get_mut(choice.0 as usize) else {
            return;
        };
        choice.add_optional();
    }

    /// Adds a `depends on` line to what owns it.
    #[inline(never)]
    pub(super) fn add_depends(&mut self, owner: Option<Owner>, on: Expr) -> Result<(), AllocError>
        ensures { OnOk result (self.new ≡ record self.old {
          definitions = change_definition owner (definition_with_depends on) self.old.definitions;
          blocks = change_block owner (block_with_depends on) self.old.blocks;
          comments = change_comment owner (comment_with_depends on) self.old.comments;
        }) }
    {
        match owner {
            Some(Owner::Definition(_, number)) => {
                if let Some(definition) = self.definitions.get_mut(number) {
                    return definition.add_depends(on);
                }
            }
            Some(Owner::Menu(block) | Owner::Choice(_, block)) => {
                if let Some(block) = self.blocks.get_mut(block.0) {
                    return block.add_depends(on);
                }
            }
            Some(Owner::Comment(comment)) => {
                if let Some(comment) = self.comments.get_mut(comment.0) {
                    return comment.add_depends(on);
                }
            }
            None => {}
        }
        Ok(())
    }

    /// Adds a prompt to the definition or the choice that owns it.
    #[inline(never)]
    pub(super) fn add_prompt(
        &mut self,
        owner: Option<Owner>,
        prompt: Prompt,
    ) -> Result<(), AllocError>
        ensures { OnOk result (self.new ≡ record self.old {
          definitions = change_definition owner (definition_with_prompt prompt) self.old.definitions;
          choices = change_choice owner (choice_with_prompt prompt) self.old.choices;
        }) }
    {
        match owner {
            Some(Owner::Definition(_, number)) => {
                if let Some(definition) = self.definitions.get_mut(number) {
                    return definition.add_prompt(prompt);
                }
            }
            Some(Owner::Choice(choice, _)) => {
                if let Some(choice) = self.choices.get_mut(choice.0 as usize) {
                    return choice.add_prompt(prompt);
                }
            }
            Some(Owner::Menu(_) | Owner::Comment(_)) | None => {}
        }
        Ok(())
    }

    /// Adds a default to the definition or the choice that owns it.
    #[inline(never)]
    pub(super) fn add_default(
        &mut self,
        owner: Option<Owner>,
        value: DefaultValue,
    ) -> Result<(), AllocError>
        ensures { OnOk result (self.new ≡ record self.old {
          definitions = change_definition owner (definition_with_default value) self.old.definitions;
          choices = change_choice owner (choice_with_default (choice_default value)) self.old.choices;
        }) }
    {
        match owner {
            Some(Owner::Definition(_, number)) => {
                if let Some(definition) = self.definitions.get_mut(number) {
                    return definition.add_default(value);
                }
            }
            Some(Owner::Choice(choice, _)) => {
                if let Some(choice) = self.choices.get_mut(choice.0 as usize) {
                    return choice.add_default(ChoiceDefault::of(value));
                }
            }
            Some(Owner::Menu(_) | Owner::Comment(_)) | None => {}
        }
        Ok(())
    }

    /// Adds a type with a default to the definition that owns them.
    #[inline(never)]
    pub(super) fn add_typed_default(
        &mut self,
        owner: Option<Owner>,
        kind: SymbolType,
        value: DefaultValue,
    ) -> Result<(), AllocError>
        ensures { OnOk result (self.new ≡ record self.old {
          symbols = change_symbol owner (symbol_with_type kind) self.old.symbols;
          definitions = change_definition owner (definition_with_default value) self.old.definitions;
        }) }
    {
        self.add_type(owner, kind)?;
        let Some(Owner::Definition(_, number)) = owner else {
            return Ok(());
        };
        let Some(definition) = self.definitions.get_mut(number) else {
            return Ok(());
        };
        definition.add_default(value)
    }

    /// Adds a range to the definition that owns it.
    #[inline(never)]
    pub(super) fn add_range(&mut self, owner: Option<Owner>, range: Range) -> Result<(), AllocError>
        ensures { OnOk result (self.new ≡ record self.old { definitions = change_definition owner (definition_with_range range) self.old.definitions }) }
    {
        let Some(Owner::Definition(_, number)) = owner else {
            return Ok(());
        };
        let Some(definition) = self.definitions.get_mut(number) else {
            return Ok(());
        };
        definition.add_range(range)
    }

    /// Adds a `visible if` line to the menu that owns it.
    #[inline(never)]
    pub(super) fn add_visible(
        &mut self,
        owner: Option<Owner>,
        condition: Expr,
    ) -> Result<(), AllocError>
        ensures { OnOk result (self.new ≡ record self.old { blocks = change_block owner (block_with_visible condition) self.old.blocks }) }
    {
        let Some(Owner::Menu(block) | Owner::Choice(_, block)) = owner else {
            return Ok(());
        };
        let Some(block) = self.blocks.get_mut(block.0) else {
            return Ok(());
        };
        block.add_visible(condition)
    }

    /// Adds a `select` line to the definition of a number, and returns its own number among those of the definition.
    fn add_select_line(&mut self, definition: usize) -> Result<usize, AllocError>
        ensures number { IfOk result (λ number. number ≡ selects_of self.old.definitions definition) }
        ensures added { OnOk result (self.new ≡ record self.old { definitions = change_at self.old.definitions definition definition_with_select }) }
    {
        let Some(found) = self.definitions.get_mut(definition) else {
            return Ok(0);
        };
        found.add_select()
    }

    /// Adds an `imply` line to the definition of a number, and returns its own number among those of the definition.
    fn add_imply_line(&mut self, definition: usize) -> Result<usize, AllocError>
        ensures number { IfOk result (λ number. number ≡ implies_of self.old.definitions definition) }
        ensures added { OnOk result (self.new ≡ record self.old { definitions = change_at self.old.definitions definition definition_with_imply }) }
    {
        let Some(found) = self.definitions.get_mut(definition) else {
            return Ok(0);
        };
        found.add_imply()
    }

    /// Adds a `select` line to its owner, and to the symbol that it names, if there is one.
    #[inline(never)]
    pub(super) fn add_select(
        &mut self,
        owner: Option<Owner>,
        target: Option<SymId>,
        condition: Option<Expr>,
    ) -> Result<(), AllocError>
        ensures { OnOk result (self.new ≡ record self.old {
          symbols = option_map_or (λ s. selected s condition owner self.old.definitions (selecting owner self.old.symbols)) target (selecting owner self.old.symbols);
          definitions = change_definition owner definition_with_select self.old.definitions;
        }) }
    {
        self.add_own_selection(owner);
        let Some(Owner::Definition(by, definition)) = owner else {
            return Ok(());
        };
        let number = self.add_select_line(definition)?;
        let Some(target) = target else {
            return Ok(());
        };
        let Some(found) = self.symbols.get_mut(target.0 as usize) else {
            return Ok(());
        };
        found.add_selection(Reverse {
            by,
            definition,
            number,
            condition,
        })
    }

    /// Adds an `imply` line to its owner, and to the symbol that it names, if there is one.
    #[inline(never)]
    pub(super) fn add_imply(
        &mut self,
        owner: Option<Owner>,
        target: Option<SymId>,
        condition: Option<Expr>,
    ) -> Result<(), AllocError>
        ensures { OnOk result (self.new ≡ record self.old {
          symbols = option_map_or (λ s. implied s condition owner self.old.definitions (selecting owner self.old.symbols)) target (selecting owner self.old.symbols);
          definitions = change_definition owner definition_with_imply self.old.definitions;
        }) }
    {
        self.add_own_selection(owner);
        let Some(Owner::Definition(by, definition)) = owner else {
            return Ok(());
        };
        let number = self.add_imply_line(definition)?;
        let Some(target) = target else {
            return Ok(());
        };
        let Some(found) = self.symbols.get_mut(target.0 as usize) else {
            return Ok(());
        };
        found.add_implication(Reverse {
            by,
            definition,
            number,
            condition,
        })
    }
}
