//! Symbols that are selected for more than their dependencies are worth, in words.

use crate::said::Said;
use crate::said_lines::SaidLines;
use crate::selections::push_bracketed;
use kc_facts::{Forced, View, part_of_factor, push_expr};
use kc_lines::{Attribute, Family, LineIndex, Part, is_if, shown_line};
use kc_outline::MOST_OPEN_BLOCKS;
use kc_tree::{BlockId, Definition, Expr, Reverse, Tree, Tri};
use kc_value::{Factor, FactorPart, Origin, tri};
use std::alloc::{AllocError, Global};
use std::collections::BTreeMap;

/// A block, and a value as its letter.
#[derive(Clone, Copy, PartialEq, Eq, PartialOrd, Ord, Drop)]
struct BlockValue {
    block: usize,
    letter: &'static str,
}

/// What is said of symbols that are selected for more than their dependencies are worth. The `select` lines of a definition
/// are looked through once, and so are the lines of a block around many symbols.
#[derive(Drop)]
pub(crate) struct ForcedWords {
    selects: SaidLines,
    /// Of blocks what is said of their first line that has a value, if one has.
    blocks: BTreeMap<BlockValue, Option<String>>,
}

impl ForcedWords {
    /// Before the first symbol.
    pub fn new(alloc: Global) -> ForcedWords {
        ForcedWords {
            selects: SaidLines::new(alloc, Attribute::Select),
            blocks: BTreeMap::new(alloc),
        }
    }

    /// That a symbol is selected for more than its dependencies are worth, which a `select` passes over (docs/VALUES.md,
    /// "Select").
    ///
    /// # Errors
    ///
    /// `AllocError` where memory is refused.
    pub fn said(
        &mut self,
        alloc: Global,
        view: &View<'_>,
        index: &LineIndex<'_, '_>,
        forced: &Forced,
    ) -> Result<Said, AllocError> {
        let tree = view.tree();
        let Some(definition) = tree.definitions().get(forced.definition) else {
            return Said::nothing(alloc);
        };
        let id = definition.symbol();
        let Some(symbol) = tree.symbols().get(id.0 as usize) else {
            return Said::nothing(alloc);
        };
        let Some(selection) = symbol.selected().get(forced.selection) else {
            return Said::nothing(alloc);
        };
        let mut words = String::from_str(alloc, "selected by ")?;
        self.push_selection(alloc, &mut words, tree, index, selection)?;
        words.push_str(", while ")?;
        self.push_unmet(alloc, &mut words, view, index, forced)?;
        Said::of(alloc, tree.name(id), words)
    }

    /// Adds which symbol selects another by a `select` line, and where: `U (Kconfig:26)`.
    fn push_selection(
        &mut self,
        alloc: Global,
        words: &mut String,
        tree: &Tree,
        index: &LineIndex<'_, '_>,
        selection: &Reverse,
    ) -> Result<(), AllocError> {
        words.push_str(tree.name(selection.by))?;
        let (definition, number) = (selection.definition, selection.number);
        let line = self.selects.line(alloc, index, definition, number)?;
        push_bracketed(words, line)
    }

    /// Adds the first line by which the dependencies of the nearest definition are worth no more, where it is, and its
    /// value: `` its `depends on A` (Kconfig:23) is n ``.
    fn push_unmet(
        &mut self,
        alloc: Global,
        words: &mut String,
        view: &View<'_>,
        index: &LineIndex<'_, '_>,
        forced: &Forced,
    ) -> Result<(), AllocError> {
        if !self.push_unmet_line(alloc, words, view, index, forced)? {
            words.push_str("what it depends on")?;
        }
        words.push_str(" is ")?;
        words.push_str(forced.worth.letter())
    }

    /// Adds this line: one of the definition, and else of a block around it, from the innermost outwards. Gives whether
    /// there is one.
    fn push_unmet_line(
        &mut self,
        alloc: Global,
        words: &mut String,
        view: &View<'_>,
        index: &LineIndex<'_, '_>,
        forced: &Forced,
    ) -> Result<bool, AllocError> {
        let Some(definition) = view.tree().definitions().get(forced.nearest) else {
            return Ok(false);
        };
        if push_own_line(alloc, words, view, index, definition, forced)? {
            return Ok(true);
        }
        let mut next = definition.block();
        for _ in 0..MOST_OPEN_BLOCKS {
            let Some(block) = next else {
                return Ok(false);
            };
            if self.push_block_line(alloc, words, view, index, block, forced.worth)? {
                return Ok(true);
            }
            next = parent_of(view.tree(), block);
        }
        Ok(false)
    }

    /// Adds the first line of a block that has a value, if one has. Gives whether one has.
    fn push_block_line(
        &mut self,
        alloc: Global,
        words: &mut String,
        view: &View<'_>,
        index: &LineIndex<'_, '_>,
        block: BlockId,
        worth: Tri,
    ) -> Result<bool, AllocError> {
        let key = BlockValue {
            block: block.0,
            letter: worth.letter(),
        };
        if !self.blocks.contains_key(&key) {
            let said = block_words(alloc, view, index, block, worth)?;
            self.blocks.insert(key, said)?;
        }
        match self.blocks.get(&key) {
            Some(Some(said)) => {
                words.push_str(said.as_str())?;
                Ok(true)
            }
            Some(None) | None => Ok(false),
        }
    }
}

/// The block around a block.
fn parent_of(tree: &Tree, block: BlockId) -> Option<BlockId> {
    tree.blocks().get(block.0)?.parent()
}

/// The first of some `depends on` lines that has a value, and its place.
fn line_worth<'t>(view: &View<'_>, lines: &'t [Expr], worth: Tri) -> Option<(usize, &'t Expr)> {
    lines
        .iter()
        .enumerate()
        .find(|(_, line)| tri(view.known(), line) == worth)
}

/// Adds the first `depends on` line of a definition that has the value of its dependencies, if one has. Gives whether one
/// has.
fn push_own_line(
    alloc: Global,
    words: &mut String,
    view: &View<'_>,
    index: &LineIndex<'_, '_>,
    definition: &Definition,
    forced: &Forced,
) -> Result<bool, AllocError> {
    let Some((place, expr)) = line_worth(view, definition.depends(), forced.worth) else {
        return Ok(false);
    };
    let part = Part::Said(
        Family::Definition,
        forced.nearest,
        Attribute::Depends,
        place,
    );
    push_quoted_line(alloc, words, view.tree(), "depends on ", expr)?;
    push_bracketed(words, index.line(part))?;
    Ok(true)
}

/// What is said of the first line of a block that has a value, if one has.
fn block_words(
    alloc: Global,
    view: &View<'_>,
    index: &LineIndex<'_, '_>,
    block: BlockId,
    worth: Tri,
) -> Result<Option<String>, AllocError> {
    let tree = view.tree();
    let Some(found) = tree.blocks().get(block.0) else {
        return Ok(None);
    };
    let Some((place, expr)) = line_worth(view, found.depends(), worth) else {
        return Ok(None);
    };
    let keyword = if is_if(tree, block) {
        "if "
    } else {
        "depends on "
    };
    let factor = Factor {
        part: FactorPart::Expression(expr),
        origin: Origin::Block(block, place),
        value: worth,
    };
    let mut words = String::new(alloc);
    push_quoted_line(alloc, &mut words, tree, keyword, expr)?;
    let line = match part_of_factor(tree, 0, &factor) {
        Some(part) => index.line(part),
        None => None,
    };
    push_bracketed(&mut words, line)?;
    Ok(Some(words))
}

/// Adds a line of a keyword and an expression, of a long one the first 160 bytes: `` its `depends on A` ``.
fn push_quoted_line(
    alloc: Global,
    words: &mut String,
    tree: &Tree,
    keyword: &str,
    expr: &Expr,
) -> Result<(), AllocError> {
    let mut text = String::new(alloc);
    push_expr(&mut text, tree, expr)?;
    words.push_str("its `")?;
    words.push_str(keyword)?;
    words.push_str(shown_line(text.as_str()))?;
    words.push('`')?;
    Ok(())
}
