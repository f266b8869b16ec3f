//! The tree of the lines so far.

ghost use Rattle.std.specs.Prelude.{◌≡◌, ◌≤◌, [], length, IfOk};
ghost use Rattle.kc_outline.specs.TreeOf.{tree_of, symbols_in};
ghost use Rattle.kc_statement.specs.declared.limits.TheConstants.{MOST_SYMBOLS};

mod adding;
mod attributes;
mod statements;

use crate::block::{Block, Comment};
use crate::choice::Choice;
use crate::definition::Definition;
use crate::entry::Entry;
use crate::symbol::Symbol;
use kc_statement::Names;
use std::alloc::{AllocError, Global};
use std::marker::Model;

/// What lines define: the tree without the order of its nodes. Contracts see it as they see a tree.
#[derive(Drop)]
pub struct Outline {
    pub(crate) names: Names,
    pub(crate) symbols: Vec<Symbol>,
    pub(crate) definitions: Vec<Definition>,
    pub(crate) blocks: Vec<Block>,
    pub(crate) choices: Vec<Choice>,
    pub(crate) comments: Vec<Comment>,
    pub(crate) entries: Vec<Entry>,
}

impl Model for Outline {
    ghost use Rattle.kc_outline.specs.TreeValue.{TreeValue};
    ghost use Rattle.kc_statement.specs.contracts.expr.Expr as expr;
    ghost use Rattle.std.specs.Coded.{codes};

    ghost Value = { TreeValue };

    ghost coded = { Prim.hlevel (codes, expr.the_row.coded) };

    ghost view = { λ a. record { names = a.names; symbols = a.symbols.items; definitions = a.definitions.items; blocks = a.blocks.items; choices = a.choices.items; comments = a.comments.items; entries = a.entries.items } };
}

/// A symbol for each of `count` names, before any line says something of it.
#[tactic(auto, using(crate::proofs::AddingSymbols::new_symbols_more))]
fn new_symbols(alloc: Global, count: usize) -> Result<Vec<Symbol>, AllocError>
    ensures { IfOk result (λ symbols. symbols.items ≡ symbols_in count []) }
{
    let mut symbols = Vec::with_capacity(alloc, count)?;
    for _number in 0..count {
        symbols.push(Symbol::new(alloc))?;
    }
    Ok(symbols)
}

impl Outline {
    /// The outline of no lines, with a symbol for each name, and with room for a definition of each.
    pub(crate) fn new(alloc: Global, names: Names) -> Result<Outline, AllocError>
        requires { length names ≤ MOST_SYMBOLS }
        ensures { IfOk result (λ o. o ≡ tree_of names []) }
    {
        let count = names.len();
        Ok(Outline {
            names,
            symbols: new_symbols(alloc, count)?,
            definitions: Vec::with_capacity(alloc, count)?,
            blocks: Vec::new(alloc),
            choices: Vec::new(alloc),
            comments: Vec::new(alloc),
            entries: Vec::with_capacity(alloc, count)?,
        })
    }

    /// The number that the next symbol to be defined is likely to have: names are in the order of their first
    /// definitions, and few have a second one.
    pub(crate) fn likely_symbol(&self) -> usize {
        match self.definitions.last() {
            Some(definition) => definition.symbol().0 as usize + 1,
            None => 0,
        }
    }
}

// What the lines define, as the crates above ask for it.
impl Outline {
    /// The names of the symbols by number.
    pub fn names(&self) -> &Names
        ensures { result.now ≡ self.now.names }
    {
        &self.names
    }

    /// The symbols by number.
    pub fn symbols(&self) -> &[Symbol]
        ensures { result.now ≡ self.now.symbols }
    {
        self.symbols.as_slice()
    }

    /// The definitions of symbols by number, which is the order of their lines.
    pub fn definitions(&self) -> &[Definition]
        ensures { result.now ≡ self.now.definitions }
    {
        self.definitions.as_slice()
    }

    /// The menus, `if` blocks and choices' blocks by number, which is the order of the lines that open them.
    pub fn blocks(&self) -> &[Block]
        ensures { result.now ≡ self.now.blocks }
    {
        self.blocks.as_slice()
    }

    /// The choices by number, which is the order of their lines.
    pub fn choices(&self) -> &[Choice]
        ensures { result.now ≡ self.now.choices }
    {
        self.choices.as_slice()
    }

    /// The comments by number, which is the order of their lines.
    pub fn comments(&self) -> &[Comment]
        ensures { result.now ≡ self.now.comments }
    {
        self.comments.as_slice()
    }

    /// The entries in the order of their lines.
    pub fn entries(&self) -> &[Entry]
        ensures { result.now ≡ self.now.entries }
    {
        self.entries.as_slice()
    }
}
