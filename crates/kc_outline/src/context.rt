//! Where a line is: the open blocks around it, and the statement that its attributes belong to.

ghost use Rattle.std.specs.Prelude.{◌≡◌, ◌+◌, ℕ, List, [], ◌∷◌, Some, None, drop, if◌then◌else◌, length, reverse, slice_get, OnOk};
ghost use Rattle.kc_text.specs.LineValue.{LineValue};
ghost use Rattle.kc_statement.specs.Keywords.{is_choice_word, is_comment_word, is_config_word, is_opener_word, keyword_of};
ghost use Rattle.kc_outline.specs.LineFaults.{leaves_open, stays_open};
ghost use Rattle.kc_outline.specs.Enclosing.{choice_among, innermost};
ghost use Rattle.kc_outline.specs.ContextAfter.{blocks_after, owner_made, HasRoom, IsContextAfter, IsPlaceAfter};
ghost use Rattle.kc_statement.specs.Statements.{HasForm};
ghost use Rattle.kc_outline.specs.Reader.{owner_after};
ghost use Rattle.kc_outline.specs.TreeOf.{defined_in};

use crate::id::{BlockId, ChoiceId, CommentId};
use kc_statement::{Keyword, Statement, SymId};
use kc_text::Line;
use std::alloc::{AllocError, Global};
use std::marker::Model;

/// What attributes belong to.
#[derive(Clone, Copy, PartialEq, Eq)]
pub(crate) enum Owner {
    /// A definition of a symbol, by its number.
    Definition(SymId, usize),
    /// A menu.
    Menu(BlockId),
    /// A choice, with its block.
    Choice(ChoiceId, BlockId),
    /// A comment.
    Comment(CommentId),
}

/// A block that is open.
#[derive(Clone, Copy, PartialEq, Eq)]
pub(crate) struct OpenBlock {
    pub(crate) id: BlockId,
    /// The word that opened it.
    pub(crate) keyword: Keyword,
    /// The number of the inclusion of the file that it was opened in.
    pub(crate) run: usize,
    /// The choice that it is the block of.
    pub(crate) choice: Option<ChoiceId>,
}

/// The choice among blocks; the innermost block is last.
fn choice_among(blocks: &[OpenBlock]) -> Option<ChoiceId>
    ensures { result ≡ choice_among (reverse blocks.now) }
{
    let mut left = blocks.len();
    while left > 0 {
        left -= 1;
        if let Some(choice) = blocks[left].choice {
            return Some(choice);
        }
    }
    None
}

/// Whether one of the blocks was opened in an inclusion of a file.
fn is_run_among(blocks: &[OpenBlock], run: usize) -> bool
    ensures { result ≡ leaves_open blocks.now run }
{
    blocks.iter().any(|block| block.run == run)
}

/// The blocks that are open, the innermost last. Contracts see the list with the innermost first.
#[derive(Drop)]
pub(crate) struct OpenBlocks {
    blocks: Vec<OpenBlock>,
}

impl Model for OpenBlocks {
    ghost use Rattle.std.specs.Prelude.{List, reverse};
    ghost use Rattle.kc_outline.specs.declared.context.OpenBlock as open_block;

    ghost Value = { List open_block.OpenBlock };

    ghost view = { λ b. reverse b.blocks.items };
}

impl OpenBlocks {
    /// No open blocks.
    fn new(alloc: Global) -> OpenBlocks
        ensures { result ≡ [] }
    {
        OpenBlocks {
            blocks: Vec::new(alloc),
        }
    }

    /// How many are open.
    pub(crate) fn len(&self) -> usize
        ensures { result ≡ length self.now }
    {
        self.blocks.len()
    }

    /// The innermost.
    pub(crate) fn innermost(&self) -> Option<OpenBlock>
        ensures { result ≡ slice_get self.now 0 }
    {
        self.blocks.last().copied()
    }

    /// Whether a block of an inclusion of a file is open.
    pub(crate) fn has_run(&self, run: usize) -> bool
        ensures { result ≡ leaves_open self.now run }
    {
        is_run_among(self.blocks.as_slice(), run)
    }

    /// The choice that is open, if one is.
    pub(crate) fn choice(&self) -> Option<ChoiceId>
        ensures { result ≡ choice_among self.now }
    {
        choice_among(self.blocks.as_slice())
    }

    /// Whether one is open after a line of this keyword.
    pub(crate) fn stays_open(&self, keyword: Keyword) -> bool
        ensures { (block : OpenBlock) → result ≡ stays_open (blocks_after keyword block self.now) }
    {
        if keyword.opens() {
            true
        } else if keyword.closes() {
            self.blocks.len() > 1
        } else {
            self.blocks.len() > 0
        }
    }

    /// Goes past a line of this keyword. If it opens a block, this is the block.
    fn pass(&mut self, keyword: Keyword, block: OpenBlock) -> Result<(), AllocError>
        ensures { OnOk result (self.new ≡ blocks_after keyword block self.old) }
    {
        if keyword.opens() {
            self.blocks.push(block)?;
        } else if keyword.closes() {
            self.blocks.pop();
        }
        Ok(())
    }
}

/// What is known of the lines before a line.
#[derive(Drop)]
pub(crate) struct Context {
    /// The blocks that are open.
    stack: OpenBlocks,
    /// The keyword of the nearest statement.
    statement: Option<Keyword>,
    /// What it makes that takes attributes.
    owner: Option<Owner>,
    definitions: usize,
    blocks: usize,
    choices: usize,
    comments: usize,
}

impl Context {
    /// The context of the first line.
    pub(crate) fn new(alloc: Global) -> Context
        ensures { (names : List (List ℕ)) → IsContextAfter names [] result }
    {
        Context {
            stack: OpenBlocks::new(alloc),
            statement: None,
            owner: None,
            definitions: 0,
            blocks: 0,
            choices: 0,
            comments: 0,
        }
    }

    /// The blocks that are open.
    pub(crate) fn open_blocks(&self) -> &OpenBlocks
        ensures { result.now ≡ self.now.stack }
    {
        &self.stack
    }

    /// The innermost block that is open.
    pub(crate) fn innermost(&self) -> Option<BlockId>
        ensures { result ≡ innermost self.now.stack }
    {
        let block = self.stack.innermost()?;
        Some(block.id)
    }

    /// The choice that is open.
    pub(crate) fn choice(&self) -> Option<ChoiceId>
        ensures { result ≡ choice_among self.now.stack }
    {
        self.stack.choice()
    }

    /// The keyword of the nearest statement.
    pub(crate) fn statement(&self) -> Option<Keyword>
        ensures { result ≡ self.now.statement }
    {
        self.statement
    }

    /// What the last line belongs to, or makes itself.
    pub(crate) fn owner(&self) -> Option<Owner>
        ensures { result ≡ self.now.owner }
    {
        self.owner
    }

    /// What a statement of this keyword makes that takes attributes, which may define a symbol.
    pub(crate) fn made_by(&self, keyword: Keyword, symbol: Option<SymId>) -> Option<Owner>
        requires { HasRoom self.now }
        ensures { result ≡ owner_made keyword symbol self.now.definitions self.now.blocks self.now.choices self.now.comments }
    {
        match keyword {
            Keyword::Config => {
                let symbol = symbol?;
                Some(Owner::Definition(symbol, self.definitions))
            }
            Keyword::Menu => Some(Owner::Menu(BlockId(self.blocks))),
            Keyword::Choice => {
                let choice = ChoiceId(self.choices as u32);
                Some(Owner::Choice(choice, BlockId(self.blocks)))
            }
            Keyword::Comment => Some(Owner::Comment(CommentId(self.comments))),
            _ => None,
        }
    }

    /// Counts what a statement of this keyword makes.
    fn count(&mut self, keyword: Keyword)
        requires { HasRoom self.old }
        ensures stack { self.new.stack ≡ self.old.stack }
        ensures statement { self.new.statement ≡ self.old.statement }
        ensures owner { self.new.owner ≡ self.old.owner }
        ensures definitions { self.new.definitions ≡ (if is_config_word keyword then self.old.definitions + 1 else self.old.definitions) }
        ensures blocks { self.new.blocks ≡ (if is_opener_word keyword then self.old.blocks + 1 else self.old.blocks) }
        ensures choices { self.new.choices ≡ (if is_choice_word keyword then self.old.choices + 1 else self.old.choices) }
        ensures comments { self.new.comments ≡ (if is_comment_word keyword then self.old.comments + 1 else self.old.comments) }
    {
        match keyword {
            Keyword::Config => self.definitions += 1,
            Keyword::Menu | Keyword::If => self.blocks += 1,
            Keyword::Choice => {
                self.blocks += 1;
                self.choices += 1;
            }
            Keyword::Comment => self.comments += 1,
            _ => {}
        }
    }

    /// The block that a statement of this keyword opens in an inclusion of a file, if it opens one.
    fn block_opened(&self, keyword: Keyword, run: usize) -> OpenBlock
        requires { HasRoom self.now }
        ensures { result ≡ record {
          id = record { 0 = self.now.blocks };
          keyword = keyword;
          run = run;
          choice = if is_choice_word keyword then Some (record { 0 = self.now.choices }) else None;
        } }
    {
        let choice = match keyword {
            Keyword::Choice => Some(ChoiceId(self.choices as u32)),
            _ => None,
        };
        OpenBlock {
            id: BlockId(self.blocks),
            keyword,
            run,
            choice,
        }
    }

    /// Goes past a line of this keyword, which may define a symbol. Where it has a problem, what it makes is not looked
    /// at: the place after it goes by the keyword alone.
    pub(crate) fn pass(
        &mut self,
        line: &Line<'_>,
        keyword: Option<Keyword>,
        symbol: Option<SymId>,
    ) -> Result<(), AllocError>
        requires room { HasRoom self.old }
        requires keyword { keyword ≡ keyword_of line.now }
        ensures known { OnOk result ((names : List (List ℕ)) (earlier : List LineValue) (statement : Statement)
            → IsContextAfter names earlier self.old → HasForm names line.now statement → symbol ≡ defined_in statement
            → IsContextAfter names (line.now ∷ earlier) self.new) }
        ensures place { OnOk result ((earlier : List LineValue) → IsPlaceAfter earlier self.old → IsPlaceAfter (line.now ∷ earlier) self.new) }
        ensures owner { OnOk result (self.new.owner ≡ owner_after self.old keyword symbol) }
    {
        let Some(word) = keyword else {
            self.statement = None;
            self.owner = None;
            return Ok(());
        };
        if word.is_attribute() {
            return Ok(());
        }
        let block = self.block_opened(word, line.run());
        self.stack.pass(word, block)?;
        self.statement = keyword;
        self.owner = self.made_by(word, symbol);
        self.count(word);
        Ok(())
    }
}
