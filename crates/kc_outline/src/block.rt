ghost use Rattle.std.specs.Prelude.{◌≡◌, OnOk};
ghost use Rattle.kc_outline.specs.Adding.{block_with_depends, block_with_visible, comment_with_depends, new_block, new_comment};

use crate::id::{BlockId, ChoiceId};
use crate::room::push_one;
use kc_statement::Expr;
use kc_text::Text;
use std::alloc::{AllocError, Global};
use std::marker::Model;

/// What opens a block.
#[derive(Debug, Drop)]
pub enum BlockKind {
    /// `menu`, with its title.
    Menu(Text),
    /// `if`.
    If,
    /// `choice`.
    Choice,
}

/// A block of lines. Contracts see the record of its parts.
#[derive(Debug, Drop)]
pub struct Block {
    pub(crate) kind: BlockKind,
    pub(crate) parent: Option<BlockId>,
    pub(crate) depends: Vec<Expr>,
    pub(crate) visible: Vec<Expr>,
}

impl Model for Block {
    ghost use Rattle.kc_outline.specs.TreeValue.{BlockValue};
    ghost use Rattle.kc_statement.specs.contracts.expr.Expr as expr;
    ghost use Rattle.std.specs.Coded.{codes};

    ghost Value = { BlockValue };

    ghost coded = { Prim.hlevel (codes, expr.the_row.coded) };

    ghost view = { λ b. record { kind = b.kind; parent = b.parent; depends = b.depends.items; visible = b.visible.items } };
}

impl Block {
    /// A block before any line inside is read. What all inside depends on may be known.
    pub(crate) fn new(
        alloc: Global,
        kind: BlockKind,
        parent: Option<BlockId>,
        depends: Vec<Expr>,
    ) -> Block
        ensures { result ≡ new_block kind parent depends.items }
    {
        Block {
            kind,
            parent,
            depends,
            visible: Vec::new(alloc),
        }
    }

    /// Adds a `depends on` line of a menu or a choice.
    pub(crate) fn add_depends(&mut self, on: Expr) -> Result<(), AllocError>
        ensures { OnOk result (self.new ≡ block_with_depends on self.old) }
    {
        push_one(&mut self.depends, on)
    }

    /// Adds a `visible if` line of a menu.
    pub(crate) fn add_visible(&mut self, condition: Expr) -> Result<(), AllocError>
        ensures { OnOk result (self.new ≡ block_with_visible condition self.old) }
    {
        push_one(&mut self.visible, condition)
    }

    /// What opens it.
    pub fn kind(&self) -> &BlockKind
        ensures { result.now ≡ self.now.kind }
    {
        &self.kind
    }

    /// The innermost block around it.
    pub fn parent(&self) -> Option<BlockId>
        ensures { result ≡ self.now.parent }
    {
        self.parent
    }

    /// What all inside depends on: the expression of an `if`, the `depends on` lines of a menu or a choice.
    pub fn depends(&self) -> &[Expr]
        ensures { result.now ≡ self.now.depends }
    {
        self.depends.as_slice()
    }

    /// The `visible if` lines of a menu, which the prompts inside depend on.
    pub fn visible(&self) -> &[Expr]
        ensures { result.now ≡ self.now.visible }
    {
        self.visible.as_slice()
    }
}

/// A comment. Contracts see the record of its parts.
#[derive(Debug, Drop)]
pub struct Comment {
    pub(crate) title: Text,
    pub(crate) block: Option<BlockId>,
    pub(crate) choice: Option<ChoiceId>,
    pub(crate) depends: Vec<Expr>,
}

impl Model for Comment {
    ghost use Rattle.kc_outline.specs.TreeValue.{CommentValue};
    ghost use Rattle.kc_statement.specs.contracts.expr.Expr as expr;
    ghost use Rattle.std.specs.Coded.{codes};

    ghost Value = { CommentValue };

    ghost coded = { Prim.hlevel (codes, expr.the_row.coded) };

    ghost view = { λ c. record { title = c.title; block = c.block; choice = c.choice; depends = c.depends.items } };
}

impl Comment {
    /// A comment with no attributes yet.
    pub(crate) fn new(
        alloc: Global,
        title: Text,
        block: Option<BlockId>,
        choice: Option<ChoiceId>,
    ) -> Comment
        ensures { result ≡ new_comment title block choice }
    {
        Comment {
            title,
            block,
            choice,
            depends: Vec::new(alloc),
        }
    }

    /// Adds a `depends on` line.
    pub(crate) fn add_depends(&mut self, on: Expr) -> Result<(), AllocError>
        ensures { OnOk result (self.new ≡ comment_with_depends on self.old) }
    {
        push_one(&mut self.depends, on)
    }

    /// The text of the comment.
    pub fn title(&self) -> &str
        ensures { result.now ≡ self.now.title }
    {
        self.title.as_str()
    }

    /// The innermost block around it.
    pub fn block(&self) -> Option<BlockId>
        ensures { result ≡ self.now.block }
    {
        self.block
    }

    /// The choice that it is in.
    pub fn choice(&self) -> Option<ChoiceId>
        ensures { result ≡ self.now.choice }
    {
        self.choice
    }

    /// The comment's own `depends on` lines, which `&&` joins.
    pub fn depends(&self) -> &[Expr]
        ensures { result.now ≡ self.now.depends }
    {
        self.depends.as_slice()
    }
}
