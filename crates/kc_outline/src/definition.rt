ghost use Rattle.std.specs.Prelude.{◌≡◌, IfOk, OnOk};
ghost use Rattle.std.specs.Option.{option_copied};
ghost use Rattle.kc_outline.specs.TreeValue.{prompt_of};
ghost use Rattle.kc_outline.specs.Adding.{new_definition, definition_with_default, definition_with_depends, definition_with_imply, definition_with_prompt, definition_with_range, definition_with_select};

use crate::id::BlockId;
use crate::room::push_one;
use kc_statement::{DefaultValue, Expr, Prompt, Range, SymId};
use smallvec::SmallVec;
use std::alloc::{AllocError, Global};
use std::marker::Model;

/// One definition of a symbol: a `config` or `menuconfig` line with its attributes. Contracts see the record of its
/// parts.
#[derive(Debug, Drop)]
pub struct Definition {
    pub(crate) symbol: SymId,
    pub(crate) block: Option<BlockId>,
    pub(crate) depends: Vec<Expr>,
    pub(crate) prompts: SmallVec<Prompt, 1>,
    pub(crate) defaults: Vec<DefaultValue>,
    pub(crate) ranges: Vec<Range>,
    pub(crate) select_count: usize,
    pub(crate) imply_count: usize,
}

impl Model for Definition {
    ghost use Rattle.kc_outline.specs.TreeValue.{DefinitionValue};
    ghost use Rattle.kc_statement.specs.contracts.expr.Expr as expr;
    ghost use Rattle.std.specs.Coded.{codes};

    ghost Value = { DefinitionValue };

    ghost coded = { Prim.hlevel (codes, expr.the_row.coded) };

    ghost view = { λ d. record { symbol = d.symbol; block = d.block; depends = d.depends.items; prompts = d.prompts.items; defaults = d.defaults.items; ranges = d.ranges.items; select_count = d.select_count; imply_count = d.imply_count } };
}

impl Definition {
    /// Of a symbol, with no attributes yet.
    pub(crate) fn new(alloc: Global, symbol: SymId, block: Option<BlockId>) -> Definition
        ensures { result ≡ new_definition symbol block }
    {
        Definition {
            symbol,
            block,
            depends: Vec::new(alloc),
            prompts: SmallVec::new(alloc),
            defaults: Vec::new(alloc),
            ranges: Vec::new(alloc),
            select_count: 0,
            imply_count: 0,
        }
    }

    /// Adds a `depends on` line.
    pub(crate) fn add_depends(&mut self, on: Expr) -> Result<(), AllocError>
        ensures { OnOk result (self.new ≡ definition_with_depends on self.old) }
    {
        push_one(&mut self.depends, on)
    }

    /// Adds a prompt.
    pub(crate) fn add_prompt(&mut self, prompt: Prompt) -> Result<(), AllocError>
        ensures { OnOk result (self.new ≡ definition_with_prompt prompt self.old) }
    {
        self.prompts.push(prompt)?;
        Ok(())
    }

    /// Adds a default.
    pub(crate) fn add_default(&mut self, value: DefaultValue) -> Result<(), AllocError>
        ensures { OnOk result (self.new ≡ definition_with_default value self.old) }
    {
        push_one(&mut self.defaults, value)
    }

    /// Adds a range.
    pub(crate) fn add_range(&mut self, range: Range) -> Result<(), AllocError>
        ensures { OnOk result (self.new ≡ definition_with_range range self.old) }
    {
        push_one(&mut self.ranges, range)
    }

    /// Adds a `select` line, and returns its number among those of the definition.
    pub(crate) fn add_select(&mut self) -> Result<usize, AllocError>
        ensures number { IfOk result (λ number. number ≡ self.old.select_count) }
        ensures added { OnOk result (self.new ≡ definition_with_select self.old) }
    {
        let number = self.select_count;
        let Some(count) = number.checked_add(1) else {
            return Err(AllocError);
        };
        self.select_count = count;
        Ok(number)
    }

    /// Adds an `imply` line, and returns its number among those of the definition.
    pub(crate) fn add_imply(&mut self) -> Result<usize, AllocError>
        ensures number { IfOk result (λ number. number ≡ self.old.imply_count) }
        ensures added { OnOk result (self.new ≡ definition_with_imply self.old) }
    {
        let number = self.imply_count;
        let Some(count) = number.checked_add(1) else {
            return Err(AllocError);
        };
        self.imply_count = count;
        Ok(number)
    }

    /// The symbol that is defined.
    pub fn symbol(&self) -> SymId
        ensures { result ≡ self.now.symbol }
    {
        self.symbol
    }

    /// The innermost block around the definition.
    pub fn block(&self) -> Option<BlockId>
        ensures { result ≡ self.now.block }
    {
        self.block
    }

    /// The definition's own `depends on` lines, which `&&` joins.
    pub fn depends(&self) -> &[Expr]
        ensures { result.now ≡ self.now.depends }
    {
        self.depends.as_slice()
    }

    /// The prompt: the first one.
    pub fn prompt(&self) -> Option<&Prompt>
        ensures { option_copied result ≡ prompt_of self.now }
    {
        self.prompts.as_slice().first()
    }

    /// The prompts, in the order of their lines.
    pub fn prompts(&self) -> &[Prompt]
        ensures { result.now ≡ self.now.prompts }
    {
        self.prompts.as_slice()
    }

    /// The defaults, in the order of their lines.
    pub fn defaults(&self) -> &[DefaultValue]
        ensures { result.now ≡ self.now.defaults }
    {
        self.defaults.as_slice()
    }

    /// The ranges, in the order of their lines.
    pub fn ranges(&self) -> &[Range]
        ensures { result.now ≡ self.now.ranges }
    {
        self.ranges.as_slice()
    }
}
