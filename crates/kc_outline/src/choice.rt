ghost use Rattle.std.specs.Prelude.{◌≡◌, OnOk};
ghost use Rattle.std.specs.Option.{option_copied};
ghost use Rattle.kc_outline.specs.TreeValue.{choice_prompt_of};
ghost use Rattle.kc_outline.specs.Adding.{choice_with_default, choice_with_member, choice_with_prompt, new_choice, optional_choice};
ghost use Rattle.kc_outline.specs.TreeOf.{choice_default};

use crate::id::BlockId;
use crate::room::push_one;
use kc_statement::{DefaultValue, Expr, Prompt, SymId, Term, term_alone};
use smallvec::SmallVec;
use std::alloc::{AllocError, Global};
use std::marker::Model;

/// A default of a choice: `default NAME if E`.
#[derive(Debug, Drop)]
pub struct ChoiceDefault {
    /// The symbol of the name, if one is defined.
    pub symbol: Option<SymId>,
    /// The condition after `if`.
    pub condition: Option<Expr>,
}

impl ChoiceDefault {
    /// What a default says of a choice: its value is the name alone.
    pub(crate) fn of(default: DefaultValue) -> ChoiceDefault
        ensures { result ≡ choice_default default }
    {
        let symbol = match term_alone(&default.value) {
            Some(Term::Symbol(symbol)) => Some(*symbol),
            Some(Term::Tri(_) | Term::Text(_) | Term::Undefined(_)) | None => None,
        };
        ChoiceDefault {
            symbol,
            condition: default.condition,
        }
    }
}

/// A choice (kconfig-language.rst, "choices"): of its members, the `config` entries inside, at most one is y. Contracts
/// see the record of its parts.
#[derive(Debug, Drop)]
pub struct Choice {
    pub(crate) block: BlockId,
    pub(crate) prompts: SmallVec<Prompt, 1>,
    pub(crate) defaults: Vec<ChoiceDefault>,
    pub(crate) members: Vec<SymId>,
    pub(crate) is_optional: bool,
}

impl Model for Choice {
    ghost use Rattle.kc_outline.specs.TreeValue.{ChoiceValue};
    ghost use Rattle.kc_statement.specs.contracts.expr.Expr as expr;
    ghost use Rattle.std.specs.Coded.{codes};

    ghost Value = { ChoiceValue };

    ghost coded = { Prim.hlevel (codes, expr.the_row.coded) };

    ghost view = { λ c. record { block = c.block; prompts = c.prompts.items; defaults = c.defaults.items; members = c.members.items; is_optional = c.is_optional } };
}

impl Choice {
    /// A choice with its block, with no attributes and no members yet.
    pub(crate) fn new(alloc: Global, block: BlockId) -> Choice
        ensures { result ≡ new_choice block }
    {
        Choice {
            block,
            prompts: SmallVec::new(alloc),
            defaults: Vec::new(alloc),
            members: Vec::new(alloc),
            is_optional: false,
        }
    }

    /// Adds a prompt.
    pub(crate) fn add_prompt(&mut self, prompt: Prompt) -> Result<(), AllocError>
        ensures { OnOk result (self.new ≡ choice_with_prompt prompt self.old) }
    {
        self.prompts.push(prompt)?;
        Ok(())
    }

    /// Adds a default.
    pub(crate) fn add_default(&mut self, default: ChoiceDefault) -> Result<(), AllocError>
        ensures { OnOk result (self.new ≡ choice_with_default default self.old) }
    {
        push_one(&mut self.defaults, default)
    }

    /// Adds a member.
    pub(crate) fn add_member(&mut self, member: SymId) -> Result<(), AllocError>
        ensures { OnOk result (self.new ≡ choice_with_member member self.old) }
    {
        self.members.push(member)?;
        Ok(())
    }

    /// Adds an `optional` line.
    pub(crate) fn add_optional(&mut self)
        ensures { self.new ≡ optional_choice self.old }
    {
        self.is_optional = true;
    }

    /// The block of the choice, in which its members are. The `depends on` lines of the choice are those of the block.
    pub fn block(&self) -> BlockId
        ensures { result ≡ self.now.block }
    {
        self.block
    }

    /// The prompt: the first one.
    pub fn prompt(&self) -> Option<&Prompt>
        ensures { option_copied result ≡ choice_prompt_of self.now }
    {
        self.prompts.as_slice().first()
    }

    /// The prompts, in the order of their lines.
    pub fn prompts(&self) -> &[Prompt]
        ensures { result.now ≡ self.now.prompts }
    {
        self.prompts.as_slice()
    }

    /// The defaults, in the order of their lines.
    pub fn defaults(&self) -> &[ChoiceDefault]
        ensures { result.now ≡ self.now.defaults }
    {
        self.defaults.as_slice()
    }

    /// The members, in the order of their lines.
    pub fn members(&self) -> &[SymId]
        ensures { result.now ≡ self.now.members }
    {
        self.members.as_slice()
    }

    /// Whether no member needs to be selected.
    pub fn is_optional(&self) -> bool
        ensures { result ≡ self.now.is_optional }
    {
        self.is_optional
    }
}
