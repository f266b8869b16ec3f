//! Attributes. Each line is read and added at once, by one function for each form: a statement of all kinds would be
//! copied from place to place, and most lines are attributes.

ghost use Rattle.std.specs.Prelude.{◌≡◌, true, false, Option, Some, IfOk, IfErr, OnOk};
ghost use Rattle.kc_statement.specs.Keywords.{is_attribute_word, keyword_of};
ghost use Rattle.kc_statement.specs.Statements.{default_word, type_word};
ghost use Rattle.kc_outline.specs.Reader.{IsAdded, IsNotAdded};
ghost use Rattle.kc_outline.specs.TreeValue.{TreeValue};

use super::Outline;
use crate::context::{Context, Owner};
use crate::fault::LineProblem;
use crate::id::{BlockId, ChoiceId};
use crate::line_faults::{is_name_term, is_of_choice};
use crate::stop::Stop;
use kc_statement::{
    Keyword, Setting, SymbolType, read_alone, read_default, read_depends, read_option, read_prompt,
    read_range, read_selection, read_visible, stands_alone, term_alone,
};
use kc_text::Line;
use std::alloc::Global;

impl Outline {
    /// Reads and adds a line of this keyword, if that is one of an attribute, and says whether it is. The context is that
    /// of the lines before it. A line at fault is not added.
    pub(crate) fn add_attribute(
        &mut self,
        alloc: Global,
        context: &Context,
        line: &Line<'_>,
        keyword: Keyword,
    ) -> Result<bool, Stop>
        requires { keyword_of line.now ≡ Some keyword }
        ensures attribute { IfOk result (λ added. added ≡ true → is_attribute_word keyword ≡ true) }
        ensures other { IfOk result (λ added. added ≡ false → is_attribute_word keyword ≡ false) }
        ensures added { IfOk result (λ added. added ≡ true → (block : Option BlockId) (choice : Option ChoiceId)
            → IsAdded context.now.statement block choice context.now.owner line.now self.old self.new) }
        ensures unchanged { IfOk result (λ added. added ≡ false → self.new ≡ self.old) }
        ensures stop { IfErr result (IsNotAdded context.now.statement self.old self.new line.now) }
    {
        let owner = context.owner();
        match keyword {
            Keyword::Bool => self.read_type(alloc, line, SymbolType::Bool, owner)?,
            Keyword::Tristate => self.read_type(alloc, line, SymbolType::Tristate, owner)?,
            Keyword::String => self.read_type(alloc, line, SymbolType::String, owner)?,
            Keyword::Int => self.read_type(alloc, line, SymbolType::Int, owner)?,
            Keyword::Hex => self.read_type(alloc, line, SymbolType::Hex, owner)?,
            Keyword::DefBool => self.read_typed_default(alloc, line, SymbolType::Bool, owner)?,
            Keyword::DefTristate => {
                self.read_typed_default(alloc, line, SymbolType::Tristate, owner)?;
            }
            Keyword::Default => self.read_default(alloc, line, owner, context.statement())?,
            Keyword::Prompt => self.read_prompt(alloc, line, owner)?,
            Keyword::Range => self.read_range(alloc, line, owner)?,
            Keyword::Depends => self.read_depends(alloc, line, owner)?,
            Keyword::Visible => self.read_visible(alloc, line, owner)?,
            Keyword::Select => self.read_select(alloc, line, owner)?,
            Keyword::Imply => self.read_imply(alloc, line, owner)?,
            Keyword::Modules => self.read_modules(line, owner)?,
            Keyword::Option => self.read_option(line, owner)?,
            Keyword::Optional => self.read_optional(line, owner)?,
            Keyword::Help => read_help(line)?,
            _ => return Ok(false),
        }
        Ok(true)
    }

    /// Reads and adds a type, alone or with a prompt.
    #[inline(never)]
    fn read_type(
        &mut self,
        alloc: Global,
        line: &Line<'_>,
        kind: SymbolType,
        owner: Option<Owner>,
    ) -> Result<(), Stop>
        requires { keyword_of line.now ≡ Some (type_word kind) }
        ensures added { OnOk result ((nearest : Option Keyword) (block : Option BlockId) (choice : Option ChoiceId) → IsAdded nearest block choice owner line.now self.old self.new) }
        ensures stop { (nearest : Option Keyword) → IfErr result (IsNotAdded nearest self.old self.new line.now) }
    {
        if stands_alone(line) {
            self.add_type(owner, kind)?;
            return Ok(());
        }
        let prompt = read_prompt(alloc, &self.names, line)?;
        self.add_type(owner, kind)?;
        self.add_prompt(owner, prompt)?;
        Ok(())
    }

    /// Reads and adds a type with a default.
    #[inline(never)]
    fn read_typed_default(
        &mut self,
        alloc: Global,
        line: &Line<'_>,
        kind: SymbolType,
        owner: Option<Owner>,
    ) -> Result<(), Stop>
        requires { (k : Keyword) × (default_word kind ≡ Some k) × (keyword_of line.now ≡ Some k) }
        ensures added { OnOk result ((nearest : Option Keyword) (block : Option BlockId) (choice : Option ChoiceId) → IsAdded nearest block choice owner line.now self.old self.new) }
        ensures stop { (nearest : Option Keyword) → IfErr result (IsNotAdded nearest self.old self.new line.now) }
    {
        let value = read_default(alloc, &self.names, line)?;
        self.add_typed_default(owner, kind, value)?;
        Ok(())
    }

    /// Reads and adds a default, which is a name alone where the nearest statement is a choice.
    #[inline(never)]
    fn read_default(
        &mut self,
        alloc: Global,
        line: &Line<'_>,
        owner: Option<Owner>,
        nearest: Option<Keyword>,
    ) -> Result<(), Stop>
        requires { keyword_of line.now ≡ Some Keyword.Default }
        ensures added { OnOk result ((block : Option BlockId) (choice : Option ChoiceId) → IsAdded nearest block choice owner line.now self.old self.new) }
        ensures stop { IfErr result (IsNotAdded nearest self.old self.new line.now) }
    {
        let default = read_default(alloc, &self.names, line)?;
        if is_of_choice(nearest) && !is_name_term(term_alone(&default.value)) {
            return Err(Stop::Problem(LineProblem::Malformed));
        }
        self.add_default(owner, default)?;
        Ok(())
    }

    /// Reads and adds a `depends on` line.
    #[inline(never)]
    fn read_depends(
        &mut self,
        alloc: Global,
        line: &Line<'_>,
        owner: Option<Owner>,
    ) -> Result<(), Stop>
        requires { keyword_of line.now ≡ Some Keyword.Depends }
        ensures added { OnOk result ((nearest : Option Keyword) (block : Option BlockId) (choice : Option ChoiceId) → IsAdded nearest block choice owner line.now self.old self.new) }
        ensures stop { (nearest : Option Keyword) → IfErr result (IsNotAdded nearest self.old self.new line.now) }
    {
        let on = read_depends(alloc, &self.names, line)?;
        self.add_depends(owner, on)?;
        Ok(())
    }

    /// Reads and adds a `select` line.
    #[inline(never)]
    fn read_select(
        &mut self,
        alloc: Global,
        line: &Line<'_>,
        owner: Option<Owner>,
    ) -> Result<(), Stop>
        requires { keyword_of line.now ≡ Some Keyword.Select }
        ensures added { OnOk result ((nearest : Option Keyword) (block : Option BlockId) (choice : Option ChoiceId) → IsAdded nearest block choice owner line.now self.old self.new) }
        ensures stop { (nearest : Option Keyword) → IfErr result (IsNotAdded nearest self.old self.new line.now) }
    {
        let (target, condition) = read_selection(alloc, &self.names, line)?;
        self.add_select(owner, target, condition)?;
        Ok(())
    }

    /// Reads and adds an `imply` line.
    #[inline(never)]
    fn read_imply(
        &mut self,
        alloc: Global,
        line: &Line<'_>,
        owner: Option<Owner>,
    ) -> Result<(), Stop>
        requires { keyword_of line.now ≡ Some Keyword.Imply }
        ensures added { OnOk result ((nearest : Option Keyword) (block : Option BlockId) (choice : Option ChoiceId) → IsAdded nearest block choice owner line.now self.old self.new) }
        ensures stop { (nearest : Option Keyword) → IfErr result (IsNotAdded nearest self.old self.new line.now) }
    {
        let (target, condition) = read_selection(alloc, &self.names, line)?;
        self.add_imply(owner, target, condition)?;
        Ok(())
    }

    /// Reads and adds a `prompt` line.
    #[inline(never)]
    fn read_prompt(
        &mut self,
        alloc: Global,
        line: &Line<'_>,
        owner: Option<Owner>,
    ) -> Result<(), Stop>
        requires { keyword_of line.now ≡ Some Keyword.Prompt }
        ensures added { OnOk result ((nearest : Option Keyword) (block : Option BlockId) (choice : Option ChoiceId) → IsAdded nearest block choice owner line.now self.old self.new) }
        ensures stop { (nearest : Option Keyword) → IfErr result (IsNotAdded nearest self.old self.new line.now) }
    {
        let prompt = read_prompt(alloc, &self.names, line)?;
        self.add_prompt(owner, prompt)?;
        Ok(())
    }

    /// Reads and adds a `range` line.
    #[inline(never)]
    fn read_range(
        &mut self,
        alloc: Global,
        line: &Line<'_>,
        owner: Option<Owner>,
    ) -> Result<(), Stop>
        requires { keyword_of line.now ≡ Some Keyword.Range }
        ensures added { OnOk result ((nearest : Option Keyword) (block : Option BlockId) (choice : Option ChoiceId) → IsAdded nearest block choice owner line.now self.old self.new) }
        ensures stop { (nearest : Option Keyword) → IfErr result (IsNotAdded nearest self.old self.new line.now) }
    {
        let range = read_range(alloc, &self.names, line)?;
        self.add_range(owner, range)?;
        Ok(())
    }

    /// Reads and adds a `visible if` line.
    #[inline(never)]
    fn read_visible(
        &mut self,
        alloc: Global,
        line: &Line<'_>,
        owner: Option<Owner>,
    ) -> Result<(), Stop>
        requires { keyword_of line.now ≡ Some Keyword.Visible }
        ensures added { OnOk result ((nearest : Option Keyword) (block : Option BlockId) (choice : Option ChoiceId) → IsAdded nearest block choice owner line.now self.old self.new) }
        ensures stop { (nearest : Option Keyword) → IfErr result (IsNotAdded nearest self.old self.new line.now) }
    {
        let condition = read_visible(alloc, &self.names, line)?;
        self.add_visible(owner, condition)?;
        Ok(())
    }

    /// Reads and adds a `modules` line.
    #[inline(never)]
    fn read_modules(&mut self, line: &Line<'_>, owner: Option<Owner>) -> Result<(), Stop>
        requires { keyword_of line.now ≡ Some Keyword.Modules }
        ensures added { OnOk result ((nearest : Option Keyword) (block : Option BlockId) (choice : Option ChoiceId) → IsAdded nearest block choice owner line.now self.old self.new) }
        ensures stop { (nearest : Option Keyword) → IfErr result (IsNotAdded nearest self.old self.new line.now) }
    {
        read_alone(line)?;
        if let Some(symbol) = self.symbol_mut(owner) {
            symbol.add_modules();
        }
        Ok(())
    }

    /// Reads and adds an `optional` line.
    #[inline(never)]
    fn read_optional(&mut self, line: &Line<'_>, owner: Option<Owner>) -> Result<(), Stop>
        requires { keyword_of line.now ≡ Some Keyword.Optional }
        ensures added { OnOk result ((nearest : Option Keyword) (block : Option BlockId) (choice : Option ChoiceId) → IsAdded nearest block choice owner line.now self.old self.new) }
        ensures stop { (nearest : Option Keyword) → IfErr result (IsNotAdded nearest self.old self.new line.now) }
    {
        read_alone(line)?;
        self.add_optional(owner);
        Ok(())
    }

    /// Reads and adds an `option` line.
    #[inline(never)]
    fn read_option(&mut self, line: &Line<'_>, owner: Option<Owner>) -> Result<(), Stop>
        requires { keyword_of line.now ≡ Some Keyword.Option }
        ensures added { OnOk result ((nearest : Option Keyword) (block : Option BlockId) (choice : Option ChoiceId) → IsAdded nearest block choice owner line.now self.old self.new) }
        ensures stop { (nearest : Option Keyword) → IfErr result (IsNotAdded nearest self.old self.new line.now) }
    {
        let setting = read_option(line)?;
        if let Some(symbol) = self.symbol_mut(owner) {
            match setting {
                Setting::Modules => symbol.add_modules(),
                Setting::AllNoConfigYes => symbol.add_yes_in_allnoconfig(),
            }
        }
        Ok(())
    }
}

/// Reads a `help` line, which adds nothing.
fn read_help(line: &Line<'_>) -> Result<(), Stop>
    requires { keyword_of line.now ≡ Some Keyword.Help }
    ensures added { OnOk result ((tree : TreeValue) (nearest : Option Keyword) (block : Option BlockId) (choice : Option ChoiceId) (owner : Option Owner)
        → IsAdded nearest block choice owner line.now tree tree) }
    ensures stop { (tree : TreeValue) (nearest : Option Keyword) → IfErr result (IsNotAdded nearest tree tree line.now) }
{
    read_alone(line)?;
    Ok(())
}
