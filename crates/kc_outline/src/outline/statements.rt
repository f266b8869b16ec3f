//! Statements: entries, and lines that open or close blocks. Each line is read and added at once, by one function for
//! each form.

ghost use Rattle.std.specs.Prelude.{◌≡◌, false, Bool, Option, Some, IfOk, IfErr, OnOk};
ghost use Rattle.kc_statement.specs.Keywords.{is_attribute_word, keyword_of};
ghost use Rattle.kc_outline.specs.ContextAfter.{HasRoom};
ghost use Rattle.kc_outline.specs.LineFaults.{opens_too_deep};
ghost use Rattle.kc_outline.specs.Reader.{IsAdded, IsEntered, IsRefused};
ghost use Rattle.kc_outline.specs.TreeValue.{TreeValue};

use super::Outline;
use crate::context::{Context, Owner};
use crate::fault::LineProblem;
use crate::id::{BlockId, ChoiceId};
use crate::line_faults::opens_too_deep;
use crate::stop::Stop;
use kc_statement::{
    Keyword, SymId, read_alone, read_definition, read_if, read_title, without_form,
};
use kc_text::Line;
use std::alloc::Global;

/// Why a line that passes a limit is not added.
const PAST_LIMIT: Stop = Stop::Problem(LineProblem::Limit);

impl Outline {
    /// Reads and adds a line of this keyword, which is that of a statement, and returns the symbol that it defines. The
    /// context is that of the lines before it. A line at fault is not added.
    pub(crate) fn add_statement(
        &mut self,
        alloc: Global,
        context: &Context,
        line: &Line<'_>,
        keyword: Keyword,
    ) -> Result<Option<SymId>, Stop>
        requires keyword { keyword_of line.now ≡ Some keyword }
        requires statement { is_attribute_word keyword ≡ false }
        requires room { HasRoom context.now }
        ensures added { IfOk result (λ symbol. IsEntered context.now keyword symbol line.now self.old self.new) }
        ensures stop { IfErr result (IsRefused context.now.statement (opens_too_deep context.now.stack line.now) self.old self.new line.now) }
    {
        if keyword == Keyword::Config {
            return self.read_config(alloc, context, line);
        }
        let (owner, block) = (context.made_by(keyword, None), context.innermost());
        let is_too_deep = opens_too_deep(context, line, Some(keyword));
        match keyword {
            Keyword::Menu => self.read_menu(alloc, line, block, owner, is_too_deep)?,
            Keyword::EndMenu => self.read_end_menu(line, block)?,
            Keyword::If => self.read_if(alloc, line, block, is_too_deep)?,
            Keyword::Choice => self.read_choice(alloc, line, block, owner, is_too_deep)?,
            Keyword::EndIf => read_end_if(line)?,
            Keyword::EndChoice => read_end_choice(line)?,
            Keyword::Comment => self.read_comment(alloc, line, block, context.choice(), owner)?,
            Keyword::MainMenu => self.read_main_menu(alloc, line)?,
            _ => return Err(Stop::from(without_form(line))),
        }
        Ok(None)
    }

    /// Reads and adds a `config` line, and returns the symbol that it defines.
    #[inline(never)]
    fn read_config(
        &mut self,
        alloc: Global,
        context: &Context,
        line: &Line<'_>,
    ) -> Result<Option<SymId>, Stop>
        requires keyword { keyword_of line.now ≡ Some Keyword.Config }
        requires room { HasRoom context.now }
        ensures added { IfOk result (λ symbol. IsEntered context.now Keyword.Config symbol line.now self.old self.new) }
        ensures stop { (nearest : Option Keyword) → IfErr result (IsRefused nearest false self.old self.new line.now) }
    {
        let likely = self.likely_symbol();
        let Some(symbol) = read_definition(alloc, &self.names, line, likely)? else {
            return Err(PAST_LIMIT);
        };
        let owner = context.made_by(Keyword::Config, Some(symbol));
        self.add_definition(alloc, symbol, context.innermost(), context.choice(), owner)?;
        Ok(Some(symbol))
    }

    /// Reads and adds a `menu` line.
    #[inline(never)]
    fn read_menu(
        &mut self,
        alloc: Global,
        line: &Line<'_>,
        block: Option<BlockId>,
        owner: Option<Owner>,
        is_too_deep: bool,
    ) -> Result<(), Stop>
        requires { keyword_of line.now ≡ Some Keyword.Menu }
        ensures added { OnOk result ((nearest : Option Keyword) (choice : Option ChoiceId) → IsAdded nearest block choice owner line.now self.old self.new) }
        ensures shallow { OnOk result (is_too_deep ≡ false) }
        ensures stop { (nearest : Option Keyword) → IfErr result (IsRefused nearest is_too_deep self.old self.new line.now) }
    {
        let title = read_title(alloc, &self.names, line)?;
        if is_too_deep {
            return Err(PAST_LIMIT);
        }
        self.add_menu(alloc, title, block, owner)?;
        Ok(())
    }

    /// Reads and adds an `endmenu` line.
    fn read_end_menu(&mut self, line: &Line<'_>, block: Option<BlockId>) -> Result<(), Stop>
        requires { keyword_of line.now ≡ Some Keyword.EndMenu }
        ensures added { OnOk result ((nearest : Option Keyword) (choice : Option ChoiceId) (owner : Option Owner) → IsAdded nearest block choice owner line.now self.old self.new) }
        ensures stop { (nearest : Option Keyword) (deep : Bool) → IfErr result (IsRefused nearest deep self.old self.new line.now) }
    {
        read_alone(line)?;
        self.add_end_menu(block)?;
        Ok(())
    }

    /// Reads and adds an `if` line.
    #[inline(never)]
    fn read_if(
        &mut self,
        alloc: Global,
        line: &Line<'_>,
        block: Option<BlockId>,
        is_too_deep: bool,
    ) -> Result<(), Stop>
        requires { keyword_of line.now ≡ Some Keyword.If }
        ensures added { OnOk result ((nearest : Option Keyword) (choice : Option ChoiceId) (owner : Option Owner) → IsAdded nearest block choice owner line.now self.old self.new) }
        ensures shallow { OnOk result (is_too_deep ≡ false) }
        ensures stop { (nearest : Option Keyword) → IfErr result (IsRefused nearest is_too_deep self.old self.new line.now) }
    {
        let condition = read_if(alloc, &self.names, line)?;
        if is_too_deep {
            return Err(PAST_LIMIT);
        }
        self.add_if(alloc, condition, block)?;
        Ok(())
    }

    /// Reads and adds a `choice` line.
    #[inline(never)]
    fn read_choice(
        &mut self,
        alloc: Global,
        line: &Line<'_>,
        block: Option<BlockId>,
        owner: Option<Owner>,
        is_too_deep: bool,
    ) -> Result<(), Stop>
        requires { keyword_of line.now ≡ Some Keyword.Choice }
        ensures added { OnOk result ((nearest : Option Keyword) (choice : Option ChoiceId) → IsAdded nearest block choice owner line.now self.old self.new) }
        ensures shallow { OnOk result (is_too_deep ≡ false) }
        ensures stop { (nearest : Option Keyword) → IfErr result (IsRefused nearest is_too_deep self.old self.new line.now) }
    {
        read_alone(line)?;
        if is_too_deep {
            return Err(PAST_LIMIT);
        }
        self.add_choice(alloc, block, owner)?;
        Ok(())
    }

    /// Reads and adds a `comment` line.
    #[inline(never)]
    fn read_comment(
        &mut self,
        alloc: Global,
        line: &Line<'_>,
        block: Option<BlockId>,
        choice: Option<ChoiceId>,
        owner: Option<Owner>,
    ) -> Result<(), Stop>
        requires { keyword_of line.now ≡ Some Keyword.Comment }
        ensures added { OnOk result ((nearest : Option Keyword) → IsAdded nearest block choice owner line.now self.old self.new) }
        ensures stop { (nearest : Option Keyword) (deep : Bool) → IfErr result (IsRefused nearest deep self.old self.new line.now) }
    {
        let title = read_title(alloc, &self.names, line)?;
        self.add_comment(alloc, title, block, choice, owner)?;
        Ok(())
    }

    /// Reads a `mainmenu` line, which adds nothing.
    fn read_main_menu(&self, alloc: Global, line: &Line<'_>) -> Result<(), Stop>
        requires { keyword_of line.now ≡ Some Keyword.MainMenu }
        ensures added { OnOk result ((nearest : Option Keyword) (block : Option BlockId) (choice : Option ChoiceId) (owner : Option Owner)
            → IsAdded nearest block choice owner line.now self.now self.now) }
        ensures stop { (nearest : Option Keyword) (deep : Bool) → IfErr result (IsRefused nearest deep self.now self.now line.now) }
    {
        let title = read_title(alloc, &self.names, line)?;
        drop(title);
        Ok(())
    }
}

/// Reads an `endif` line, which adds nothing.
fn read_end_if(line: &Line<'_>) -> Result<(), Stop>
    requires { keyword_of line.now ≡ Some Keyword.EndIf }
    ensures added { OnOk result ((tree : TreeValue) (nearest : Option Keyword) (block : Option BlockId) (choice : Option ChoiceId) (owner : Option Owner)
        → IsAdded nearest block choice owner line.now tree tree) }
    ensures stop { (tree : TreeValue) (nearest : Option Keyword) (deep : Bool) → IfErr result (IsRefused nearest deep tree tree line.now) }
{
    read_alone(line)?;
    Ok(())
}

/// Reads an `endchoice` line, which adds nothing.
fn read_end_choice(line: &Line<'_>) -> Result<(), Stop>
    requires { keyword_of line.now ≡ Some Keyword.EndChoice }
    ensures added { OnOk result ((tree : TreeValue) (nearest : Option Keyword) (block : Option BlockId) (choice : Option ChoiceId) (owner : Option Owner)
        → IsAdded nearest block choice owner line.now tree tree) }
    ensures stop { (tree : TreeValue) (nearest : Option Keyword) (deep : Bool) → IfErr result (IsRefused nearest deep tree tree line.now) }
{
    read_alone(line)?;
    Ok(())
}
