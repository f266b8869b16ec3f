//! The forms of statements and attributes. A line is read as the part by which it says what it says, its title, its
//! value or its condition: one function for each form. None makes a statement, which would need room for the largest of
//! all parts.

ghost use Rattle.std.specs.Prelude.{◌≡◌, ℕ, List, [], Some, drop, false, IsTrue, IfOk, IfErr};
ghost use Rattle.kc_statement.specs.Keywords.{keyword_of};
ghost use Rattle.kc_statement.specs.LineParts.{stands_alone, IsPartOf, SaysOnly};
ghost use Rattle.kc_statement.specs.LoneLines.{lone_statement, said_by_option};
ghost use Rattle.kc_statement.specs.Mistakes.{IsMistake};
ghost use Rattle.kc_statement.specs.Statements.{HasFormAfter, HasNoForm, default_word, type_word};

mod condition;
mod default;
mod prompt;
mod range;
mod selection;

use crate::attribute::{DefaultValue, Prompt, Range, Setting};
use crate::expr::{Expr, ExprKind};
use crate::id::SymId;
use crate::keyword::Keyword;
use crate::mistake::{Unread, Wanted, wants};
use crate::name::name_word;
use crate::names::Names;
use crate::parser::Parser;
use crate::statement::Statement;
use crate::symbol_type::SymbolType;
use crate::word::is_word;
use kc_text::{Line, Text, Token};
use prompt::quoted_text;
use std::alloc::Global;

/// The tokens after the first.
fn after_first<'a, 'b>(tokens: &'a [Token<'b>]) -> &'a [Token<'b>]
    ensures { result.now ≡ drop 1 tokens.now }
{
    let Some((_, rest)) = tokens.split_first() else {
        return tokens;
    };
    rest
}

/// Whether nothing comes after the first word of a line. Then a type is a type alone.
pub fn stands_alone(line: &Line<'_>) -> bool
    ensures alone { result ≡ stands_alone line.now }
    ensures kind { (names : List (List ℕ)) (kind : SymbolType) → keyword_of line.now ≡ Some (type_word kind) → IsTrue result
        → SaysOnly names line.now (Statement.Type kind) }
{
    after_first(line.tokens()).is_empty()
}

/// Reads a line that is to be its keyword alone, as `endif`. Where something comes after that, the error is the mistake.
pub fn read_alone(line: &Line<'_>) -> Result<(), Unread>
    ensures { (names : List (List ℕ)) (k : Keyword) (s : Statement) → keyword_of line.now ≡ Some k → lone_statement k ≡ Some s
        → IsPartOf names line.now (λ _. s) result }
{
    let rest = after_first(line.tokens());
    if !rest.is_empty() {
        return Err(wants(Wanted::Nothing, rest.len()));
    }
    Ok(())
}

/// The symbol that a `config` line defines, none where it is one more than a tree may have. It is likely to have the
/// number `likely`. Where the line does not have its form, the error is the first mistake.
pub fn read_definition(
    alloc: Global,
    names: &Names,
    line: &Line<'_>,
    likely: usize,
) -> Result<Option<SymId>, Unread>
    requires { keyword_of line.now ≡ Some Keyword.Config }
    ensures { IsPartOf names.now line.now (λ symbol. Statement.Config symbol) result }
{
    Parser { alloc, names }.definition(after_first(line.tokens()), likely)
}

/// The title of a `menu`, a `comment` or a `mainmenu`, or the first mistake where the line does not have its form.
pub fn read_title(alloc: Global, names: &Names, line: &Line<'_>) -> Result<Text, Unread>
    ensures menu { keyword_of line.now ≡ Some Keyword.Menu → IsPartOf names.now line.now (λ title. Statement.Menu title) result }
    ensures comment { keyword_of line.now ≡ Some Keyword.Comment → IsPartOf names.now line.now (λ title. Statement.Comment title) result }
    ensures main { keyword_of line.now ≡ Some Keyword.MainMenu → IsPartOf names.now line.now (λ _. Statement.MainMenu) result }
{
    Parser { alloc, names }.title(after_first(line.tokens()))
}

/// The condition of an `if`, or the first mistake where the line does not have its form.
pub fn read_if(alloc: Global, names: &Names, line: &Line<'_>) -> Result<Expr, Unread>
    requires { keyword_of line.now ≡ Some Keyword.If }
    ensures { IsPartOf names.now line.now (λ condition. Statement.If condition) result }
{
    Parser { alloc, names }.expression(ExprKind::Condition, after_first(line.tokens()))
}

/// The prompt of a `prompt` line, or one after a type, which something comes after; or the first mistake where the line
/// does not have its form.
pub fn read_prompt(alloc: Global, names: &Names, line: &Line<'_>) -> Result<Prompt, Unread>
    ensures part { keyword_of line.now ≡ Some Keyword.Prompt → IsPartOf names.now line.now (λ prompt. Statement.Prompt prompt) result }
    ensures typed { (kind : SymbolType) → stands_alone line.now ≡ false → keyword_of line.now ≡ Some (type_word kind)
        → IsPartOf names.now line.now (λ prompt. Statement.TypeAndPrompt kind prompt) result }
{
    Parser { alloc, names }.prompt(after_first(line.tokens()))
}

/// The value that a `default` line gives, or one that gives a type too; or the first mistake where the line does not
/// have its form.
pub fn read_default(alloc: Global, names: &Names, line: &Line<'_>) -> Result<DefaultValue, Unread>
    ensures part { keyword_of line.now ≡ Some Keyword.Default → IsPartOf names.now line.now (λ value. Statement.Default value) result }
    ensures typed { (kind : SymbolType) (k : Keyword) → default_word kind ≡ Some k → keyword_of line.now ≡ Some k
        → IsPartOf names.now line.now (λ value. Statement.TypeAndDefault kind value) result }
{
    Parser { alloc, names }.default_value(after_first(line.tokens()))
}

/// The bounds of a `range` line, or the first mistake where the line does not have its form.
pub fn read_range(alloc: Global, names: &Names, line: &Line<'_>) -> Result<Range, Unread>
    requires { keyword_of line.now ≡ Some Keyword.Range }
    ensures { IsPartOf names.now line.now (λ range. Statement.Range range) result }
{
    Parser { alloc, names }.range(after_first(line.tokens()))
}

/// The condition of a `depends on` line, or the first mistake where the line does not have its form.
pub fn read_depends(alloc: Global, names: &Names, line: &Line<'_>) -> Result<Expr, Unread>
    requires { keyword_of line.now ≡ Some Keyword.Depends }
    ensures { IsPartOf names.now line.now (λ on. Statement.DependsOn on) result }
{
    Parser { alloc, names }.after_word("on", Wanted::On, after_first(line.tokens()))
}

/// The condition of a `visible if` line, or the first mistake where the line does not have its form.
pub fn read_visible(alloc: Global, names: &Names, line: &Line<'_>) -> Result<Expr, Unread>
    requires { keyword_of line.now ≡ Some Keyword.Visible }
    ensures { IsPartOf names.now line.now (λ condition. Statement.VisibleIf condition) result }
{
    Parser { alloc, names }.after_word("if", Wanted::If, after_first(line.tokens()))
}

/// What a `select` or an `imply` line names, where it is defined, and the condition; or the first mistake where the
/// line does not have its form.
pub fn read_selection(
    alloc: Global,
    names: &Names,
    line: &Line<'_>,
) -> Result<(Option<SymId>, Option<Expr>), Unread>
    ensures select { keyword_of line.now ≡ Some Keyword.Select → IsPartOf names.now line.now (λ part. Statement.Select part.0 part.1) result }
    ensures imply { keyword_of line.now ≡ Some Keyword.Imply → IsPartOf names.now line.now (λ part. Statement.Imply part.0 part.1) result }
{
    Parser { alloc, names }.selection(after_first(line.tokens()))
}

/// What an `option` line sets, or the first mistake where the line does not have its form.
pub fn read_option(line: &Line<'_>) -> Result<Setting, Unread>
    requires { keyword_of line.now ≡ Some Keyword.Option }
    ensures { (names : List (List ℕ)) → IsPartOf names line.now said_by_option result }
{
    setting(after_first(line.tokens()))
}

/// The mistake of a line whose keyword has no form: a `source` that was not followed, where the path may be as it is to
/// be, or a word that is unsupported.
pub fn without_form(line: &Line<'_>) -> Unread
    ensures source { (names : List (List ℕ)) → keyword_of line.now ≡ Some Keyword.Source → HasNoForm names line.now }
    ensures unsupported { (names : List (List ℕ)) → keyword_of line.now ≡ Some Keyword.Unsupported → HasNoForm names line.now }
{
    path_mistake(after_first(line.tokens()))
}

/// The mistake of the tokens after `source`.
#[cold]
#[inline(never)]
fn path_mistake(tokens: &[Token<'_>]) -> Unread {
    let Some((first, rest)) = tokens.split_first() else {
        return wants(Wanted::Path, 0);
    };
    if quoted_text(first).is_some() {
        wants(Wanted::Nothing, rest.len())
    } else {
        wants(Wanted::Path, tokens.len())
    }
}

/// What the tokens after `option` set.
fn setting(tokens: &[Token<'_>]) -> Result<Setting, Unread>
    ensures read { (names : List (List ℕ)) → IfOk result (λ set. HasFormAfter names Keyword.Option tokens.now (said_by_option set)) }
    ensures mistake { (names : List (List ℕ)) → IfErr result (IsMistake (HasFormAfter names Keyword.Option tokens.now)) }
{
    let Some((first, rest)) = tokens.split_first() else {
        return Err(wants(Wanted::Setting, 0));
    };
    if is_word(first, "modules") {
        return last(rest, Setting::Modules);
    }
    if is_word(first, "allnoconfig_y") {
        return last(rest, Setting::AllNoConfigYes);
    }
    Err(wants(Wanted::Setting, tokens.len()))
}

/// This setting, if no token is left.
fn last(rest: &[Token<'_>], setting: Setting) -> Result<Setting, Unread>
    ensures read { IfOk result (λ set. (set ≡ setting) × (rest.now ≡ [])) }
    ensures mistake { IfErr result (λ _. rest.now ≡ [] → ⊥) }
{
    if !rest.is_empty() {
        return Err(wants(Wanted::Nothing, rest.len()));
    }
    Ok(setting)
}

impl Parser<'_> {
    /// The symbol that is defined, none where it is one more than a tree may have. It is likely to have the number
    /// `likely`.
    fn definition(&self, tokens: &[Token<'_>], likely: usize) -> Result<Option<SymId>, Unread>
        ensures read { IfOk result (λ symbol. HasFormAfter self.now.names.now Keyword.Config tokens.now (Statement.Config symbol)) }
        ensures mistake { IfErr result (IsMistake (λ symbol. HasFormAfter self.now.names.now Keyword.Config tokens.now (Statement.Config symbol))) }
    {
        let Some((first, rest)) = tokens.split_first() else {
            return Err(wants(Wanted::Name, 0));
        };
        let Some(name) = name_word(first) else {
            return Err(wants(Wanted::Name, tokens.len()));
        };
        if !rest.is_empty() {
            return Err(wants(Wanted::Nothing, rest.len()));
        }
        Ok(self.names.symbol_at(name.as_str(), likely))
    }
}
