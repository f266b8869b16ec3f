//! What a line says.

use crate::attribute::{DefaultValue, Prompt, Range};
use crate::expr::Expr;
use crate::id::SymId;
use crate::symbol_type::SymbolType;
use kc_text::Text;

/// What a line says (kconfig-language.rst, "Menu entries" and "Menu attributes"). Contracts speak of it, and no function
/// makes one: each form of a line is read and added by its parts.
#[derive(Debug, Drop)]
pub enum Statement {
    /// The end of a file.
    EndOfFile,
    /// `config` or `menuconfig`, with the symbol; none where it is one more than a tree may have.
    Config(Option<SymId>),
    /// `menu`, with its title.
    Menu(Text),
    EndMenu,
    /// `if`, with its expression.
    If(Expr),
    EndIf,
    Choice,
    EndChoice,
    /// `comment`, with its title.
    Comment(Text),
    MainMenu,
    /// A type alone.
    Type(SymbolType),
    /// A type with a prompt.
    TypeAndPrompt(SymbolType, Prompt),
    /// `def_bool` and `def_tristate`.
    TypeAndDefault(SymbolType, DefaultValue),
    /// `prompt`
    Prompt(Prompt),
    /// `default`
    Default(DefaultValue),
    /// `range`
    Range(Range),
    /// `depends on`
    DependsOn(Expr),
    /// `visible if`
    VisibleIf(Expr),
    /// `select`, with the symbol where it is defined, and the condition after `if`.
    Select(Option<SymId>, Option<Expr>),
    /// `imply`, with the same.
    Imply(Option<SymId>, Option<Expr>),
    /// `modules` or `option modules`
    Modules,
    /// `option allnoconfig_y`
    AllNoConfigYes,
    /// `optional`, of a choice.
    Optional,
    /// `help`, whose text the line has beside its tokens.
    Help,
}
