//! The parts of a tree that lines say: definitions, choices, blocks and comments, and the attributes of each.

ghost use Rattle.std.specs.Prelude.{◌≡◌, ◌&&◌, false, true};
ghost use Rattle.std.specs.Option.{option_map_or};
ghost use Rattle.kc_lines.specs.Attributes.{is_modules_word, is_of, is_quoted_second, is_second_modules, is_type_word, is_whole, says, takes_prompt};
ghost use Rattle.kc_lines.specs.LineIndex.{begins, begins_word};

use kc_statement::{Keyword, is_word, read_keyword};
use kc_text::{Line, Token};

/// What a line begins.
#[derive(Clone, Copy, Debug, PartialEq, Eq)]
pub enum Family {
    /// A definition of a symbol: `config` or `menuconfig`.
    Definition,
    Choice,
    /// A menu, an `if` or a choice.
    Block,
    Comment,
}

/// What an attribute line says.
#[derive(Clone, Copy, Debug, PartialEq, Eq)]
pub enum Attribute {
    /// A type: its word, `def_bool` or `def_tristate`.
    Type,
    /// A prompt: `prompt`, or the word of a type with a text in quotes.
    Prompt,
    /// `depends on`
    Depends,
    /// `visible if`
    Visible,
    /// `default`, `def_bool` and `def_tristate`
    Default,
    Range,
    Select,
    Imply,
    /// `modules` or `option modules`
    Modules,
}

/// A part of a tree that a line says. All numbers are from 0, in the order of the lines.
#[derive(Clone, Copy, Debug, PartialEq, Eq)]
pub enum Part {
    /// The one of a number of its family.
    Owner(Family, usize),
    /// Of the one of a number of its family: the attribute of a number among those of its kind.
    Said(Family, usize, Attribute, usize),
}

/// Whether a first word begins one of a family.
pub(crate) fn begins_word(family: Family, word: Keyword) -> bool
    ensures { result ≡ begins_word family word }
{
    match family {
        Family::Definition => matches!(word, Keyword::Config),
        Family::Choice => matches!(word, Keyword::Choice),
        Family::Block => word.opens(),
        Family::Comment => matches!(word, Keyword::Comment),
    }
}

/// Whether a line, by its first word, begins one of a family.
pub fn begins(family: Family, word: Option<Keyword>) -> bool
    ensures { result ≡ option_map_or (begins_word family) word false }
{
    match word {
        Some(word) => begins_word(family, word),
        None => false,
    }
}

/// Whether lines that say an attribute begin with a word.
pub fn is_of(attribute: Attribute, word: Keyword) -> bool
    ensures { result ≡ is_of attribute word }
{
    match attribute {
        Attribute::Type => is_type_word(word),
        Attribute::Prompt => takes_prompt(word),
        Attribute::Depends => matches!(word, Keyword::Depends),
        Attribute::Visible => matches!(word, Keyword::Visible),
        Attribute::Default => matches!(
            word,
            Keyword::Default | Keyword::DefBool | Keyword::DefTristate
        ),
        Attribute::Range => matches!(word, Keyword::Range),
        Attribute::Select => matches!(word, Keyword::Select),
        Attribute::Imply => matches!(word, Keyword::Imply),
        Attribute::Modules => is_modules_word(word),
    }
}

/// Whether a word gives a symbol its type.
fn is_type_word(word: Keyword) -> bool
    ensures { result ≡ is_type_word word }
{
    matches!(
        word,
        Keyword::Bool
            | Keyword::Tristate
            | Keyword::String
            | Keyword::Int
            | Keyword::Hex
            | Keyword::DefBool
            | Keyword::DefTristate
    )
}

/// Whether a word can say that its symbol switches modules.
fn is_modules_word(word: Keyword) -> bool
    ensures { result ≡ is_modules_word word }
{
    matches!(word, Keyword::Modules | Keyword::Option)
}

/// Whether a prompt can come after a word.
fn takes_prompt(word: Keyword) -> bool
    ensures { result ≡ takes_prompt word }
{
    matches!(
        word,
        Keyword::Bool
            | Keyword::Tristate
            | Keyword::String
            | Keyword::Int
            | Keyword::Hex
            | Keyword::Prompt
    )
}

/// Whether the second token is a text in quotes.
fn is_quoted_second(tokens: &[Token<'_>]) -> bool
    ensures { result ≡ is_quoted_second tokens.now }
{
    match tokens {
        [_, Token::Quoted(_), ..] => true,
        _ => false,
    }
}

/// Whether the second token is the word `modules`.
fn is_second_modules(tokens: &[Token<'_>]) -> bool
    ensures { result ≡ is_second_modules tokens.now }
{
    match tokens {
        [_, second, ..] => is_word(second, "modules"),
        _ => false,
    }
}

/// Whether tokens have what an attribute needs beside its first word: a prompt has a text in quotes, and `option` another
/// word.
fn is_whole(attribute: Attribute, word: Keyword, tokens: &[Token<'_>]) -> bool
    ensures { result ≡ is_whole attribute word tokens.now }
{
    match attribute {
        Attribute::Prompt => is_quoted_second(tokens),
        Attribute::Modules => !matches!(word, Keyword::Option) || is_second_modules(tokens),
        Attribute::Type
        | Attribute::Depends
        | Attribute::Visible
        | Attribute::Default
        | Attribute::Range
        | Attribute::Select
        | Attribute::Imply => true,
    }
}

/// Whether a line says an attribute.
pub fn says(attribute: Attribute, line: &Line<'_>) -> bool
    ensures { result ≡ says attribute line.now }
{
    match read_keyword(line) {
        Some(word) => is_of(attribute, word) && is_whole(attribute, word, line.tokens()),
        None => false,
    }
}
