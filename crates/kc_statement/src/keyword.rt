//! What a line is by its first word.

ghost use Rattle.std.specs.Prelude.{◌≡◌, false, length};
ghost use Rattle.std.specs.Option.{option_map_or};
ghost use Rattle.kc_statement.specs.Keywords.{first_keyword, keyword_named, keyword_of, is_attribute_word, is_choice_attribute, is_config, is_config_word, is_opener_word, is_closer_word, is_end_of, takes, wants_quotes};

use kc_text::{Line, LineKind, Token};

/// The first word of a statement or an attribute (kconfig-language.rst, "Menu entries" and "Menu attributes").
#[derive(Clone, Copy, Debug, PartialEq, Eq)]
pub enum Keyword {
    /// `config` and `menuconfig`
    Config,
    Menu,
    EndMenu,
    If,
    EndIf,
    Choice,
    EndChoice,
    Comment,
    MainMenu,
    /// `source`, where it was not followed.
    Source,
    Bool,
    Tristate,
    String,
    Int,
    Hex,
    DefBool,
    DefTristate,
    Prompt,
    Default,
    Range,
    Depends,
    Visible,
    Select,
    Imply,
    Modules,
    Option,
    Optional,
    /// `help` and `---help---`
    Help,
    /// A word of Kconfig that is unsupported.
    Unsupported,
}

/// The keyword that a word is. Its length comes first, which leaves few words to compare it with; of these the frequent
/// ones come first.
fn keyword_named(word: &str) -> Option<Keyword>
    ensures { result ≡ keyword_named word.now }
{
    match word.len() {
        2 => match word {
            "if" => Some(Keyword::If),
            _ => None,
        }
        3 => match word {
            "int" => Some(Keyword::Int),
            "hex" => Some(Keyword::Hex),
            _ => None,
        }
        4 => match word {
            "help" => Some(Keyword::Help),
            "bool" => Some(Keyword::Bool),
            "menu" => Some(Keyword::Menu),
            _ => None,
        }
        5 => match word {
            "endif" => Some(Keyword::EndIf),
            "imply" => Some(Keyword::Imply),
            "range" => Some(Keyword::Range),
            _ => None,
        }
        6 => named_by_six(word),
        7 => named_by_seven(word),
        8 => named_by_eight(word),
        9 => match word {
            "endchoice" => Some(Keyword::EndChoice),
            _ => None,
        }
        10 => named_by_ten(word),
        12 => match word {
            "def_tristate" => Some(Keyword::DefTristate),
            _ => None,
        }
        _ => None,
    }
}

/// The keyword of six bytes that a word is.
fn named_by_six(word: &str) -> Option<Keyword>
    requires { length word.now ≡ 6 }
    ensures { result ≡ keyword_named word.now }
{
    match word {
        "config" => Some(Keyword::Config),
        "select" => Some(Keyword::Select),
        "prompt" => Some(Keyword::Prompt),
        "option" => Some(Keyword::Option),
        "source" => Some(Keyword::Source),
        "string" => Some(Keyword::String),
        "choice" => Some(Keyword::Choice),
        _ => None,
    }
}

/// The keyword of seven bytes that a word is.
fn named_by_seven(word: &str) -> Option<Keyword>
    requires { length word.now ≡ 7 }
    ensures { result ≡ keyword_named word.now }
{
    match word {
        "depends" => Some(Keyword::Depends),
        "default" => Some(Keyword::Default),
        "endmenu" => Some(Keyword::EndMenu),
        "comment" => Some(Keyword::Comment),
        "visible" => Some(Keyword::Visible),
        "modules" => Some(Keyword::Modules),
        "rsource" | "osource" | "def_int" | "def_hex" => Some(Keyword::Unsupported),
        _ => None,
    }
}

/// The keyword of eight bytes that a word is.
fn named_by_eight(word: &str) -> Option<Keyword>
    requires { length word.now ≡ 8 }
    ensures { result ≡ keyword_named word.now }
{
    match word {
        "tristate" => Some(Keyword::Tristate),
        "def_bool" => Some(Keyword::DefBool),
        "mainmenu" => Some(Keyword::MainMenu),
        "optional" => Some(Keyword::Optional),
        "orsource" => Some(Keyword::Unsupported),
        _ => None,
    }
}

/// The keyword of ten bytes that a word is.
fn named_by_ten(word: &str) -> Option<Keyword>
    requires { length word.now ≡ 10 }
    ensures { result ≡ keyword_named word.now }
{
    match word {
        "menuconfig" => Some(Keyword::Config),
        "---help---" => Some(Keyword::Help),
        "def_string" => Some(Keyword::Unsupported),
        _ => None,
    }
}

/// Whether a word begins the definition of a symbol.
fn begins_definition(word: &str) -> bool
    ensures { result ≡ option_map_or is_config_word (keyword_named word.now) false }
{
    word == "config" || word == "menuconfig"
}

/// The keyword that the first token is.
fn first_keyword(tokens: &[Token<'_>]) -> Option<Keyword>
    ensures { result ≡ first_keyword tokens.now }
{
    match tokens.first()? {
        Token::Word(word) => keyword_named(word.as_str()),
        Token::Expanded(_) => None,
        Token::Quoted(_) => None,
        Token::Operator(_) => None,
    }
}

/// What a line is by its first word: the keyword that this is, unquoted and without reference (kconfig-language.rst,
/// "Menu entries" and "Menu attributes"). An end of file is nothing.
pub fn read_keyword(line: &Line<'_>) -> Option<Keyword>
    ensures { result ≡ keyword_of line.now }
{
    match line.kind() {
        LineKind::Statement => first_keyword(line.tokens()),
        LineKind::EndOfFile => None,
    }
}

/// Whether the first word of a line is `config` or `menuconfig`.
fn starts_config(tokens: &[Token<'_>]) -> bool
    ensures { result ≡ option_map_or is_config_word (first_keyword tokens.now) false }
{
    match tokens.first() {
        Some(Token::Word(word)) => begins_definition(word.as_str()),
        _ => false,
    }
}

/// Whether a line defines a symbol, by its first word. It asks for no other keyword, since each line is asked.
pub(crate) fn is_config(line: &Line<'_>) -> bool
    ensures { result ≡ is_config line.now }
{
    match line.kind() {
        LineKind::Statement => starts_config(line.tokens()),
        LineKind::EndOfFile => false,
    }
}

impl Keyword {
    /// Whether its line belongs to the statement before it (kconfig-language.rst, "Menu attributes").
    pub fn is_attribute(self) -> bool
        ensures { result ≡ is_attribute_word self }
    {
        match self {
            Keyword::Bool
            | Keyword::Tristate
            | Keyword::String
            | Keyword::Int
            | Keyword::Hex
            | Keyword::DefBool
            | Keyword::DefTristate
            | Keyword::Prompt
            | Keyword::Default
            | Keyword::Range
            | Keyword::Depends
            | Keyword::Visible
            | Keyword::Select
            | Keyword::Imply
            | Keyword::Modules
            | Keyword::Option
            | Keyword::Optional
            | Keyword::Help => true,
            Keyword::Config
            | Keyword::Menu
            | Keyword::EndMenu
            | Keyword::If
            | Keyword::EndIf
            | Keyword::Choice
            | Keyword::EndChoice
            | Keyword::Comment
            | Keyword::MainMenu
            | Keyword::Source
            | Keyword::Unsupported => false,
        }
    }

    /// Whether its line opens a block (kconfig-language.rst, "Menu structure").
    pub fn opens(self) -> bool
        ensures { result ≡ is_opener_word self }
    {
        matches!(self, Keyword::Menu | Keyword::If | Keyword::Choice)
    }

    /// Whether its line closes a block (kconfig-language.rst, "Menu structure").
    pub fn closes(self) -> bool
        ensures { result ≡ is_closer_word self }
    {
        matches!(self, Keyword::EndMenu | Keyword::EndIf | Keyword::EndChoice)
    }

    /// Whether it closes what an opener opens (kconfig-language.rst, "Menu structure").
    pub fn is_end_of(self, opener: Keyword) -> bool
        ensures { result ≡ is_end_of self opener }
    {
        match self {
            Keyword::EndMenu => opener == Keyword::Menu,
            Keyword::EndIf => opener == Keyword::If,
            Keyword::EndChoice => opener == Keyword::Choice,
            _ => false,
        }
    }

    /// Whether a choice takes it.
    fn is_of_choice(self) -> bool
        ensures { result ≡ is_choice_attribute self }
    {
        matches!(
            self,
            Keyword::Bool
                | Keyword::Prompt
                | Keyword::Default
                | Keyword::Depends
                | Keyword::Optional
                | Keyword::Help
        )
    }

    /// Whether the statement of this word takes an attribute (kconfig-language.rst, "Menu attributes").
    pub fn takes(self, attribute: Keyword) -> bool
        ensures { result ≡ takes self attribute }
    {
        match self {
            Keyword::Config => {
                attribute.is_attribute()
                    && attribute != Keyword::Visible
                    && attribute != Keyword::Optional
            }
            Keyword::Choice => attribute.is_of_choice(),
            Keyword::Menu => matches!(attribute, Keyword::Depends | Keyword::Visible),
            Keyword::Comment => matches!(attribute, Keyword::Depends),
            _ => false,
        }
    }

    /// Whether an unquoted word may not come directly after it, where a prompt, a title or a path is expected
    /// (kconfig-language.rst, "Menu attributes").
    pub fn wants_quotes(self) -> bool
        ensures { result ≡ wants_quotes self }
    {
        matches!(
            self,
            Keyword::Bool
                | Keyword::Tristate
                | Keyword::String
                | Keyword::Int
                | Keyword::Hex
                | Keyword::Prompt
                | Keyword::Menu
                | Keyword::Comment
                | Keyword::MainMenu
                | Keyword::Source
        )
    }
}
