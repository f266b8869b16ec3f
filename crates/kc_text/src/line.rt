ghost use Rattle.std.specs.Prelude.{◌≡◌, None, MatchOption, Some};

use crate::help::HelpText;
use crate::text::TextRef;
use std::marker::Model;

/// An operator of an expression.
#[derive(Clone, Copy, Debug, PartialEq, Eq)]
pub enum Operator {
    /// `&&`
    And,
    /// `||`
    Or,
    /// `=`
    Equal,
    /// `!=`
    NotEqual,
    /// `<`
    Less,
    /// `<=`
    LessOrEqual,
    /// `>`
    Greater,
    /// `>=`
    GreaterOrEqual,
    /// `!`
    Not,
    /// `(`
    Open,
    /// `)`
    Close,
}

/// A token of a logical line.
#[derive(Debug, Drop)]
pub enum Token<'a> {
    /// A word without references: letters, digits, `_`, `.`, `/` and `-`.
    Word(TextRef<'a>),
    /// A word that has a reference, as its expanded text, which may be empty or have blanks. It is never a keyword.
    Expanded(TextRef<'a>),
    /// A text in quotes, without them, expanded.
    Quoted(TextRef<'a>),
    Operator(Operator),
}

/// The tokens of a line, lent by the arena that keeps them. Contracts see their list.
#[derive(Debug, Drop)]
pub(crate) struct LineTokens<'a> {
    tokens: &'a [Token<'a>],
}

impl<'a> Model for LineTokens<'a> {
    ghost use Rattle.std.specs.Prelude.{List};
    ghost use Rattle.kc_text.specs.declared.line.Token.{Token};

    ghost Value = { List Token };

    ghost view = { λ t. t.tokens.now };
}

impl<'a> LineTokens<'a> {
    /// A list of tokens that an arena keeps.
    pub(crate) fn new(tokens: &'a [Token<'a>]) -> LineTokens<'a>
        ensures { result ≡ tokens.entry.now }
    {
        LineTokens { tokens }
    }

    /// The tokens.
    pub(crate) fn as_slice(&self) -> &[Token<'a>]
        ensures { result.now ≡ self.now }
    {
        self.tokens
    }
}

/// What a logical line is.
#[derive(Clone, Copy, Debug, PartialEq, Eq)]
pub enum LineKind {
    /// A line with tokens.
    Statement,
    /// The end of a file. Its number is one more than the file's count of lines.
    EndOfFile,
}

/// One inclusion of a file: its path, as it was spelt, and the number of the inclusion.
#[derive(Debug, Drop)]
pub(crate) struct PlacedFile<'a> {
    pub(crate) path: TextRef<'a>,
    pub(crate) run: usize,
}

/// The content of a `help` line: its tokens, and the help text after it.
#[derive(Debug, Drop)]
pub(crate) struct HelpLine<'a> {
    pub(crate) tokens: LineTokens<'a>,
    pub(crate) text: HelpText<'a>,
}

/// The content of a line. A `help` line is rare, so the arena keeps its content, and lines are small.
#[derive(Debug, Drop)]
pub(crate) enum Content<'a> {
    Statement(LineTokens<'a>),
    Help(&'a HelpLine<'a>),
    EndOfFile,
}

/// A logical line of a Kconfig file. Contracts see it as the record of its parts.
#[derive(Debug, Drop)]
pub struct Line<'a> {
    file: &'a PlacedFile<'a>,
    number: usize,
    content: Content<'a>,
}

impl<'a> Model for Line<'a> {
    ghost use Rattle.kc_text.specs.LineValue.{LineValue};
    ghost use Rattle.kc_text.specs.LineContent.{kind_of, tokens_of, help_of};

    ghost Value = { LineValue };

    ghost view = { λ l. record { path = l.file.now.path; number = l.number; run = l.file.now.run; kind = kind_of l.content; tokens = tokens_of l.content; help = help_of l.content } };
}

impl<'a> Line<'a> {
    ghost use Rattle.kc_text.specs.LineContent.{kind_of, tokens_of, help_of};

    /// The line of a file with this number and content.
    pub(crate) fn new(file: &'a PlacedFile<'a>, number: usize, content: Content<'a>) -> Line<'a>
        ensures { result ≡ record { path = file.entry.now.path; number = number; run = file.entry.now.run; kind = kind_of content.entry; tokens = tokens_of content.entry; help = help_of content.entry } }
    {
        Line {
            file,
            number,
            content,
        }
    }

    /// The path of the line's file, as it was spelt.
    pub fn path(&self) -> &str
        ensures { result.now ≡ self.now.path }
    {
        self.file.path.as_str()
    }

    /// The number of the line in its file, counted from 1. Of lines that are joined it is that of the first.
    pub fn number(&self) -> usize
        ensures { result ≡ self.now.number }
    {
        self.number
    }

    /// The number of the inclusion of a file that the line belongs to. That of the top file is 0, and each `source` line
    /// that is followed includes a file and counts one more.
    pub fn run(&self) -> usize
        ensures { result ≡ self.now.run }
    {
        self.file.run
    }

    /// What the line is.
    pub fn kind(&self) -> LineKind
        ensures { result ≡ self.now.kind }
    {
        match &self.content {
            Content::Statement(_) => LineKind::Statement,
            Content::Help(_) => LineKind::Statement,
            Content::EndOfFile => LineKind::EndOfFile,
        }
    }

    /// The tokens of the line. An end of file has none.
    pub fn tokens(&self) -> &[Token<'a>]
        ensures { result.now ≡ self.now.tokens }
    {
        match &self.content {
            Content::Statement(tokens) => tokens.as_slice(),
            Content::Help(help) => help.tokens.as_slice(),
            Content::EndOfFile => &[],
        }
    }

    /// The help text after a `help` line.
    pub fn help(&self) -> Option<&HelpText<'a>>
        ensures { MatchOption result (self.now.help ≡ None) (λ text. self.now.help ≡ Some text.now) }
    {
        match &self.content {
            Content::Help(help) => Some(&help.text),
            Content::Statement(_) => None,
            Content::EndOfFile => None,
        }
    }
}
