//! How a word in a line is read, which may be the name of a symbol.

ghost use Rattle.std.specs.Prelude.{◌≡◌, ◌≤◌, ◌<◌, not, codes, count_by, drop, length};
ghost use Rattle.std.specs.List.{prefix_len, take_while};
ghost use Rattle.kc_statement.specs.Forms.{is_word};
ghost use Rattle.kc_line_facts.specs.NameReadings.{first_place, is_bound, is_comparison, is_comparison_at, is_comparison_sign, is_compared, is_lone, is_of_text, is_of_tri, is_parenthesis, is_parenthesis_sign, is_place, is_whole_value, lone_len, reading_at, value_of};

use kc_lines::{Attribute, is_of};
use kc_statement::{Keyword, SymbolType, is_word};
use kc_text::{Operator, Token};
use kc_tree::SymId;

/// How the name of a symbol is read in a line, where it is not read as the value of that symbol.
#[derive(Clone, Copy, Debug, PartialEq, Eq)]
pub enum NameReading {
    /// As n, which the value of an undefined symbol is.
    No,
    /// As a text, the name itself.
    Text,
    /// As the text that its line gives a symbol.
    Default,
    /// As a symbol to select, which does not exist.
    Select,
    /// As a symbol to imply, which does not exist.
    Imply,
    /// As n, which a string, an int or a hex of this type is in a condition.
    Condition(SymbolType),
}

/// What the readings of the words in a line depend on, beside its tokens.
#[derive(Clone, Copy)]
pub(crate) struct LineContext {
    /// The symbol that the line belongs to.
    pub owner: Option<SymId>,
    pub keyword: Keyword,
    /// The type of the symbol that the line belongs to.
    pub kind: Option<SymbolType>,
    /// How many tokens the value of a default has that is one token, also in parentheses; 0 in all other lines.
    pub lone_len: usize,
}

/// The place of the first token of a line that can be the name of a symbol which the line uses.
fn first_place(word: Keyword) -> Option<usize>
    ensures { result ≡ first_place word }
{
    match word {
        Keyword::If | Keyword::Range | Keyword::DefBool | Keyword::DefTristate => Some(1),
        Keyword::Default | Keyword::Select | Keyword::Imply => Some(1),
        Keyword::Depends | Keyword::Visible | Keyword::Prompt => Some(2),
        Keyword::Bool | Keyword::Tristate | Keyword::String => Some(2),
        Keyword::Int | Keyword::Hex => Some(2),
        _ => None,
    }
}

/// Whether the token at a place of a line can be the name of a symbol that the line uses.
pub(crate) fn is_place(word: Keyword, place: usize) -> bool
    ensures { result ≡ is_place word place }
{
    match first_place(word) {
        Some(first) => first <= place,
        None => false,
    }
}

/// Whether a token is `(` or `)`.
fn is_parenthesis(token: &Token<'_>) -> bool
    ensures { result ≡ is_parenthesis token.now }
{
    match token {
        Token::Operator(operator) => matches!(operator, Operator::Open | Operator::Close),
        Token::Word(_) | Token::Expanded(_) | Token::Quoted(_) => false,
    }
}

/// The tokens after the first.
fn after_first<'l, 'a>(tokens: &'l [Token<'a>]) -> &'l [Token<'a>]
    ensures { result.now ≡ drop 1 tokens.entry.now }
{
    &tokens[tokens.len().min(1)..]
}

/// How many tokens are before `if`.
fn count_before_if(tokens: &[Token<'_>]) -> usize
    ensures count { result ≡ prefix_len (λ x. not (is_word (codes "if") x)) tokens.now }
    ensures within { result ≤ length tokens.now }
{
    tokens
        .iter()
        .take_while(|token| !is_word(token, "if"))
        .count()
}

/// The tokens before `if`.
fn before_if<'l, 'a>(tokens: &'l [Token<'a>]) -> &'l [Token<'a>]
    ensures { result.now ≡ take_while (λ x. not (is_word (codes "if") x)) tokens.entry.now }
{
    &tokens[..count_before_if(tokens)]
}

/// The tokens of the value of a default.
fn value_of<'l, 'a>(tokens: &'l [Token<'a>]) -> &'l [Token<'a>]
    ensures { result.now ≡ value_of tokens.entry.now }
{
    before_if(after_first(tokens))
}

/// How many tokens are no parentheses.
fn count_of_others(tokens: &[Token<'_>]) -> usize
    ensures { result ≡ count_by (λ x. not (is_parenthesis x)) tokens.now }
{
    tokens.iter().filter(|token| !is_parenthesis(token)).count()
}

/// Whether a value is one token, also in parentheses.
fn is_lone(value: &[Token<'_>]) -> bool
    ensures { result ≡ is_lone value.now }
{
    count_of_others(value) == 1
}

/// How many tokens the value of a default has that is one token, also in parentheses; 0 in all other lines.
pub(crate) fn lone_len(word: Keyword, tokens: &[Token<'_>]) -> usize
    ensures { result ≡ lone_len word tokens.now }
{
    let value = value_of(tokens);
    if is_of(Attribute::Default, word) && is_lone(value) {
        value.len()
    } else {
        0
    }
}

/// Whether a token is a sign of comparison.
fn is_comparison(token: &Token<'_>) -> bool
    ensures { result ≡ is_comparison token.now }
{
    match token {
        Token::Operator(operator) => is_comparison_sign(*operator),
        Token::Word(_) | Token::Expanded(_) | Token::Quoted(_) => false,
    }
}

/// Whether an operator is a sign of comparison.
fn is_comparison_sign(operator: Operator) -> bool
    ensures { result ≡ is_comparison_sign operator }
{
    match operator {
        Operator::Equal | Operator::NotEqual | Operator::Less => true,
        Operator::LessOrEqual | Operator::Greater | Operator::GreaterOrEqual => true,
        Operator::And | Operator::Or | Operator::Not | Operator::Open | Operator::Close => false,
    }
}

/// Whether the token at a place is a sign of comparison.
fn is_comparison_at(tokens: &[Token<'_>], place: usize) -> bool
    ensures { result ≡ is_comparison_at tokens.now place }
{
    match tokens.get(place) {
        Some(token) => is_comparison(token),
        None => false,
    }
}

/// Whether the token at a place is a side of a comparison.
fn is_compared(tokens: &[Token<'_>], place: usize) -> bool
    requires { place < length tokens.now }
    ensures { result ≡ is_compared tokens.now place }
{
    is_comparison_at(tokens, place + 1) || place >= 1 && is_comparison_at(tokens, place - 1)
}

impl LineContext {
    /// Whether the line belongs to a string, an int or a hex.
    fn is_of_text(&self) -> bool
        ensures { result ≡ is_of_text self.now }
    {
        match self.kind {
            Some(kind) => !kind.is_tri(),
            None => false,
        }
    }

    /// Whether the line belongs to a bool or a tristate.
    pub fn is_of_tri(&self) -> bool
        ensures { result ≡ is_of_tri self.now }
    {
        match self.kind {
            Some(kind) => kind.is_tri(),
            None => false,
        }
    }

    /// Whether the token at a place is the whole value of a default, or a parenthesis around it.
    pub fn is_whole_value(&self, place: usize) -> bool
        ensures { result ≡ is_whole_value self.now place }
    {
        1 <= place && place <= self.lone_len
    }

    /// Whether the token at a place is a bound of a range.
    fn is_bound(&self, place: usize) -> bool
        ensures { result ≡ is_bound self.now place }
    {
        is_of(Attribute::Range, self.keyword) && place <= 2
    }

    /// How the word at a place of the tokens is read.
    pub fn reading_at(&self, tokens: &[Token<'_>], place: usize) -> NameReading
        requires { place < length tokens.now }
        ensures { result ≡ reading_at self.now tokens.now place }
    {
        if is_of(Attribute::Select, self.keyword) && place == 1 {
            NameReading::Select
        } else if is_of(Attribute::Imply, self.keyword) && place == 1 {
            NameReading::Imply
        } else if self.is_of_text() && self.is_whole_value(place) {
            NameReading::Default
        } else if is_compared(tokens, place) || self.is_of_text() && self.is_bound(place) {
            NameReading::Text
        } else {
            NameReading::No
        }
    }
}
