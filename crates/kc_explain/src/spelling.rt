//! Lines, tokens and texts as messages quote them.

ghost use Rattle.std.specs.Prelude.{◌≤◌, length};

use kc_lines::shown_line;
use kc_text::{Line, Operator, Token};
use std::alloc::{AllocError, Global};

/// The most bytes of a text of a Kconfig that a message repeats.
const MOST_REPEATED: usize = 80;

/// The most bytes of a text that a message says to write.
const MOST_WRITTEN: usize = 160;

/// The first 80 bytes of a text, or fewer where these end within a character.
pub(crate) fn repeated(text: &str) -> &str
    ensures { length result.now ≤ 80 }
{
    &text[..text.floor_char_boundary(MOST_REPEATED)]
}

/// The first 160 bytes of a text, or fewer where these end within a character.
pub(crate) fn beginning(text: &str) -> &str
    ensures { length result.now ≤ 160 }
{
    &text[..text.floor_char_boundary(MOST_WRITTEN)]
}

/// Tokens as they are quoted: with a blank between them, but after `(` and `!` and before `)`, and of at most 160
/// bytes.
pub(crate) fn tokens_text(alloc: Global, tokens: &[Token<'_>]) -> Result<String, AllocError> {
    let text = whole_text(alloc, tokens)?;
    String::from_str(alloc, shown_line(text.as_str()))
}

/// Tokens as a line may have them in place of others: none where that has more than 160 bytes, or where a word has a
/// reference, whose name is not known.
pub(crate) fn written_text(
    alloc: Global,
    tokens: &[Token<'_>],
) -> Result<Option<String>, AllocError> {
    let text = whole_text(alloc, tokens)?;
    let has_reference = tokens
        .iter()
        .any(|token| matches!(token, Token::Expanded(_)));
    if has_reference || text.len() > MOST_WRITTEN {
        return Ok(None);
    }
    Ok(Some(text))
}

/// Tokens as they are quoted, however many.
fn whole_text(alloc: Global, tokens: &[Token<'_>]) -> Result<String, AllocError> {
    let mut text = String::new(alloc);
    let mut is_close = true;
    for token in tokens {
        if !is_close && !matches!(token, Token::Operator(Operator::Close)) {
            text.push(' ')?;
        }
        push_token(&mut text, token)?;
        is_close = matches!(token, Token::Operator(Operator::Open | Operator::Not));
    }
    Ok(text)
}

fn push_token(text: &mut String, token: &Token<'_>) -> Result<(), AllocError> {
    match token {
        Token::Word(word) | Token::Expanded(word) => text.push_str(word.as_str()),
        Token::Quoted(quoted) => push_in_quotes(text, quoted.as_str()),
        Token::Operator(operator) => text.push_str(sign_of(*operator)),
    }
}

/// Adds a text in quotes as a line of a Kconfig has it: with a backslash before each quote, backslash and dollar.
pub(crate) fn push_in_quotes(text: &mut String, quoted: &str) -> Result<(), AllocError> {
    text.push('"')?;
    for character in quoted.chars() {
        if matches!(character, '"' | '\\' | '$') {
            text.push('\\')?;
        }
        text.push(character)?;
    }
    text.push('"')
}

/// How an operator is written.
pub(crate) fn sign_of(operator: Operator) -> &'static str {
    match operator {
        Operator::And => "&&",
        Operator::Or => "||",
        Operator::Equal => "=",
        Operator::NotEqual => "!=",
        Operator::Less => "<",
        Operator::LessOrEqual => "<=",
        Operator::Greater => ">",
        Operator::GreaterOrEqual => ">=",
        Operator::Not => "!",
        Operator::Open => "(",
        Operator::Close => ")",
    }
}

/// Whether a token is a word that begins with `//`, as a comment in other languages.
pub(crate) fn begins_comment(token: &Token<'_>) -> bool {
    match token {
        Token::Word(word) => word.as_str().starts_with("//"),
        _ => false,
    }
}

/// The first word of a line, which is empty where it begins with none, or with one that holds a reference.
pub(crate) fn first_word<'l>(line: &'l Line<'_>) -> &'l str {
    match line.tokens().first() {
        Some(Token::Word(word)) => word.as_str(),
        _ => "",
    }
}
