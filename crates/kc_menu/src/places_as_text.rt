//! Where lines are, their help texts, and the names on them, as texts.

ghost use Rattle.std.specs.Prelude.{◌≡◌, IfOk, option_map};
ghost use Rattle.std.specs.String.{string_bytes};
ghost use Rattle.kc_lines.specs.Attributes.{last_help};
ghost use Rattle.kc_menu.specs.Objects.{wanted};

use crate::help::Help;
use kc_lines::{help_of, push_place};
use kc_statement::{Keyword, read_keyword};
use kc_text::{Line, Token};
use std::alloc::{AllocError, Global};

/// The place of a line, `PATH:LINE`.
pub(crate) fn place_text(
    alloc: Global,
    line: Option<&Line<'_>>,
) -> Result<Option<String>, AllocError> {
    let Some(line) = line else {
        return Ok(None);
    };
    let mut text = String::new(alloc);
    push_place(&mut text, line)?;
    Ok(Some(text))
}

/// The help text among attribute lines, where it is wanted.
pub(crate) fn help_text(
    alloc: Global,
    help: Help,
    attributes: &[Line<'_>],
) -> Result<Option<String>, AllocError>
    ensures { IfOk result (λ o. option_map string_bytes o ≡ wanted help (last_help attributes.now)) }
{
    match help {
        Help::With => found_help(alloc, attributes),
        Help::Without => Ok(None),
    }
}

/// The help text among attribute lines.
fn found_help(alloc: Global, attributes: &[Line<'_>]) -> Result<Option<String>, AllocError>
    ensures { IfOk result (λ o. option_map string_bytes o ≡ last_help attributes.now) }
{
    match help_of(attributes) {
        Some(text) => Ok(Some(text.to_text(alloc)?.into_string())),
        None => Ok(None),
    }
}

/// The name that comes after the first word of a line.
fn name_on<'l>(line: &'l Line<'_>) -> Option<&'l str> {
    match line.tokens().get(1)? {
        Token::Word(word) | Token::Expanded(word) => Some(word.as_str()),
        Token::Quoted(_) | Token::Operator(_) => None,
    }
}

/// Whether a line begins with the word `menuconfig`.
pub(crate) fn is_menuconfig(line: &Line<'_>) -> bool {
    match line.tokens().first() {
        Some(Token::Word(word)) => word.as_str() == "menuconfig",
        _ => false,
    }
}

/// The names on the attribute lines of a first word, `select` or `imply`, in the order of the lines.
pub(crate) fn names_after<'l>(
    alloc: Global,
    attributes: &'l [Line<'_>],
    keyword: Keyword,
) -> Result<Vec<&'l str>, AllocError> {
    let mut names = Vec::new(alloc);
    for line in attributes {
        if read_keyword(line) == Some(keyword) {
            if let Some(name) = name_on(line) {
                names.push(name)?;
            }
        }
    }
    Ok(names)
}
