//! `select` and `imply` lines that name a member of a choice.

ghost use Rattle.std.specs.Prelude.{◌≡◌, ◌++◌, false, IfOk, OnOk, option_map};
ghost use Rattle.std.specs.Option.{option_map_or};
ghost use Rattle.kc_statement.specs.Names.{token_word};
ghost use Rattle.kc_line_facts.specs.SelectedMembers.{is_member_name, names_member, place_if, selected_members, selecting_of, selects_member};

use kc_lines::{Attribute, Family, LineIndex, says};
use kc_text::{Line, Token};
use kc_tree::Tree;
use std::alloc::{AllocError, Global};

/// An attribute line of a definition: the number of the definition, and that of the line among its attribute lines.
#[derive(Clone, Copy, Debug, PartialEq, Eq)]
pub struct AttributePlace {
    pub definition: usize,
    pub attribute: usize,
}

/// The word that a token is, also one that holds a reference.
pub fn token_word<'t>(token: &'t Token<'_>) -> Option<&'t str>
    ensures { option_map (λ word. word.now) result ≡ token_word token.now }
{
    match token {
        Token::Word(word) => Some(word.as_str()),
        Token::Expanded(word) => Some(word.as_str()),
        Token::Quoted(_) | Token::Operator(_) => None,
    }
}

/// Whether a word is the name of a member of a choice.
fn is_member_name(tree: &Tree, word: &str) -> bool
    ensures { result ≡ is_member_name tree.now word.now }
{
    match tree.find(word) {
        Some(symbol) => tree.choice_of(symbol).is_some(),
        None => false,
    }
}

/// Whether a token is the name of a member of a choice.
fn is_member(tree: &Tree, token: &Token<'_>) -> bool
    ensures { result ≡ option_map_or (is_member_name tree.now) (token_word token.now) false }
{
    match token {
        Token::Word(word) => is_member_name(tree, word.as_str()),
        Token::Expanded(word) => is_member_name(tree, word.as_str()),
        Token::Quoted(_) | Token::Operator(_) => false,
    }
}

/// Whether the second token is the name of a member of a choice.
fn names_member(tree: &Tree, tokens: &[Token<'_>]) -> bool
    ensures { result ≡ names_member tree.now tokens.now }
{
    match tokens {
        [_, second, ..] => is_member(tree, second),
        _ => false,
    }
}

/// Whether a line is a `select` or an `imply` of a member of a choice.
fn selects_member(tree: &Tree, line: &Line<'_>) -> bool
    ensures { result ≡ selects_member tree.now line.now }
{
    (says(Attribute::Select, line) || says(Attribute::Imply, line))
        && names_member(tree, line.tokens())
}

/// Adds an attribute line, if it is one of them.
fn add_place(
    found: &mut Vec<AttributePlace>,
    definition: usize,
    attribute: usize,
    is_one: bool,
) -> Result<(), AllocError>
    ensures { OnOk result (found.new.items ≡ found.old.items ++ place_if definition attribute is_one) }
{
    if is_one {
        found.push(AttributePlace {
            definition,
            attribute,
        })?;
    }
    Ok(())
}

/// Adds those of the attribute lines of the definition of a number.
fn add_selecting(
    found: &mut Vec<AttributePlace>,
    tree: &Tree,
    number: usize,
    lines: &[Line<'_>],
) -> Result<(), AllocError>
    ensures { OnOk result (found.new.items ≡ found.old.items ++ selecting_of tree.now number lines.now) }
{
    for (place, line) in lines.iter().enumerate() {
        add_place(found, number, place, selects_member(tree, line))?;
    }
    Ok(())
}

/// The `select` and `imply` lines of definitions that name a member of a choice, in their order. They have no effect
/// (docs/VALUES.md, "Choices").
///
/// # Errors
///
/// `AllocError` where memory is refused.
pub fn selected_members(
    alloc: Global,
    index: &LineIndex<'_, '_>,
    tree: &Tree,
) -> Result<Vec<AttributePlace>, AllocError>
    ensures { IfOk result (λ r. r.items ≡ selected_members index.now tree.now) }
{
    let mut found = Vec::new(alloc);
    for number in 0..tree.definitions().len() {
        let lines = index.attributes(Family::Definition, number);
        add_selecting(&mut found, tree, number, lines)?;
    }
    Ok(found)
}
