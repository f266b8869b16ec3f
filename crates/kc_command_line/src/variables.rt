//! The variables that the words of a command line give, as `NAME=VALUE`.
ghost use Rattle.std.specs.Prelude.{◌≡◌, map, option_map, is_none, is_some, IfOk};
ghost use Rattle.std.specs.List.{filter, filter_map, list_all};
ghost use Rattle.kc_command_line.specs.Variables.{is_name, is_name_byte, variable_of};

use std::alloc::{AllocError, Global};

/// The words after the files of a subcommand.
#[derive(Drop)]
pub struct Words<'a> {
    /// Those that are `NAME=VALUE`, each as its name and its text.
    pub variables: Vec<(&'a str, &'a str)>,
    /// The others.
    pub others: Vec<&'a str>,
}

impl<'a> Words<'a> {
    /// Words as what each of them is, in their order.
    ///
    /// # Errors
    ///
    /// `AllocError` where memory is refused.
    pub fn of(alloc: Global, words: &[&'a str]) -> Result<Words<'a>, AllocError>
        ensures variables { IfOk result (λ r. map (λ v. (v.0.now, v.1.now)) r.variables.items ≡ filter_map variable_of (map (λ word. word.now) words.now)) }
        ensures others { IfOk result (λ r. r.others.items ≡ filter (λ word. is_none (variable_of word.now)) words.now) }
    {
        Ok(Words {
            variables: variables_of(alloc, words)?,
            others: others_of(alloc, words)?,
        })
    }
}

/// The variables among words, each as its name and its text.
fn variables_of<'a>(alloc: Global, words: &[&'a str]) -> Result<Vec<(&'a str, &'a str)>, AllocError>
    ensures { IfOk result (λ found. map (λ v. (v.0.now, v.1.now)) found.items ≡ filter_map variable_of (map (λ word. word.now) words.now)) }
{
    let mut variables = Vec::new(alloc);
    for word in words.iter().copied() {
        if let Some(variable) = variable(word) {
            variables.push(variable)?;
        }
    }
    Ok(variables)
}

/// The words that are no variables.
fn others_of<'a>(alloc: Global, words: &[&'a str]) -> Result<Vec<&'a str>, AllocError>
    ensures { IfOk result (λ found. found.items ≡ filter (λ word. is_none (variable_of word.now)) words.now) }
{
    words
        .iter()
        .copied()
        .filter(|word| !is_variable(*word))
        .collect(alloc)
}

/// Whether a word is `NAME=VALUE`.
pub(crate) fn is_variable(word: &str) -> bool
    ensures { result ≡ is_some (variable_of word.now) }
{
    variable(word).is_some()
}

/// The name and the text of a word: what is before its first `=`, if that is a name, and what is after it.
pub(crate) fn variable(word: &str) -> Option<(&str, &str)>
    ensures { option_map (λ v. (v.0.now, v.1.now)) result ≡ variable_of word.now }
{
    let (name, text) = word.split_once('=')?;
    is_name(name).then_some((name, text))
}

/// Whether a text is a name: ASCII letters, digits, `_` and `-`, at least one, the first not `-`.
fn is_name(text: &str) -> bool
    ensures { result ≡ is_name text.now }
{
    match text.as_bytes() {
        [] | [b'-', ..] => false,
        _ => has_name_bytes(text),
    }
}

fn has_name_bytes(text: &str) -> bool
    ensures { result ≡ list_all is_name_byte text.now }
{
    text.as_bytes().iter().all(|byte| is_name_byte(*byte))
}

fn is_name_byte(byte: u8) -> bool
    ensures { result ≡ is_name_byte byte }
{
    byte.is_ascii_alphanumeric() || byte == b'_' || byte == b'-'
}
