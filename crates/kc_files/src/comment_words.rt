//! Comments that say in other words that a symbol is not set.

ghost use Rattle.std.specs.Prelude.{◌≡◌, IfOk, map, option_map};
ghost use Rattle.std.specs.Str.{bytes_eq};
ghost use Rattle.kc_files.specs.ReadingSteps.{after};
ghost use Rattle.kc_files.specs.CommentWords.{is_unset_line, name_before, name_meant, say_unset, unset_line, words_in};

use crate::beginning::after;
use crate::config_lines::is_trailing;
use std::alloc::{AllocError, Global};

/// The words of a text: what is between spaces, tabs and carriage returns.
fn words_in<'c>(alloc: Global, text: &'c [u8]) -> Result<Vec<&'c [u8]>, AllocError>
    ensures { IfOk result (λ words. map (λ word. word.now) words.items ≡ words_in text.now) }
{
    text.split(|byte| is_trailing(*byte))
        .filter(|word| !word.is_empty())
        .collect(alloc)
}

/// Whether a word is this one.
fn is_word(word: &[u8], wanted: &[u8]) -> bool
    ensures { result ≡ bytes_eq word.now wanted.now }
{
    word == wanted
}

/// Whether words say that something is not set.
fn say_unset(words: &[&[u8]]) -> bool
    ensures { result ≡ say_unset (map (λ word. word.now) words.now) }
{
    match words {
        [first, second, third] => {
            is_word(first, b"is") && is_word(second, b"not") && is_word(third, b"set")
        }
        [first, second] => {
            is_word(first, b"is") && is_word(second, b"unset")
                || is_word(first, b"not") && is_word(second, b"set")
        }
        _ => false,
    }
}

/// The name before words that say that it is not set.
fn name_before<'c>(prefix: &[u8], words: &[&'c [u8]]) -> Option<&'c [u8]>
    ensures { option_map (λ name. name.now) result ≡ name_before prefix.now (map (λ word. word.now) words.now) }
{
    let (first, others) = words.split_first()?;
    if say_unset(others) {
        return after(prefix, first);
    }
    None
}

/// Whether a line says that a name is not set, so that it is no comment. It may have blanks at its end.
fn is_unset_line(prefix: &[u8], name: &[u8], line: &[u8]) -> bool
    ensures { result ≡ is_unset_line prefix.now name.now line.now }
{
    match after_unset(prefix, name, line) {
        Some(rest) => rest.iter().all(|byte| is_trailing(*byte)),
        None => false,
    }
}

/// What comes after `# CONFIG_A is not set` in a line that begins so.
#[tactic(auto, using(crate::proofs::AfterLaws::unset_parts))]
fn after_unset<'c>(prefix: &[u8], name: &[u8], line: &'c [u8]) -> Option<&'c [u8]>
    ensures { option_map (λ rest. rest.now) result ≡ after (unset_line prefix.now name.now) line.now }
{
    let named = after(prefix, after(b"# ", line)?)?;
    after(b" is not set", after(name, named)?)
}

/// The name in a comment that is likely meant as a line `# CONFIG_A is not set`, by the prefix of names: it has other
/// blanks, or says `is unset` or `not set`.
///
/// # Errors
///
/// `AllocError` where memory is refused.
pub(crate) fn name_meant<'c>(
    alloc: Global,
    prefix: &[u8],
    line: &'c [u8],
) -> Result<Option<&'c [u8]>, AllocError>
    ensures { IfOk result (λ name. option_map (λ n. n.now) name ≡ name_meant prefix.now line.now) }
{
    let Some(comment) = after(b"#", line) else {
        return Ok(None);
    };
    let words = words_in(alloc, comment)?;
    match name_before(prefix, words.as_slice()) {
        Some(name) if !is_unset_line(prefix, name, line) => Ok(Some(name)),
        Some(_) | None => Ok(None),
    }
}
