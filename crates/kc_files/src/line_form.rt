//! What a line of a `.config` says, before types are looked at.

ghost use Rattle.std.specs.Prelude.{◌≡◌, ◌<◌, option_map};
ghost use Rattle.std.specs.List.{list_all};
ghost use Rattle.kc_statement.specs.Names.{is_name_byte};
ghost use Rattle.kc_files.specs.LineForm.{is_word};
ghost use Rattle.kc_files.specs.ReadingSteps.{after, parts_of, parted, named, unset_name, assignment, text_form, line_form};

use kc_text::TextRef;
use std::str;

/// What a line says.
#[derive(Drop)]
pub(crate) enum LineForm<'a> {
    /// A name has a value.
    Assigned(TextRef<'a>, TextRef<'a>),
    /// A name is not set.
    Unset(TextRef<'a>),
    /// The line is empty or a comment.
    Nothing,
    /// The line is none of these, or not UTF-8.
    Malformed,
}

/// Whether a byte is one of a name: an ASCII letter, a digit or `_`.
fn is_name_byte(byte: u8) -> bool
    ensures { result ≡ is_name_byte byte }
{
    byte.is_ascii_alphanumeric() || byte == b'_'
}

/// Whether a text has the bytes of names alone: ASCII letters, digits and `_`.
pub fn has_name_bytes(text: &str) -> bool
    ensures { result ≡ list_all is_name_byte text.now }
{
    text.as_bytes().iter().all(|byte| is_name_byte(*byte))
}

/// Whether a text is one or more bytes of names.
fn is_word(text: &str) -> bool
    ensures { result ≡ is_word text.now }
{
    !text.is_empty() && has_name_bytes(text)
}

/// What comes after the beginning of a text.
fn behind<'a>(start: &str, text: &'a str) -> Option<&'a str>
    ensures { option_map (λ s. s.now) result ≡ after start.now text.now }
{
    text.strip_prefix(start)
}

/// A text in two parts, round the first such character.
fn parted(sign: char, text: &str) -> Option<(&str, &str)>
    requires ascii { sign < 128 }
    ensures { option_map (λ p. parts_of p.0.now p.1.now) result ≡ parted sign text.now }
{
    text.split_once(sign)
}

/// The name before the first such character, and what comes after that.
fn named(sign: char, text: &str) -> Option<(&str, &str)>
    requires ascii { sign < 128 }
    ensures { option_map (λ p. parts_of p.0.now p.1.now) result ≡ named sign text.now }
{
    let (name, rest) = parted(sign, text)?;
    is_word(name).then_some((name, rest))
}

/// The name that a line says is not set.
fn unset_name<'a>(prefix: &str, line: &'a str) -> Option<&'a str>
    ensures { option_map (λ s. s.now) result ≡ unset_name prefix.now line.now }
{
    let (name, rest) = named(' ', behind(prefix, behind("# ", line)?)?)?;
    (rest == "is not set").then_some(name)
}

/// The name and the value of a line that gives one.
fn assignment<'a>(prefix: &str, line: &'a str) -> Option<(&'a str, &'a str)>
    ensures { option_map (λ p. parts_of p.0.now p.1.now) result ≡ assignment prefix.now line.now }
{
    named('=', behind(prefix, line)?)
}

fn text_form<'a>(prefix: &str, line: &'a str) -> LineForm<'a>
    ensures { result ≡ text_form prefix.now line.now }
{
    match line.as_bytes() {
        [] => LineForm::Nothing,
        [b'#', ..] => match unset_name(prefix, line) {
            Some(name) => LineForm::Unset(TextRef::new(name)),
            None => LineForm::Nothing,
        },
        _ => match assignment(prefix, line) {
            Some((name, value)) => LineForm::Assigned(TextRef::new(name), TextRef::new(value)),
            None => LineForm::Malformed,
        },
    }
}

/// What a line says whose trailing blanks are dropped.
#[tactic(auto, using(crate::proofs::Utf8::text_facts))]
pub(crate) fn line_form<'a>(prefix: &str, line: &'a [u8]) -> LineForm<'a>
    ensures { result ≡ line_form prefix.now line.now }
{
    match str::from_utf8(line) {
        Ok(line) => text_form(prefix, line),
        Err(_) => LineForm::Malformed,
    }
}
