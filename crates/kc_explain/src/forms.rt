//! What is said of a line that does not have the form of its statement (K05).

use crate::corrections::correction;
use crate::expressions::is_expression;
use crate::lines::Suspect;
use crate::messages::FormMessage;
use crate::piece::{texts, words_of};
use crate::said::{Said, Unsaid};
use crate::spelling::{begins_comment, first_word, tokens_text, written_text};
use kc_lines::Finding;
use kc_outline::form_mistake;
use kc_statement::{Keyword, Mistake, Wanted, is_word, read_keyword};
use kc_text::Token;
use std::alloc::AllocError;

/// How each statement and attribute is written, where E is an expression and `[..]` may be missing, as in
/// docs/LANGUAGE.md.
pub(crate) static FORMS: [(&str, &str); 29] = [
    ("config", "config NAME"),
    ("menuconfig", "menuconfig NAME"),
    ("menu", "menu \"title\""),
    ("endmenu", "endmenu"),
    ("if", "if E"),
    ("endif", "endif"),
    ("choice", "choice"),
    ("endchoice", "endchoice"),
    ("comment", "comment \"title\""),
    ("mainmenu", "mainmenu \"title\""),
    ("source", "source \"path\""),
    ("bool", "bool [\"prompt\" [if E]]"),
    ("tristate", "tristate [\"prompt\" [if E]]"),
    ("string", "string [\"prompt\" [if E]]"),
    ("int", "int [\"prompt\" [if E]]"),
    ("hex", "hex [\"prompt\" [if E]]"),
    ("def_bool", "def_bool E [if E]"),
    ("def_tristate", "def_tristate E [if E]"),
    ("prompt", "prompt \"text\" [if E]"),
    ("default", "default E [if E]"),
    ("range", "range TERM TERM [if E]"),
    ("depends", "depends on E"),
    ("visible", "visible if E"),
    ("select", "select NAME [if E]"),
    ("imply", "imply NAME [if E]"),
    ("modules", "modules"),
    ("option", "option modules"),
    ("optional", "optional"),
    ("help", "help"),
];

/// What is said of a line whose tokens are not those of its statement's form: what was wanted, and what was found
/// there.
pub(crate) fn explain_form(suspect: &Suspect<'_, '_, '_>) -> Said {
    let keyword = read_keyword(suspect.line).ok_or(Unsaid::Nothing)?;
    let is_of_choice = keyword == Keyword::Default && suspect.owner() == Some(Keyword::Choice);
    match mistake_of(suspect)? {
        Some(mistake) if !is_of_choice || is_in_condition(suspect, &mistake) => {
            explain_mistake(suspect, &mistake, is_of_choice)
        }
        None if !is_of_choice => Err(Unsaid::Nothing),
        _ => suspect.say(FormMessage::DefaultOfChoice.row(), &texts!()),
    }
}

/// Whether a mistake in the line of a choice's default comes after a name and `if`.
fn is_in_condition(suspect: &Suspect<'_, '_, '_>, mistake: &Mistake) -> bool {
    match suspect.line.tokens() {
        [_, Token::Word(_), word, condition @ ..] => {
            is_word(word, "if") && mistake.left <= condition.len()
        }
        _ => false,
    }
}

/// The first place in which a line goes another way than its form, if it does. That depends on no names. A `source` that
/// is as it is to be has no form, and no mistake.
fn mistake_of(suspect: &Suspect<'_, '_, '_>) -> Result<Option<Mistake>, AllocError> {
    match form_mistake(suspect.statements.alloc, suspect.line)? {
        Some(mistake) if mistake.left == 0 && mistake.wanted == Wanted::Nothing => Ok(None),
        found => Ok(found),
    }
}

/// What is said of a mistake in a line: what is wanted after which token, what is there, the form, and what is to be
/// written.
fn explain_mistake(suspect: &Suspect<'_, '_, '_>, mistake: &Mistake, is_of_choice: bool) -> Said {
    if mistake.wanted == Wanted::On {
        return explain_without_on(suspect);
    }
    let alloc = suspect.statements.alloc;
    let mut words = mistake_words(suspect, mistake)?;
    if let Some(form) = form_of(first_word(suspect.line), is_of_choice) {
        let texts = texts!(text: words.as_str(), form: form);
        words = words_of(alloc, FormMessage::WithForm.row(), &texts)?;
    }
    push_correction(&mut words, suspect, mistake)?;
    Ok(Finding::of_lines(alloc, words, &[suspect.at])?)
}

/// How a line with this first word is written, if that is known. The default of a choice has a form of its own.
fn form_of(word: &str, is_of_choice: bool) -> Option<&'static str> {
    if is_of_choice {
        return Some("default NAME [if E]");
    }
    match FORMS.iter().find(|row| row.0 == word) {
        Some((_, form)) => Some(*form),
        None => None,
    }
}

/// What is said of `depends` without `on`.
fn explain_without_on(suspect: &Suspect<'_, '_, '_>) -> Said {
    let rest = suspect.line.tokens().get(1..).unwrap_or(&[]);
    let has_comment = rest.iter().any(begins_comment);
    let text = match written_text(suspect.statements.alloc, rest)? {
        Some(text) if is_expression(rest) && !has_comment => text,
        _ => String::from_str(suspect.statements.alloc, "E")?,
    };
    suspect.say(FormMessage::WithoutOn.row(), &texts!(text: text.as_str()))
}

/// Adds what is to be written at a mistake, if that is certain.
fn push_correction(
    words: &mut String,
    suspect: &Suspect<'_, '_, '_>,
    mistake: &Mistake,
) -> Result<(), AllocError> {
    let alloc = suspect.statements.alloc;
    let tokens = suspect.line.tokens();
    let at = tokens.len().saturating_sub(mistake.left);
    let around = tokens.get(at.saturating_sub(1)..).unwrap_or(&[]);
    if around.iter().take(2).any(begins_comment) {
        let row = FormMessage::CommentBegins.row();
        return words.push_str(words_of(alloc, row, &texts!())?.as_str());
    }
    let Some(form) = correction(suspect, mistake)? else {
        return Ok(());
    };
    let texts = texts!(form: form.as_str());
    words.push_str(words_of(alloc, FormMessage::Instead.row(), &texts)?.as_str())
}

/// What is wanted after which token, and what is there.
fn mistake_words(suspect: &Suspect<'_, '_, '_>, mistake: &Mistake) -> Result<String, AllocError> {
    let alloc = suspect.statements.alloc;
    let tokens = suspect.line.tokens();
    let at = tokens.len().saturating_sub(mistake.left);
    let is_first = at == 1 && mistake.wanted != Wanted::Nothing;
    let message = match (is_first, at < tokens.len()) {
        (true, true) => FormMessage::WantsNot,
        (true, false) => FormMessage::WantsMore,
        (false, true) => FormMessage::WantedNot,
        (false, false) => FormMessage::WantedMore,
    };
    let before = tokens_text(alloc, tokens.get(at.saturating_sub(1)..at).unwrap_or(&[]))?;
    let found = tokens_text(alloc, tokens.get(at..at.saturating_add(1)).unwrap_or(&[]))?;
    let wanted = wanted_words(mistake.wanted);
    let texts = texts!(word: before.as_str(), wanted: wanted, text: found.as_str());
    words_of(alloc, message.row(), &texts)
}

/// The words for what a form wants.
fn wanted_words(wanted: Wanted) -> &'static str {
    match wanted {
        Wanted::Keyword => "the word of a statement",
        Wanted::Name => "a name (letters, digits and _, and not n, m, y or if)",
        Wanted::Title => "a title in quotes",
        Wanted::Path => "a path in quotes",
        Wanted::Prompt => "a prompt in quotes",
        Wanted::On => "`on`",
        Wanted::If => "`if`",
        Wanted::Setting => "`modules` or `allnoconfig_y`",
        Wanted::Operand => "a value (a word, a text in quotes, `!` or `(`)",
        Wanted::Term => "a word or a text in quotes",
        Wanted::Operator => "an operator or the end",
        Wanted::Joint => "`&&`, `||` or the end",
        Wanted::Close => "`)`",
        Wanted::Nothing => "the end of the line",
    }
}
