//! What is said of a word or a form that is unsupported (K20).

use crate::expressions::is_expression;
use crate::lines::Suspect;
use crate::messages::FormMessage;
use crate::piece::texts;
use crate::said::{Said, Unsaid};
use crate::spelling::{begins_comment, first_word, push_in_quotes, tokens_text, written_text};
use kc_statement::{Keyword, is_word, read_keyword};
use kc_text::Token;

/// The words that are unsupported, as first words or after `option`, each with what is to be done.
static WORDS: [(&str, &str); 8] = [
    (
        "rsource",
        "write `source` and the path from the working directory",
    ),
    ("osource", "write `source`, of a file that is there"),
    (
        "orsource",
        "write `source` and the path from the working directory, of a file that is there",
    ),
    ("def_int", "write `int`, and `default` on a line of its own"),
    ("def_hex", "write `hex`, and `default` on a line of its own"),
    (
        "def_string",
        "write `string`, and `default` on a line of its own",
    ),
    (
        "option env",
        "write `default \"$(NAME)\"`, and pass NAME=VALUE",
    ),
    ("option defconfig_list", "leave it out"),
];

/// What is said of a form that is unsupported in this place, and nothing of another.
pub(crate) fn explain_unsupported(suspect: &Suspect<'_, '_, '_>) -> Said {
    let tokens = suspect.line.tokens();
    let keyword = read_keyword(suspect.line).ok_or(Unsaid::Nothing)?;
    let (_, rest) = tokens.split_first().ok_or(Unsaid::Nothing)?;
    let wants_text = keyword == Keyword::Choice || keyword.wants_quotes();
    match keyword {
        _ if wants_text && rest.first().is_some_and(begins_comment) => {
            suspect.say(FormMessage::NoComment.row(), &texts!())
        }
        Keyword::Unsupported => fixed_words(suspect, tokens.get(..1).unwrap_or(&[])),
        Keyword::Option => fixed_words(suspect, tokens.get(..2).unwrap_or(&[])),
        Keyword::Depends => condition_words(suspect, rest),
        Keyword::Choice if !rest.is_empty() => {
            let name = tokens_text(suspect.statements.alloc, rest)?;
            suspect.say(FormMessage::NamedChoice.row(), &texts!(text: name.as_str()))
        }
        _ if starts_unquoted(rest) && keyword.wants_quotes() => {
            unquoted_words(suspect, keyword, rest)
        }
        Keyword::Tristate if suspect.owner() == Some(Keyword::Choice) => {
            let choice = suspect.statements.statement_before(suspect.at);
            let choice = choice.ok_or(Unsaid::Nothing)?;
            suspect.say_after(FormMessage::TristateOfChoice.row(), &texts!(), choice)
        }
        Keyword::Menu | Keyword::Choice => in_choice(suspect),
        _ => Err(Unsaid::Nothing),
    }
}

/// Whether tokens begin with an unquoted word.
fn starts_unquoted(tokens: &[Token<'_>]) -> bool {
    matches!(tokens.first(), Some(Token::Word(_) | Token::Expanded(_)))
}

/// What is said of words that are unsupported.
fn fixed_words(suspect: &Suspect<'_, '_, '_>, tokens: &[Token<'_>]) -> Said {
    let text = tokens_text(suspect.statements.alloc, tokens)?;
    let text = text.as_str();
    let form = form_for(text).ok_or(Unsaid::Nothing)?;
    suspect.say(
        FormMessage::UnsupportedWord.row(),
        &texts!(text: text, form: form),
    )
}

/// What to write in place of words that are unsupported.
fn form_for(text: &str) -> Option<&'static str> {
    for (words, form) in &WORDS {
        if *words == text {
            return Some(*form);
        }
    }
    None
}

/// What is said of a condition of `depends on`, where there is one.
fn condition_words(suspect: &Suspect<'_, '_, '_>, rest: &[Token<'_>]) -> Said {
    let alloc = suspect.statements.alloc;
    let mut parts = rest.splitn(2, |token| is_word(token, "if"));
    let (Some(needed), Some(condition)) = (parts.next(), parts.next()) else {
        return Err(Unsaid::Nothing);
    };
    let is_needed = match needed {
        [first, needed @ ..] => is_word(first, "on") && is_expression(needed),
        [] => false,
    };
    let is_readable = is_needed && is_expression(condition);
    let written = (
        written_text(alloc, needed)?,
        written_text(alloc, condition)?,
    );
    let (Some(needed), Some(other), true) = (written.0, written.1, is_readable) else {
        return suspect.say(FormMessage::AnyCondition.row(), &texts!());
    };
    let texts = texts!(text: needed.as_str(), other: other.as_str());
    suspect.say(FormMessage::ConditionOfDepends.row(), &texts)
}

/// What is said of a prompt, a title or a path without quotes.
fn unquoted_words(suspect: &Suspect<'_, '_, '_>, keyword: Keyword, rest: &[Token<'_>]) -> Said {
    let alloc = suspect.statements.alloc;
    let kind = kind_of_text(keyword);
    let texts = texts!(kind: kind, word: first_word(suspect.line));
    let has_condition = kind == "prompt";
    if has_condition && rest.first().is_some_and(|token| is_word(token, "if")) {
        return suspect.say(FormMessage::IfForPrompt.row(), &texts);
    }
    let mut parts = rest.splitn(2, |token| is_word(token, "if"));
    let (text, condition) = match (parts.next(), parts.next()) {
        (Some(text), Some(condition)) if has_condition && is_expression(condition) => {
            (text, condition)
        }
        _ => (rest, rest.get(..0).unwrap_or(rest)),
    };
    let is_one_path = keyword != Keyword::Source || rest.len() == 1;
    let written = (written_text(alloc, text)?, written_text(alloc, condition)?);
    let (Some(text), Some(other), true) = (written.0, written.1, is_one_path) else {
        return suspect.say(FormMessage::AnyUnquoted.row(), &texts);
    };
    let mut quoted = String::new(alloc);
    push_in_quotes(&mut quoted, text.as_str())?;
    let texts = texts!(text: quoted.as_str(), other: other.as_str(), ..texts);
    let message = if condition.is_empty() {
        FormMessage::Unquoted
    } else {
        FormMessage::UnquotedIf
    };
    suspect.say(message.row(), &texts)
}

/// What the text is that a statement or an attribute has in quotes.
fn kind_of_text(keyword: Keyword) -> &'static str {
    match keyword {
        Keyword::Menu | Keyword::Comment | Keyword::MainMenu => "title",
        Keyword::Source => "path",
        _ => "prompt",
    }
}

/// What is said of a menu or a choice in a choice, and nothing outside one.
fn in_choice(suspect: &Suspect<'_, '_, '_>) -> Said {
    let choice = suspect.statements.choice(suspect.at);
    let choice = choice.ok_or(Unsaid::Nothing)?;
    let line = suspect.statements.get(choice)?.number();
    let text = tokens_text(suspect.statements.alloc, suspect.line.tokens())?;
    let texts = texts!(text: text.as_str(), line: line);
    suspect.say_after(FormMessage::InChoice.row(), &texts, choice)
}
