//! What is said of a line that begins with no known word (K04).

use crate::help_texts::empty_help_before;
use crate::indentation::{help_indentation, indentation, line_of};
use crate::lines::Suspect;
use crate::messages::LineMessage;
use crate::nearest::{meant_type, nearest_keyword};
use crate::piece::texts;
use crate::said::Said;
use crate::spelling::tokens_text;
use kc_text::{Line, Token};

/// How a line after a help text is indented.
#[derive(Clone, Copy)]
struct AfterHelp {
    /// The number of the `help` line.
    line: usize,
    /// The indentation of the `help` line, of the text after it, and of the line.
    of_help: usize,
    of_text: usize,
    of_line: usize,
}

/// What is said of a line that begins with no known word, by the text of its file.
pub(crate) fn explain_unknown(suspect: &Suspect<'_, '_, '_>, text: &str) -> Said {
    let first = suspect.line.tokens().get(..1).unwrap_or(&[]);
    let message = match first.first() {
        Some(Token::Word(word)) => return explain_word(suspect, word.as_str(), text),
        Some(Token::Operator(_)) => LineMessage::NoKeyword,
        Some(Token::Quoted(_)) => LineMessage::QuotedKeyword,
        Some(Token::Expanded(_)) => LineMessage::ExpandedKeyword,
        None => LineMessage::NoWord,
    };
    let word = tokens_text(suspect.statements.alloc, first)?;
    suspect.say(message.row(), &texts!(word: word.as_str()))
}

/// How a line is indented, where a help text is before it in the same file and it is indented less than that.
fn after_help(suspect: &Suspect<'_, '_, '_>, text: &str) -> Option<AfterHelp> {
    let line = suspect.line;
    let help = suspect.statements.lines.get(suspect.at.checked_sub(1)?)?;
    if help.run() != line.run() || help.help().is_none() {
        return None;
    }
    let number = help.number();
    let after = AfterHelp {
        line: number,
        of_help: indentation(line_of(text, number)),
        of_text: help_indentation(text, number)?,
        of_line: indentation(line_of(text, line.number())),
    };
    (after.of_line < after.of_text).then_some(after)
}

/// What is said of an unknown word. After a help text it is one of that text, unless it is near a keyword and indented as
/// `help` is. After a `help` without a text it is one of the text, unless it is near a keyword and in small letters.
fn explain_word(suspect: &Suspect<'_, '_, '_>, word: &str, text: &str) -> Said {
    if word.starts_with("//") {
        return suspect.say(LineMessage::CommentSign.row(), &texts!(word: word));
    }
    let after = after_help(suspect, text);
    let alloc = suspect.statements.alloc;
    let help = empty_help_before(alloc, text, suspect.line.number())?;
    let is_small = !word.bytes().any(|byte| byte.is_ascii_uppercase());
    let wanted = match wanted_for(suspect.line, word) {
        wanted if word == "allnoconfig_y" => wanted,
        Some(_) if after.is_some_and(|after| after.of_line != after.of_help) => None,
        Some(_) if help.is_some() && !is_small => None,
        wanted => wanted,
    };
    match (wanted, after, help) {
        (Some(wanted), _, _) => {
            let texts = texts!(word: word, wanted: wanted);
            suspect.say(LineMessage::Misspelt.row(), &texts)
        }
        (None, Some(after), _) => {
            let (number, second) = (after.of_line, after.of_text);
            let texts = texts!(word: word, line: after.line, number: number, second: second);
            suspect.say(LineMessage::AfterHelp.row(), &texts)
        }
        (None, None, Some(line)) => {
            let texts = texts!(word: word, line: line);
            suspect.say(LineMessage::UnindentedHelp.row(), &texts)
        }
        (None, None, None) => suspect.say(LineMessage::NoKeyword.row(), &texts!(word: word)),
    }
}

/// What the first word of a line may have been meant as: a type of another language only where a prompt or nothing
/// follows.
fn wanted_for(line: &Line<'_>, word: &str) -> Option<&'static str> {
    let is_type = matches!(line.tokens(), [_] | [_, Token::Quoted(_), ..]);
    match meant_type(word) {
        _ if word == "allnoconfig_y" => Some("option allnoconfig_y"),
        Some(meant) if is_type => Some(meant),
        _ => nearest_keyword(word),
    }
}
