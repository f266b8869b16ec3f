//! What is said of an attribute that the nearest statement does not take (K06).

use crate::lines::Suspect;
use crate::messages::LineMessage;
use crate::piece::texts;
use crate::said::{Said, Unsaid};
use crate::spelling::{first_word, tokens_text};
use crate::statements::is_end;
use kc_statement::{Keyword, read_keyword};
use std::alloc::{AllocError, Global};

/// The statements that take attributes, each with how it is written.
static OWNERS: [(Keyword, &str); 4] = [
    (Keyword::Config, "config"),
    (Keyword::Choice, "choice"),
    (Keyword::Menu, "menu"),
    (Keyword::Comment, "comment"),
];

/// What is said of an attribute that the statement before it does not take, and nothing of one that it takes.
pub(crate) fn explain_stray(suspect: &Suspect<'_, '_, '_>) -> Said {
    let attribute = read_keyword(suspect.line).ok_or(Unsaid::Nothing)?;
    if suspect.owner().is_some_and(|owner| owner.takes(attribute)) {
        return Err(Unsaid::Nothing);
    }
    let alloc = suspect.statements.alloc;
    let list = owners_of(alloc, attribute)?;
    let texts = texts!(word: first_word(suspect.line), list: list.as_str());
    let Some(number) = suspect.statements.statement_before(suspect.at) else {
        return suspect.say(LineMessage::StrayAlone.row(), &texts);
    };
    let statement = suspect.statements.get(number)?;
    if is_end(statement) {
        let texts = texts!(path: statement.path(), ..texts);
        return suspect.say(LineMessage::StrayAfterEnd.row(), &texts);
    }
    let text = tokens_text(alloc, statement.tokens())?;
    let texts = texts!(text: text.as_str(), ..texts);
    suspect.say_after(LineMessage::StrayAfter.row(), &texts, number)
}

/// The statements that take an attribute.
fn owners_of(alloc: Global, attribute: Keyword) -> Result<String, AllocError> {
    let mut words = String::new(alloc);
    let owners = OWNERS.iter().filter(|row| row.0.takes(attribute));
    let count = OWNERS.iter().filter(|row| row.0.takes(attribute)).count();
    for (index, (_, name)) in owners.enumerate() {
        words.push_str(match index.saturating_add(1) {
            1 => "",
            last if last == count => " and ",
            _ => ", ",
        })?;
        words.push_str(name)?;
    }
    Ok(words)
}
