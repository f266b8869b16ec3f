//! What is said of a fault of a text.

use crate::characters::push_character;
use crate::dollars::{Dollar, dollar_of};
use crate::help_texts::push_of_help;
use crate::hints::hint_at;
use crate::items::{Found, Spot, find_item, spot_after};
use crate::meanings::fault_meaning;
use crate::messages::TextMessage;
use crate::piece::{Texts, texts, words_of};
use crate::variables::explain_ring;
use kc_lines::Explanation;
use kc_text::{StopKind, TextProblem};
use std::alloc::{AllocError, Global};

/// The most bytes of a line, after lines were joined (docs/SECURITY.md).
const MOST_LINE: usize = 65_536;

/// A line of a file, by its number, with the text of the file. The number 0 is that of the whole file, or of a variable
/// that is passed in, whose name is the path then.
#[derive(Clone, Copy)]
pub(crate) struct TextLine<'t> {
    pub alloc: Global,
    pub text: &'t str,
    pub path: &'t str,
    pub number: usize,
}

/// What is said of the fault of the line of a number in the file of a path, by the text of that file. Where the text
/// can't be had, it is empty. The number 0 is that of the whole file, or of a variable that is passed in, whose name is
/// the path then.
///
/// # Errors
///
/// `AllocError` where memory is refused.
pub fn explain_text(
    alloc: Global,
    text: &str,
    problem: &TextProblem,
    path: &str,
    number: usize,
) -> Result<Explanation, AllocError> {
    let line = TextLine {
        alloc,
        text,
        path,
        number,
    };
    let Some(found) = find_item(alloc, text, number)? else {
        return line.explain_whole(problem);
    };
    match problem {
        TextProblem::Limit => line.say(limit_of(&found), texts!(), number),
        TextProblem::BadCharacter => line.explain_character(&found, StopKind::BadCharacter),
        TextProblem::UnclosedQuote => line.explain_character(&found, StopKind::UnclosedQuote),
        TextProblem::BadReference => line.explain_dollar(&found),
        TextProblem::RecursiveVariable => explain_ring(&line, &found),
        TextProblem::MissingSource(_) | TextProblem::RecursiveSource => {
            line.plain(problem.number())
        }
    }
}

/// Which limit a line passes (K01).
fn limit_of(found: &Found<'_>) -> TextMessage {
    let text = found.text();
    if text.len() > MOST_LINE {
        TextMessage::LineLimit
    } else if found.value().is_none() && text.trim().starts_with("source") {
        TextMessage::SourceLimit
    } else {
        TextMessage::ReferenceLimit
    }
}

impl TextLine<'_> {
    /// What is said of a fault where no more is known: the words of its number, and the line.
    pub fn plain(&self, fault: u8) -> Result<Explanation, AllocError> {
        let words = String::from_str(self.alloc, fault_meaning(fault).unwrap_or(""))?;
        self.show(words, self.number)
    }

    /// A message, and the line of a number, if that is one.
    fn say(
        &self,
        message: TextMessage,
        texts: Texts<'_>,
        number: usize,
    ) -> Result<Explanation, AllocError> {
        self.show(words_of(self.alloc, message.row(), &texts)?, number)
    }

    /// Words, and the line of a number, if that is one.
    fn show(&self, words: String, number: usize) -> Result<Explanation, AllocError> {
        let mut explanation = Explanation::new(self.alloc, words);
        if number > 0 {
            explanation.name_line(self.alloc, "", self.path, number)?;
        }
        Ok(explanation)
    }

    /// What is said where no line is known: of a file as a whole, or of a variable that is passed in, the number is 0.
    fn explain_whole(&self, problem: &TextProblem) -> Result<Explanation, AllocError> {
        match problem {
            TextProblem::Limit if self.number == 0 => {
                self.say(TextMessage::FileLimit, texts!(), 0)
            }
            TextProblem::BadCharacter if self.number == 0 => {
                self.say(TextMessage::ValueCharacter, texts!(), 0)
            }
            _ => self.plain(problem.number()),
        }
    }

    /// Where the reading of joined lines stops for a reason, and their text from there on.
    fn stop<'f>(&self, found: &'f Found<'_>, kind: StopKind) -> Option<(Spot, &'f str)> {
        let stop = found.stop(kind)?;
        let before = found.text().len().saturating_sub(stop.len());
        Some((spot_after(self.text, self.number, before)?, stop))
    }

    /// What is said of a character that is not allowed (K02), or of a quote that its line does not close (K03).
    fn explain_character(
        &self,
        found: &Found<'_>,
        kind: StopKind,
    ) -> Result<Explanation, AllocError> {
        let (message, fault) = match kind {
            StopKind::UnclosedQuote => (TextMessage::UnclosedQuote, 3),
            _ => (TextMessage::Character, 2),
        };
        let Some((spot, stop)) = self.stop(found, kind) else {
            return self.plain(fault);
        };
        let message = if self.is_blank_after_backslash(spot, stop) {
            TextMessage::BlankAfterBackslash
        } else {
            message
        };
        let mut text = String::new(self.alloc);
        push_character(&mut text, stop)?;
        let place = self.place_words(spot)?;
        let texts = texts!(text: text.as_str(), place: place.as_str());
        let mut words = words_of(self.alloc, message.row(), &texts)?;
        let before = found.text().strip_suffix(stop).unwrap_or("");
        if let Some(hint) = hint_at(before, stop) {
            words.push_str(words_of(self.alloc, hint.row(), &texts!())?.as_str())?;
        }
        push_of_help(self.alloc, &mut words, self.text, self.number)?;
        self.show(words, spot.line)
    }

    /// Whether the reading of a line stops at a backslash that would join it with the next one without the blanks after it.
    fn is_blank_after_backslash(&self, spot: Spot, stop: &str) -> bool {
        let rest = stop.strip_prefix('\\').unwrap_or("");
        let is_last = self.text.lines().skip(spot.line).next().is_none();
        !rest.is_empty() && rest.bytes().all(|byte| byte == b' ' || byte == b'\t') && !is_last
    }

    /// What is said of a dollar that begins no reference (K10).
    fn explain_dollar(&self, found: &Found<'_>) -> Result<Explanation, AllocError> {
        let Some((spot, stop)) = self.stop(found, StopKind::BadReference) else {
            return self.explain_expanded(found);
        };
        if let Some(name) = found.faulty_before(self.alloc, stop)? {
            return self.say_of_variable(name);
        }
        let (message, name) = match dollar_of(stop.get(1..).unwrap_or("")) {
            Dollar::Function(name) => (TextMessage::Function, name),
            Dollar::Reserved(name) => (TextMessage::ReservedName, name),
            Dollar::Reference(_) | Dollar::Other if found.value().is_some() => {
                (TextMessage::DollarOfValue, "")
            }
            Dollar::Reference(_) | Dollar::Other => (TextMessage::Dollar, ""),
        };
        let place = self.place_words(spot)?;
        self.say(
            message,
            texts!(name: name, place: place.as_str()),
            spot.line,
        )
    }

    /// What is said of a dollar that begins no reference in the text of a variable (K10).
    fn explain_expanded(&self, found: &Found<'_>) -> Result<Explanation, AllocError> {
        if let Some(name) = found.faulty_before(self.alloc, "")? {
            return self.say_of_variable(name);
        }
        let names = found.names(self.alloc)?;
        match names.as_slice() {
            [name] => self.say_of_variable(name),
            _ => self.plain(10),
        }
    }

    /// That a dollar which begins no reference is in the text of a variable (K10).
    fn say_of_variable(&self, name: &str) -> Result<Explanation, AllocError> {
        self.say(
            TextMessage::DollarOfVariable,
            texts!(name: name),
            self.number,
        )
    }

    /// Where in its line a character is, and which line that is if it is joined with this one.
    fn place_words(&self, spot: Spot) -> Result<String, AllocError> {
        let Spot { line, column } = spot;
        let message = if line == self.number {
            TextMessage::InColumn
        } else {
            TextMessage::InColumnOfLine
        };
        words_of(
            self.alloc,
            message.row(),
            &texts!(number: column, line: line),
        )
    }
}
