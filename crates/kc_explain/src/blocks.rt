//! What is said of a block that is closed wrongly, or not closed (K07).

use crate::lines::Suspect;
use crate::messages::LineMessage;
use crate::piece::texts;
use crate::said::{Said, Unsaid, say};
use crate::spelling::tokens_text;
use crate::statements::is_end;
use kc_statement::{Keyword, read_keyword};

/// What is said of a line that closes a block wrongly, or of the end of a file in which a block is open.
pub(crate) fn explain_block(suspect: &Suspect<'_, '_, '_>) -> Said {
    let open = suspect.statements.open_before(suspect.at)?;
    if is_end(suspect.line) {
        return explain_open(suspect, open.as_slice());
    }
    let closer = tokens_text(suspect.statements.alloc, suspect.line.tokens())?;
    let Some(number) = open.first() else {
        let texts = texts!(word: closer.as_str());
        return suspect.say(LineMessage::ClosesNothing.row(), &texts);
    };
    let opener = suspect.statements.get(*number)?;
    let text = tokens_text(suspect.statements.alloc, opener.tokens())?;
    let message = if opener.run() == suspect.line.run() {
        LineMessage::ClosesOther
    } else {
        LineMessage::ClosesElsewhere
    };
    let texts = texts!(word: closer.as_str(), text: text.as_str(), line: opener.number());
    suspect.say_after(message.row(), &texts, *number)
}

/// What is said of the innermost of the blocks of its run that the end of a file leaves open.
fn explain_open(suspect: &Suspect<'_, '_, '_>, open: &[usize]) -> Said {
    let alloc = suspect.statements.alloc;
    for number in open {
        let opener = suspect.statements.get(*number)?;
        if opener.run() != suspect.line.run() {
            continue;
        }
        let wanted = match read_keyword(opener) {
            Some(Keyword::Menu) => "endmenu",
            Some(Keyword::Choice) => "endchoice",
            _ => "endif",
        };
        let text = tokens_text(alloc, opener.tokens())?;
        let texts = texts!(wanted: wanted, text: text.as_str(), line: opener.number());
        return say(alloc, LineMessage::Unclosed.row(), &texts, &[*number]);
    }
    Err(Unsaid::Nothing)
}
