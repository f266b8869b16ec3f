//! What is said of a line that passes a limit of the tree (K01).

use crate::lines::Suspect;
use crate::messages::LineMessage;
use crate::piece::texts;
use crate::said::Said;
use kc_outline::MOST_OPEN_BLOCKS;
use kc_statement::{MOST_NESTED, MOST_SYMBOLS, nests_too_deep, read_keyword};
use kc_text::{Operator, Token};

/// Which limit a line passes, by what is around it.
pub(crate) fn explain_limit(suspect: &Suspect<'_, '_, '_>) -> Said {
    let tokens = suspect.line.tokens();
    let opens = read_keyword(suspect.line).is_some_and(|keyword| keyword.opens());
    let (message, number) = if nests_too_deep(tokens) && longest_row(tokens) > MOST_NESTED {
        (LineMessage::NotsInRow, MOST_NESTED)
    } else if nests_too_deep(tokens) {
        (LineMessage::OpenParentheses, MOST_NESTED)
    } else if opens && suspect.statements.open_before(suspect.at)?.len() >= MOST_OPEN_BLOCKS {
        (LineMessage::OpenBlocks, MOST_OPEN_BLOCKS)
    } else {
        (LineMessage::Symbols, MOST_SYMBOLS)
    };
    suspect.say(message.row(), &texts!(number: number))
}

/// How many `!` are in the longest row of them.
fn longest_row(tokens: &[Token<'_>]) -> usize {
    let mut row = 0usize;
    let mut longest = 0usize;
    for token in tokens {
        row = match token {
            Token::Operator(Operator::Not) => row.saturating_add(1),
            _ => 0,
        };
        longest = longest.max(row);
    }
    longest
}
