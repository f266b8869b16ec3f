//! Whether tokens are an expression.

use kc_statement::is_word;
use kc_text::{Operator, Token};

/// The most `(` and `!` of an expression that a message says to write.
const MOST_NESTED: usize = 32;

/// What was read of an expression last, and so what may follow.
#[derive(Clone, Copy, PartialEq, Eq)]
enum Place {
    /// Nothing, a `(`, a `!` or an operator that joins: a value follows.
    Start,
    /// A term that may be compared.
    Term,
    /// The sign of a comparison: a term follows.
    Compared,
    /// A comparison or a `)`.
    Value,
}

/// Whether tokens are an expression of at most 32 `(` and `!`. The word `if` is none of its terms.
pub(crate) fn is_expression(tokens: &[Token<'_>]) -> bool {
    let mut place = Place::Start;
    let mut open = 0usize;
    let mut nested = 0usize;
    for token in tokens {
        let Some(next) = place_after(place, token) else {
            return false;
        };
        place = next;
        match token {
            Token::Operator(Operator::Open) => open = open.saturating_add(1),
            Token::Operator(Operator::Close) if open == 0 => return false,
            Token::Operator(Operator::Close) => open = open.saturating_sub(1),
            _ => {}
        }
        if matches!(token, Token::Operator(Operator::Open | Operator::Not)) {
            nested = nested.saturating_add(1);
        }
    }
    let is_whole = place == Place::Term || place == Place::Value;
    is_whole && open == 0 && nested <= MOST_NESTED
}

/// The place after a token, if the token can be where it is.
fn place_after(place: Place, token: &Token<'_>) -> Option<Place> {
    match (place, token) {
        (Place::Start, Token::Operator(Operator::Open | Operator::Not)) => Some(Place::Start),
        (Place::Start, _) if is_term(token) => Some(Place::Term),
        (Place::Compared, _) if is_term(token) => Some(Place::Value),
        (Place::Term | Place::Value, Token::Operator(Operator::And | Operator::Or)) => {
            Some(Place::Start)
        }
        (Place::Term | Place::Value, Token::Operator(Operator::Close)) => Some(Place::Value),
        (Place::Term, Token::Operator(operator)) if compares(*operator) => Some(Place::Compared),
        _ => None,
    }
}

/// Whether a token is a term: a word or a text in quotes.
pub(crate) fn is_term(token: &Token<'_>) -> bool {
    !matches!(token, Token::Operator(_)) && !is_word(token, "if")
}

/// Whether a token can begin a value: a term, `!` or `(`.
pub(crate) fn begins_value(token: &Token<'_>) -> bool {
    matches!(token, Token::Operator(Operator::Open | Operator::Not)) || is_term(token)
}

/// Whether a token is the sign of a comparison.
pub(crate) fn is_comparing(token: &Token<'_>) -> bool {
    match token {
        Token::Operator(operator) => compares(*operator),
        _ => false,
    }
}

/// Whether an operator compares.
fn compares(operator: Operator) -> bool {
    matches!(
        operator,
        Operator::Equal
            | Operator::NotEqual
            | Operator::Less
            | Operator::LessOrEqual
            | Operator::Greater
            | Operator::GreaterOrEqual
    )
}
