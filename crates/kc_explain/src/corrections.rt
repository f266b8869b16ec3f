//! What is to be written where a line does not have the form of its statement (K05), as far as that is certain.

use crate::expressions::{begins_value, is_comparing, is_expression, is_term};
use crate::lines::Suspect;
use crate::spelling::{sign_of, written_text};
use kc_statement::{Mistake, SymbolType, Wanted, is_word, numeral};
use kc_text::{Operator, Token};
use std::alloc::AllocError;

/// The most bytes of a bound that a message says to write.
const MOST_BOUND: usize = 64;

/// What is to be written in place of the tokens at a mistake of a line.
pub(crate) fn correction(
    suspect: &Suspect<'_, '_, '_>,
    mistake: &Mistake,
) -> Result<Option<String>, AllocError> {
    let tokens = suspect.line.tokens();
    let at = tokens.len().saturating_sub(mistake.left);
    if mistake.wanted == Wanted::Term && at == 2 {
        return range_with_bounds(suspect);
    }
    let before = tokens.get(at.saturating_sub(1));
    let next = tokens.get(at.saturating_add(1));
    let sign = match (tokens.get(at), mistake.wanted) {
        (Some(found), Wanted::Operator | Wanted::Joint | Wanted::Close)
            if next.is_some_and(begins_value) => { joint(suspect, found) }
        (Some(found), Wanted::Term) if next.is_some_and(is_term) => comparison(before, found),
        _ => None,
    };
    match sign {
        Some(sign) => Ok(Some(String::from_str(suspect.statements.alloc, sign_of(sign))?)),
        None => negated(suspect, at, mistake.wanted),
    }
}

/// The operator that is meant by a word between two values.
fn joint(suspect: &Suspect<'_, '_, '_>, found: &Token<'_>) -> Option<Operator> {
    if is_meant(suspect, found, "and") {
        Some(Operator::And)
    } else if is_meant(suspect, found, "or") {
        Some(Operator::Or)
    } else {
        None
    }
}

/// The comparison that is meant by two signs.
fn comparison(before: Option<&Token<'_>>, found: &Token<'_>) -> Option<Operator> {
    match (before?, found) {
        (Token::Operator(Operator::Equal), Token::Operator(sign)) => match sign {
            Operator::Equal => Some(Operator::Equal),
            Operator::Less => Some(Operator::LessOrEqual),
            Operator::Greater => Some(Operator::GreaterOrEqual),
            _ => None,
        },
        (Token::Operator(Operator::NotEqual), Token::Operator(Operator::Equal)) => {
            Some(Operator::NotEqual)
        }
        _ => None,
    }
}

/// What is to be written for the word `not` and the value after it.
fn negated(
    suspect: &Suspect<'_, '_, '_>,
    at: usize,
    wanted: Wanted,
) -> Result<Option<String>, AllocError> {
    let alloc = suspect.statements.alloc;
    let tokens = suspect.line.tokens();
    let first = at.saturating_sub(2);
    let found = tokens.get(at..at.saturating_add(1)).unwrap_or(&[]);
    let is_negated = match tokens.get(first..at.saturating_add(1)) {
        Some([before, not, value]) => {
            !is_comparing(before) && is_meant(suspect, not, "not") && begins_value(value)
        }
        _ => false,
    };
    let is_operand = matches!(wanted, Wanted::Operator | Wanted::Close);
    match written_text(alloc, found)? {
        Some(text) if is_negated && is_operand => Ok(Some(format!(in alloc; "!{text}")?)),
        _ => Ok(None),
    }
}

/// A `range` whose bounds are one word with `..` between them.
fn range_with_bounds(suspect: &Suspect<'_, '_, '_>) -> Result<Option<String>, AllocError> {
    let [range, bounds, condition @ ..] = suspect.line.tokens() else {
        return Ok(None);
    };
    let Token::Word(bounds) = bounds else {
        return Ok(None);
    };
    let Some((low, high)) = bounds.as_str().split_once("..") else {
        return Ok(None);
    };
    let is_condition = match condition {
        [] => true,
        [first, expression @ ..] => is_word(first, "if") && is_expression(expression),
    };
    let is_range = is_word(range, "range") && is_bound(suspect, low) && is_bound(suspect, high);
    let Some(condition) = written_text(suspect.statements.alloc, condition)? else {
        return Ok(None);
    };
    if !is_range || !is_condition {
        return Ok(None);
    }
    let blank = if condition.is_empty() { "" } else { " " };
    let line = format!(in suspect.statements.alloc; "range {low} {high}{blank}{condition}")?;
    Ok(Some(line))
}

/// Whether a text is a bound of a range of the symbol that a line belongs to: a numeral of its type, and of both types that
/// have ranges where its definition has none.
fn is_bound(suspect: &Suspect<'_, '_, '_>, text: &str) -> bool {
    let statements = suspect.statements;
    let definition = statements.definition(suspect.at);
    let typed = definition.and_then(|definition| statements.first_type(&definition));
    let is_numeral = match typed {
        Some(kind @ (SymbolType::Int | SymbolType::Hex)) => numeral(kind, text).is_some(),
        Some(_) => false,
        None => {
            numeral(SymbolType::Int, text).is_some() && numeral(SymbolType::Hex, text).is_some()
        }
    };
    is_numeral && text.len() <= MOST_BOUND
}

/// Whether a token is this word, in capital or in small letters, and no symbol has that name.
fn is_meant(suspect: &Suspect<'_, '_, '_>, token: &Token<'_>, word: &str) -> bool {
    let Token::Word(text) = token else {
        return false;
    };
    let text = text.as_str();
    let mut names = suspect
        .statements
        .definitions
        .iter()
        .map(|definition| definition.name);
    text.eq_ignore_ascii_case(word) && !names.any(|name| name == text)
}
