//! Where the reading of a line stops, and that of a variable's text.

ghost use Rattle.std.specs.Prelude.{◌≡◌, ◌==◌, ◌<◌, List, [], None, true, false, length, slice_index, IfNone, IfSome};
ghost use Rattle.kc_text.specs.Bytes.{is_blank};
ghost use Rattle.kc_text.specs.Lexing.{begins_word, is_quote, raw_tokens};
ghost use Rattle.kc_text.specs.References.{value_pieces};
ghost use Rattle.kc_text.specs.Shown.{Raw, Shows};
ghost use Rattle.kc_text.specs.Stopping.{IsPassed};
ghost use Rattle.kc_text.specs.Stops.{Stops, StopsInValue, first_stop, is_bad};

use crate::bytes::{behind_blanks, text_after};
use crate::expansion::{is_malformed, value_piece};
use crate::lexer::{begins_word, operator, word_piece};
use crate::quotes::quoted_piece;

/// What a line is not read past.
#[derive(Clone, Copy, Debug, PartialEq, Eq)]
pub enum StopKind {
    /// A character that is not allowed where it is.
    BadCharacter,
    /// A quote that the line does not close.
    UnclosedQuote,
    /// A dollar that begins no reference to a variable, or a function.
    BadReference,
}

/// Where the reading of a line stops.
#[derive(Clone, Copy, Debug)]
pub struct Stop {
    pub kind: StopKind,
    /// How many bytes the line has from there on: from the character, the opening quote or the dollar.
    pub left: usize,
}

/// What is known of a text after its first token.
#[derive(Clone, Copy)]
enum Passed<'a> {
    /// The text after the token.
    Read(&'a str),
    /// The place where reading stops.
    Stopped(Stop),
}

/// The text after the word that a text begins with, or the dollar in the word that begins no reference.
fn past_word(text: &str) -> Passed<'_>
    requires begins { begins_word text.now ≡ true }
    ensures { IsPassed text.now result }
{
    let mut rest = text;
    while let Some((piece, after)) = word_piece(rest) {
        if is_malformed(&piece) {
            return Passed::Stopped(Stop {
                kind: StopKind::BadReference,
                left: rest.len(),
            });
        }
        rest = after;
    }
    Passed::Read(rest)
}

/// The text after the quotes that a text begins with, or the dollar in them that begins no reference, or the quote itself
/// where the line does not close it.
fn past_quotes(quote: u8, quoted: &str) -> Passed<'_>
    requires kind { is_quote quote ≡ true }
    requires some { 0 < length quoted.now }
    requires begins { slice_index quoted.now 0 ≡ quote }
    ensures { IsPassed quoted.now result }
{
    let mut rest = text_after(quoted, 0);
    while let Some((piece, after)) = quoted_piece(quote, rest) {
        if is_malformed(&piece) {
            return Passed::Stopped(Stop {
                kind: StopKind::BadReference,
                left: rest.len(),
            });
        }
        rest = after;
    }
    if rest.is_empty() {
        return Passed::Stopped(Stop {
            kind: StopKind::UnclosedQuote,
            left: quoted.len(),
        });
    }
    Passed::Read(text_after(rest, 0))
}

/// The text after the operator that a text begins with, or its first character, which is not allowed there.
fn past_sign(text: &str) -> Passed<'_>
    requires some { 0 < length text.now }
    requires no_blank { is_blank (slice_index text.now 0) ≡ false }
    requires no_word { begins_word text.now ≡ false }
    requires no_quote { is_quote (slice_index text.now 0) ≡ false }
    requires no_comment { (slice_index text.now 0 == 35) ≡ false }
    ensures { IsPassed text.now result }
{
    match operator(text) {
        Some((_, last)) => Passed::Read(text_after(text, last)),
        None => Passed::Stopped(Stop {
            kind: StopKind::BadCharacter,
            left: text.len(),
        }),
    }
}

/// The text after the first token of a text without blanks before it, or the place where reading stops.
fn past_token(text: &str) -> Option<Passed<'_>>
    requires no_blank { 0 < length text.now → is_blank (slice_index text.now 0) ≡ false }
    ensures none { IfNone result (raw_tokens text.now ≡ []) }
    ensures passes { IfSome result (λ passed. IsPassed text.now passed) }
{
    if begins_word(text) {
        return Some(past_word(text));
    }
    match text.as_bytes() {
        [] => None,
        [b'#', ..] => None,
        [b'"', ..] => Some(past_quotes(b'"', text)),
        [b'\'', ..] => Some(past_quotes(b'\'', text)),
        _ => Some(past_sign(text)),
    }
}

/// Where the reading of a logical line stops that is no definition of a variable: at the first character that is not
/// allowed, quote that is not closed or dollar that begins no reference. The texts of variables have no part in it.
pub fn stop_in(line: &str) -> Option<Stop>
    ensures none { IfNone result ((shown : List Raw) → Shows line.now shown → first_stop shown ≡ None) }
    ensures stops { IfSome result (λ stop. Stops line.now stop) }
{
    let mut rest = behind_blanks(line);
    while let Some(passed) = past_token(rest) {
        match passed {
            Passed::Read(after) => rest = behind_blanks(after),
            Passed::Stopped(stop) => return Some(stop),
        }
    }
    None
}

/// How many bytes the value of a variable's definition has from its first dollar on that begins no reference.
pub fn stop_in_value(value: &str) -> Option<usize>
    ensures none { IfNone result (is_bad (value_pieces value.now) ≡ false) }
    ensures stops { IfSome result (λ left. StopsInValue value.now left) }
{
    let mut rest = value;
    while let Some((piece, after)) = value_piece(rest) {
        if is_malformed(&piece) {
            return Some(rest.len());
        }
        rest = after;
    }
    None
}
