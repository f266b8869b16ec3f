//! Texts in quotes.

ghost use Rattle.std.specs.Prelude.{◌≡◌, ◌++◌, ◌<◌, ◌≤◌, ◌∷◌, ℕ, List, [], true, length, slice_index, IfOk, IfNone, IfSome};
ghost use Rattle.std.specs.List.{prefix_len};
ghost use Rattle.kc_text.specs.Lexing.{is_plain, is_quote, in_quotes, lexed, quoted as a_quoted, raw_tokens};
ghost use Rattle.kc_text.specs.References.{Piece as SpecPiece};
ghost use Rattle.kc_text.specs.Scanning.{bytes_of, piece_of, raw_of};
ghost use Rattle.kc_text.specs.Stopping.{Leaves};

use crate::bytes::text_after;
use crate::expansion::{Piece, reference};
use crate::lexer::RawToken;
use memchr::memchr3;
use std::alloc::{AllocError, Global};

/// The number of bytes before the first quote, backslash or dollar of a text, or of all its bytes.
fn plain_len(quote: u8, text: &str) -> usize
    ensures count { result ≡ prefix_len (is_plain quote) text.now }
    ensures within { result ≤ length text.now }
{
    match memchr3(quote, b'\\', b'$', text.as_bytes()) {
        Some(len) => len,
        None => text.len(),
    }
}

/// The text in quotes, where it has no references and backslashes, and the text after the closing quote. `text` is that
/// after the opening one.
pub(crate) fn plain_quoted(quote: u8, text: &str) -> Option<(&str, &str)>
    requires kind { is_quote quote ≡ true }
    ensures lexes { IfSome result (λ found. lexed 0 (in_quotes quote []) text.now ≡ a_quoted (bytes_of found.0.now) ∷ raw_tokens found.1.now) }
    ensures within { IfSome result (λ found. length found.1.now ≤ length text.now) }
{
    let len = plain_len(quote, text);
    if len < text.len() && text.as_bytes()[len] == quote {
        return Some((&text[..len], text_after(text, len)));
    }
    None
}

/// The token of an opening quote, from the text after the quote, and the text after the token.
pub(crate) fn quoted<'a>(
    alloc: Global,
    quote: u8,
    text: &'a str,
) -> Result<(RawToken<'a>, &'a str), AllocError>
    requires kind { is_quote quote ≡ true }
    ensures lexes { IfOk result (λ found. lexed 0 (in_quotes quote []) text.now ≡ raw_of found.0 ∷ raw_tokens found.1.now) }
    ensures within { IfOk result (λ found. length found.1.now ≤ length text.now) }
{
    match plain_quoted(quote, text) {
        Some((front, rest)) => Ok((RawToken::Quoted(front), rest)),
        None => quoted_parts(alloc, quote, text),
    }
}

/// Reads a quoted text that has references or backslashes, or is not closed.
fn quoted_parts<'a>(
    alloc: Global,
    quote: u8,
    text: &'a str,
) -> Result<(RawToken<'a>, &'a str), AllocError>
    requires kind { is_quote quote ≡ true }
    ensures lexes { IfOk result (λ found. lexed 0 (in_quotes quote []) text.now ≡ raw_of found.0 ∷ raw_tokens found.1.now) }
    ensures within { IfOk result (λ found. length found.1.now ≤ length text.now) }
{
    let mut pieces = Vec::new(alloc);
    let mut rest = text;
    while let Some((piece, after)) = quoted_piece(quote, rest) {
        pieces.push(piece)?;
        rest = after;
    }
    if rest.is_empty() {
        return Ok((RawToken::Unclosed(pieces), rest));
    }
    Ok((RawToken::QuotedParts(pieces), text_after(rest, 0)))
}

/// The first part of a text in quotes, and the text after it: nothing after a dollar that begins no reference.
pub(crate) fn quoted_piece(quote: u8, text: &str) -> Option<(Piece<'_>, &str)>
    requires kind { is_quote quote ≡ true }
    ensures none { IfNone result (0 < length text.now → slice_index text.now 0 ≡ quote) }
    ensures lexes { IfSome result (λ found. (ps : List SpecPiece) → lexed 0 (in_quotes quote ps) text.now ≡ lexed 0 (in_quotes quote (ps ++ piece_of found.0)) found.1.now) }
    ensures leaves { IfSome result (λ found. Leaves found.0 text.now found.1.now) }
    ensures shorter { IfSome result (λ found. length found.1.now < length text.now) }
{
    let len = plain_len(quote, text);
    if len > 0 {
        let (front, rest) = text.split_at(len);
        return Some((Piece::Text(front), rest));
    }
    match text.as_bytes() {
        [b'\\', ..] => Some(escaped(text_after(text, 0))),
        [b'$', ..] => match reference(text_after(text, 0)) {
            Some((name, after)) => Some((Piece::Reference(name), after)),
            None => Some((Piece::Malformed, "")),
        },
        _ => None,
    }
}

/// The byte after a backslash, as it is, and the text after it. A character of more bytes than one has no meaning that
/// the backslash would take away.
fn escaped(text: &str) -> (Piece<'_>, &str)
    ensures lexes { (quote : ℕ) → is_quote quote ≡ true → (ps : List SpecPiece) → lexed 0 (in_quotes quote ps) (92 ∷ text.now) ≡ lexed 0 (in_quotes quote (ps ++ piece_of result.0)) result.1.now }
    ensures leaves { Leaves result.0 (92 ∷ text.now) result.1.now }
    ensures within { length result.1.now ≤ length text.now }
{
    match text.as_bytes() {
        [byte, ..] if byte.is_ascii() => {
            let (front, rest) = text.split_at(1);
            (Piece::Text(front), rest)
        }
        _ => (Piece::Text(""), text),
    }
}
