//! The tokens of a line.

ghost use Rattle.std.specs.Prelude.{◌≡◌, ◌==◌, true, false, ◌++◌, ◌<◌, ◌≤◌, ◌∷◌, List, [], length, drop, slice_index, IfOk, IfNone, IfSome, None, Err, Ok, IfErr};
ghost use Rattle.std.specs.List.{prefix_len, list_any};
ghost use Rattle.kc_text.specs.Bytes.{begins_with, behind_blanks, is_blank, is_word};
ghost use Rattle.kc_text.specs.Lexing.{begins_word, is_quote, in_word, between, sign_step, on, stop, operator as an_operator, word as a_word, not_allowed, lexed, raw_tokens, in_quotes};
ghost use Rattle.kc_text.specs.References.{Piece as SpecPiece};
ghost use Rattle.kc_text.specs.Scanning.{bytes_of, piece_of, raw_of, pieces_of};
ghost use Rattle.kc_text.specs.Stopping.{Leaves};
ghost use Rattle.kc_text.specs.Definitions.{definition_of, may_assign};
ghost use Rattle.kc_text.specs.Expansion.{Environment, Names, expansion, names_in, start, texts_in, then_on};
ghost use Rattle.kc_text.specs.Tokens.{before, line_tokens, tokens_of, ahead, is_reference, token_of};
ghost use Rattle.kc_text.specs.Faults.{ReadsBy};
ghost use Rattle.kc_text.specs.declared.line.Token.{Token};

use crate::bytes::{behind_blanks, is_word, text_after, word_len};
use crate::expansion::{Piece, Scope, expanded_text, is_short, lent_text, plain_text, reference};
use crate::fault::{LineFault, TextProblem};
use crate::line::{LineTokens, Operator, Token};
use crate::quotes::{plain_quoted, quoted};
use crate::text::TextRef;
use crate::variables::may_assign;
use bumpalo::Bump;
use bumpalo::collections::into_bump_slice;
use std::alloc::{AllocError, Global};
use std::collections::BTreeSet;
use std::marker::Model;

/// A token before references are followed, or the fault at which the reading of its line stops.
#[derive(Drop)]
pub(crate) enum RawToken<'a> {
    /// A word without references.
    Word(&'a str),
    /// A word with references, in parts.
    Spliced(Vec<Piece<'a>>),
    /// A text in quotes without references and backslashes.
    Quoted(&'a str),
    /// A text in quotes, in parts.
    QuotedParts(Vec<Piece<'a>>),
    Operator(Operator),
    /// A quote that the line does not close, with the parts of the text after it.
    Unclosed(Vec<Piece<'a>>),
    /// A character that is not allowed where it is.
    NotAllowed,
}

/// Whether a text begins with a word.
pub(crate) fn begins_word(text: &str) -> bool
    ensures { result ≡ begins_word text.now }
{
    match text.as_bytes() {
        [] => false,
        [first, ..] => is_word(*first) || *first == b'$',
    }
}

/// Whether a text begins with a dollar.
fn begins_dollar(text: &str) -> bool
    ensures { result ≡ begins_with 36 text.now }
{
    matches!(text.as_bytes(), [b'$', ..])
}

/// The word that a text begins with, where it is one without references, and the text after it.
pub(crate) fn plain_word(text: &str) -> Option<(&str, &str)>
    requires begins { begins_word text.now ≡ true }
    ensures lexes { IfSome result (λ found. raw_tokens text.now ≡ a_word (bytes_of found.0.now) ∷ raw_tokens found.1.now) }
    ensures rest { IfSome result (λ found. found.1.now ≡ drop (prefix_len is_word text.now) text.now) }
    ensures shorter { IfSome result (λ found. length found.1.now < length text.now) }
{
    let (word, rest) = text.split_at(word_len(text));
    if word.is_empty() || begins_dollar(rest) {
        return None;
    }
    Some((word, rest))
}

/// The word that a text begins with, and the text after it.
fn word<'a>(alloc: Global, text: &'a str) -> Result<(RawToken<'a>, &'a str), AllocError>
    requires begins { begins_word text.now ≡ true }
    ensures lexes { IfOk result (λ found. raw_tokens text.now ≡ raw_of found.0 ∷ raw_tokens found.1.now) }
    ensures shorter { IfOk result (λ found. length found.1.now < length text.now) }
{
    match plain_word(text) {
        Some((word, rest)) => Ok((RawToken::Word(word), rest)),
        None => spliced_word(alloc, text),
    }
}

/// The word with references that a text begins with, and the text after it: nothing after a dollar that begins
/// none.
fn spliced_word<'a>(alloc: Global, text: &'a str) -> Result<(RawToken<'a>, &'a str), AllocError>
    requires begins { begins_word text.now ≡ true }
    ensures lexes { IfOk result (λ found. raw_tokens text.now ≡ raw_of found.0 ∷ raw_tokens found.1.now) }
    ensures shorter { IfOk result (λ found. length found.1.now < length text.now) }
{
    let mut pieces = Vec::new(alloc);
    let mut rest = text;
    while let Some((piece, after)) = word_piece(rest) {
        pieces.push(piece)?;
        rest = after;
    }
    Ok((RawToken::Spliced(pieces), rest))
}

/// The first part of a word, and the text after it: nothing after a dollar that begins no reference.
pub(crate) fn word_piece(text: &str) -> Option<(Piece<'_>, &str)>
    ensures none { IfNone result (begins_word text.now ≡ false) }
    ensures lexes { IfSome result (λ found. (ps : List SpecPiece) → lexed 0 (in_word ps) text.now ≡ lexed 0 (in_word (ps ++ piece_of found.0)) found.1.now) }
    ensures leaves { IfSome result (λ found. Leaves found.0 text.now found.1.now) }
    ensures shorter { IfSome result (λ found. length found.1.now < length text.now) }
{
    let len = word_len(text);
    if len > 0 {
        let (front, rest) = text.split_at(len);
        return Some((Piece::Text(front), rest));
    }
    let [b'$', ..] = text.as_bytes() else {
        return None;
    };
    match reference(text_after(text, 0)) {
        Some((name, after)) => Some((Piece::Reference(name), after)),
        None => Some((Piece::Malformed, "")),
    }
}

/// The operator that a text begins with, and the place of its last byte.
pub(crate) fn operator(text: &str) -> Option<(Operator, usize)>
    requires some { 0 < length text.now }
    ensures none { IfNone result (is_quote (slice_index text.now 0) ≡ false → (slice_index text.now 0 == 35) ≡ false → sign_step (slice_index text.now 0) (drop 1 text.now) ≡ stop (not_allowed ∷ [])) }
    ensures reads { IfSome result (λ found. sign_step (slice_index text.now 0) (drop 1 text.now) ≡ on (an_operator found.0 ∷ []) found.1 between) }
    ensures within { IfSome result (λ found. found.1 < length text.now) }
    ensures ascii { IfSome result (λ found. slice_index text.now found.1 < 128) }
{
    match text.as_bytes() {
        [b'&', b'&', ..] => Some((Operator::And, 1)),
        [b'|', b'|', ..] => Some((Operator::Or, 1)),
        [b'!', b'=', ..] => Some((Operator::NotEqual, 1)),
        [b'<', b'=', ..] => Some((Operator::LessOrEqual, 1)),
        [b'>', b'=', ..] => Some((Operator::GreaterOrEqual, 1)),
        [b'!', ..] => Some((Operator::Not, 0)),
        [b'=', ..] => Some((Operator::Equal, 0)),
        [b'<', ..] => Some((Operator::Less, 0)),
        [b'>', ..] => Some((Operator::Greater, 0)),
        [b'(', ..] => Some((Operator::Open, 0)),
        [b')', ..] => Some((Operator::Close, 0)),
        _ => None,
    }
}

/// The operator that a text begins with, or the fault that it begins with none, and the text after it.
fn sign(text: &str) -> (RawToken<'_>, &str)
    requires some { 0 < length text.now }
    requires no_blank { is_blank (slice_index text.now 0) ≡ false }
    requires no_word { begins_word text.now ≡ false }
    requires no_quote { is_quote (slice_index text.now 0) ≡ false }
    requires no_comment { (slice_index text.now 0 == 35) ≡ false }
    ensures lexes { raw_tokens text.now ≡ raw_of result.0 ∷ raw_tokens result.1.now }
    ensures shorter { length result.1.now < length text.now }
{
    match operator(text) {
        Some((operator, last)) => (RawToken::Operator(operator), text_after(text, last)),
        None => (RawToken::NotAllowed, ""),
    }
}

/// The first token of a line before references are followed, and the text after it: nothing after a fault.
pub(crate) fn next_token<'a>(
    alloc: Global,
    line: &'a str,
) -> Result<Option<(RawToken<'a>, &'a str)>, AllocError>
    ensures none { IfOk result (λ found. IfNone found (raw_tokens line.now ≡ [])) }
    ensures lexes { IfOk result (λ found. IfSome found (λ t. raw_tokens line.now ≡ raw_of t.0 ∷ raw_tokens t.1.now)) }
    ensures shorter { IfOk result (λ found. IfSome found (λ t. length t.1.now < length line.now)) }
{
    let text = behind_blanks(line);
    if begins_word(text) {
        return Ok(Some(word(alloc, text)?));
    }
    match text.as_bytes() {
        [] => Ok(None),
        [b'#', ..] => Ok(None),
        [b'"', ..] => Ok(Some(quoted(alloc, b'"', text_after(text, 0))?)),
        [b'\'', ..] => Ok(Some(quoted(alloc, b'\'', text_after(text, 0))?)),
        _ => Ok(Some(sign(text))),
    }
}

/// The word that a text begins with, as a token, and the text after it.
fn verbatim_word(text: &str) -> Option<(Token<'_>, &str)>
    requires begins { begins_word text.now ≡ true }
    ensures shows { IfSome result (λ found. (names : Names) (outside : Environment) → line_tokens names outside text.now ≡ before found.0 (line_tokens names outside found.1.now)) }
    ensures rest { IfSome result (λ found. found.1.now ≡ drop (prefix_len is_word text.now) text.now) }
    ensures shorter { IfSome result (λ found. length found.1.now < length text.now) }
{
    match plain_word(text) {
        Some((word, rest)) if is_short(word) => Some((Token::Word(TextRef::new(word)), rest)),
        _ => None,
    }
}

/// The text in quotes as a token, and the text after the closing quote. `text` is that after the opening one.
fn verbatim_quoted(quote: u8, text: &str) -> Option<(Token<'_>, &str)>
    requires kind { is_quote quote ≡ true }
    ensures shows { IfSome result (λ found. (names : Names) (outside : Environment) → tokens_of names outside (lexed 0 (in_quotes quote []) text.now) ≡ before found.0 (line_tokens names outside found.1.now)) }
    ensures within { IfSome result (λ found. length found.1.now ≤ length text.now) }
{
    match plain_quoted(quote, text) {
        Some((front, rest)) if is_short(front) => Some((Token::Quoted(TextRef::new(front)), rest)),
        _ => None,
    }
}

/// The operator that a text begins with, as a token, and the text after it.
fn verbatim_sign(text: &str) -> Option<(Token<'_>, &str)>
    requires some { 0 < length text.now }
    requires no_blank { is_blank (slice_index text.now 0) ≡ false }
    requires no_word { begins_word text.now ≡ false }
    ensures shows { IfSome result (λ found. (names : Names) (outside : Environment) → line_tokens names outside text.now ≡ before found.0 (line_tokens names outside found.1.now)) }
    ensures shorter { IfSome result (λ found. length found.1.now < length text.now) }
{
    match operator(text) {
        Some((operator, last)) => Some((Token::Operator(operator), text_after(text, last))),
        None => None,
    }
}

/// The first token of a line and the text after it, where the token has no references and backslashes. Most have none.
// a call for each token costs more than its code at both places
#[inline(always)]
pub(crate) fn plain_token(line: &str) -> Option<(Token<'_>, &str)>
    ensures shows { IfSome result (λ found. (names : Names) (outside : Environment) → line_tokens names outside line.now ≡ before found.0 (line_tokens names outside found.1.now)) }
    ensures defines { IfSome result (λ found. may_assign (behind_blanks found.1.now) ≡ false → definition_of line.now ≡ None) }
    ensures shorter { IfSome result (λ found. length found.1.now < length line.now) }
{
    let text = behind_blanks(line);
    if begins_word(text) {
        return verbatim_word(text);
    }
    match text.as_bytes() {
        [] => None,
        [b'#', ..] => None,
        [b'"', ..] => verbatim_quoted(b'"', text_after(text, 0)),
        [b'\'', ..] => verbatim_quoted(b'\'', text_after(text, 0)),
        _ => verbatim_sign(text),
    }
}

/// The largest number of bytes of a text that is kept anew each time.
const MAX_SHORT: usize = 64;

/// Texts that an arena keeps. One that is long, as that of a variable may be, is kept once, however many tokens have
/// it: a line of a few bytes may have a text of thousands.
#[derive(Drop)]
pub(crate) struct KeptTexts<'a> {
    arena: &'a Bump,
    long: BTreeSet<&'a str>,
}

impl<'a> Model for KeptTexts<'a> {
    ghost use Rattle.std.specs.Prelude.{⊤};

    ghost Value = { ⊤ };

    ghost view = { λ _. tt };
}

impl<'a> KeptTexts<'a> {
    /// Texts of an arena, none so far.
    pub(crate) fn new(alloc: Global, arena: &'a Bump) -> KeptTexts<'a> {
        KeptTexts {
            arena,
            long: BTreeSet::new(alloc),
        }
    }

    /// Keeps a text in the arena.
    pub(crate) fn keep(&mut self, text: &str) -> Result<TextRef<'a>, AllocError>
        ensures { IfOk result (λ t. t ≡ text.now) }
    {
        if text.len() <= MAX_SHORT {
            return Ok(TextRef::new(self.arena.try_alloc_str(text)?));
        }
        if let Some(known) = self.long.get(text) {
            return Ok(TextRef::new(known));
        }
        let kept = self.arena.try_alloc_str(text)?;
        self.long.insert(kept)?;
        Ok(TextRef::new(kept))
    }
}

/// Whether a part is a reference.
fn is_reference(piece: &Piece<'_>) -> bool
    ensures { result ≡ list_any is_reference (piece_of piece.now) }
{
    matches!(piece, Piece::Reference(_))
}

/// The expanded text of parts, which the arena keeps.
fn kept_text<'a>(
    scope: Scope<'_>,
    texts: &mut KeptTexts<'a>,
    pieces: &[Piece<'_>],
) -> Result<TextRef<'a>, LineFault>
    ensures { ReadsBy (λ t. t) result (then_on (expansion (names_in scope.entry.variables.now) (texts_in scope.entry.outside.now) (pieces_of pieces.now) start) (λ p. Ok p.text)) }
{
    if let Some(text) = lent_text(scope, pieces) {
        return Ok(texts.keep(text)?);
    }
    let text = expanded_text(scope, pieces)?;
    Ok(texts.keep(text.as_str())?)
}

/// The word of parts: one that has a reference is never a keyword, whatever its text.
fn expanded_word<'a>(
    scope: Scope<'_>,
    texts: &mut KeptTexts<'a>,
    pieces: &[Piece<'_>],
) -> Result<Token<'a>, LineFault>
    ensures { ReadsBy (λ t. t) result (token_of (names_in scope.entry.variables.now) (texts_in scope.entry.outside.now) (a_word (pieces_of pieces.now))) }
{
    let text = kept_text(scope, texts, pieces)?;
    if pieces.iter().any(is_reference) {
        return Ok(Token::Expanded(text));
    }
    Ok(Token::Word(text))
}

/// The token with its references expanded, or the fault in its place.
fn token<'a>(
    scope: Scope<'_>,
    texts: &mut KeptTexts<'a>,
    raw: RawToken<'a>,
) -> Result<Token<'a>, LineFault>
    ensures { ReadsBy (λ t. t) result (token_of (names_in scope.entry.variables.now) (texts_in scope.entry.outside.now) (raw_of raw.entry)) }
{
    match raw {
        RawToken::Word(text) => Ok(Token::Word(TextRef::new(plain_text(text)?))),
        RawToken::Quoted(text) => Ok(Token::Quoted(TextRef::new(plain_text(text)?))),
        RawToken::Operator(operator) => Ok(Token::Operator(operator)),
        RawToken::Spliced(pieces) => expanded_word(scope, texts, pieces.as_slice()),
        RawToken::QuotedParts(pieces) => {
            Ok(Token::Quoted(kept_text(scope, texts, pieces.as_slice())?))
        }
        RawToken::Unclosed(pieces) => {
            let _ = expanded_text(scope, pieces.as_slice())?;
            Err(LineFault::Problem(TextProblem::UnclosedQuote))
        }
        RawToken::NotAllowed => Err(LineFault::Problem(TextProblem::BadCharacter)),
    }
}

/// The first token of a line and the text after it, also one whose text the arena has to keep, or the fault in its
/// place.
fn any_token<'a>(
    scope: Scope<'_>,
    texts: &mut KeptTexts<'a>,
    line: &'a str,
) -> Result<Option<(Token<'a>, &'a str)>, LineFault>
    ensures none { IfOk result (λ found. IfNone found (line_tokens (names_in scope.entry.variables.now) (texts_in scope.entry.outside.now) line.now ≡ Ok [])) }
    ensures shows { IfOk result (λ found. IfSome found (λ t. line_tokens (names_in scope.entry.variables.now) (texts_in scope.entry.outside.now) line.now ≡ before t.0 (line_tokens (names_in scope.entry.variables.now) (texts_in scope.entry.outside.now) t.1.now))) }
    ensures fault { IfErr result (λ fault. ReadsBy (λ (ts : List Token). ts) (Err fault) (line_tokens (names_in scope.entry.variables.now) (texts_in scope.entry.outside.now) line.now)) }
    ensures shorter { IfOk result (λ found. IfSome found (λ t. length t.1.now < length line.now)) }
{
    let Some((raw, after)) = next_token(scope.alloc, line)? else {
        return Ok(None);
    };
    Ok(Some((token(scope, texts, raw)?, after)))
}

/// The first token of a line and the text after it, or the fault in its place.
fn first_token<'a>(
    scope: Scope<'_>,
    texts: &mut KeptTexts<'a>,
    line: &'a str,
) -> Result<Option<(Token<'a>, &'a str)>, LineFault>
    ensures none { IfOk result (λ found. IfNone found (line_tokens (names_in scope.entry.variables.now) (texts_in scope.entry.outside.now) line.now ≡ Ok [])) }
    ensures shows { IfOk result (λ found. IfSome found (λ t. line_tokens (names_in scope.entry.variables.now) (texts_in scope.entry.outside.now) line.now ≡ before t.0 (line_tokens (names_in scope.entry.variables.now) (texts_in scope.entry.outside.now) t.1.now))) }
    ensures fault { IfErr result (λ fault. ReadsBy (λ (ts : List Token). ts) (Err fault) (line_tokens (names_in scope.entry.variables.now) (texts_in scope.entry.outside.now) line.now)) }
    ensures shorter { IfOk result (λ found. IfSome found (λ t. length t.1.now < length line.now)) }
{
    if line.is_empty() {
        return Ok(None);
    }
    match plain_token(line) {
        Some(found) => Ok(Some(found)),
        None => any_token(scope, texts, line),
    }
}

/// A line whose first token was gathered, where the line has it verbatim.
#[derive(Clone, Copy)]
pub(crate) struct Begun<'a> {
    pub(crate) line: &'a str,
    /// The line after that token, or all of it.
    pub(crate) rest: &'a str,
    /// Whether the line may define a variable.
    pub(crate) may_define: bool,
}

/// Gathers the first token of a line, where the line has it verbatim.
pub(crate) fn begin<'a>(
    gathered: &mut Vec<Token<'a>, &'a Bump>,
    line: &'a str,
) -> Result<Begun<'a>, AllocError>
    ensures line { IfOk result (λ b. b.line.now ≡ line.now) }
    ensures shows { IfOk result (λ b. (names : Names) (outside : Environment) → line_tokens names outside line.now ≡ ahead gathered.new.items (line_tokens names outside b.rest.now)) }
    ensures defines { IfOk result (λ b. b.may_define ≡ false → definition_of line.now ≡ None) }
{
    gathered.clear();
    let Some((first, rest)) = plain_token(line) else {
        return Ok(Begun {
            line,
            rest: line,
            may_define: true,
        });
    };
    gathered.push(first)?;
    Ok(Begun {
        line,
        rest,
        may_define: may_assign(rest),
    })
}

/// Moves two tokens that were gathered into the arena.
fn kept_pair<'a>(
    arena: &'a Bump,
    gathered: &mut Vec<Token<'a>, &'a Bump>,
) -> Result<&'a [Token<'a>], AllocError>
    requires two { length gathered.old.items ≡ 2 }
    ensures { IfOk result (λ kept. kept.now ≡ gathered.old.items) }
{
    let (Some(second), Some(first)) = (gathered.pop(), gathered.pop()) else {
        return Ok(&[]);
    };
    match arena.try_alloc([first, second]) {
        Ok(pair) => Ok(pair),
        Err(_) => Err(AllocError),
    }
}

/// Moves the tokens that were gathered into the arena. Most lines have two, and an array of two takes its room at less
/// cost than a vector.
fn kept_tokens<'a>(
    arena: &'a Bump,
    gathered: &mut Vec<Token<'a>, &'a Bump>,
) -> Result<&'a [Token<'a>], AllocError>
    ensures { IfOk result (λ kept. kept.now ≡ gathered.old.items) }
{
    if gathered.len() == 2 {
        return kept_pair(arena, gathered);
    }
    let mut kept = Vec::with_capacity(arena, gathered.len())?;
    kept.append(gathered)?;
    Ok(into_bump_slice(kept))
}

/// The tokens of a line, which the arena keeps, or its first fault from the left. They are gathered in a vector that
/// serves line after line, so the arena has no room for more of them than there are.
pub(crate) fn tokens<'a>(
    scope: Scope<'_>,
    texts: &mut KeptTexts<'a>,
    gathered: &mut Vec<Token<'a>, &'a Bump>,
    begun: Begun<'a>,
) -> Result<LineTokens<'a>, LineFault>
    requires shows { line_tokens (names_in scope.variables.now) (texts_in scope.outside.now) begun.line.now ≡ ahead gathered.old.items (line_tokens (names_in scope.variables.now) (texts_in scope.outside.now) begun.rest.now) }
    ensures { ReadsBy (λ v. v) result (line_tokens (names_in scope.entry.variables.now) (texts_in scope.entry.outside.now) begun.entry.line.now) }
{
    let mut rest = begun.rest;
    while let Some((token, after)) = first_token(scope, texts, rest)? {
        gathered.push(token)?;
        rest = after;
    }
    Ok(LineTokens::new(kept_tokens(texts.arena, gathered)?))
}
