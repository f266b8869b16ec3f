//! References to variables, and the texts that they expand to.

ghost use Rattle.std.specs.Prelude.{◌≡◌, ◌++◌, ◌<◌, ◌≤◌, [], drop, length, true, Some, None, MatchOption, IfOk, IfNone, IfSome, ◌-◌, nat_le, unwrap_or, Ok, OnOk};
ghost use Rattle.std.specs.Char.{is_ascii_digit};
ghost use Rattle.std.specs.List.{list_all, prefix_len};
ghost use Rattle.kc_text.specs.References.{is_no_dollar, is_referable, reference_after_dollar, reference_len, value_pieces};
ghost use Rattle.kc_text.specs.Scanning.{bytes_of, piece_of, pieces_of, names_of, progress_of};
ghost use Rattle.kc_text.specs.Stopping.{Leaves};
ghost use Rattle.kc_text.specs.Stops.{is_bad};
ghost use Rattle.std.specs.String.{string_bytes};
ghost use Rattle.kc_text.specs.Faults.{ReadsBy, ReadsAfter};
ghost use Rattle.kc_text.specs.Expansion.{counted, expanded, expansion, followed, is_among, names_in, put, start, texts_in, then_on};

use crate::bytes::{name_len, text_after};
use crate::fault::{LineFault, TextProblem};
use crate::variables::{Value, Variables, Vars};
use memchr::memchr;
use std::alloc::{AllocError, Global};

/// A part of a text.
#[derive(Drop)]
pub(crate) enum Piece<'a> {
    /// Bytes as they are.
    Text(&'a str),
    /// A reference, by the name in it.
    Reference(&'a str),
    /// A dollar that begins no reference: nothing is read after it.
    Malformed,
}

/// Whether a part is a dollar that begins no reference.
pub(crate) fn is_malformed(piece: &Piece<'_>) -> bool
    ensures { result ≡ is_bad (piece_of piece.now) }
{
    matches!(piece, Piece::Malformed)
}

/// Whether a name is of digits alone.
fn is_of_digits(name: &str) -> bool
    ensures { result ≡ list_all is_ascii_digit name.now }
{
    name.as_bytes().iter().all(|byte| byte.is_ascii_digit())
}

/// Whether a reference may have a name: it is not of digits alone, and not that of a function.
fn is_referable(name: &str) -> bool
    ensures { result ≡ is_referable name.now }
{
    !is_of_digits(name) && name != "filename" && name != "lineno"
}

/// The name in the reference whose dollar is before a text, and the text after the reference.
pub(crate) fn reference(text: &str) -> Option<(&str, &str)>
    ensures finds { MatchOption result (reference_after_dollar text.now ≡ None) (λ found. (reference_after_dollar text.now ≡ Some found.0.now) × (found.1.now ≡ drop (reference_len found.0.now) text.now)) }
    ensures shorter { MatchOption result (length text.now ≡ length text.now) (λ found. length found.1.now < length text.now) }
{
    let [b'(', ..] = text.as_bytes() else {
        return None;
    };
    let inside = text_after(text, 0);
    let (name, after) = inside.split_at(name_len(inside));
    let [b')', ..] = after.as_bytes() else {
        return None;
    };
    if is_referable(name) {
        Some((name, text_after(after, 0)))
    } else {
        None
    }
}

/// The number of bytes before the first dollar of a text, or of all its bytes.
pub(crate) fn plain_len(text: &str) -> usize
    ensures count { result ≡ prefix_len is_no_dollar text.now }
    ensures within { result ≤ length text.now }
{
    match memchr(b'$', text.as_bytes()) {
        Some(len) => len,
        None => text.len(),
    }
}

/// Whether a text has no dollar, and so no reference.
pub(crate) fn has_no_dollar(text: &str) -> bool
    ensures { result ≡ true → value_pieces text.now ≡ bytes_of text.now }
{
    plain_len(text) == text.len()
}

/// The parts of a variable's text.
pub(crate) fn value_pieces<'a>(alloc: Global, text: &'a str) -> Result<Vec<Piece<'a>>, AllocError>
    ensures { IfOk result (λ ps. pieces_of ps.items ≡ value_pieces text.now) }
{
    let mut pieces = Vec::new(alloc);
    let mut rest = text;
    while let Some((piece, after)) = value_piece(rest) {
        pieces.push(piece)?;
        rest = after;
    }
    Ok(pieces)
}

/// The first part of a variable's text, and the text after it: nothing after a dollar that begins no reference.
pub(crate) fn value_piece(text: &str) -> Option<(Piece<'_>, &str)>
    ensures none { IfNone result (text.now ≡ []) }
    ensures begins { IfSome result (λ found. value_pieces text.now ≡ piece_of found.0 ++ value_pieces found.1.now) }
    ensures leaves { IfSome result (λ found. Leaves found.0 text.now found.1.now) }
    ensures shorter { IfSome result (λ found. length found.1.now < length text.now) }
{
    let len = plain_len(text);
    if len > 0 {
        let (front, rest) = text.split_at(len);
        return Some((Piece::Text(front), rest));
    }
    if text.is_empty() {
        return None;
    }
    match reference(text_after(text, 0)) {
        Some((name, after)) => Some((Piece::Reference(name), after)),
        None => Some((Piece::Malformed, "")),
    }
}

/// The most bytes of an expanded text.
const MAX_TEXT_BYTES: usize = 65_536;

/// The most references that are followed for one text.
const MAX_FOLLOWED: usize = 65_536;

/// The most names that are open at once.
const MAX_OPEN: usize = 64;

/// The variables that references name.
#[derive(Clone, Copy)]
pub(crate) struct Scope<'a> {
    pub(crate) alloc: Global,
    /// Those that lines have defined so far.
    pub(crate) variables: &'a Variables,
    /// Those that were passed in.
    pub(crate) outside: &'a Vars,
}

/// An expansion in progress, after a text that is not copied.
#[derive(Drop)]
pub(crate) struct Expansion<'a> {
    /// The text before it, which counts towards its limit.
    pub(crate) before: &'a str,
    pub(crate) text: String,
    /// The number of references that were followed for it.
    pub(crate) followed: usize,
}

impl<'a> Expansion<'a> {
    /// An expansion after a text, for which no reference was followed yet.
    pub(crate) fn after(alloc: Global, before: &'a str) -> Expansion<'a>
        ensures progress { progress_of result ≡ record { text = before.entry.now; followed = 0 } }
        ensures before { result.before.now ≡ before.entry.now }
    {
        Expansion {
            before,
            text: String::new(alloc),
            followed: 0,
        }
    }

    /// Appends bytes, if there is room for them. No bytes need no room.
    pub(crate) fn put(&mut self, bytes: &str) -> Result<(), LineFault>
        ensures puts { ReadsAfter result (progress_of self.new) (put bytes.now (progress_of self.old)) }
        ensures before { self.new.before.now ≡ self.old.before.now }
    {
        if bytes.is_empty() {
            return Ok(());
        }
        if bytes.len() > MAX_TEXT_BYTES {
            return Err(LineFault::Problem(TextProblem::Limit));
        }
        let room = MAX_TEXT_BYTES - bytes.len();
        if self.before.len() > room || self.text.len() > room - self.before.len() {
            return Err(LineFault::Problem(TextProblem::Limit));
        }
        self.text.push_str(bytes)?;
        Ok(())
    }
}

/// Appends the text of parts, where no name is being expanded.
pub(crate) fn expand<'a>(
    scope: Scope<'a>,
    pieces: &[Piece<'a>],
    out: &mut Expansion<'_>,
) -> Result<(), LineFault>
    ensures expands { ReadsAfter result (progress_of out.new) (expansion (names_in scope.entry.variables.now) (texts_in scope.entry.outside.now) (pieces_of pieces.now) (progress_of out.old)) }
    ensures before { OnOk result (out.new.before.now ≡ out.old.before.now) }
{
    let mut around = Vec::new(scope.alloc);
    expand_pieces(scope, &mut around, pieces, out)
}

/// Appends the text of parts, from left to right. The names `around` are those that are being expanded.
#[cycle(follow)]
fn expand_pieces<'a>(
    scope: Scope<'a>,
    around: &mut Vec<&'a str>,
    pieces: &[Piece<'a>],
    out: &mut Expansion<'_>,
) -> Result<(), LineFault>
    requires { length around.old.items ≤ 64 }
    ensures expands { ReadsAfter result (progress_of out.new) (expanded (followed (names_in scope.entry.variables.now) (texts_in scope.entry.outside.now) (64 - length around.old.items) (names_of around.old.items)) (pieces_of pieces.now) (progress_of out.old)) }
    ensures around { OnOk result (around.new.items ≡ around.old.items) }
    ensures before { OnOk result (out.new.before.now ≡ out.old.before.now) }
{
    for piece in pieces {
        match piece {
            Piece::Text(text) => out.put(text)?,
            Piece::Reference(name) => follow(scope, around, name, out)?,
            Piece::Malformed => return Err(LineFault::Problem(TextProblem::BadReference)),
        }
    }
    Ok(())
}

/// Whether a name is one of others.
fn is_among(name: &str, others: &[&str]) -> bool
    ensures { result ≡ is_among name.now (names_of others.now) }
{
    others.iter().any(|other| name == *other)
}

/// The text that was passed in for a name that no line defines.
fn outside_text<'a>(scope: Scope<'a>, name: &'a str) -> &'a str
    ensures { result.now ≡ unwrap_or (texts_in scope.entry.outside.now name.entry.now) [] }
{
    scope.outside.get(name).unwrap_or("")
}

/// Appends the text of a variable. The names `around` are those that are being expanded.
#[cycle(follow)]
fn follow<'a>(
    scope: Scope<'a>,
    around: &mut Vec<&'a str>,
    name: &'a str,
    out: &mut Expansion<'_>,
) -> Result<(), LineFault>
    requires { length around.old.items ≤ 64 }
    ensures follows { ReadsAfter result (progress_of out.new) (followed (names_in scope.entry.variables.now) (texts_in scope.entry.outside.now) (64 - length around.old.items) (names_of around.old.items) name.now (progress_of out.old)) }
    ensures around { OnOk result (around.new.items ≡ around.old.items) }
    ensures before { OnOk result (out.new.before.now ≡ out.old.before.now) }
{
    if is_among(name, around.as_slice()) {
        return Err(LineFault::Problem(TextProblem::RecursiveVariable));
    }
    if around.len() >= MAX_OPEN || out.followed >= MAX_FOLLOWED {
        return Err(LineFault::Problem(TextProblem::Limit));
    }
    out.followed += 1;
    match scope.variables.get(name) {
        Some(Value::Recursive(text)) => {
            let pieces = value_pieces(scope.alloc, text.as_str())?;
            around.push(name)?;
            expand_pieces(scope, around, pieces.as_slice(), out)?;
            around.pop();
            Ok(())
        }
        Some(Value::Simple(text)) => out.put(text.as_str()),
        None => out.put(outside_text(scope, name)),
    }
}

/// The expanded text of parts.
pub(crate) fn expanded_text<'a>(scope: Scope<'a>, pieces: &[Piece<'a>]) -> Result<String, LineFault>
    ensures { ReadsBy (λ s. string_bytes s) result (then_on (expansion (names_in scope.entry.variables.now) (texts_in scope.entry.outside.now) (pieces_of pieces.now) start) (λ p. Ok p.text)) }
{
    let mut out = Expansion::after(scope.alloc, "");
    expand(scope, pieces, &mut out)?;
    Ok(out.text)
}

/// The expanded text of parts, lent, where they are one reference to a text that has none and keeps the limit.
pub(crate) fn lent_text<'a>(scope: Scope<'a>, pieces: &[Piece<'a>]) -> Option<&'a str>
    ensures { IfSome result (λ text. then_on (expansion (names_in scope.entry.variables.now) (texts_in scope.entry.outside.now) (pieces_of pieces.now) start) (λ p. Ok p.text) ≡ Ok text.now) }
{
    let [Piece::Reference(name)] = pieces else {
        return None;
    };
    match plain_meaning(scope, name) {
        Some(text) if is_short(text) => Some(text),
        _ => None,
    }
}

/// The text of a variable, lent, where it has no reference.
fn plain_meaning<'a>(scope: Scope<'a>, name: &'a str) -> Option<&'a str>
    ensures { IfSome result (λ text. followed (names_in scope.entry.variables.now) (texts_in scope.entry.outside.now) 64 [] name.entry.now start ≡ put text.now (counted start)) }
{
    let Some(value) = scope.variables.get(name) else {
        return Some(outside_text(scope, name));
    };
    match value {
        Value::Recursive(text) if has_no_dollar(text.as_str()) => Some(text.as_str()),
        Value::Recursive(_) => None,
        Value::Simple(text) => Some(text.as_str()),
    }
}

/// A text without references, as it is. Its limit is that of an expanded text.
pub(crate) fn plain_text(text: &str) -> Result<&str, LineFault>
    ensures { ReadsBy (λ s. s.now) result (then_on (put text.now start) (λ p. Ok p.text)) }
{
    if text.len() > MAX_TEXT_BYTES {
        return Err(LineFault::Problem(TextProblem::Limit));
    }
    Ok(text)
}

/// Whether a text without references keeps the limit.
pub(crate) fn is_short(text: &str) -> bool
    ensures { result ≡ nat_le (length text.now) 65536 }
{
    text.len() <= MAX_TEXT_BYTES
}
