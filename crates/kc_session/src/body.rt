//! The body of a load: the lines of a `.config`.
ghost use Rattle.std.specs.Prelude.{◌≡◌, ◌<◌, ◌≤◌, ◌∷◌, ◌&&◌, length};
ghost use Rattle.std.specs.List.{list_all, position_or_len};
ghost use Rattle.kc_files.specs.ConfigLines.{is_feed};
ghost use Rattle.kc_session.specs.Bodies.{fits_body};
ghost use Rattle.kc_session.specs.Stream.{lines_of, fits_line, line_limit};

use crate::line::{LINE_LIMIT, fits_line};
use memchr::{memchr, memrchr};
use std::marker::Model;

/// The most bytes that a body has, with all line ends.
pub(crate) const BODY_LIMIT: usize = 16_777_216;

/// The bytes of a body with all line ends, lent. Contracts see the bytes.
#[derive(Debug, Drop)]
pub struct Body<'a> {
    bytes: &'a [u8],
}

impl<'a> Model for Body<'a> {
    ghost use Rattle.std.specs.Prelude.{List, ℕ};

    ghost Value = { List ℕ };

    ghost view = { λ body. body.bytes.now };
}

impl<'a> Body<'a> {
    /// The body of these bytes, which takes no memory.
    pub fn new(bytes: &'a [u8]) -> Body<'a>
        ensures { result ≡ bytes.entry.now }
    {
        Body { bytes }
    }

    /// The bytes that were lent.
    pub fn as_bytes(&self) -> &[u8]
        ensures { result.now ≡ self.now }
    {
        self.bytes
    }
}

/// How many bytes stand before the first line feed of a text: all of them where there is none.
pub(crate) fn line_len(text: &[u8]) -> usize
    ensures len { result ≡ position_or_len is_feed text.now }
    ensures within { result ≤ length text.now }
{
    match memchr(b'\n', text) {
        Some(len) => len,
        None => text.len(),
    }
}

/// The first line of a text with its line feed, which the last may lack, and the text after it.
fn first_line(text: &[u8]) -> (&[u8], &[u8])
    requires some { 0 < length text.now }
    ensures lines { lines_of text.now ≡ result.0.now ∷ lines_of result.1.now }
    ensures shorter { length result.1.now < length text.now }
{
    let len = line_len(text);
    if len < text.len() {
        return text.split_at(len + 1);
    }
    let nothing: &[u8] = &[];
    (text, nothing)
}

/// Cuts lines off the front of a text that is longer than a line may be: all those that end within as many bytes as a
/// line may have, which are none too long, or the first line alone.
fn first_lines(text: &[u8]) -> (&[u8], &[u8])
    requires long { line_limit < length text.now }
    ensures fit { list_all fits_line (lines_of text.now)
        ≡ (fits_line result.0.now && list_all fits_line (lines_of result.1.now)) }
    ensures shorter { length result.1.now < length text.now }
{
    match memrchr(b'\n', &text[..LINE_LIMIT]) {
        Some(last) => text.split_at(last + 1),
        None => first_line(text),
    }
}

/// Whether no line of a text is too long.
#[tactic(auto, using(crate::proofs::FirstLines::short_text_fits, crate::proofs::FirstLines::fit_after, crate::proofs::FirstLines::first_is_long))]
fn fit_lines(text: &[u8]) -> bool
    ensures { result ≡ list_all fits_line (lines_of text.now) }
{
    let mut rest = text;
    while rest.len() > LINE_LIMIT {
        let (lines, after) = first_lines(rest);
        if !fits_line(lines) {
            return false;
        }
        rest = after;
    }
    true
}

/// Whether neither a body nor a line of it is too long.
#[tactic(auto, unfolding(crate::specs::Bodies::fits_body))]
pub(crate) fn fits_body(body: &[u8]) -> bool
    ensures { result ≡ fits_body body.now }
{
    body.len() <= BODY_LIMIT && fit_lines(body)
}
