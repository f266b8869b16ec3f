//! Texts in quotes, as they are read.

ghost use Rattle.std.specs.Prelude.{◌≡◌, ◌++◌, ℕ, List, false, IfOk};
ghost use Rattle.std.specs.Char.{encode_utf8};
ghost use Rattle.std.specs.String.{string_bytes};
ghost use Rattle.kc_files.specs.ReadingSteps.{text_from, unquoted};
ghost use Rattle.kc_files.specs.TextSteps.{is_end, is_escape, begun};

use kc_tree::SharedText;
use std::alloc::{AllocError, Global};

/// Whether a character closes a text in quotes: it is `"` without a backslash before it.
fn is_end(escape: bool, c: char) -> bool
    ensures { result ≡ is_end escape c }
{
    c == '"' && !escape
}

/// Whether a character escapes the next one: it is a backslash without another before it.
fn is_escape(escape: bool, c: char) -> bool
    ensures { result ≡ is_escape escape c }
{
    c == '\\' && !escape
}

/// Appends a character, where it is no backslash that escapes the next one. The result says whether it is.
fn push_unescaped(out: &mut String, escape: bool, c: char) -> Result<bool, AllocError>
    requires inside { is_end escape c ≡ false }
    ensures { IfOk result (λ next. (rest : List ℕ)
        → begun (string_bytes out.old) escape (encode_utf8 c ++ rest) ≡ begun (string_bytes out.new) next rest) }
{
    if is_escape(escape, c) {
        return Ok(true);
    }
    out.push(c)?;
    Ok(false)
}

/// The text after an opening quote, up to the closing one; what follows that is ignored. None where no quote closes it.
///
/// The error comes where memory is refused.
fn text_behind(alloc: Global, quoted: &str) -> Result<Option<SharedText>, AllocError>
    ensures { IfOk result (λ text. text ≡ text_from false quoted.now) }
{
    let mut text = String::new(alloc);
    let mut escape = false;
    for c in quoted.chars() {
        if is_end(escape, c) {
            return Ok(Some(SharedText::new(alloc, text)?));
        }
        escape = push_unescaped(&mut text, escape, c)?;
    }
    Ok(None)
}

/// The text that is in quotes at the beginning of a value, none where the value begins otherwise or the quote is
/// not closed.
///
/// The error comes where memory is refused.
pub(crate) fn unquoted(alloc: Global, value: &str) -> Result<Option<SharedText>, AllocError>
    ensures { IfOk result (λ text. text ≡ unquoted value.now) }
{
    match value.strip_prefix('"') {
        Some(quoted) => text_behind(alloc, quoted),
        None => Ok(None),
    }
}
