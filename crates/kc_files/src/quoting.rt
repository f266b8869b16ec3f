//! Texts in quotes, and how the text of a value is written.

ghost use Rattle.std.specs.Prelude.{◌≡◌, ◌++◌, OnOk};
ghost use Rattle.std.specs.Char.{encode_utf8};
ghost use Rattle.std.specs.String.{string_bytes};
ghost use Rattle.kc_files.specs.ConfigText.{text_in};
ghost use Rattle.kc_files.specs.Quoting.{is_special, escaped, quoted};

use kc_tree::SymbolType;
use std::alloc::AllocError;

/// Whether a character needs a backslash: it is `"`, or a backslash itself.
fn is_special(c: char) -> bool
    ensures { result ≡ is_special c }
{
    c == '"' || c == '\\'
}

/// Appends a character, after a backslash where it is `"` or a backslash itself.
#[tactic(auto, using(crate::proofs::EscapeLaws::escaped_plain, crate::proofs::EscapeLaws::escaped_special))]
fn push_escaped_char(out: &mut String, c: char) -> Result<(), AllocError>
    ensures { OnOk result (string_bytes out.new ≡ string_bytes out.old ++ escaped (encode_utf8 c)) }
{
    if is_special(c) {
        out.push_str("\\")?;
        out.push(c)
    } else {
        out.push(c)
    }
}

/// Appends a text with a backslash before each `"` and each backslash.
fn push_escaped(out: &mut String, text: &str) -> Result<(), AllocError>
    ensures { OnOk result (string_bytes out.new ≡ string_bytes out.old ++ escaped text.now) }
{
    for c in text.chars() {
        push_escaped_char(out, c)?;
    }
    Ok(())
}

/// Appends a text between quotes, with a backslash before each `"` and each backslash in it (`escape` of Kconfiglib).
///
/// The error comes where memory is refused.
pub fn push_quoted(out: &mut String, text: &str) -> Result<(), AllocError>
    ensures { OnOk result (string_bytes out.new ≡ string_bytes out.old ++ quoted text.now) }
{
    out.push_str("\"")?;
    push_escaped(out, text)?;
    out.push_str("\"")
}

/// Appends the text of a value: a string in quotes, a number as it is spelt.
///
/// The error comes where memory is refused.
pub fn push_text_in(out: &mut String, kind: SymbolType, value: &str) -> Result<(), AllocError>
    ensures { OnOk result (string_bytes out.new ≡ string_bytes out.old ++ text_in kind value.now) }
{
    match kind {
        SymbolType::String => push_quoted(out, value),
        SymbolType::Bool | SymbolType::Tristate | SymbolType::Int | SymbolType::Hex => {
            out.push_str(value)
        }
    }
}
