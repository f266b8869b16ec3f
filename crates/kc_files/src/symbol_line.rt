//! The line of a symbol in a `.config` and in a default file.

ghost use Rattle.std.specs.Prelude.{◌≡◌, ◌++◌, OnOk};
ghost use Rattle.std.specs.String.{string_bytes};
ghost use Rattle.kc_files.specs.ConfigText.{line_start, line_end, tri_line, text_line, symbol_line};

use crate::quoting::push_text_in;
use kc_tree::{SymbolType, Tri, UserVal};
use std::alloc::AllocError;

/// What comes before the prefix: an n symbol's line is a comment.
fn line_start(value: Tri) -> &'static str
    ensures { result.now ≡ line_start value }
{
    match value {
        Tri::No => "# ",
        Tri::Module | Tri::Yes => "",
    }
}

/// What comes after the name, with the end of the line.
fn line_end(value: Tri) -> &'static str
    ensures { result.now ≡ line_end value }
{
    match value {
        Tri::No => " is not set\n",
        Tri::Module => "=m\n",
        Tri::Yes => "=y\n",
    }
}

/// Appends the line of a bool or tristate symbol.
pub(crate) fn push_tri_line(
    out: &mut String,
    prefix: &str,
    name: &str,
    value: Tri,
) -> Result<(), AllocError>
    ensures { OnOk result (string_bytes out.new ≡ string_bytes out.old ++ tri_line prefix.now name.now value) }
{
    out.push_str(line_start(value))?;
    out.push_str(prefix)?;
    out.push_str(name)?;
    out.push_str(line_end(value))
}

/// Appends the line of a symbol of another type: a string is in quotes.
pub(crate) fn push_text_line(
    out: &mut String,
    prefix: &str,
    name: &str,
    kind: SymbolType,
    value: &str,
) -> Result<(), AllocError>
    ensures { OnOk result (string_bytes out.new
        ≡ string_bytes out.old ++ text_line prefix.now name.now kind value.now) }
{
    out.push_str(prefix)?;
    out.push_str(name)?;
    out.push_str("=")?;
    push_text_in(out, kind, value)?;
    out.push_str("\n")
}

/// Appends the line of a symbol of a type.
pub(crate) fn push_symbol_line(
    out: &mut String,
    prefix: &str,
    name: &str,
    kind: SymbolType,
    value: &UserVal,
) -> Result<(), AllocError>
    ensures { OnOk result (string_bytes out.new
        ≡ string_bytes out.old ++ symbol_line prefix.now name.now kind value.now) }
{
    match value {
        UserVal::Tri(tri) => push_tri_line(out, prefix, name, *tri),
        UserVal::Text(text) => push_text_line(out, prefix, name, kind, text.as_str()),
    }
}
