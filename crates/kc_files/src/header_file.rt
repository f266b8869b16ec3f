//! The text of the C header.

ghost use Rattle.std.specs.Prelude.{◌≡◌, ◌++◌, ⊤, refl, slice_index_or, codes, IfOk, OnOk};
ghost use Rattle.std.specs.List.{flat_map};
ghost use Rattle.std.specs.String.{string_bytes};
ghost use Rattle.kc_outline.specs.TreeValue.{name_of};
ghost use Rattle.kc_tree.specs.Nodes.{all_nodes};
ghost use Rattle.kc_value.specs.Assignment.{Assignment};
ghost use Rattle.kc_value.specs.Known.{given};
ghost use Rattle.kc_value.specs.Solution.{solution, IsOnlySolution};
ghost use Rattle.kc_files.specs.DraftValue.{Agrees};
ghost use Rattle.kc_files.specs.HeaderText.{has_hex_sign, missing_hex_sign, text_in_c, has_no_macro, macro_line, tri_macro, text_macro, symbol_macro, entry_macro, header_text_of};

use crate::draft::Draft;
use crate::entry_text::{EntryText, text_of};
use crate::prefix::Prefix;
use crate::quoting::push_quoted;
use crate::symbols::written_value;
use kc_tree::{Entry, SymbolType, Tri, UserVal};
use kc_value::{Known, Resolver, values_of_all};
use std::alloc::{AllocError, Global};

/// The byte of an index, 0 past the end.
fn byte_at(text: &str, index: usize) -> u8
    ensures { result ≡ slice_index_or text.now index 0 }
{
    match text.as_bytes().get(index) {
        Some(byte) => *byte,
        None => 0,
    }
}

/// Whether a hex number is spelt as C spells it: it begins with `0x` or `0X`.
fn has_hex_sign(text: &str) -> bool
    ensures { result ≡ has_hex_sign text.now }
{
    byte_at(text, 0) == b'0' && (byte_at(text, 1) == b'x' || byte_at(text, 1) == b'X')
}

/// What a hex number lacks of its spelling in C.
fn missing_hex_sign(text: &str) -> &'static str
    ensures { result.now ≡ missing_hex_sign text.now }
{
    if has_hex_sign(text) { "" } else { "0x" }
}

/// Whether a text has no macro: an int or a hex that is empty.
fn has_no_macro(kind: SymbolType, text: &str) -> bool
    ensures { result ≡ has_no_macro kind text.now }
{
    match kind {
        SymbolType::String => false,
        SymbolType::Bool | SymbolType::Tristate | SymbolType::Int | SymbolType::Hex => {
            text.len() == 0
        }
    }
}

/// Appends the text of a value as C spells it.
fn push_text_in_c(out: &mut String, kind: SymbolType, text: &str) -> Result<(), AllocError>
    ensures { OnOk result (string_bytes out.new ≡ string_bytes out.old ++ text_in_c kind text.now) }
{
    match kind {
        SymbolType::String => push_quoted(out, text),
        SymbolType::Hex => {
            out.push_str(missing_hex_sign(text))?;
            out.push_str(text)
        }
        SymbolType::Bool | SymbolType::Tristate | SymbolType::Int => out.push_str(text),
    }
}

/// Appends the beginning of a macro, up to the name of its symbol.
fn push_macro_start(out: &mut String, prefix: &Prefix, name: &str) -> Result<(), AllocError>
    ensures { OnOk result (string_bytes out.new
        ≡ string_bytes out.old ++ codes "#define " ++ prefix.now ++ name.now) }
{
    out.push_str("#define ")?;
    out.push_str(prefix.as_str())?;
    out.push_str(name)
}

/// Appends the macro of a name, with what follows the name.
fn push_macro(out: &mut String, prefix: &Prefix, name: &str, body: &str) -> Result<(), AllocError>
    ensures { OnOk result (string_bytes out.new ≡ string_bytes out.old ++ macro_line prefix.now name.now body.now) }
{
    push_macro_start(out, prefix, name)?;
    out.push_str(body)?;
    out.push_str("\n")
}

/// Appends the macro of a bool or tristate symbol: n has none.
fn push_tri_macro(
    out: &mut String,
    prefix: &Prefix,
    name: &str,
    value: Tri,
) -> Result<(), AllocError>
    ensures { OnOk result (string_bytes out.new ≡ string_bytes out.old ++ tri_macro prefix.now name.now value) }
{
    match value {
        Tri::No => Ok(()),
        Tri::Module => push_macro(out, prefix, name, "_MODULE 1"),
        Tri::Yes => push_macro(out, prefix, name, " 1"),
    }
}

/// Appends the macro of a symbol of another type.
fn push_text_macro(
    out: &mut String,
    prefix: &Prefix,
    name: &str,
    kind: SymbolType,
    text: &str,
) -> Result<(), AllocError>
    ensures { OnOk result (string_bytes out.new
        ≡ string_bytes out.old ++ text_macro prefix.now name.now kind text.now) }
{
    if has_no_macro(kind, text) {
        return Ok(());
    }
    push_macro_start(out, prefix, name)?;
    out.push_str(" ")?;
    push_text_in_c(out, kind, text)?;
    out.push_str("\n")
}

/// Appends the macro of a symbol of a type.
fn push_symbol_macro(
    out: &mut String,
    prefix: &Prefix,
    name: &str,
    kind: SymbolType,
    value: &UserVal,
) -> Result<(), AllocError>
    ensures { OnOk result (string_bytes out.new
        ≡ string_bytes out.old ++ symbol_macro prefix.now name.now kind value.now) }
{
    match value {
        UserVal::Tri(tri) => push_tri_macro(out, prefix, name, *tri),
        UserVal::Text(text) => push_text_macro(out, prefix, name, kind, text.as_str()),
    }
}

/// The C header, as it is made of the entries of a tree.
#[derive(Clone, Copy)]
struct HeaderEntries<'s, 'a> {
    known: &'s Known<'a>,
    prefix: &'s Prefix,
}

impl EntryText for HeaderEntries<'_, '_> {
    ghost tree_of = { λ h. h.known.now.tree };

    ghost is_ready = { λ h. ⊤ };

    ghost is_over = { λ h a. Agrees h.known.now.tree h.known.now.values a };

    ghost rest = { λ h a d before es. flat_map (entry_macro h.known.now.tree h.prefix.now a) es };

    ghost rest_of_none = { λ h a d before. refl };

    fn push(
        &self,
        draft: &mut Draft,
        _before: Option<Entry>,
        entry: Entry,
    ) -> Result<(), AllocError> {
        let tree = self.known.tree();
        match entry {
            Entry::Symbol(symbol) => match written_value(self.known, symbol) {
                Some(value) => push_symbol_macro(
                    &mut draft.text,
                    self.prefix,
                    tree.name(symbol),
                    tree.symbol_type(symbol),
                    value,
                ),
                None => Ok(()),
            },
            Entry::Again(_)
            | Entry::Choice(_)
            | Entry::Menu(_)
            | Entry::EndMenu(_)
            | Entry::Comment(_) => Ok(()),
        }
    }
}

/// The text of the C header over the values of all nodes: what `header_text` gives where they are those of the solution.
/// The error comes where memory is refused.
pub fn header_text_over(
    alloc: Global,
    known: &Known<'_>,
    prefix: &Prefix,
) -> Result<String, AllocError>
    ensures { IfOk result (λ text. (a : Assignment) → Agrees known.now.tree known.now.values a
        → string_bytes text ≡ header_text_of known.now.tree prefix.now a) }
{
    text_of(alloc, "", known.tree(), &HeaderEntries { known, prefix })
}

/// The text of the C header: a macro for each symbol that is written and not n, in the order of the first definitions
/// (`conf_write_autoconf` of the kernel's scripts/kconfig/confdata.c, and `write_autoconf` of Kconfiglib). y is
/// `#define CONFIG_X 1` and m `#define CONFIG_X_MODULE 1`; a string is in quotes, a hex number has `0x` before it
/// where it is spelt without, and an int or a hex without a value has no line. The resolver keeps its tree and its
/// user values. Only memory can be refused.
pub fn header_text<R: Resolver>(
    alloc: Global,
    resolver: &mut R,
    prefix: &Prefix,
) -> Result<String, AllocError>
    ensures text { IfOk result (λ text. string_bytes text
        ≡ header_text_of (R.tree_of resolver.old) prefix.now
        (solution (R.tree_of resolver.old) (R.user_of resolver.old))) }
    ensures solved { IsOnlySolution (R.tree_of resolver.old) (R.user_of resolver.old)
        (solution (R.tree_of resolver.old) (R.user_of resolver.old)) }
    ensures tree { R.tree_of resolver.new ≡ R.tree_of resolver.old }
    ensures user { R.user_of resolver.new ≡ R.user_of resolver.old }
    ensures grew { R.grew resolver.old resolver.new (all_nodes (R.tree_of resolver.old)) }
{
    let values = values_of_all(alloc, resolver)?;
    let known = Known::of_nodes(resolver.tree(), &values);
    header_text_over(alloc, &known, prefix)
}
