//! Comments of a `.config` that are likely meant as lines which set a symbol to n.

ghost use Rattle.std.specs.Prelude.{◌≡◌, ◌++◌, IfOk, OnOk, map, option_and_then, option_map, slice_get};
ghost use Rattle.std.specs.Option.{option_to_list};
ghost use Rattle.kc_outline.specs.TreeValue.{symbol_named};
ghost use Rattle.kc_files.specs.MeantComments.{comment_in, comments_among, if_tri, meant_comments, meant_in, tri_named};

use crate::comment_words::name_meant;
use crate::lines_of_text::text_lines;
use crate::prefix::Prefix;
use kc_tree::{SymId, Tree};
use std::alloc::{AllocError, Global};
use std::str;

/// A comment that is likely meant as a line which sets a bool or a tristate to n (this project's own).
#[derive(Clone, Copy, Debug, PartialEq, Eq)]
pub struct MeantComment {
    /// How many lines come before it.
    pub line: usize,
    /// The symbol that it names.
    pub symbol: SymId,
}

/// The bool or the tristate of a name.
fn tri_of(tree: &Tree, name: &str) -> Option<SymId>
    ensures { result ≡ option_and_then (if_tri tree.now) (symbol_named tree.now name.now) }
{
    let symbol = tree.find(name)?;
    tree.symbol_type(symbol).is_tri().then_some(symbol)
}

/// The bool or the tristate of a name, by its bytes.
fn tri_named(tree: &Tree, name: &[u8]) -> Option<SymId>
    ensures { result ≡ tri_named tree.now name.now }
{
    match str::from_utf8(name) {
        Ok(name) => tri_of(tree, name),
        Err(_) => None,
    }
}

/// The symbol that a line is likely meant to set to n, if it is such a comment.
fn meant_in(
    alloc: Global,
    tree: &Tree,
    prefix: &str,
    line: &[u8],
) -> Result<Option<SymId>, AllocError>
    ensures { IfOk result (λ symbol. symbol ≡ meant_in tree.now prefix.now line.now) }
{
    match name_meant(alloc, prefix.as_bytes(), line)? {
        Some(name) => Ok(tri_named(tree, name)),
        None => Ok(None),
    }
}

/// The line of an index.
fn line_at<'c>(lines: &[&'c [u8]], index: usize) -> Option<&'c [u8]>
    ensures { option_map (λ line. line.now) result ≡ slice_get (map (λ line. line.now) lines.now) index }
{
    lines.get(index).copied()
}

/// The symbol that the line of an index is likely meant to set to n, if it is such a comment.
fn meant_at(
    alloc: Global,
    tree: &Tree,
    prefix: &str,
    lines: &[&[u8]],
    index: usize,
) -> Result<Option<SymId>, AllocError>
    ensures { IfOk result (λ symbol. symbol ≡ option_and_then (meant_in tree.now prefix.now) (slice_get (map (λ line. line.now) lines.now) index)) }
{
    match line_at(lines, index) {
        Some(line) => meant_in(alloc, tree, prefix, line),
        None => Ok(None),
    }
}

/// Adds the line of an index, if it is likely meant to set a symbol to n.
fn add_comment(
    found: &mut Vec<MeantComment>,
    line: usize,
    symbol: Option<SymId>,
) -> Result<(), AllocError>
    ensures { OnOk result (found.new.items ≡ found.old.items ++ option_to_list (option_map (comment_in line) symbol)) }
{
    if let Some(symbol) = symbol {
        found.push(MeantComment { line, symbol })?;
    }
    Ok(())
}

/// The comments among some lines that are likely meant as lines, in their order.
fn comments_among(
    alloc: Global,
    tree: &Tree,
    prefix: &str,
    lines: &[&[u8]],
) -> Result<Vec<MeantComment>, AllocError>
    ensures { IfOk result (λ r. r.items ≡ comments_among tree.now prefix.now (map (λ line. line.now) lines.now)) }
{
    let mut found = Vec::new(alloc);
    for index in 0..lines.len() {
        let symbol = meant_at(alloc, tree, prefix, lines, index)?;
        add_comment(&mut found, index, symbol)?;
    }
    Ok(found)
}

/// The comments of a `.config` that are likely meant as lines which set a bool or a tristate to n, in their order (this
/// project's own): each line `# CONFIG_A is not set` with other blanks, or with the words `is unset` or `not set`.
///
/// # Errors
///
/// `AllocError` where memory is refused.
pub fn meant_comments(
    alloc: Global,
    tree: &Tree,
    prefix: &Prefix,
    text: &[u8],
) -> Result<Vec<MeantComment>, AllocError>
    ensures { IfOk result (λ r. r.items ≡ meant_comments tree.now prefix.now text.now) }
{
    let lines = text_lines(alloc, text)?;
    comments_among(alloc, tree, prefix.as_str(), lines.as_slice())
}
