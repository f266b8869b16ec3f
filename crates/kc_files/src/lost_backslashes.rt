//! Lines of a `.config` that give a string a text in quotes in which a backslash is dropped.

ghost use Rattle.std.specs.Prelude.{◌≡◌, ◌++◌, IfOk, OnOk, map, option_map};
ghost use Rattle.std.specs.Option.{option_copied, option_to_list};
ghost use Rattle.kc_files.specs.NumberedLines.{assign_of};
ghost use Rattle.kc_files.specs.DroppedBackslashes.{dropped_among, dropped_backslashes, dropped_in, is_string, numbered_line, place_in, place_of, quoted_in};

use crate::assign::Assign;
use crate::beginning::after;
use crate::fragments::FragmentLine;
use crate::lines_of_text::text_lines;
use crate::numbered_lines::{ConfigLine, LineSays};
use crate::prefix::Prefix;
use crate::quoted_bytes::lost_backslash;
use kc_tree::{SymId, SymbolType, Tree};
use std::alloc::{AllocError, Global};

/// A backslash that is dropped from the text in quotes of a line, the first one there (this project's own).
#[derive(Clone, Copy, Debug, PartialEq, Eq)]
pub struct DroppedBackslash {
    /// The index of the line among those that say something.
    pub line: usize,
    /// How many bytes of the value, after its opening quote, come before the byte that loses its backslash.
    pub place: usize,
}

/// Whether a type is that of a string.
fn is_string(kind: SymbolType) -> bool
    ensures { result ≡ is_string kind }
{
    matches!(kind, SymbolType::String)
}

/// The bytes after the opening quote in a line that gives a name a text.
#[tactic(auto, using(crate::proofs::AfterLaws::quoted_parts))]
fn quoted_in<'c>(prefix: &str, name: &str, line: &'c [u8]) -> Option<&'c [u8]>
    ensures { option_map (λ raw. raw.now) result ≡ quoted_in prefix.now name.now line.now }
{
    let named = after(prefix.as_bytes(), line)?;
    after(b"=\"", after(name.as_bytes(), named)?)
}

/// The place of the first byte that loses its backslash, in a line that gives a symbol a value, if this is a string.
fn place_in(tree: &Tree, prefix: &str, symbol: SymId, line: &[u8]) -> Option<usize>
    ensures { result ≡ place_in tree.now prefix.now symbol line.now }
{
    if !is_string(tree.symbol_type(symbol)) {
        return None;
    }
    let raw = quoted_in(prefix, tree.name(symbol), line)?;
    lost_backslash(raw)
}

/// The line of a number from 1.
fn numbered_line<'c>(lines: &[&'c [u8]], number: usize) -> Option<&'c [u8]>
    ensures { option_map (λ line. line.now) result ≡ numbered_line (map (λ line. line.now) lines.now) number }
{
    lines.get(number.saturating_sub(1)).copied()
}

/// The assignment of a line, if it can be used.
fn assign_of(line: &ConfigLine) -> Option<&Assign>
    ensures { option_copied result ≡ assign_of line.now }
{
    match &line.says {
        LineSays::Usable(assign) => Some(assign),
        LineSays::Warned(_) => None,
    }
}

/// The place of the first byte that loses its backslash in a line that says something, by the lines of its text.
fn place_of(tree: &Tree, prefix: &str, lines: &[&[u8]], said: &FragmentLine) -> Option<usize>
    ensures { result ≡ place_of tree.now prefix.now (map (λ line. line.now) lines.now) said.now }
{
    let assign = assign_of(&said.line)?;
    let line = numbered_line(lines, said.line.number)?;
    place_in(tree, prefix, assign.symbol, line)
}

/// Adds the backslash of the line of an index, if it has one.
fn add_dropped(
    found: &mut Vec<DroppedBackslash>,
    line: usize,
    place: Option<usize>,
) -> Result<(), AllocError>
    ensures { OnOk result (found.new.items ≡ found.old.items ++ option_to_list (option_map (dropped_in line) place)) }
{
    if let Some(place) = place {
        found.push(DroppedBackslash { line, place })?;
    }
    Ok(())
}

/// The dropped backslashes of the lines that say something, in their order.
fn dropped_among(
    alloc: Global,
    tree: &Tree,
    prefix: &str,
    lines: &[&[u8]],
    said: &[FragmentLine],
) -> Result<Vec<DroppedBackslash>, AllocError>
    ensures { IfOk result (λ r. r.items ≡ dropped_among tree.now prefix.now (map (λ line. line.now) lines.now) said.now) }
{
    let mut found = Vec::new(alloc);
    for (index, line) in said.iter().enumerate() {
        add_dropped(&mut found, index, place_of(tree, prefix, lines, line))?;
    }
    Ok(found)
}

/// The backslashes that are dropped from the texts of a `.config`, by its text and the lines of this that say something:
/// in each line that gives a string a text in quotes the first backslash before a byte other than `"` and a backslash
/// (this project's own).
///
/// # Errors
///
/// `AllocError` where memory is refused.
pub fn dropped_backslashes(
    alloc: Global,
    tree: &Tree,
    prefix: &Prefix,
    text: &[u8],
    said: &[FragmentLine],
) -> Result<Vec<DroppedBackslash>, AllocError>
    ensures { IfOk result (λ r. r.items ≡ dropped_backslashes tree.now prefix.now text.now said.now) }
{
    let lines = text_lines(alloc, text)?;
    dropped_among(alloc, tree, prefix.as_str(), lines.as_slice(), said)
}
