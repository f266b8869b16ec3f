//! The lines of fragments, one after the other.

ghost use Rattle.std.specs.Prelude.{◌≡◌, ◌++◌, All, IfOk, OnOk};
ghost use Rattle.kc_files.specs.Outcomes.{IsPlacedFor, fragment_lines, placed};

use crate::config_names::{NamedLine, named_lines};
use crate::config_reading::ReadFault;
use crate::input::Input;
use crate::numbered_lines::{ConfigLine, LineSays, read_config_lines};
use crate::prefix::Prefix;
use kc_tree::Tree;
use std::alloc::{AllocError, Global};

/// A line of a fragment that says something.
#[derive(Debug, Drop)]
pub struct FragmentLine {
    /// The index of its fragment.
    pub fragment: usize,
    pub line: ConfigLine,
}

/// The lines of fragments that say something.
#[derive(Drop)]
pub struct FragmentLines<'f> {
    pub lines: Vec<FragmentLine>,
    /// The names and values in those that can't be used, in their order.
    pub unusable: Vec<NamedLine<'f>>,
}

/// Reads fragments one after the other.
///
/// # Errors
///
/// - `ReadFault::Limit` where a fragment is too long.
/// - `ReadFault::NoMemory` where memory is refused.
pub fn read_fragments<'f>(
    alloc: Global,
    tree: &Tree,
    prefix: &Prefix,
    fragments: &[Input<'f>],
) -> Result<FragmentLines<'f>, ReadFault>
    ensures lines { IfOk result (λ r. r.lines.items ≡ fragment_lines tree.now prefix.now fragments.now) }
    ensures fitting { IfOk result (λ r. All (IsPlacedFor tree.now) r.lines.items) }
{
    let mut lines = Vec::new(alloc);
    let mut unusable = Vec::new(alloc);
    for (index, fragment) in fragments.iter().enumerate() {
        let read = read_config_lines(alloc, tree, prefix, fragment.bytes)?;
        add_unusable(alloc, &mut unusable, prefix, *fragment, read.as_slice())?;
        add_lines(&mut lines, index, read)?;
    }
    Ok(FragmentLines { lines, unusable })
}

/// Adds the lines of the fragment of an index. The error comes where memory is refused.
fn add_lines(
    lines: &mut Vec<FragmentLine>,
    fragment: usize,
    read: Vec<ConfigLine>,
) -> Result<(), AllocError>
    ensures { OnOk result (lines.new.items ≡ lines.old.items ++ placed fragment read.items) }
{
    for line in read {
        lines.push(FragmentLine { fragment, line })?;
    }
    Ok(())
}

/// Adds the names and values in the lines of a fragment that can't be used.
fn add_unusable<'f>(
    alloc: Global,
    unusable: &mut Vec<NamedLine<'f>>,
    prefix: &Prefix,
    fragment: Input<'f>,
    lines: &[ConfigLine],
) -> Result<(), AllocError> {
    let mut numbers = Vec::new(alloc);
    for line in lines {
        if matches!(&line.says, LineSays::Warned(_)) {
            numbers.push(line.number)?;
        }
    }
    let named = named_lines(alloc, prefix.as_str(), fragment.bytes, numbers.as_slice())?;
    for line in named.as_slice() {
        unusable.push(*line)?;
    }
    Ok(())
}
