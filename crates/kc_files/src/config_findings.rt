//! What is found in a `.config`, in the order of its lines.

ghost use Rattle.std.specs.Prelude.{◌≡◌, ◌++◌, IfOk, OnOk, flat_map, map};
ghost use Rattle.kc_files.specs.ConfigFindings.{AreByLine, comment_found, config_findings, count_before, dropped_found, fact_found, found_after};

use crate::fragments::FragmentLine;
use crate::line_facts::{FoundInLine, found_in_lines};
use crate::lost_backslashes::{DroppedBackslash, dropped_backslashes};
use crate::outcomes::Outcome;
use crate::prefix::Prefix;
use crate::unset_comments::{MeantComment, meant_comments};
use kc_tree::Tree;
use std::alloc::{AllocError, Global};

/// What is found in a line of a `.config` (this project's own).
#[derive(Clone, Copy, Debug, PartialEq, Eq)]
pub enum ConfigFinding {
    /// It is a comment that is likely meant as a line.
    Comment(MeantComment),
    /// It says something, by what becomes of it.
    Line(FoundInLine),
    /// It gives a string a text that loses a backslash.
    Dropped(DroppedBackslash),
}

/// What is found in a line of a `.config`.
#[derive(Clone, Copy, Debug, PartialEq, Eq)]
pub struct FoundInConfig {
    /// How many lines come before it.
    pub before: usize,
    pub finding: ConfigFinding,
}

/// How many lines come before the one of an index among those that say something.
fn count_before(said: &[FragmentLine], index: usize) -> Option<usize>
    ensures { result ≡ count_before said.now index }
{
    let line = said.get(index)?;
    Some(line.line.number.saturating_sub(1))
}

/// Adds what is found in the line that so many come before, if there is one.
fn add_after(
    found: &mut Vec<FoundInConfig>,
    before: Option<usize>,
    finding: ConfigFinding,
) -> Result<(), AllocError>
    ensures { OnOk result (found.new.items ≡ found.old.items ++ found_after before finding) }
{
    if let Some(before) = before {
        found.push(FoundInConfig { before, finding })?;
    }
    Ok(())
}

/// Adds comments that are likely meant as lines.
fn add_comments(found: &mut Vec<FoundInConfig>, comments: &[MeantComment]) -> Result<(), AllocError>
    ensures { OnOk result (found.new.items ≡ found.old.items ++ map comment_found comments.now) }
{
    for one in comments {
        found.push(FoundInConfig {
            before: one.line,
            finding: ConfigFinding::Comment(*one),
        })?;
    }
    Ok(())
}

/// Adds what is found in lines by what becomes of them.
fn add_facts(
    found: &mut Vec<FoundInConfig>,
    said: &[FragmentLine],
    facts: &[FoundInLine],
) -> Result<(), AllocError>
    ensures { OnOk result (found.new.items ≡ found.old.items ++ flat_map (fact_found said.now) facts.now) }
{
    for one in facts {
        let before = count_before(said, one.line);
        add_after(found, before, ConfigFinding::Line(*one))?;
    }
    Ok(())
}

/// Adds backslashes that are dropped.
fn add_dropped(
    found: &mut Vec<FoundInConfig>,
    said: &[FragmentLine],
    dropped: &[DroppedBackslash],
) -> Result<(), AllocError>
    ensures { OnOk result (found.new.items ≡ found.old.items ++ flat_map (dropped_found said.now) dropped.now) }
{
    for one in dropped {
        let before = count_before(said, one.line);
        add_after(found, before, ConfigFinding::Dropped(*one))?;
    }
    Ok(())
}

/// What is found in a `.config`, kind after kind.
fn found_by_kind(
    alloc: Global,
    tree: &Tree,
    prefix: &Prefix,
    text: &[u8],
    said: &[FragmentLine],
    outcomes: &[Outcome],
) -> Result<Vec<FoundInConfig>, AllocError>
    ensures { IfOk result (λ r. r.items ≡ config_findings tree.now prefix.now text.now said.now outcomes.now) }
{
    let comments = meant_comments(alloc, tree, prefix, text)?;
    let facts = found_in_lines(alloc, said, outcomes)?;
    let dropped = dropped_backslashes(alloc, tree, prefix, text, said)?;
    let mut found = Vec::new(alloc);
    add_comments(&mut found, comments.as_slice())?;
    add_facts(&mut found, said, facts.as_slice())?;
    add_dropped(&mut found, said, dropped.as_slice())?;
    Ok(found)
}

/// What is found in a `.config` by its text, the lines of this that say something and what becomes of each, in the order
/// of the lines, and of one line in this order: that it is a comment which is likely meant as a line, whose place it takes,
/// that it can't be used or has no effect, and a backslash that is dropped (this project's own).
///
/// # Errors
///
/// `AllocError` where memory is refused.
pub fn findings_of_config(
    alloc: Global,
    tree: &Tree,
    prefix: &Prefix,
    text: &[u8],
    said: &[FragmentLine],
    outcomes: &[Outcome],
) -> Result<Vec<FoundInConfig>, AllocError>
    ensures { IfOk result (λ r. AreByLine (config_findings tree.now prefix.now text.now said.now outcomes.now) r.items) }
{
    let mut found = found_by_kind(alloc, tree, prefix, text, said, outcomes)?;
    found.sort_by_key(|one| one.before)?;
    Ok(found)
}
