//! Findings that are said once.

ghost use Rattle.std.specs.Prelude.{◌≡◌, ◌++◌, ◌∷◌, [], Bool, IfOk, OnOk, false, if◌then◌else◌, length, map, slice_index_or};
ghost use Rattle.std.specs.List.{range_with_len};
ghost use Rattle.std.specs.String.{string_bytes};
ghost use Rattle.kc_text.specs.LineReferences.{lent_names};
ghost use Rattle.kc_line_facts.specs.FreshNames.{is_fresh};
ghost use Rattle.kc_check.specs.ReportLines.{line_text, said_once};

use crate::finding::Finding;
use kc_line_facts::fresh_flags;
use std::alloc::{AllocError, Global};

/// A finding as a line.
fn line_of(alloc: Global, finding: &Finding) -> Result<String, AllocError>
    ensures { IfOk result (λ text. string_bytes text ≡ line_text finding.now) }
{
    let mut line = String::new(alloc);
    finding.push_line(&mut line)?;
    Ok(line)
}

/// Findings as lines.
fn lines_of(alloc: Global, findings: &[Finding]) -> Result<Vec<String>, AllocError>
    ensures { IfOk result (λ texts. map string_bytes texts.items ≡ map line_text findings.now) }
{
    let mut lines = Vec::with_capacity(alloc, findings.len())?;
    for finding in findings {
        lines.push(line_of(alloc, finding)?)?;
    }
    Ok(lines)
}

/// Lines, lent.
fn lent<'n>(alloc: Global, lines: &'n [String]) -> Result<Vec<&'n str>, AllocError>
    ensures { IfOk result (λ names. lent_names names.items ≡ map string_bytes lines.now) }
{
    let mut names = Vec::with_capacity(alloc, lines.len())?;
    for line in lines {
        names.push(line.as_str())?;
    }
    Ok(names)
}

/// For each finding whether no earlier one has its line.
fn new_flags(alloc: Global, findings: &[Finding]) -> Result<Vec<bool>, AllocError>
    ensures { IfOk result (λ flags. flags.items ≡ map (is_fresh (map line_text findings.now) []) (range_with_len 0 (length findings.now))) }
{
    let lines = lines_of(alloc, findings)?;
    let names = lent(alloc, lines.as_slice())?;
    fresh_flags(alloc, names.as_slice(), &[])
}

/// Whether a flag of a number is set.
fn is_set(flags: &[bool], number: usize) -> bool
    ensures { result ≡ slice_index_or flags.now number false }
{
    match flags.get(number) {
        Some(is) => *is,
        None => false,
    }
}

/// Adds a finding, if it is new.
fn push_if(findings: &mut Vec<Finding>, finding: Finding, is_new: bool) -> Result<(), AllocError>
    ensures { OnOk result (findings.new.items ≡ findings.old.items ++ (if is_new then finding ∷ [] else [])) }
{
    if is_new {
        findings.push(finding)?;
    }
    Ok(())
}

/// The findings whose lines no earlier one of them has, word for word: the lines of a file that is included twice have
/// theirs twice.
///
/// # Errors
///
/// `AllocError` where memory is refused.
pub(crate) fn said_once(alloc: Global, findings: Vec<Finding>) -> Result<Vec<Finding>, AllocError>
    ensures { IfOk result (λ r. r.items ≡ said_once findings.items) }
{
    let flags = new_flags(alloc, findings.as_slice())?;
    let mut once = Vec::new(alloc);
    let mut place = 0;
    for finding in findings {
        let is_new = is_set(flags.as_slice(), place);
        push_if(&mut once, finding, is_new)?;
        place += 1;
    }
    Ok(once)
}
