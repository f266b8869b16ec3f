//! What is found of a fault: words, and lines by their numbers among all lines.

ghost use Rattle.std.specs.Prelude.{◌≡◌, ◌++◌, IfOk, IfSome, OnOk, option_to_list};
ghost use Rattle.kc_lines.specs.Named.{AreRemarksOf, IsRemarkOf};

use crate::explanation::{Explanation, Place, Remark};
use crate::line_index::LineIndex;
use crate::parts::Part;
use crate::shown::{Fault, shows};
use kc_text::{Line, Text};
use std::alloc::{AllocError, Global};

/// A line, by its number among all lines from 0, that is to be named after some words.
#[derive(Drop)]
pub struct Mention {
    pub words: String,
    pub line: usize,
}

/// The words for a fault, and the lines that show it.
#[derive(Drop)]
pub struct Finding {
    pub words: String,
    pub mentions: Vec<Mention>,
}

impl Finding {
    /// With lines that have no words before them.
    ///
    /// # Errors
    ///
    /// `AllocError` where memory is refused.
    pub fn of_lines(alloc: Global, words: String, lines: &[usize]) -> Result<Finding, AllocError> {
        let mut mentions = Vec::new(alloc);
        for line in lines {
            mentions.push(Mention {
                words: String::new(alloc),
                line: *line,
            })?;
        }
        Ok(Finding { words, mentions })
    }

    /// What is said of a fault that it was found for. A line that does not show such a fault is not named.
    ///
    /// # Errors
    ///
    /// `AllocError` where memory is refused.
    pub fn explain(
        self,
        alloc: Global,
        fault: Fault,
        lines: &[Line<'_>],
    ) -> Result<Explanation, AllocError>
        ensures { IfOk result (λ e. AreRemarksOf fault lines.now e.remarks.items) }
    {
        let Finding { words, mentions } = self;
        let remarks = remarks_of(alloc, fault, lines, mentions.as_slice())?;
        Ok(Explanation { words, remarks })
    }
}

/// The lines that are mentioned, each with its place.
fn remarks_of(
    alloc: Global,
    fault: Fault,
    lines: &[Line<'_>],
    mentions: &[Mention],
) -> Result<Vec<Remark>, AllocError>
    ensures { IfOk result (λ remarks. AreRemarksOf fault lines.now remarks.items) }
{
    let mut remarks = Vec::new(alloc);
    for mention in mentions {
        if let Some(remark) = remark_of(alloc, fault, lines, mention)? {
            remarks.push(remark)?;
        }
    }
    Ok(remarks)
}

/// The line that is mentioned, with its place, if it is one that shows the fault.
fn remark_of(
    alloc: Global,
    fault: Fault,
    lines: &[Line<'_>],
    mention: &Mention,
) -> Result<Option<Remark>, AllocError>
    ensures { IfOk result (λ found. IfSome found (IsRemarkOf fault lines.now)) }
{
    let Some(line) = lines.get(mention.line) else {
        return Ok(None);
    };
    if !shows(fault, line) {
        return Ok(None);
    }
    Ok(Some(line_remark(alloc, mention.words.as_str(), line)?))
}

/// A line, after some words.
fn line_remark(alloc: Global, words: &str, line: &Line<'_>) -> Result<Remark, AllocError>
    ensures path { IfOk result (λ remark. remark.place.path ≡ line.now.path) }
    ensures number { IfOk result (λ remark. remark.place.line ≡ line.now.number) }
{
    let words = String::from_str(alloc, words)?;
    let path = Text::copy_of(alloc, line.path())?;
    let place = Place {
        path,
        line: line.number(),
    };
    Ok(Remark { words, place })
}

/// A part of a tree whose line is to be named after some words.
#[derive(Drop)]
pub struct WordedPart {
    pub words: String,
    pub part: Part,
}

/// What is said of a fault: words, and the lines of the parts that make it. A part without a line, or whose line does not
/// show such a fault, is not named.
///
/// # Errors
///
/// `AllocError` where memory is refused.
pub fn explain_parts(
    alloc: Global,
    fault: Fault,
    words: String,
    index: &LineIndex<'_, '_>,
    parts: &[Part],
) -> Result<Explanation, AllocError>
    ensures { IfOk result (λ e. AreRemarksOf fault index.now e.remarks.items) }
{
    let mut worded = Vec::with_capacity(alloc, parts.len())?;
    for part in parts {
        worded.push(WordedPart {
            words: String::new(alloc),
            part: *part,
        })?;
    }
    explain_worded_parts(alloc, fault, words, index, worded.as_slice())
}

/// The same, with words before each line.
///
/// # Errors
///
/// `AllocError` where memory is refused.
pub fn explain_worded_parts(
    alloc: Global,
    fault: Fault,
    words: String,
    index: &LineIndex<'_, '_>,
    parts: &[WordedPart],
) -> Result<Explanation, AllocError>
    ensures { IfOk result (λ e. AreRemarksOf fault index.now e.remarks.items) }
{
    let remarks = part_remarks(alloc, fault, index, parts)?;
    Ok(Explanation { words, remarks })
}

/// The lines of parts, each with its place.
fn part_remarks(
    alloc: Global,
    fault: Fault,
    index: &LineIndex<'_, '_>,
    parts: &[WordedPart],
) -> Result<Vec<Remark>, AllocError>
    ensures { IfOk result (λ remarks. AreRemarksOf fault index.now remarks.items) }
{
    let mut remarks = Vec::new(alloc);
    for part in parts {
        add_remark(&mut remarks, part_remark(alloc, fault, index, part)?)?;
    }
    Ok(remarks)
}

/// Adds a line with its place, if there is one.
fn add_remark(remarks: &mut Vec<Remark>, remark: Option<Remark>) -> Result<(), AllocError>
    ensures { OnOk result (remarks.new.items ≡ remarks.old.items ++ option_to_list remark) }
{
    if let Some(remark) = remark {
        remarks.push(remark)?;
    }
    Ok(())
}

/// The line of a part, with its place, if it is one that shows the fault.
#[tactic(auto, using(crate::proofs::PartLaws::part_shown))]
fn part_remark(
    alloc: Global,
    fault: Fault,
    index: &LineIndex<'_, '_>,
    part: &WordedPart,
) -> Result<Option<Remark>, AllocError>
    ensures { IfOk result (λ found. IfSome found (IsRemarkOf fault index.now)) }
{
    let Some(line) = index.line(part.part) else {
        return Ok(None);
    };
    if !shows(fault, line) {
        return Ok(None);
    }
    Ok(Some(line_remark(alloc, part.words.as_str(), line)?))
}
