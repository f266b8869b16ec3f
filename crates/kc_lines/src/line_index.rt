//! Which line each part of a tree comes from.

ghost use Rattle.std.specs.Prelude.{◌≡◌, ◌≤◌, ◌<◌, ◌+◌, length, ◌++◌, [], ◌∷◌, false, drop, option_and_then, slice_get, IfOk, OnOk, if◌then◌else◌};
ghost use Rattle.std.specs.List.{prefix_len, take_while};
ghost use Rattle.std.specs.Option.{option_copied, option_map_or};
ghost use Rattle.kc_statement.specs.Keywords.{is_attribute};
ghost use Rattle.kc_lines.specs.Attributes.{says};
ghost use Rattle.kc_lines.specs.LineIndex.{AreStarts, attribute_number, attributes_of, begins, line_of, number_of, numbers_from, numbers_saying};
ghost use Rattle.kc_lines.specs.declared.parts.Part.TheVariants.{Owner};

use crate::attributes::nth_saying;
use crate::parts::{Attribute, Family, Part, begins, says};
use kc_statement::read_keyword;
use kc_text::Line;
use std::alloc::{AllocError, Global};
use std::marker::Model;

/// Which line each part of a tree comes from: for each definition, choice, block and comment it has the number of the
/// line that begins it, among all lines from 0. The lines may be at fault, too: parts are counted by the first words of
/// lines. Contracts see the lines.
#[derive(Drop)]
pub struct LineIndex<'l, 'a> {
    lines: &'l [Line<'a>],
    definitions: Vec<usize>,
    choices: Vec<usize>,
    blocks: Vec<usize>,
    comments: Vec<usize>,
}

impl<'l, 'a> Model for LineIndex<'l, 'a> {
    ghost use Rattle.std.specs.Prelude.{List};
    ghost use Rattle.kc_text.specs.LineValue.{LineValue};
    ghost use Rattle.kc_lines.specs.declared.parts.Family.TheVariants.{Definition, Choice, Block, Comment};
    ghost use Rattle.kc_lines.specs.LineIndex.{AreStarts, begins};

    ghost Value = { List LineValue };

    ghost view = { λ p. p.lines.now };

    ghost invariant = { λ p. AreStarts (begins Definition) p.lines.now p.definitions.items
        × AreStarts (begins Choice) p.lines.now p.choices.items
        × AreStarts (begins Block) p.lines.now p.blocks.items
        × AreStarts (begins Comment) p.lines.now p.comments.items };
}

/// Appends the number of a line where it is wanted.
fn note(numbers: &mut Vec<usize>, number: usize, is_wanted: bool) -> Result<(), AllocError>
    ensures { OnOk result (numbers.new.items
        ≡ (if is_wanted then numbers.old.items ++ number ∷ [] else numbers.old.items)) }
{
    if is_wanted {
        numbers.push(number)?;
    }
    Ok(())
}

impl<'l, 'a> LineIndex<'l, 'a> {
    /// Of lines. Each is looked at once.
    ///
    /// # Errors
    ///
    /// `AllocError` where memory is refused.
    pub fn of(alloc: Global, lines: &'l [Line<'a>]) -> Result<LineIndex<'l, 'a>, AllocError>
        ensures { IfOk result (λ index. index ≡ lines.entry.now) }
    {
        let mut definitions = Vec::new(alloc);
        let mut choices = Vec::new(alloc);
        let mut blocks = Vec::new(alloc);
        let mut comments = Vec::new(alloc);
        for number in 0..lines.len() {
            let word = read_keyword(&lines[number]);
            note(&mut definitions, number, begins(Family::Definition, word))?;
            note(&mut choices, number, begins(Family::Choice, word))?;
            note(&mut blocks, number, begins(Family::Block, word))?;
            note(&mut comments, number, begins(Family::Comment, word))?;
        }
        Ok(LineIndex {
            lines,
            definitions,
            choices,
            blocks,
            comments,
        })
    }

    /// The line that a part comes from (kconfig-language.rst, "Menu entries", "Menu attributes"); none for a part that
    /// no line says.
    #[tactic(auto, using(crate::proofs::StartLaws::started_line))]
    pub fn line(&self, part: Part) -> Option<&'l Line<'a>>
        ensures { option_copied result ≡ line_of self.now part }
    {
        match part {
            Part::Owner(family, number) => line_at(self.lines, self.starts(family), number),
            Part::Said(family, number, attribute, nth) => {
                nth_saying(self.attributes(family, number), attribute, nth)
            }
        }
    }

    /// The attribute lines of the one of a number of a family, which come after its line; an `if` has none.
    pub fn attributes(&self, family: Family, number: usize) -> &'l [Line<'a>]
        ensures { result.now ≡ attributes_of (begins family) self.now number }
    {
        attributes_at(self.lines, self.starts(family), number)
    }

    /// The number of the line, among all lines from 0, that begins the one of a number of a family.
    pub fn start(&self, family: Family, number: usize) -> Option<usize>
        ensures { result ≡ number_of self.now (Owner family number) }
    {
        self.starts(family).get(number).copied()
    }

    /// The numbers of the lines, among all lines from 0, that say an attribute of the one of a number of a family, in
    /// their order.
    ///
    /// # Errors
    ///
    /// `AllocError` where memory is refused.
    pub fn numbers_saying(
        &self,
        alloc: Global,
        family: Family,
        number: usize,
        attribute: Attribute,
    ) -> Result<Vec<usize>, AllocError>
        ensures { IfOk result (λ r. r.items ≡ numbers_saying self.now family number attribute) }
    {
        match self.start(family, number) {
            Some(start) => numbers_after(alloc, self.lines(), start, attribute),
            None => Ok(Vec::new(alloc)),
        }
    }

    /// The number of an attribute line, among all lines from 0, by its number among those of the one of a number of a
    /// family.
    pub fn attribute_number(&self, family: Family, number: usize, nth: usize) -> Option<usize>
        ensures { result ≡ attribute_number self.now family number nth }
    {
        let start = self.start(family, number)?;
        let starts = self.starts(family);
        let attributes = attributes_at(self.lines, starts, number);
        if nth < attributes.len() {
            return Some(start + 1 + nth);
        }
        None
    }

    /// The lines.
    pub fn lines(&self) -> &'l [Line<'a>]
        ensures { result.now ≡ self.now }
    {
        self.lines
    }

    /// The numbers of the lines, among all lines from 0, that begin those of a family.
    pub fn starts(&self, family: Family) -> &[usize]
        ensures { AreStarts (begins family) self.now result.now }
    {
        match family {
            Family::Definition => self.definitions.as_slice(),
            Family::Choice => self.choices.as_slice(),
            Family::Block => self.blocks.as_slice(),
            Family::Comment => self.comments.as_slice(),
        }
    }
}

/// The line of a part, by the numbers of the lines that begin such parts.
fn line_at<'l, 'a>(lines: &'l [Line<'a>], starts: &[usize], part: usize) -> Option<&'l Line<'a>>
    ensures { option_copied result ≡ option_and_then (slice_get lines.entry.now) (slice_get starts.now part) }
{
    let start = starts.get(part)?;
    lines.get(*start)
}

/// The attribute lines after the line of a part, by the numbers of the lines that begin such parts.
fn attributes_at<'l, 'a>(lines: &'l [Line<'a>], starts: &[usize], part: usize) -> &'l [Line<'a>]
    ensures { result.now ≡ option_map_or (λ start. take_while is_attribute (drop 1 (drop start lines.entry.now))) (slice_get starts.now part) [] }
{
    match starts.get(part) {
        Some(start) => leading_attributes(after_first(from_start(lines, *start))),
        None => &lines[..0],
    }
}

/// The numbers of the lines that say an attribute, among the attribute lines after the line of a number.
fn numbers_after(
    alloc: Global,
    lines: &[Line<'_>],
    start: usize,
    attribute: Attribute,
) -> Result<Vec<usize>, AllocError>
    requires { start < length lines.now }
    ensures { IfOk result (λ r. r.items
        ≡ numbers_from (says attribute) (start + 1) (take_while is_attribute (drop 1 (drop start lines.now)))) }
{
    let mut numbers = Vec::new(alloc);
    for number in start + 1..lines.len() {
        let line = &lines[number];
        if !is_attribute(line) {
            break;
        }
        note(&mut numbers, number, says(attribute, line))?;
    }
    Ok(numbers)
}

/// The lines from a number on.
fn from_start<'l, 'a>(lines: &'l [Line<'a>], start: usize) -> &'l [Line<'a>]
    ensures { result.now ≡ drop start lines.entry.now }
{
    &lines[start.min(lines.len())..]
}

/// The lines after the first.
fn after_first<'l, 'a>(lines: &'l [Line<'a>]) -> &'l [Line<'a>]
    ensures { result.now ≡ drop 1 lines.entry.now }
{
    &lines[lines.len().min(1)..]
}

/// The lines up to the first that is no attribute.
fn leading_attributes<'l, 'a>(lines: &'l [Line<'a>]) -> &'l [Line<'a>]
    ensures { result.now ≡ take_while is_attribute lines.entry.now }
{
    &lines[..attribute_count(lines)]
}

/// How many attributes lines begin with.
fn attribute_count(lines: &[Line<'_>]) -> usize
    ensures count { result ≡ prefix_len is_attribute lines.now }
    ensures within { result ≤ length lines.now }
{
    lines.iter().take_while(|line| is_attribute(line)).count()
}

/// Whether a line is an attribute.
pub fn is_attribute(line: &Line<'_>) -> bool
    ensures { result ≡ is_attribute line.now }
{
    match read_keyword(line) {
        Some(word) => word.is_attribute(),
        None => false,
    }
}

/// Adds the place of a line: `PATH:LINE`.
///
/// # Errors
///
/// `AllocError` where memory is refused.
pub fn push_place(text: &mut String, line: &Line<'_>) -> Result<(), AllocError> {
    let path = line.path();
    let number = line.number();
    write!(text, "{path}:{number}")
}
