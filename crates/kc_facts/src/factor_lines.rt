//! The lines of the factors of a definition, one after the other.

ghost use Rattle.std.specs.Prelude.{◌≡◌, IfOk, Some, filter, map, option_and_then, true};
ghost use Rattle.std.specs.Option.{option_copied};
ghost use Rattle.kc_lines.specs.declared.parts.Part.TheVariants.{Said};
ghost use Rattle.kc_lines.specs.Attributes.{says};
ghost use Rattle.kc_lines.specs.BlockParts.{block_part, is_if, is_if_kind};
ghost use Rattle.kc_facts.specs.FactorPlaces.{mode_part, part_of_factor};
ghost use Rattle.kc_lines.specs.LineIndex.{attributes_of, begins, line_of};

use kc_lines::{Attribute, Family, LineIndex, Part, block_part, is_if, says};
use kc_text::Line;
use kc_tree::Tree;
use kc_value::{Factor, FactorPart, Origin};
use std::alloc::{AllocError, Global};
use std::marker::Model;

/// The choice whose mode a factor is.
fn mode_part(factor: &Factor<'_>) -> Option<Part>
    ensures { result ≡ mode_part factor.now.part }
{
    match factor.part {
        FactorPart::Mode(choice) => Some(Part::Owner(Family::Choice, choice.0 as usize)),
        FactorPart::Expression(_) | FactorPart::Missing => None,
    }
}

/// The part that says a factor of a definition, or of its prompt: none where no line does.
pub fn part_of_factor(tree: &Tree, definition: usize, factor: &Factor<'_>) -> Option<Part>
    ensures { result ≡ part_of_factor tree.now definition factor.now }
{
    let (family, number, attribute, place) = match factor.origin {
        Origin::Own(place) => (Family::Definition, definition, Attribute::Depends, place),
        Origin::Condition => (Family::Definition, definition, Attribute::Prompt, 0),
        Origin::Visible(block, place) => (Family::Block, block.0, Attribute::Visible, place),
        Origin::Block(block, place) => return Some(block_part(is_if(tree, block), block, place)),
        Origin::Mode | Origin::Missing => return mode_part(factor),
    };
    Some(Part::Said(family, number, attribute, place))
}

/// An attribute of the one of a number of a family.
#[derive(Clone, Copy, Debug)]
pub(crate) struct Saying {
    pub family: Family,
    pub number: usize,
    pub attribute: Attribute,
}

/// Whether two families are the same.
fn is_same_family(one: Family, other: Family) -> bool
    ensures { result ≡ true → one ≡ other }
{
    match one {
        Family::Definition => matches!(other, Family::Definition),
        Family::Choice => matches!(other, Family::Choice),
        Family::Block => matches!(other, Family::Block),
        Family::Comment => matches!(other, Family::Comment),
    }
}

/// Whether two attributes are the same.
fn is_same_attribute(one: Attribute, other: Attribute) -> bool
    ensures { result ≡ true → one ≡ other }
{
    match one {
        Attribute::Type => matches!(other, Attribute::Type),
        Attribute::Prompt => matches!(other, Attribute::Prompt),
        Attribute::Depends => matches!(other, Attribute::Depends),
        Attribute::Visible => matches!(other, Attribute::Visible),
        Attribute::Default => matches!(other, Attribute::Default),
        Attribute::Range => matches!(other, Attribute::Range),
        Attribute::Select => matches!(other, Attribute::Select),
        Attribute::Imply => matches!(other, Attribute::Imply),
        Attribute::Modules => matches!(other, Attribute::Modules),
    }
}

/// Whether an attribute of an owner, if there is one, is another.
fn is_saying(kept: Option<Saying>, saying: Saying) -> bool
    ensures { result ≡ true → kept ≡ Some saying }
{
    let Some(kept) = kept else {
        return false;
    };
    if !is_same_family(kept.family, saying.family)
        || !is_same_attribute(kept.attribute, saying.attribute)
    {
        return false;
    }
    kept.number == saying.number
}

/// Finds the lines of parts. Those that say one attribute of one owner follow each other, and its attributes are looked
/// through once, however many they are. Contracts see all lines.
#[derive(Drop)]
pub struct FactorLines<'i, 'l, 'a> {
    index: &'i LineIndex<'l, 'a>,
    saying: Option<Saying>,
    kept: Vec<&'l Line<'a>>,
}

impl<'i, 'l, 'a> Model for FactorLines<'i, 'l, 'a> {
    ghost use Rattle.std.specs.Prelude.{List, map};
    ghost use Rattle.kc_text.specs.LineValue.{LineValue};
    ghost use Rattle.kc_facts.specs.FactorPlaces.{AreKept};

    ghost Value = { List LineValue };

    ghost view = { λ f. f.index.now };

    ghost invariant = { λ f. AreKept f.index.now f.saying (map (λ l. l.now) f.kept.items) };
}

impl<'i, 'l, 'a> FactorLines<'i, 'l, 'a> {
    /// Before the first part.
    pub fn new(alloc: Global, index: &'i LineIndex<'l, 'a>) -> FactorLines<'i, 'l, 'a>
        ensures { result ≡ index.entry.now }
    {
        FactorLines {
            index,
            saying: None,
            kept: Vec::new(alloc),
        }
    }

    /// The line of a factor of a definition, or of its prompt.
    ///
    /// # Errors
    ///
    /// `AllocError` where memory is refused.
    pub fn find(
        &mut self,
        alloc: Global,
        tree: &Tree,
        definition: usize,
        factor: &Factor<'_>,
    ) -> Result<Option<&'l Line<'a>>, AllocError>
        ensures line { IfOk result (λ found. option_copied found
            ≡ option_and_then (line_of self.old) (part_of_factor tree.now definition factor.now)) }
        ensures lines { self.new ≡ self.old }
    {
        match part_of_factor(tree, definition, factor) {
            Some(part) => self.line(alloc, part),
            None => Ok(None),
        }
    }

    /// The line of a part.
    ///
    /// The error comes where memory is refused.
    pub(crate) fn line(
        &mut self,
        alloc: Global,
        part: Part,
    ) -> Result<Option<&'l Line<'a>>, AllocError>
        ensures line { IfOk result (λ found. option_copied found ≡ line_of self.old part) }
        ensures lines { self.new ≡ self.old }
    {
        match part {
            Part::Owner(_, _) => Ok(self.index.line(part)),
            Part::Said(family, number, attribute, place) => {
                let saying = Saying {
                    family,
                    number,
                    attribute,
                };
                self.numbered(alloc, saying, place)
            }
        }
    }

    /// The line of a number among those that say an attribute of an owner.
    fn numbered(
        &mut self,
        alloc: Global,
        saying: Saying,
        number: usize,
    ) -> Result<Option<&'l Line<'a>>, AllocError>
        ensures line { IfOk result (λ found. option_copied found
            ≡ line_of self.old (Said saying.family saying.number saying.attribute number)) }
        ensures lines { self.new ≡ self.old }
    {
        if !is_saying(self.saying, saying) {
            let attributes = self.index.attributes(saying.family, saying.number);
            self.kept = lines_saying(alloc, attributes, saying.attribute)?;
            self.saying = Some(saying);
        }
        Ok(self.kept.get(number).copied())
    }
}

/// The lines that say an attribute, in their order.
fn lines_saying<'l, 'a>(
    alloc: Global,
    attributes: &'l [Line<'a>],
    attribute: Attribute,
) -> Result<Vec<&'l Line<'a>>, AllocError>
    ensures { IfOk result (λ lines. map (λ l. l.now) lines.items ≡ filter (says attribute) attributes.entry.now) }
{
    let mut lines = Vec::new(alloc);
    for line in attributes {
        if says(attribute, line) {
            lines.push(line)?;
        }
    }
    Ok(lines)
}
