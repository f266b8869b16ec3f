//! The numbers of the lines that say one attribute, definition after definition.

ghost use Rattle.std.specs.Prelude.{◌≡◌, IfOk};
ghost use Rattle.kc_lines.specs.declared.parts.Family.TheVariants.{Definition};
ghost use Rattle.kc_lines.specs.declared.parts.Part.TheVariants.{Said};
ghost use Rattle.kc_lines.specs.LineIndex.{number_of};

use kc_lines::{Attribute, Family, LineIndex};
use std::alloc::{AllocError, Global};
use std::marker::Model;

/// Finds the numbers of lines that say one attribute of definitions. Those of one definition follow each other, and its
/// lines are looked through once, however many they are. Contracts see all lines and the attribute.
#[derive(Drop)]
pub(crate) struct DefinitionLines<'i, 'l, 'a> {
    index: &'i LineIndex<'l, 'a>,
    attribute: Attribute,
    definition: usize,
    numbers: Vec<usize>,
}

impl<'i, 'l, 'a> Model for DefinitionLines<'i, 'l, 'a> {
    ghost use Rattle.std.specs.Prelude.{◌≡◌};
    ghost use Rattle.kc_lines.specs.declared.parts.Family.TheVariants.{Definition};
    ghost use Rattle.kc_lines.specs.LineIndex.{LinesSaying, numbers_saying};

    ghost Value = { LinesSaying };

    ghost view = { λ d. record { lines = d.index.now; attribute = d.attribute } };

    ghost invariant = { λ d. d.numbers.items ≡ numbers_saying d.index.now Definition d.definition d.attribute };
}

impl<'i, 'l, 'a> DefinitionLines<'i, 'l, 'a> {
    /// Those that say an attribute.
    ///
    /// The error comes where memory is refused.
    pub fn of(
        alloc: Global,
        index: &'i LineIndex<'l, 'a>,
        attribute: Attribute,
    ) -> Result<DefinitionLines<'i, 'l, 'a>, AllocError>
        ensures lines { IfOk result (λ d. d.lines ≡ index.entry.now) }
        ensures attribute { IfOk result (λ d. d.attribute ≡ attribute) }
    {
        let numbers = index.numbers_saying(alloc, Family::Definition, 0, attribute)?;
        Ok(DefinitionLines {
            index,
            attribute,
            definition: 0,
            numbers,
        })
    }

    /// The number of the line that says the attribute of a number of a definition.
    ///
    /// The error comes where memory is refused.
    pub fn number(
        &mut self,
        alloc: Global,
        definition: usize,
        nth: usize,
    ) -> Result<Option<usize>, AllocError>
        ensures number { IfOk result (λ n. n ≡ number_of self.old.lines (Said Definition definition self.old.attribute nth)) }
        ensures same { self.new ≡ self.old }
    {
        if self.definition != definition {
            let index = self.index;
            self.numbers = index.numbers_saying(
                alloc,
                Family::Definition,
                definition,
                self.attribute,
            )?;
            self.definition = definition;
        }
        Ok(self.numbers.get(nth).copied())
    }
}
