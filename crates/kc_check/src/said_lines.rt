//! The lines that say an attribute of definitions.

use kc_lines::{Attribute, Family, LineIndex};
use kc_text::Line;
use std::alloc::{AllocError, Global};
use std::collections::BTreeMap;

/// Finds the lines that say one attribute of definitions. Those of a definition are looked through once, however many of
/// them are asked for, and in whatever order.
#[derive(Drop)]
pub(crate) struct SaidLines {
    attribute: Attribute,
    /// By the number of a definition, the numbers of its lines among all lines.
    numbers: BTreeMap<usize, Vec<usize>>,
}

impl SaidLines {
    /// Those that say an attribute.
    pub fn new(alloc: Global, attribute: Attribute) -> SaidLines {
        SaidLines {
            attribute,
            numbers: BTreeMap::new(alloc),
        }
    }

    /// The line of a number among those of the definition of a number.
    ///
    /// # Errors
    ///
    /// `AllocError` where memory is refused.
    pub fn line<'l, 'a>(
        &mut self,
        alloc: Global,
        index: &LineIndex<'l, 'a>,
        definition: usize,
        nth: usize,
    ) -> Result<Option<&'l Line<'a>>, AllocError> {
        if !self.numbers.contains_key(&definition) {
            let family = Family::Definition;
            let numbers = index.numbers_saying(alloc, family, definition, self.attribute)?;
            self.numbers.insert(definition, numbers)?;
        }
        let Some(numbers) = self.numbers.get(&definition) else {
            return Ok(None);
        };
        match numbers.get(nth) {
            Some(number) => Ok(index.lines().get(*number)),
            None => Ok(None),
        }
    }
}
