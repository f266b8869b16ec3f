//! The lines of a file that are taken together with a line at fault, and where in them their reading stops.

use kc_text::{
    FileItem, StopKind, leading_item, references_in, stop_in, stop_in_value, value_references_in,
};
use std::alloc::{AllocError, Global};
use std::collections::BTreeMap;

/// The last definition of each variable, by its name: the number of its line, and the value.
pub(crate) type Definitions = BTreeMap<String, (usize, String)>;

/// The lines that are taken together from a line on, with the definitions of variables before them in their file.
#[derive(Drop)]
pub(crate) struct Found<'t> {
    item: FileItem<'t>,
    pub definitions: Definitions,
}

/// A character of a file, by the number of its line and by its own in the line, both counted from 1.
#[derive(Clone, Copy)]
pub(crate) struct Spot {
    pub line: usize,
    pub column: usize,
}

/// What the reader of a text takes together from the line of a number on, if the text has such a line.
pub(crate) fn find_item(
    alloc: Global,
    text: &str,
    number: usize,
) -> Result<Option<Found<'_>>, AllocError> {
    let mut definitions = BTreeMap::new(alloc);
    match item_at(alloc, text, number, &mut definitions)? {
        Some(item) => Ok(Some(Found { item, definitions })),
        None => Ok(None),
    }
}

/// The same, which takes over the definitions before that line.
fn item_at<'t>(
    alloc: Global,
    text: &'t str,
    number: usize,
    definitions: &mut Definitions,
) -> Result<Option<FileItem<'t>>, AllocError> {
    let mut rest = text;
    let mut line = 1usize;
    while let Some((item, after)) = leading_item(alloc, rest)? {
        if line == number {
            return Ok(Some(item));
        }
        if let Some(definition) = item.definition() {
            let value = String::from_str(alloc, definition.value.as_str())?;
            let name = String::from_str(alloc, definition.name.as_str())?;
            definitions.insert(name, (line, value))?;
        }
        line = line.saturating_add(item.more()).saturating_add(1);
        rest = after;
    }
    Ok(None)
}

impl<'t> Found<'t> {
    /// The text of the joined lines.
    pub fn text(&self) -> &str {
        self.item.text()
    }

    /// What the lines give a variable, if they define one.
    pub fn value(&self) -> Option<&str> {
        let _ = self.item.definition()?;
        let (_, value) = self.text().split_once('=')?;
        Some(value)
    }

    /// The names of the variables to which the lines refer.
    pub fn names(&self, alloc: Global) -> Result<Vec<&str>, AllocError> {
        self.names_before(alloc, "")
    }

    /// The names of those to which the lines refer before a text with which they end.
    fn names_before(&self, alloc: Global, end: &str) -> Result<Vec<&str>, AllocError> {
        match self.value() {
            Some(value) => value_references_in(alloc, value.strip_suffix(end).unwrap_or("")),
            None => references_in(alloc, self.text().strip_suffix(end).unwrap_or("")),
        }
    }

    /// The first variable to which the lines refer before a text with which they end, and whose text, by its definition in
    /// the same file, has a dollar that begins no reference.
    pub fn faulty_before(&self, alloc: Global, end: &str) -> Result<Option<&str>, AllocError> {
        let names = self.names_before(alloc, end)?;
        Ok(names.iter().copied().find(|name| self.is_faulty(name)))
    }

    /// Whether the text of a variable, by its definition in the same file, has such a dollar.
    fn is_faulty(&self, name: &str) -> bool {
        match self.definitions.get(name) {
            Some((_, value)) => stop_in_value(value.as_str()).is_some(),
            None => false,
        }
    }

    /// The text of the joined lines from where their reading stops, if it does so for this reason.
    pub fn stop(&self, kind: StopKind) -> Option<&str> {
        let left = match self.value() {
            Some(value) => stop_in_value(value)?,
            None => stop_in(self.text()).filter(|stop| stop.kind == kind)?.left,
        };
        let before = self.text().len().saturating_sub(left);
        self.text().get(before..)
    }
}

/// The character at a number of bytes into the joined lines of a text, from the line of a number on.
pub(crate) fn spot_after(text: &str, number: usize, bytes: usize) -> Option<Spot> {
    let mut left = bytes;
    let lines = text.lines().skip(number.saturating_sub(1));
    for (count, line) in lines.enumerate() {
        let line = line.strip_suffix('\\').unwrap_or(line);
        if left < line.len() {
            return Some(Spot {
                line: number.saturating_add(count),
                column: line.get(..left)?.chars().count().saturating_add(1),
            });
        }
        left = left.saturating_sub(line.len());
    }
    None
}
