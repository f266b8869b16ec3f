//! The lines of the menu tree.

use crate::block_object::{choice_object, comment_object, menu_object};
use crate::help::Help;
use crate::menu_inputs::MenuInputs;
use crate::settings::Settings;
use crate::symbol_object::symbol_object;
use kc_facts::{Row, View, menu_rows};
use kc_lines::LineIndex;
use kc_tree::{Entry, SymId};
use serde::Serialize;
use std::alloc::{AllocError, Global};

/// The lines of the menu tree as one text: for each row a JSON object, in the order of the rows.
///
/// # Errors
///
/// `AllocError` where memory is refused.
pub fn menu_text(
    alloc: Global,
    view: &View<'_>,
    index: &LineIndex<'_, '_>,
    help: Help,
) -> Result<String, AllocError> {
    let inputs = MenuInputs::new(view, index, help);
    let rows = menu_rows(alloc, view.tree())?;
    let mut settings = Settings::new(alloc);
    let mut text = String::new(alloc);
    for row in &rows {
        let line = line_of(alloc, &inputs, &mut settings, *row)?;
        text.push_str(line.as_str())?;
    }
    Ok(text)
}

/// The line of a row.
fn line_of(
    alloc: Global,
    inputs: &MenuInputs<'_>,
    settings: &mut Settings,
    row: Row,
) -> Result<String, AllocError> {
    match row.entry {
        Entry::Symbol(symbol) | Entry::Again(symbol) => {
            symbol_line(alloc, inputs, settings, row, symbol)
        }
        Entry::Menu(menu) | Entry::EndMenu(menu) => {
            json_line(alloc, &menu_object(alloc, inputs, row, menu)?)
        }
        Entry::Choice(choice) => json_line(alloc, &choice_object(alloc, inputs, row, choice)?),
        Entry::Comment(comment) => json_line(alloc, &comment_object(alloc, inputs, row, comment)?),
    }
}

/// The line of a definition of a symbol.
fn symbol_line(
    alloc: Global,
    inputs: &MenuInputs<'_>,
    settings: &mut Settings,
    row: Row,
    symbol: SymId,
) -> Result<String, AllocError> {
    let number = row.definition.unwrap_or(0);
    let setting = settings.of(alloc, inputs.view().known(), symbol)?;
    json_line(
        alloc,
        &symbol_object(alloc, inputs, row, symbol, number, setting)?,
    )
}

/// A JSON object with a line feed. Such an object has no numbers but integers, and its keys are texts, so that memory is
/// all that can be refused.
fn json_line<T: Serialize>(alloc: Global, object: &T) -> Result<String, AllocError> {
    match serde_json::to_string(alloc, object) {
        Ok(mut line) => {
            line.push('\n')?;
            Ok(line)
        }
        Err(_) => Err(AllocError),
    }
}
