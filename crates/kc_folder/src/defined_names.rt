//! The variables that the lines of files define, as the reader takes the lines together.

use kc_text::leading_item;
use std::alloc::{AllocError, Global};
use std::collections::BTreeSet;

/// Adds the names of the variables that the lines of a text define. A comment and a help text define none.
///
/// # Errors
///
/// `AllocError` where memory is refused.
pub fn add_defined_names(
    alloc: Global,
    names: &mut BTreeSet<String>,
    text: &str,
) -> Result<(), AllocError> {
    let mut rest = text;
    while let Some((item, after)) = leading_item(alloc, rest)? {
        if let Some(definition) = item.definition() {
            names.insert(String::from_str(alloc, definition.name.as_str())?)?;
        }
        rest = after;
    }
    Ok(())
}
