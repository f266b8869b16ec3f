//! Symbols that nothing makes other than n, and tristates that are never m.

use crate::said::Said;
use crate::selections::name_at;
use kc_tree::Tree;
use std::alloc::{AllocError, Global};

/// What is said of a bool or a tristate that is always n, since no line gives it a value, by the number of its first
/// definition.
///
/// # Errors
///
/// `AllocError` where memory is refused.
pub(crate) fn said_of_unset(
    alloc: Global,
    tree: &Tree,
    definition: usize,
) -> Result<Said, AllocError> {
    let words = String::from_str(
        alloc,
        "always n: it has no prompt and no default, and no line selects or implies it",
    )?;
    Said::of(alloc, name_at(tree, definition), words)
}

/// What is said of a tristate that is never m, since no line defines MODULES (docs/VALUES.md, "The type and MODULES"), by
/// the number of one of its definitions.
///
/// # Errors
///
/// `AllocError` where memory is refused.
pub(crate) fn said_of_never_modules(
    alloc: Global,
    tree: &Tree,
    definition: usize,
) -> Result<Said, AllocError> {
    let words = String::from_str(alloc, "a tristate is never m: no line defines MODULES")?;
    Said::of(alloc, name_at(tree, definition), words)
}
