//! The names of the symbols of a tree.

ghost use Rattle.std.specs.Prelude.{◌≡◌, IfOk};
ghost use Rattle.kc_line_facts.specs.SymbolNames.{symbol_names};
ghost use Rattle.kc_text.specs.LineReferences.{lent_names};

use kc_tree::{SymId, Tree};
use std::alloc::{AllocError, Global};

/// The names of the symbols of a tree, in their order.
///
/// # Errors
///
/// `AllocError` where memory is refused.
pub fn symbol_names<'t>(alloc: Global, tree: &'t Tree) -> Result<Vec<&'t str>, AllocError>
    ensures { IfOk result (λ names. lent_names names.items ≡ symbol_names tree.now) }
{
    let mut names = Vec::new(alloc);
    for number in 0..tree.symbols().len() {
        names.push(tree.name(SymId(number as u32)))?;
    }
    Ok(names)
}
