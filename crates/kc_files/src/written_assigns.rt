//! The text of assignments, a line for each.

ghost use Rattle.std.specs.Prelude.{◌≡◌, [], All, IfOk};
ghost use Rattle.std.specs.String.{string_bytes};
ghost use Rattle.kc_files.specs.ConfigReading.{IsConfigReading};
ghost use Rattle.kc_files.specs.LineReading.{IsAssignFor, IsUnfed};
ghost use Rattle.kc_files.specs.WrittenAssigns.{assigns_text, AreApart};

use crate::assign::Assign;
use crate::prefix::Prefix;
use crate::symbol_line::push_symbol_line;
use kc_tree::Tree;
use std::alloc::{AllocError, Global};

/// The lines of assignments, with this before each name.
///
/// The error comes where memory is refused.
fn lines_of(
    alloc: Global,
    tree: &Tree,
    prefix: &str,
    assigns: &[Assign],
) -> Result<String, AllocError>
    ensures { IfOk result (λ text. string_bytes text ≡ assigns_text tree.now prefix.now assigns.now) }
{
    let mut text = String::new(alloc);
    let mut rest = assigns;
    while let Some((assign, later)) = rest.split_first() {
        push_symbol_line(
            &mut text,
            prefix,
            tree.name(assign.symbol),
            tree.symbol_type(assign.symbol),
            &assign.value,
        )?;
        rest = later;
    }
    Ok(text)
}

/// The text of assignments, a line of a `.config` for each (docs/FILES.md). Where no value has a line feed, and no two
/// assignments are to one symbol, the text is read back as these assignments, in their order, without a warning.
///
/// # Errors
///
/// The error comes where memory is refused.
pub fn assigns_text(
    alloc: Global,
    tree: &Tree,
    prefix: &Prefix,
    assigns: &[Assign],
) -> Result<String, AllocError>
    requires { All (IsAssignFor tree.now) assigns.now }
    ensures text { IfOk result (λ text. string_bytes text ≡ assigns_text tree.now prefix.now assigns.now) }
    ensures read { All IsUnfed assigns.now → AreApart assigns.now
        → IfOk result (λ text. IsConfigReading tree.now prefix.now (string_bytes text) assigns.now []) }
{
    // That each name is in the tree once is a clause of this call.
    let _ = tree.symbols();
    lines_of(alloc, tree, prefix.as_str(), assigns)
}
