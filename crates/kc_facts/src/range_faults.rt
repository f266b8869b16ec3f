//! Ranges whose low bound is above their high bound.

ghost use Rattle.std.specs.Prelude.{◌≡◌, ◌++◌, IfOk, OnOk};
ghost use Rattle.kc_facts.specs.ExchangedRanges.{exchanged_at, exchanged_of, exchanged_ranges};

use kc_line_facts::has_exchanged_sides;
use kc_tree::{Definition, Tree};
use kc_value::RangePlace;
use std::alloc::{AllocError, Global};

/// Adds the range at a place in a definition, if its sides are exchanged.
fn add_range(
    found: &mut Vec<RangePlace>,
    definition: usize,
    range: usize,
    is_exchanged: bool,
) -> Result<(), AllocError>
    ensures { OnOk result (found.new.items ≡ found.old.items ++ exchanged_at definition range is_exchanged) }
{
    if is_exchanged {
        found.push(RangePlace { definition, range })?;
    }
    Ok(())
}

/// Adds the ranges of the definition of a number whose sides are exchanged.
fn add_exchanged(
    found: &mut Vec<RangePlace>,
    tree: &Tree,
    number: usize,
    definition: &Definition,
) -> Result<(), AllocError>
    ensures { OnOk result (found.new.items ≡ found.old.items ++ exchanged_of tree.now number definition.now) }
{
    let kind = tree.symbol_type(definition.symbol());
    for (place, range) in definition.ranges().iter().enumerate() {
        add_range(found, number, place, has_exchanged_sides(kind, range))?;
    }
    Ok(())
}

/// The ranges of a tree whose low bound is above their high bound, so that no value is inside, in their order
/// (kconfig-language.rst, "numerical ranges").
///
/// # Errors
///
/// `AllocError` where memory is refused.
pub fn exchanged_ranges(alloc: Global, tree: &Tree) -> Result<Vec<RangePlace>, AllocError>
    ensures { IfOk result (λ r. r.items ≡ exchanged_ranges tree.now) }
{
    let mut found = Vec::new(alloc);
    for (number, definition) in tree.definitions().iter().enumerate() {
        add_exchanged(&mut found, tree, number, definition)?;
    }
    Ok(found)
}
