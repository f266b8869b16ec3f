//! Defaults that are never used, since one before them always counts.

ghost use Rattle.std.specs.Prelude.{◌≡◌, ◌++◌, None, IfOk, OnOk, if◌then◌else◌, map, option_and_then, slice_index_or};
ghost use Rattle.std.specs.List.{filter};
ghost use Rattle.kc_line_facts.specs.UnusedDefaults.{counts_before, free_place, free_place_at, if_before, is_always_given, is_defined_again, is_end, noted_first, unused_after, unused_at, unused_defaults};

use crate::noted::noted_at;
use crate::ranges::is_free;
use crate::read_again::{ends_of, is_defined_again};
use kc_lines::{LineIndex, free_default_before};
use kc_text::Line;
use kc_tree::{Definition, Tree};
use std::alloc::{AllocError, Global};

/// A default by the number of its definition and its place there.
#[derive(Clone, Copy, Debug, PartialEq, Eq)]
pub struct DefaultPlace {
    pub definition: usize,
    pub place: usize,
}

/// A default that is never used, by the number of its definition and its place there, and the one before it that always
/// counts.
#[derive(Clone, Copy, Debug, PartialEq, Eq)]
pub struct UnusedDefault {
    pub definition: usize,
    pub place: usize,
    pub before: DefaultPlace,
}

/// The first default without a condition in a definition, which has a number.
#[tactic(auto, using(crate::proofs::UnusedLaws::taken_whole))]
fn free_place(number: usize, definition: &Definition) -> Option<DefaultPlace>
    ensures { result ≡ free_place number definition.now }
{
    let defaults = definition.defaults();
    let place = free_default_before(defaults, defaults.len())?;
    Some(DefaultPlace {
        definition: number,
        place,
    })
}

/// The same in the definition of a number.
fn free_place_at(tree: &Tree, number: usize) -> Option<DefaultPlace>
    ensures { result ≡ free_place_at tree.now number }
{
    free_place(number, tree.definitions().get(number)?)
}

/// Whether a definition, which has a number, always gives its symbol a value: by a default without a condition, where
/// neither the definition nor a block around it depends on anything.
fn is_always_given(tree: &Tree, number: usize, definition: &Definition) -> bool
    ensures { result ≡ is_always_given tree.now number definition.now }
{
    free_place(number, definition).is_some() && is_free(tree, number)
}

/// Notes the definition of a number as the one that always gives a symbol its value, if it is the first.
fn note_first(given: &mut Vec<Option<usize>>, symbol: usize, number: usize, is_given: bool)
    ensures { given.new.items ≡ noted_first given.old.items symbol number is_given }
{
    if is_given && symbol < given.len() && noted_at(given.as_slice(), symbol).is_none() {
        given[symbol] = Some(number);
    }
}

/// The default of the definition that is noted for a symbol.
fn noted_place(tree: &Tree, given: &[Option<usize>], symbol: usize) -> Option<DefaultPlace>
    ensures { result ≡ option_and_then (free_place_at tree.now) (slice_index_or given.now symbol None) }
{
    free_place_at(tree, noted_at(given, symbol)?)
}

/// A default before a place of its definition.
fn if_before(place: usize, own: Option<DefaultPlace>) -> Option<DefaultPlace>
    ensures { result ≡ if_before place own }
{
    match own {
        Some(own) if own.place < place => Some(own),
        Some(_) => None,
        None => None,
    }
}

/// The default that always counts before one at a place: that of an earlier definition, and else one before it in its own.
fn counts_before(
    earlier: Option<DefaultPlace>,
    own: Option<DefaultPlace>,
    place: usize,
) -> Option<DefaultPlace>
    ensures { result ≡ counts_before earlier own place }
{
    match earlier {
        Some(earlier) => Some(earlier),
        None => if_before(place, own),
    }
}

/// Adds a default at a place in a definition, if one before it always counts.
fn add_unused(
    found: &mut Vec<UnusedDefault>,
    definition: usize,
    place: usize,
    before: Option<DefaultPlace>,
) -> Result<(), AllocError>
    ensures { OnOk result (found.new.items ≡ found.old.items ++ unused_at definition place before) }
{
    if let Some(before) = before {
        found.push(UnusedDefault {
            definition,
            place,
            before,
        })?;
    }
    Ok(())
}

/// Adds the unused defaults of a definition, which has a number, where a default of an earlier one may always count.
fn add_after(
    found: &mut Vec<UnusedDefault>,
    number: usize,
    definition: &Definition,
    earlier: Option<DefaultPlace>,
) -> Result<(), AllocError>
    ensures { OnOk result (found.new.items ≡ found.old.items ++ unused_after number definition.now earlier) }
{
    let own = free_place(number, definition);
    for place in 0..definition.defaults().len() {
        add_unused(found, number, place, counts_before(earlier, own, place))?;
    }
    Ok(())
}

/// The default that always counts of an earlier definition, for a definition of a number, where the earlier one is noted.
/// There is none where the file of its line was read in its place before.
fn unless_again(
    index: &LineIndex<'_, '_>,
    ends: &[&Line<'_>],
    number: usize,
    earlier: Option<DefaultPlace>,
) -> Option<DefaultPlace>
    requires { map (λ e. e.now) ends.now ≡ filter is_end index.now }
    ensures { result ≡ (if is_defined_again index.now number then None else earlier) }
{
    if earlier.is_none() || is_defined_again(index, ends, number) {
        return None;
    }
    earlier
}

/// The defaults of a tree that are never used, each with one before it that always counts, in their order
/// (kconfig-language.rst, "default value": of several defaults the first active one counts).
///
/// # Errors
///
/// `AllocError` where memory is refused.
pub fn unused_defaults(
    alloc: Global,
    index: &LineIndex<'_, '_>,
    tree: &Tree,
) -> Result<Vec<UnusedDefault>, AllocError>
    ensures { IfOk result (λ r. r.items ≡ unused_defaults index.now tree.now) }
{
    let ends = ends_of(alloc, index.lines())?;
    let mut given = vec![in alloc; None; tree.symbols().len()]?;
    let mut found = Vec::new(alloc);
    for (number, definition) in tree.definitions().iter().enumerate() {
        let symbol = definition.symbol().0 as usize;
        let noted = noted_place(tree, given.as_slice(), symbol);
        let earlier = unless_again(index, ends.as_slice(), number, noted);
        add_after(&mut found, number, definition, earlier)?;
        let is_given = is_always_given(tree, number, definition);
        note_first(&mut given, symbol, number, is_given);
    }
    Ok(found)
}
