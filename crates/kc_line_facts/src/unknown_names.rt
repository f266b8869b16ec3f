//! Names that are not known, each where it is first.

ghost use Rattle.std.specs.Prelude.{◌≡◌, ◌++◌, ◌∷◌, ◌||◌, [], ℕ, Bool, List, false, not, true, IfOk, OnOk, if◌then◌else◌, length, map};
ghost use Rattle.std.specs.BTreeMap.{get_by};
ghost use Rattle.std.specs.Cmp.Lexicographic.{slice_cmp};
ghost use Rattle.std.specs.List.{range_with_len};
ghost use Rattle.std.specs.Option.{option_map_or};
ghost use Rattle.std.specs.Ordering.{nat_cmp};
ghost use Rattle.std.specs.Str.{bytes_eq};
ghost use Rattle.kc_text.specs.LineReferences.{lent_names};
ghost use Rattle.kc_line_facts.specs.FreshNames.{fresh_places, is_among, is_fresh};

use std::alloc::{AllocError, Global};
use std::collections::BTreeMap;

/// Notes a name, and gives whether it was not noted before.
fn note<'n>(noted: &mut BTreeMap<&'n str, ()>, name: &'n str) -> Result<bool, AllocError>
    ensures new { IfOk result (λ is. is ≡ not (option_map_or (λ _. true) (get_by (λ k. slice_cmp nat_cmp name.entry.now k.now) noted.old) false)) }
    ensures noted { OnOk result ((q : List ℕ) → option_map_or (λ _. true) (get_by (λ k. slice_cmp nat_cmp q k.now) noted.new) false
        ≡ (bytes_eq name.entry.now q || option_map_or (λ _. true) (get_by (λ k. slice_cmp nat_cmp q k.now) noted.old) false)) }
{
    let is_new = noted.get(name).is_none();
    noted.insert(name, ())?;
    Ok(is_new)
}

/// Notes names.
fn note_all<'n>(noted: &mut BTreeMap<&'n str, ()>, names: &[&'n str]) -> Result<(), AllocError>
    ensures { OnOk result ((q : List ℕ) → option_map_or (λ _. true) (get_by (λ k. slice_cmp nat_cmp q k.now) noted.new) false
        ≡ (is_among (lent_names names.now) q || option_map_or (λ _. true) (get_by (λ k. slice_cmp nat_cmp q k.now) noted.old) false)) }
{
    for place in 0..names.len() {
        let _ = note(noted, names[place])?;
    }
    Ok(())
}

/// Adds a place, if its name is fresh.
fn add_place(fresh: &mut Vec<usize>, place: usize, is_fresh: bool) -> Result<(), AllocError>
    ensures { OnOk result (fresh.new.items ≡ fresh.old.items ++ (if is_fresh then place ∷ [] else [])) }
{
    if is_fresh {
        fresh.push(place)?;
    }
    Ok(())
}

/// For each name whether it is not known, and not there before.
///
/// # Errors
///
/// `AllocError` where memory is refused.
pub fn fresh_flags(alloc: Global, names: &[&str], known: &[&str]) -> Result<Vec<bool>, AllocError>
    ensures { IfOk result (λ flags. flags.items ≡ map (is_fresh (lent_names names.now) (lent_names known.now)) (range_with_len 0 (length names.now))) }
{
    let mut noted = BTreeMap::new(alloc);
    note_all(&mut noted, known)?;
    let mut flags = Vec::new(alloc);
    for place in 0..names.len() {
        let is_fresh = note(&mut noted, names[place])?;
        flags.push(is_fresh)?;
    }
    Ok(flags)
}

/// The places of the names that are not known, each where it is first, in their order (this project's own).
///
/// # Errors
///
/// `AllocError` where memory is refused.
pub fn fresh_names(alloc: Global, names: &[&str], known: &[&str]) -> Result<Vec<usize>, AllocError>
    ensures { IfOk result (λ r. r.items ≡ fresh_places (lent_names names.now) (lent_names known.now)) }
{
    let flags = fresh_flags(alloc, names, known)?;
    let mut fresh = Vec::new(alloc);
    for place in 0..flags.len() {
        add_place(&mut fresh, place, flags[place])?;
    }
    Ok(fresh)
}
