//! Of many names, those that end in `_` and a name, as a new name of a symbol often does.

ghost use Rattle.std.specs.Prelude.{◌≡◌, ◌↔◌, ◌∷◌, ℕ, List, IsTrue, IfOk, OnOk, Some, slice_get};
ghost use Rattle.std.specs.Option.{option_copied};
ghost use Rattle.kc_names.specs.NameEnds.{EndsIn, HasEnds, IsEnding, IsEndOf, IsOnly, IsOtherAt, IsOtherNumber, IsOtherOf, KeepsEnds};
ghost use Rattle.kc_names.specs.NameForms.{IsKept, KeepsMore, lowered};
ghost use Rattle.kc_text.specs.LineReferences.{lent_names};

use crate::likeness::{MOST_BYTES, is_excepted};
use crate::name_forms::{Kept, START, hash_from, place_of};
use std::alloc::{AllocError, Global};
use std::marker::Model;

/// The fewest bytes of a name that others end in.
const FEWEST_BYTES: usize = 4;

/// Names by what comes after each `_` in them. Contracts see the names.
#[derive(Drop)]
pub(crate) struct NameEnds<'n> {
    names: Vec<&'n str>,
    /// What comes after each `_`, in the order of the hashes.
    kept: Vec<Kept>,
}

impl<'n> Model for NameEnds<'n> {
    ghost use Rattle.std.specs.Prelude.{ℕ, List};
    ghost use Rattle.kc_names.specs.NameEnds.{HasEnds};
    ghost use Rattle.kc_text.specs.LineReferences.{lent_names};

    ghost Value = { List (List ℕ) };

    ghost view = { λ n. lent_names n.names.items };

    ghost invariant = { λ n. HasEnds (lent_names n.names.items) n.kept.items };
}

impl<'n> NameEnds<'n> {
    /// These names.
    ///
    /// # Errors
    ///
    /// `AllocError` where memory is refused.
    pub fn of(alloc: Global, names: Vec<&'n str>) -> Result<NameEnds<'n>, AllocError>
        ensures { IfOk result (λ ends. ends ≡ lent_names names.entry.items) }
    {
        let kept = sorted_ends(alloc, names.as_slice())?;
        Ok(NameEnds { names, kept })
    }

    /// The names themselves.
    pub fn names(&self) -> &[&'n str]
        ensures { lent_names result.now ≡ self.now }
    {
        self.names.as_slice()
    }

    /// The one name that ends in `_` and a name of at least four bytes: none where several do. Names of more than 64 bytes
    /// are passed over.
    pub fn ending_in(&self, name: &str) -> Option<&'n str>
        ensures { IsOnly (IsEnding self.now name.now) (option_copied result) }
    {
        let Some(found) = self.other(name, None) else {
            return None;
        };
        match self.other(name, Some(found)) {
            Some(_) => None,
            None => Some(found),
        }
    }

    /// A name that ends in `_` and a name, and is not the excepted one.
    fn other(&self, name: &str, excepted: Option<&str>) -> Option<&'n str>
        ensures { IsOtherOf self.now (option_copied excepted.entry) name.now (option_copied result) }
    {
        let Some(number) = self.other_number(name, excepted) else {
            return None;
        };
        self.name(number)
    }

    /// The number of such a name.
    fn other_number(&self, name: &str, excepted: Option<&str>) -> Option<usize>
        ensures { IsOtherNumber self.now (option_copied excepted.entry) name.now result }
    {
        other_among(self.names.as_slice(), self.kept.as_slice(), name, excepted)
    }

    /// The name of a number.
    fn name(&self, number: usize) -> Option<&'n str>
        ensures { option_copied result ≡ slice_get self.now number }
    {
        self.names.get(number).copied()
    }
}

/// Whether the name of a number ends in `_` and a name, and is not the excepted one.
fn is_other_at(names: &[&str], name: &str, excepted: Option<&str>, number: usize) -> bool
    ensures { IsTrue result ↔ IsOtherAt (lent_names names.now) (option_copied excepted.entry) name.now number }
{
    match names.get(number) {
        Some(other) => !is_excepted(excepted, other) && is_ending(name, other),
        None => false,
    }
}

/// The number of a name that ends in `_` and a name, and is not the excepted one, by what is kept of the names.
fn other_among(names: &[&str], kept: &[Kept], name: &str, excepted: Option<&str>) -> Option<usize>
    requires { HasEnds (lent_names names.now) kept.now }
    ensures { IsOtherNumber (lent_names names.now) (option_copied excepted.entry) name.now result }
{
    let hash = hash_from(START, name.as_bytes());
    let first = place_of(kept, hash);
    for place in first..kept.len() {
        let found = kept[place];
        if found.hash != hash {
            return None;
        }
        if is_other_at(names, name, excepted, found.name) {
            return Some(found.name);
        }
    }
    None
}

/// Whether another name of at most 64 bytes ends in `_` and a name of at least four.
fn is_ending(name: &str, other: &str) -> bool
    ensures { IsTrue result ↔ IsEndOf name.now other.now }
{
    name.len() >= FEWEST_BYTES
        && other.len() <= MOST_BYTES
        && ends_in(name.as_bytes(), other.as_bytes())
}

/// Whether another name ends in `_` and a name, but for small and capital letters.
fn ends_in(name: &[u8], other: &[u8]) -> bool
    ensures { IsTrue result ↔ EndsIn name.now other.now }
{
    if other.len() <= name.len() {
        return false;
    }
    let place = other.len() - name.len();
    other[place - 1] == b'_' && name.eq_ignore_ascii_case(&other[place..])
}

/// Adds what comes after a `_`, with which bytes of the name of a number begin, or nothing.
fn push_end(kept: &mut Vec<Kept>, name: usize, bytes: &[u8]) -> Result<(), AllocError>
    ensures more { OnOk result (KeepsMore kept.old.items kept.new.items) }
    ensures end { OnOk result ((rest : List ℕ) → bytes.now ≡ 95 ∷ rest → IsKept kept.new.items (lowered rest) name) }
{
    if let [first, rest @ ..] = bytes {
        if *first == b'_' {
            let hash = hash_from(START, rest);
            kept.push(Kept { hash, name })?;
        }
    }
    Ok(())
}

/// Adds what comes after each `_` in the name of a number, unless it is too long.
fn push_ends(kept: &mut Vec<Kept>, number: usize, name: &[u8]) -> Result<(), AllocError>
    ensures more { OnOk result (KeepsMore kept.old.items kept.new.items) }
    ensures ends { OnOk result (KeepsEnds kept.new.items number name.now) }
{
    if name.len() > MOST_BYTES {
        return Ok(());
    }
    for place in 0..name.len() {
        push_end(kept, number, &name[place..])?;
    }
    Ok(())
}

/// What comes after each `_` in names.
fn ends_of(alloc: Global, names: &[&str]) -> Result<Vec<Kept>, AllocError>
    ensures { IfOk result (λ kept. (j : ℕ) (b : List ℕ) → slice_get (lent_names names.now) j ≡ Some b → KeepsEnds kept.items j b) }
{
    let mut kept = Vec::new(alloc);
    for number in 0..names.len() {
        push_ends(&mut kept, number, names[number].as_bytes())?;
    }
    Ok(kept)
}

/// The same in the order of the hashes.
fn sorted_ends(alloc: Global, names: &[&str]) -> Result<Vec<Kept>, AllocError>
    ensures { IfOk result (λ kept. HasEnds (lent_names names.now) kept.items) }
{
    let mut kept = ends_of(alloc, names)?;
    kept.sort_unstable_by_key(|kept| kept.hash);
    Ok(kept)
}
