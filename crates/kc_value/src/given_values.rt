//! The values that a user gave to symbols, by number.

ghost use Rattle.std.specs.Prelude.{◌≡◌, ◌∷◌, ◌++◌, ◌<◌, ◌≤◌, ◌^◌, [], IfOk, None, Some, length, map, option_map, replicate, slice_index_or, slice_set, vec_capacity};
ghost use Rattle.std.specs.Option.{option_copied};
ghost use Rattle.kc_tree.specs.declared.user_value.UserVal.TheVariants.{Tri as TriVal};
ghost use Rattle.kc_value.specs.GivenValues.{place_of};

use crate::given::{Given, Levels};
use kc_tree::{Tri, UserVal};
use std::alloc::{AllocError, Global};
use std::marker::Model;

/// A value or none for each symbol, by number. Contracts see the list of them.
///
/// A symbol takes eight bytes, and one that was given a text has a place for it besides, which it keeps: most symbols
/// never have one. There is room for a text of each symbol from the start, so that to give one takes no memory. Its pages
/// are touched only as texts come.
#[derive(Debug, Drop)]
pub(crate) struct GivenValues {
    given: Vec<Given>,
    texts: Vec<UserVal>,
    levels: Levels,
}

impl Model for GivenValues {
    ghost use Rattle.std.specs.Prelude.{◌≤◌, length, map, vec_capacity};
    ghost use Rattle.kc_value.specs.GivenValues.{ArePlaces, Values, place_of, seen};

    ghost Value = { Values };

    ghost view = { λ a. map (seen a.texts.items) a.given.items };

    ghost invariant = { λ a. ArePlaces (map place_of a.given.items) (length a.texts.items) × (length a.given.items ≤ vec_capacity a.texts) };
}

impl GivenValues {
    /// As many symbols without a value. The error comes where memory is refused.
    pub(crate) fn empty(alloc: Global, count: usize) -> Result<GivenValues, AllocError>
        requires { count < 2 ^ 32 }
        ensures { IfOk result (λ v. v ≡ replicate count None) }
    {
        Ok(GivenValues {
            given: vec![in alloc; Given::Plain(None); count]?,
            texts: Vec::with_capacity(alloc, count)?,
            levels: Levels::new(),
        })
    }

    /// The value of the symbol of a number, if it has one.
    pub(crate) fn get(&self, number: usize) -> Option<&UserVal>
        ensures { option_copied result ≡ slice_index_or self.now number None }
    {
        match self.given.get(number) {
            Some(Given::Plain(level) | Given::Aside(level, _)) => self.levels.get(*level),
            Some(Given::Text(place)) => self.texts.get(*place as usize),
            None => None,
        }
    }

    /// Gives the symbol of a number a value, or takes it away.
    pub(crate) fn set(&mut self, number: usize, value: Option<UserVal>)
        requires { number < length self.old }
        ensures { self.new ≡ slice_set self.old number value }
    {
        match value {
            None => self.set_level(number, None),
            Some(UserVal::Tri(level)) => self.set_level(number, Some(level)),
            Some(UserVal::Text(text)) => self.set_text(number, UserVal::Text(text)),
        }
    }

    /// Gives the symbol of a number a tristate value or nothing. Its place among the texts stays.
    fn set_level(&mut self, number: usize, level: Option<Tri>)
        requires { number < length self.old }
        ensures { self.new ≡ slice_set self.old number (option_map TriVal level) }
    {
        self.given[number] = self.given[number].with_level(level);
    }

    /// Gives the symbol of a number a value, which is put at its place among the texts, or at the next.
    fn set_text(&mut self, number: usize, value: UserVal)
        requires { number < length self.old }
        ensures { self.new ≡ slice_set self.old number (Some value) }
    {
        match place_at(self.given.as_slice(), number) {
            Some(place) => {
                self.texts[place as usize] = value;
                self.given[number] = Given::Text(place);
            }
            None => {
                self.given[number] = Given::Text(self.texts.len() as u32);
                add_text(&mut self.texts, value);
            }
        }
    }

    /// Takes all values away. The room for texts stays.
    pub(crate) fn clear(&mut self)
        ensures { self.new ≡ replicate (length self.old) None }
    {
        self.given.fill(Given::Plain(None));
        self.texts.clear();
    }

    /// A copy. The error comes where memory is refused.
    pub(crate) fn copy(&self, alloc: Global) -> Result<GivenValues, AllocError>
        ensures { IfOk result (λ v. v ≡ self.now) }
    {
        Ok(GivenValues {
            given: Vec::from_slice(alloc, self.given.as_slice())?,
            texts: copy_texts(alloc, self.texts.as_slice(), self.given.len())?,
            levels: Levels::new(),
        })
    }
}

/// The place of the symbol of a number among the texts, if it has one.
fn place_at(given: &[Given], number: usize) -> Option<u32>
    ensures { result ≡ slice_index_or (map place_of given.now) number None }
{
    match given.get(number) {
        Some(given) => given.place(),
        None => None,
    }
}

/// Puts a text after the others, for which there is room.
fn add_text(texts: &mut Vec<UserVal>, value: UserVal)
    requires room { length texts.old.items < vec_capacity texts.old }
    ensures texts { texts.new.items ≡ texts.old.items ++ value ∷ [] }
    ensures room { vec_capacity texts.old ≤ vec_capacity texts.new }
{
    let _ = texts.push(value);
}

/// A copy of a user value, which shares its text. The error comes where the owners of that can't be counted.
fn copy_value(value: &UserVal) -> Result<UserVal, AllocError>
    ensures { IfOk result (λ v. v ≡ value.now) }
{
    match value {
        UserVal::Tri(tri) => Ok(UserVal::Tri(*tri)),
        UserVal::Text(text) => Ok(UserVal::Text(text.share()?)),
    }
}

/// A copy of texts, with room for as many as asked. The error comes where memory is refused.
fn copy_texts(alloc: Global, texts: &[UserVal], room: usize) -> Result<Vec<UserVal>, AllocError>
    ensures copy { IfOk result (λ v. v.items ≡ texts.now) }
    ensures room { IfOk result (λ v. room ≤ vec_capacity v) }
{
    let mut copies = Vec::with_capacity(alloc, room)?;
    for text in texts {
        copies.push(copy_value(text)?)?;
    }
    Ok(copies)
}
