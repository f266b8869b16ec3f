//! What a name that no symbol has may have been meant as, where a user wrote it: in a `.config` or on the command line.

ghost use Rattle.std.specs.Prelude.{◌≡◌, IfOk};
ghost use Rattle.std.specs.Option.{option_copied};
ghost use Rattle.kc_names.specs.MeantNames.{IsMeantName, IsNearOrEnding};
ghost use Rattle.kc_text.specs.LineReferences.{lent_names};

use crate::bare_names::bare_name;
use crate::name_ends::NameEnds;
use crate::near_names::NearNames;
use std::alloc::{AllocError, Global};
use std::marker::Model;

/// The names of symbols, as those that a name may have been meant as. Contracts see the names.
#[derive(Drop)]
pub struct MeantNames<'n> {
    near: NearNames<'n>,
    ends: NameEnds<'n>,
}

impl<'n> Model for MeantNames<'n> {
    ghost use Rattle.std.specs.Prelude.{◌≡◌, ℕ, List};

    ghost Value = { List (List ℕ) };

    ghost view = { λ n. n.near };

    ghost invariant = { λ n. n.ends ≡ n.near };
}

impl<'n> MeantNames<'n> {
    /// These names, where so many names are asked for, or some more.
    ///
    /// # Errors
    ///
    /// `AllocError` where memory is refused.
    pub fn of(
        alloc: Global,
        names: Vec<&'n str>,
        asked: usize,
    ) -> Result<MeantNames<'n>, AllocError>
        ensures { IfOk result (λ meant. meant ≡ lent_names names.entry.items) }
    {
        let others = Vec::from_slice(alloc, names.as_slice())?;
        let ends = NameEnds::of(alloc, others)?;
        let near = NearNames::of(alloc, names, asked)?;
        Ok(MeantNames { near, ends })
    }

    /// What a name that no symbol has, where names have a prefix, may have been meant as (this project's own): the name,
    /// read without the prefix that it begins with, in other small and capital letters; else a name that it is near
    /// (`is_near`); else the one name that ends in `_` and it.
    pub fn meant(&self, prefix: &str, name: &str) -> Option<&'n str>
        ensures { IsMeantName self.now prefix.now name.now (option_copied result) }
    {
        let bare = bare_name(prefix, name);
        let near = self.near.nearest(bare, None);
        self.near_or_ending(bare, near)
    }

    /// A name that is near, and else the one name that ends in `_` and a name.
    fn near_or_ending(&self, name: &str, near: Option<&'n str>) -> Option<&'n str>
        ensures { IsNearOrEnding self.now name.now (option_copied near.entry) (option_copied result) }
    {
        match near {
            Some(near) => Some(near),
            None => self.ends.ending_in(name),
        }
    }
}

/// Adds what a name may have been meant as, if there is something: `; did you mean NAME?`.
///
/// # Errors
///
/// `AllocError` where memory is refused.
pub fn push_meant(words: &mut String, meant: Option<&str>) -> Result<(), AllocError> {
    match meant {
        Some(meant) => write!(words, "; did you mean {meant}?"),
        None => Ok(()),
    }
}
