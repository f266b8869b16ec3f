//! What eight bytes say of the value that a user gave a symbol.

ghost use Rattle.std.specs.Prelude.{◌≡◌, List, option_map};
ghost use Rattle.std.specs.Option.{option_copied};
ghost use Rattle.kc_tree.specs.declared.user_value.UserVal.{UserVal};
ghost use Rattle.kc_tree.specs.declared.user_value.UserVal.TheVariants.{Tri as TriVal};
ghost use Rattle.kc_value.specs.GivenValues.{place_of, seen};

use kc_tree::{Tri, UserVal};
use std::marker::Model;
use std::mem::size_of;

/// What a user gave a symbol: a tristate value or nothing, which is said here, or a text, which has a place among the
/// texts. The order of the fields keeps it at eight bytes.
#[derive(Clone, Copy, Debug)]
pub(crate) enum Given {
    /// The symbol has no place among the texts: none was given to it yet.
    Plain(Option<Tri>),
    /// It has this place, but the text there does not count now.
    Aside(Option<Tri>, u32),
    /// The text at this place.
    Text(u32),
}

const _: () = prove!(size_of::<Given>() == 8);

impl Given {
    /// The place among the texts, which the symbol keeps once it has one.
    pub(crate) fn place(self) -> Option<u32>
        ensures { result ≡ place_of self }
    {
        match self {
            Given::Plain(_) => None,
            Given::Aside(_, place) | Given::Text(place) => Some(place),
        }
    }

    /// What is said once the user gives a tristate value or nothing.
    pub(crate) fn with_level(self, level: Option<Tri>) -> Given
        ensures level { (texts : List UserVal) → seen texts result ≡ option_map TriVal level }
        ensures place { place_of result ≡ place_of self }
    {
        match self {
            Given::Plain(_) => Given::Plain(level),
            Given::Aside(_, place) | Given::Text(place) => Given::Aside(level, place),
        }
    }
}

/// The tristate values, for who wants to borrow one. Contracts see nothing of them.
#[derive(Debug, Drop)]
pub(crate) struct Levels {
    level_no: UserVal,
    level_module: UserVal,
    level_yes: UserVal,
}

impl Model for Levels {
    ghost use Rattle.std.specs.Prelude.{◌≡◌, ⊤};
    ghost use Rattle.kc_statement.specs.declared.tri.Tri.TheVariants.{No, Module, Yes};
    ghost use Rattle.kc_tree.specs.declared.user_value.UserVal.TheVariants.{Tri as TriVal};

    ghost Value = { ⊤ };

    ghost view = { λ _. tt };

    ghost invariant = { λ l. (l.level_no ≡ TriVal No) × (l.level_module ≡ TriVal Module) × (l.level_yes ≡ TriVal Yes) };
}

impl Levels {
    /// The tristate values.
    pub(crate) fn new() -> Levels {
        Levels {
            level_no: UserVal::Tri(Tri::No),
            level_module: UserVal::Tri(Tri::Module),
            level_yes: UserVal::Tri(Tri::Yes),
        }
    }

    /// The user value that is this tristate value.
    pub(crate) fn get(&self, level: Option<Tri>) -> Option<&UserVal>
        ensures { option_copied result ≡ option_map TriVal level }
    {
        match level {
            None => None,
            Some(Tri::No) => Some(&self.level_no),
            Some(Tri::Module) => Some(&self.level_module),
            Some(Tri::Yes) => Some(&self.level_yes),
        }
    }
}
