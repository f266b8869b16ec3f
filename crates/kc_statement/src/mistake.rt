//! Where a line goes another way than its form. A mistake is made where it is found, in place and out of line: a reader
//! keeps what it reads in registers then, and a line that has its form pays nothing.

ghost use Rattle.std.specs.Prelude.{◌≡◌};
ghost use Rattle.kc_statement.specs.declared.mistake.Unread.TheVariants.{At};
ghost use Rattle.kc_statement.specs.Mistakes.{of_front};

use std::alloc::{AllocError, AllocFailed};

/// What a form wants in a place (kconfig-language.rst, "Menu entries" and "Menu attributes").
#[derive(Clone, Copy, Debug, PartialEq, Eq)]
pub enum Wanted {
    /// The word of a statement or an attribute, first in a line.
    Keyword,
    /// The name of a symbol.
    Name,
    /// The title of a `menu`, a `comment` or a `mainmenu`, in quotes.
    Title,
    /// The path of a `source`, in quotes.
    Path,
    /// The text of a prompt, in quotes.
    Prompt,
    /// The word `on`.
    On,
    /// The word `if`.
    If,
    /// What may come after `option`.
    Setting,
    /// A term, a `!` or a `(`.
    Operand,
    /// A term.
    Term,
    /// A sign after a term, or the end.
    Operator,
    /// `&&` or `||`, or the end.
    Joint,
    /// A `)`.
    Close,
    /// The end of the line.
    Nothing,
}

/// The first place in which a line goes another way than its form, and what is wanted there.
#[derive(Clone, Copy, Debug, PartialEq, Eq)]
pub struct Mistake {
    /// How many tokens are left there, with the one that is wrong: none where they end too early.
    pub left: usize,
    pub wanted: Wanted,
}

/// Why a line was not read.
#[derive(Clone, Copy, Debug, PartialEq, Eq)]
pub enum Unread {
    /// Memory was refused.
    NoMemory,
    /// The line does not have its form.
    At(Mistake),
}

impl From<AllocError> for Unread {
    ghost use Rattle.std.specs.Prelude.{◌≡◌};
    ghost use Rattle.kc_statement.specs.declared.mistake.Unread.TheVariants.{NoMemory};

    ghost from_gives = { λ _ e. e ≡ NoMemory };

    fn from(_refused: AllocError) -> Unread {
        Unread::NoMemory
    }
}

impl<T: Drop> From<AllocFailed<T>> for Unread {
    ghost use Rattle.std.specs.Prelude.{◌≡◌};
    ghost use Rattle.kc_statement.specs.declared.mistake.Unread.TheVariants.{NoMemory};

    ghost from_gives = { λ _ e. e ≡ NoMemory };

    fn from(_refused: AllocFailed<T>) -> Unread {
        Unread::NoMemory
    }
}

/// The mistake that this is wanted where so many tokens are left.
#[cold]
#[inline(never)]
pub(crate) fn wants(wanted: Wanted, left: usize) -> Unread
    ensures { result ≡ At (record { left = left; wanted = wanted }) }
{
    Unread::At(Mistake { left, wanted })
}

impl Unread {
    /// The same mistake, of the front of tokens, as one of them all. `front` and `all` are how many these are.
    #[cold]
    #[inline(never)]
    pub(crate) fn of_front(self, front: usize, all: usize) -> Unread
        ensures { result ≡ of_front self front all }
    {
        match self {
            Unread::NoMemory => Unread::NoMemory,
            Unread::At(mistake) => Unread::At(Mistake {
                left: all.saturating_sub(front.saturating_sub(mistake.left)),
                wanted: mistake.wanted,
            }),
        }
    }
}
