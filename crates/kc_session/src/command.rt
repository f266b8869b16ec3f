//! Commands, refusals and replies.
ghost use Rattle.std.specs.Prelude.{◌≡◌};
ghost use Rattle.kc_session.specs.Effect.{refusal_number};

use crate::body::Body;
use kc_text::{Text, TextRef};

/// A command of the stream, which borrows its words or its body.
#[derive(Debug, Drop)]
pub enum Command<'a> {
    /// `set NAME VALUE`: gives a symbol a user value, or makes a member of a choice the chosen one.
    Set(TextRef<'a>, TextRef<'a>),
    /// `unset NAME`: removes the user value of a symbol, or leaves its choice without a chosen member.
    Unset(TextRef<'a>),
    /// `reset`: removes all user values and chosen members.
    Reset,
    /// `load K`: removes all user values and chosen members, and gives those of the body, a `.config`.
    Load(Body<'a>),
    /// `merge K`: gives the user values and chosen members of the body, a `.config`, and keeps all others.
    Merge(Body<'a>),
    /// `allno`: gives each bool and each tristate the user value n, or y where `option allnoconfig_y` says so, and
    /// removes all other user values and chosen members. Members of choices have no user value.
    AllNo,
    /// `allyes`: gives each bool and each tristate the user value y, and removes all others and chosen members.
    AllYes,
    /// `show NAME`: a line about a symbol.
    Show(TextRef<'a>),
    /// `list`: a line about each symbol.
    List,
    /// `choices`: a line about each choice.
    Choices,
    /// `config`: the text of the `.config`.
    Config,
    /// `header`: the text of the C header.
    Header,
    /// `defconfig`: the text of the default file.
    Defconfig,
    /// `new`: the list of the symbols that have no user value yet.
    New,
}

/// Why a command was refused. Nothing has changed then.
#[derive(Clone, Copy, Debug, PartialEq, Eq)]
pub enum Refusal {
    /// The line is no command (1): it is not UTF-8, has an unknown word, or lacks or has too many arguments.
    UnknownCommand,
    /// The name is not that of a symbol (2).
    UndefinedSymbol,
    /// The value is not one of the symbol's type (3).
    BadValue,
    /// The symbol is a member of a choice, and the value another than y (4).
    BadMemberValue,
    /// The count of the lines of a body is not one to seven decimal digits, or the stream has fewer lines (5).
    BadLineCount,
    /// The line is too long, or the body of a load or one of its lines (6).
    TooLong,
    /// Memory was refused (7).
    NoMemory,
}

impl Refusal {
    /// The number that is printed, as 2 in `refused 2`.
    pub fn number(self) -> u8
        ensures { result ≡ refusal_number self }
    {
        match self {
            Refusal::UnknownCommand => 1,
            Refusal::UndefinedSymbol => 2,
            Refusal::BadValue => 3,
            Refusal::BadMemberValue => 4,
            Refusal::BadLineCount => 5,
            Refusal::TooLong => 6,
            Refusal::NoMemory => 7,
        }
    }
}

/// The answer to a command.
#[derive(Debug, Drop)]
pub enum Reply {
    /// It was done, with this text, which may be empty.
    Done(Text),
    Refused(Refusal),
}
