//! Warnings of a `.config`.

ghost use Rattle.std.specs.Prelude.{◌≡◌};
ghost use Rattle.kc_files.specs.LineReading.{warning_number};

/// What is wrong with a line of a `.config`. The line is skipped, but for a repeated symbol.
#[derive(Clone, Copy, Debug, PartialEq, Eq)]
pub enum WarningKind {
    /// The name is not that of a symbol (1).
    UndefinedSymbol,
    /// The value is none of the symbol's type (2).
    BadValue,
    /// The symbol is a string, and the value no text in quotes (3).
    BadString,
    /// The line is none of those that a `.config` has, or not UTF-8 (4).
    Malformed,
    /// The symbol has a usable line before (5). Its last one counts.
    Repeated,
}

impl WarningKind {
    /// The number that is printed, as 2 in `warning 7 2`.
    pub fn number(self) -> u8
        ensures { result ≡ warning_number self }
    {
        match self {
            WarningKind::UndefinedSymbol => 1,
            WarningKind::BadValue => 2,
            WarningKind::BadString => 3,
            WarningKind::Malformed => 4,
            WarningKind::Repeated => 5,
        }
    }
}

/// A warning, by the number of its line from 1.
#[derive(Clone, Copy, Debug, PartialEq, Eq)]
pub struct Warning {
    pub line: usize,
    pub kind: WarningKind,
}
