//! What is wrong with lines, and the number that is printed for it.

ghost use Rattle.std.specs.Prelude.{◌≡◌};
ghost use Rattle.kc_tree.specs.Problems.{problem_number};

use kc_outline::LineProblem;

/// What is wrong with a symbol (this project's own list, after kconfig-language.rst).
#[derive(Clone, Copy, Debug, PartialEq, Eq)]
pub enum SymbolProblem {
    /// A symbol that no definition gives a type (K12).
    NoType,
    /// A symbol with two types (K13).
    TypeConflict,
    /// A definition with two prompts (K14).
    SecondPrompt,
    /// A default or a range that does not fit the type of its symbol (K15).
    UnfitDefault,
    /// A `select` or an `imply` in, or of, a symbol that is no bool and no tristate (K16).
    UnfitSelect,
    /// `MODULES` that is no bool, or `modules` in another symbol (K18).
    BadModules,
}

/// What is wrong with a choice (this project's own list, after kconfig-language.rst, "choices"). Each is printed as K17.
#[derive(Clone, Copy, Debug, PartialEq, Eq)]
pub enum ChoiceProblem {
    /// No line gives it a prompt.
    NoPrompt,
    /// It has two prompts.
    SecondPrompt,
    /// A default names no member of the choice.
    ForeignDefault,
    /// A member is no bool.
    MemberType,
    /// A member has no prompt.
    MemberWithoutPrompt,
    /// A member has more than one definition.
    MemberDefinedAgain,
}

/// What is wrong with lines that have no tree (this project's own list).
#[derive(Clone, Copy, Debug, PartialEq, Eq)]
pub enum Problem {
    /// Of a line (K01, K04 to K07, K20).
    Line(LineProblem),
    /// Of a symbol (K12 to K16, K18).
    Symbol(SymbolProblem),
    /// Of a choice (K17).
    Choice(ChoiceProblem),
    /// A dependency loop (K19).
    Loop,
}

impl Problem {
    /// The number that is printed, as 5 in `K05`.
    pub fn number(self) -> u8
        ensures { result ≡ problem_number self }
    {
        match self {
            Problem::Line(LineProblem::Limit) => 1,
            Problem::Line(LineProblem::UnknownStatement) => 4,
            Problem::Line(LineProblem::Malformed) => 5,
            Problem::Line(LineProblem::StrayAttribute) => 6,
            Problem::Line(LineProblem::UnbalancedBlock) => 7,
            Problem::Line(LineProblem::Unsupported) => 20,
            Problem::Symbol(SymbolProblem::NoType) => 12,
            Problem::Symbol(SymbolProblem::TypeConflict) => 13,
            Problem::Symbol(SymbolProblem::SecondPrompt) => 14,
            Problem::Symbol(SymbolProblem::UnfitDefault) => 15,
            Problem::Symbol(SymbolProblem::UnfitSelect) => 16,
            Problem::Symbol(SymbolProblem::BadModules) => 18,
            Problem::Choice(_) => 17,
            Problem::Loop => 19,
        }
    }
}
