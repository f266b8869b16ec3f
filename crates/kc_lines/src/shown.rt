//! By which lines a fault is shown.

ghost use Rattle.std.specs.Prelude.{◌≡◌};
ghost use Rattle.kc_lines.specs.Shown.{choice_shown_by, is_condition_word, is_plain_default, is_selecting_word, is_value_word, loop_shown_by, shows, symbol_shown_by};

use crate::parts::{Attribute, Family, begins_word, is_of};
use kc_statement::{Keyword, read_keyword};
use kc_text::Line;
use kc_tree::{ChoiceProblem, SymbolProblem};

/// A fault that lines show.
#[derive(Clone, Copy, Debug, PartialEq, Eq)]
pub enum Fault {
    /// Of a line, which any line shows.
    Line,
    /// Of a symbol.
    Symbol(SymbolProblem),
    /// Of a choice.
    Choice(ChoiceProblem),
    /// A loop.
    Loop,
}

/// Whether a line shows a fault.
pub(crate) fn shows(fault: Fault, line: &Line<'_>) -> bool
    ensures { result ≡ shows fault line.now }
{
    let Some(word) = read_keyword(line) else {
        return matches!(fault, Fault::Line);
    };
    match fault {
        Fault::Line => true,
        Fault::Symbol(problem) => symbol_shown_by(problem, word),
        Fault::Choice(problem) => choice_shown_by(problem, word),
        Fault::Loop => loop_shown_by(word),
    }
}

/// Whether lines of a first word show a fault of a symbol.
fn symbol_shown_by(problem: SymbolProblem, word: Keyword) -> bool
    ensures { result ≡ symbol_shown_by problem word }
{
    match problem {
        SymbolProblem::NoType => begins_word(Family::Definition, word),
        SymbolProblem::TypeConflict => is_of(Attribute::Type, word),
        SymbolProblem::SecondPrompt => is_of(Attribute::Prompt, word),
        SymbolProblem::UnfitDefault => is_value_word(word) || is_of(Attribute::Type, word),
        SymbolProblem::UnfitSelect => is_selecting_word(word) || is_of(Attribute::Type, word),
        SymbolProblem::BadModules => is_of(Attribute::Modules, word)
            || is_of(Attribute::Type, word),
    }
}

/// Whether lines of a first word show a fault of a choice.
fn choice_shown_by(problem: ChoiceProblem, word: Keyword) -> bool
    ensures { result ≡ choice_shown_by problem word }
{
    match problem {
        ChoiceProblem::NoPrompt => begins_word(Family::Choice, word),
        ChoiceProblem::SecondPrompt => is_of(Attribute::Prompt, word),
        ChoiceProblem::ForeignDefault => is_plain_default(word),
        ChoiceProblem::MemberType => is_of(Attribute::Type, word),
        ChoiceProblem::MemberWithoutPrompt => begins_word(Family::Definition, word),
        ChoiceProblem::MemberDefinedAgain => begins_word(Family::Definition, word),
    }
}

/// Whether lines of a first word show a loop: those by which a node uses another.
fn loop_shown_by(word: Keyword) -> bool
    ensures { result ≡ loop_shown_by word }
{
    is_condition_word(word)
        || is_value_word(word)
        || is_selecting_word(word)
        || is_of(Attribute::Type, word)
        || is_of(Attribute::Prompt, word)
        || begins_word(Family::Definition, word)
        || begins_word(Family::Choice, word)
}

/// Whether a line of this word has a default or a range.
fn is_value_word(word: Keyword) -> bool
    ensures { result ≡ is_value_word word }
{
    is_of(Attribute::Default, word) || is_of(Attribute::Range, word)
}

/// Whether a line of this word selects or implies a symbol.
fn is_selecting_word(word: Keyword) -> bool
    ensures { result ≡ is_selecting_word word }
{
    is_of(Attribute::Select, word) || is_of(Attribute::Imply, word)
}

/// Whether a line of this word is a default, and no type.
fn is_plain_default(word: Keyword) -> bool
    ensures { result ≡ is_plain_default word }
{
    matches!(word, Keyword::Default)
}

/// Whether a line of this word has a condition of all that it is about.
fn is_condition_word(word: Keyword) -> bool
    ensures { result ≡ is_condition_word word }
{
    matches!(word, Keyword::Depends | Keyword::Visible | Keyword::If)
}
