//! What is said of a fault of a symbol.

ghost use Rattle.std.specs.Prelude.{IfOk};
ghost use Rattle.kc_lines.specs.declared.shown.Fault.TheVariants.{Symbol as OfSymbol};
ghost use Rattle.kc_lines.specs.Named.{AreRemarksOf};

use crate::messages::SymbolMessage;
use crate::outlines::{name_of, outline_of, owner_of, second_word};
use crate::piece::texts;
use crate::said::{Unsaid, Words, worded, words_or_meaning};
use crate::spelling::repeated;
use kc_lines::{
    Attribute, Explanation, Fault, LineIndex, Part, explain_parts, symbol_culprits, type_name,
    type_words,
};
use kc_outline::{Outline, Symbol};
use kc_statement::{DefaultValue, Range, Seed, SymId, SymbolType, Term, lone_term};
use kc_text::Line;
use kc_tree::{Problem, SymbolProblem, is_unfit_term};
use std::alloc::{AllocError, Global};

/// What is said of a fault of a symbol, by its name and the lines of its Kconfig: what is wrong, and the lines that
/// make it wrong (this project's own words). Of several such lines it is the first. Names are kept under the hash of a seed.
///
/// # Errors
///
/// `AllocError` where memory is refused.
pub fn explain_symbol(
    alloc: Global,
    seed: Seed,
    lines: &[Line<'_>],
    problem: SymbolProblem,
    name: &str,
) -> Result<Explanation, AllocError>
    ensures { IfOk result (λ e. AreRemarksOf (OfSymbol problem) lines.now e.remarks.items) }
{
    let index = LineIndex::of(alloc, lines)?;
    let (words, parts) = match outline_of(alloc, seed, lines)? {
        Some(outline) => said_of(alloc, &index, &outline, problem, name)?,
        None => (Err(Unsaid::Nothing), Vec::new(alloc)),
    };
    let words = words_or_meaning(alloc, words, Problem::Symbol(problem).number())?;
    explain_parts(
        alloc,
        Fault::Symbol(problem),
        words,
        &index,
        parts.as_slice(),
    )
}

/// The words for a fault of the symbol of a name, and the parts that make it.
fn said_of(
    alloc: Global,
    index: &LineIndex<'_, '_>,
    outline: &Outline,
    problem: SymbolProblem,
    name: &str,
) -> Result<(Words, Vec<Part>), AllocError> {
    let Some(symbol) = outline.names().symbol(name) else {
        return Ok((Err(Unsaid::Nothing), Vec::new(alloc)));
    };
    let parts = symbol_culprits(alloc, index, outline, problem, symbol)?;
    let words = symbol_words(alloc, index, outline, problem, symbol, parts.as_slice());
    Ok((words, parts))
}

/// The words for a fault of a symbol that these parts make.
fn symbol_words(
    alloc: Global,
    index: &LineIndex<'_, '_>,
    outline: &Outline,
    problem: SymbolProblem,
    number: SymId,
    parts: &[Part],
) -> Words {
    let symbols = outline.symbols();
    let symbol = symbols.get(number.0 as usize).ok_or(Unsaid::Nothing)?;
    let part = *parts.first().ok_or(Unsaid::Nothing)?;
    let name = name_of(outline, number);
    let kind = symbol.kind();
    match problem {
        SymbolProblem::NoType => worded(alloc, SymbolMessage::NoType.row(), &texts!()),
        SymbolProblem::TypeConflict => conflict_words(alloc, symbol),
        SymbolProblem::SecondPrompt => worded(alloc, SymbolMessage::TwoPrompts.row(), &texts!()),
        SymbolProblem::UnfitDefault => unfit_words(alloc, outline, symbol, part),
        SymbolProblem::UnfitSelect => selection_words(alloc, index, outline, name, kind, part),
        SymbolProblem::BadModules => modules_words(alloc, name, kind),
    }
}

/// The words for a symbol with two types.
fn conflict_words(alloc: Global, symbol: &Symbol) -> Words {
    let kind = symbol.kind();
    let mut types = symbol.types().iter();
    let other = types.find(|given| **given != kind);
    let other = type_words(*other.ok_or(Unsaid::Nothing)?);
    let texts = texts!(kind: type_words(kind), other: other);
    worded(alloc, SymbolMessage::TwoTypes.row(), &texts)
}

/// The words for a default or a range that does not fit a type.
fn unfit_words(alloc: Global, outline: &Outline, symbol: &Symbol, part: Part) -> Words {
    let Part::Said(_, number, attribute, place) = part else {
        return Err(Unsaid::Nothing);
    };
    let definitions = outline.definitions();
    let definition = definitions.get(number).ok_or(Unsaid::Nothing)?;
    if attribute == Attribute::Range {
        let range = definition.ranges().get(place).ok_or(Unsaid::Nothing)?;
        return range_words(alloc, symbol, range);
    }
    let default = definition.defaults().get(place).ok_or(Unsaid::Nothing)?;
    default_words(alloc, symbol.kind(), default)
}

/// The words for a default that does not fit a type.
fn default_words(alloc: Global, kind: SymbolType, default: &DefaultValue) -> Words {
    match lone_term(&default.value) {
        Some(term) => term_words(alloc, kind, term),
        None => worded(
            alloc,
            SymbolMessage::NoTerm.row(),
            &texts!(kind: type_words(kind)),
        ),
    }
}

/// The words for a range that does not fit a type.
fn range_words(alloc: Global, symbol: &Symbol, range: &Range) -> Words {
    let kind = symbol.kind();
    match kind {
        SymbolType::Int | SymbolType::Hex if is_unfit_term(kind, &range.low) => {
            term_words(alloc, kind, &range.low)
        }
        SymbolType::Int | SymbolType::Hex => term_words(alloc, kind, &range.high),
        SymbolType::Bool | SymbolType::Tristate | SymbolType::String => {
            worded(
                alloc,
                SymbolMessage::NoRange.row(),
                &texts!(kind: symbol_kind(symbol)),
            )
        }
    }
}

/// What a symbol is by its type, with an article; a member of a choice is a bool where no line gives it a type.
fn symbol_kind(symbol: &Symbol) -> &'static str {
    if symbol.has_type() || symbol.choice().is_some() {
        type_words(symbol.kind())
    } else {
        "a symbol without type"
    }
}

/// The words for a term that is no numeral of a type.
fn term_words(alloc: Global, kind: SymbolType, term: &Term) -> Words {
    let (message, value) = match term {
        Term::Text(text) => (SymbolMessage::UnfitText, text.as_str()),
        Term::Undefined(word) => (SymbolMessage::UnfitWord, word.as_str()),
        Term::Tri(_) | Term::Symbol(_) => return Err(Unsaid::Nothing),
    };
    let texts = texts!(value: repeated(value), kind: type_name(kind));
    worded(alloc, message.row(), &texts)
}

/// The words for a `select` or an `imply` of a symbol, or that names it, by its name and its type.
fn selection_words(
    alloc: Global,
    index: &LineIndex<'_, '_>,
    outline: &Outline,
    name: &str,
    kind: SymbolType,
    part: Part,
) -> Words {
    let selected = second_word(index, part)?;
    let by = name_of(outline, owner_of(outline, part)?);
    let is_imply = matches!(part, Part::Said(_, _, Attribute::Imply, _));
    let (message, other) = match (selected == name, is_imply) {
        (true, true) => (SymbolMessage::ImpliedBy, by),
        (true, false) => (SymbolMessage::SelectedBy, by),
        (false, true) => (SymbolMessage::Implies, selected),
        (false, false) => (SymbolMessage::Selects, selected),
    };
    let texts = texts!(other: other, name: name, kind: type_words(kind));
    worded(alloc, message.row(), &texts)
}

/// The words for MODULES, or for another symbol that has `modules`.
fn modules_words(alloc: Global, name: &str, kind: SymbolType) -> Words {
    let message = match name {
        "MODULES" => SymbolMessage::ModulesType,
        _ => SymbolMessage::OtherModules,
    };
    worded(alloc, message.row(), &texts!(kind: type_words(kind)))
}
