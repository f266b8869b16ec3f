//! Comparisons of terms.

ghost use Rattle.std.specs.Prelude.{◌≡◌, Some, option_map};
ghost use Rattle.std.specs.Option.{option_or};
ghost use Rattle.kc_statement.specs.declared.tri.Tri.TheVariants.{No};
ghost use Rattle.kc_value.specs.declared.value.Value.TheVariants.{Tri as Level};
ghost use Rattle.kc_value.specs.Numerals.{number_of_text};
ghost use Rattle.kc_value.specs.Known.{given};
ghost use Rattle.kc_value.specs.ExprValue.{constant_of, tri_number, number_in_type, symbol_number, term_number, is_string_term, text_order, term_order, is_related, yes_if};

use crate::known::Known;
use crate::numeral::number_of_text;
use crate::term_text::term_text;
use crate::value::Value;
use kc_tree::{Comparison, Node, Operands, SymId, SymbolType, Term, Tree, Tri, numeral};
use std::cmp::Ordering;

/// The constant that a text in quotes is.
pub(crate) fn constant_of(text: &str) -> Option<Tri>
    ensures { result ≡ constant_of text.now }
{
    match text {
        "n" => Some(Tri::No),
        "m" => Some(Tri::Module),
        "y" => Some(Tri::Yes),
        _ => None,
    }
}

/// What a constant counts.
fn tri_number(tri: Tri) -> i128
    ensures { result ≡ tri_number tri }
{
    match tri {
        Tri::No => 0,
        Tri::Module => 1,
        Tri::Yes => 2,
    }
}

/// What a text in quotes counts: the constant that it is, else the number that it spells, if any.
fn number_of_quoted(text: &str) -> Option<i128>
    ensures { result ≡ option_or (option_map tri_number (constant_of text.now)) (number_of_text text.now) }
{
    match constant_of(text) {
        Some(tri) => Some(tri_number(tri)),
        None => number_of_text(text),
    }
}

/// What the value of a symbol of a type counts, if it counts.
fn number_in_type(kind: SymbolType, value: &Value) -> Option<i128>
    ensures { result ≡ number_in_type kind value.now }
{
    match kind {
        SymbolType::Bool | SymbolType::Tristate => Some(tri_number(value.as_tri())),
        SymbolType::String => number_of_text(value.as_text()),
        SymbolType::Int | SymbolType::Hex => numeral(kind, value.as_text()),
    }
}

/// What a symbol of a type counts that has no value: it is n, which counts for a bool and a tristate.
fn number_without_value(kind: SymbolType) -> Option<i128>
    ensures { result ≡ number_in_type kind (Level No) }
{
    match kind {
        SymbolType::Bool | SymbolType::Tristate => Some(tri_number(Tri::No)),
        SymbolType::String | SymbolType::Int | SymbolType::Hex => None,
    }
}

/// What the value of a symbol counts, if it counts.
fn symbol_number(known: &Known<'_>, symbol: SymId) -> Option<i128>
    ensures { result ≡ symbol_number known.now.tree (given known.now) symbol }
{
    let Some(found) = known.symbol(symbol) else {
        return Some(tri_number(Tri::No));
    };
    match known.get(Node::Val(symbol)) {
        Some(value) => number_in_type(found.kind(), value),
        None => number_without_value(found.kind()),
    }
}

/// What a term counts, if it counts: a symbol by its value, and a word that names none as a text.
fn term_number(known: &Known<'_>, term: &Term) -> Option<i128>
    ensures { result ≡ term_number known.now.tree (given known.now) term.now }
{
    match term {
        Term::Tri(tri) => Some(tri_number(*tri)),
        Term::Text(text) => number_of_quoted(text.as_str()),
        Term::Symbol(symbol) => symbol_number(known, *symbol),
        Term::Undefined(name) => number_of_text(name.as_str()),
    }
}

/// Whether a comparison holds of two terms of this order.
pub(crate) fn is_related(comparison: Comparison, order: Ordering) -> bool
    ensures { result ≡ is_related comparison order }
{
    match comparison {
        Comparison::Equal => order.is_eq(),
        Comparison::NotEqual => order.is_ne(),
        Comparison::Less => order.is_lt(),
        Comparison::LessOrEqual => order.is_le(),
        Comparison::Greater => order.is_gt(),
        Comparison::GreaterOrEqual => order.is_ge(),
    }
}

/// Whether a term is a symbol of type string.
fn is_string(tree: &Tree, term: &Term) -> bool
    ensures { result ≡ is_string_term tree.now term.now }
{
    let Term::Symbol(symbol) = term else {
        return false;
    };
    match tree.symbols().get(symbol.0 as usize) {
        Some(symbol) => matches!(symbol.kind(), SymbolType::String),
        None => false,
    }
}

/// How the texts of two terms are ordered, byte by byte.
fn text_order(known: &Known<'_>, left: &Term, right: &Term) -> Ordering
    ensures { result ≡ text_order known.now.tree (given known.now) left.now right.now }
{
    let left = term_text(known, left).as_str();
    left.cmp(term_text(known, right).as_str())
}

/// How two terms are ordered: two symbols of type string as texts, else as numbers where both count, else as texts. A
/// long text is not tried as a number where it is not to be compared as one.
fn term_order(known: &Known<'_>, operands: &Operands) -> Ordering
    ensures { result ≡ term_order known.now.tree (given known.now) operands.now.left operands.now.right }
{
    let (left, right) = (&operands.left, &operands.right);
    if is_string(known.tree(), left) && is_string(known.tree(), right) {
        return text_order(known, left, right);
    }
    match (term_number(known, left), term_number(known, right)) {
        (Some(first), Some(second)) => first.cmp(&second),
        (Some(_), None) | (None, _) => text_order(known, left, right),
    }
}

/// The value of a comparison, y or n.
pub(crate) fn comparison_tri(known: &Known<'_>, comparison: Comparison, operands: &Operands) -> Tri
    ensures { result ≡ yes_if (is_related comparison
        (term_order known.now.tree (given known.now) operands.now.left operands.now.right)) }
{
    if is_related(comparison, term_order(known, operands)) {
        Tri::Yes
    } else {
        Tri::No
    }
}
