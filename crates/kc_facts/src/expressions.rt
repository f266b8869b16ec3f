//! Expressions as Kconfig writes them.

use crate::modules::{modules_value, push_modules};
use crate::words::value_text;
use kc_statement::{Comparison, Expr, ExprNode, Term, numeral};
use kc_tree::{SymId, SymbolType, Tree};
use kc_value::Known;
use std::alloc::AllocError;

/// What is written after each symbol of an expression.
#[derive(Clone, Copy)]
enum Written<'v> {
    /// Nothing.
    Plain,
    /// Its value.
    Valued(&'v Known<'v>),
}

/// Adds an expression as Kconfig writes it (kconfig-language.rst, "Menu dependencies"): `A && (B || !C)`, `A = "x"`.
///
/// # Errors
///
/// `AllocError` where memory is refused.
pub fn push_expr(text: &mut String, tree: &Tree, expr: &Expr) -> Result<(), AllocError> {
    push_written(text, tree, Written::Plain, expr)
}

/// Adds an expression with the value of each symbol after its name: `A=y && (B=n || !C=m)`. A word that no definition
/// names, and that is no number, has `=undefined` after it. In a comparison a side with a value is in parentheses: `(A="x") = "y"`.
/// In place of an m that stands alone, and counts as n, is `MODULES=n`.
///
/// # Errors
///
/// `AllocError` where memory is refused.
pub fn push_valued_expr(
    text: &mut String,
    known: &Known<'_>,
    expr: &Expr,
) -> Result<(), AllocError> {
    push_written(text, known.tree(), Written::Valued(known), expr)
}

/// Whether a byte may be in a word: an ASCII letter or digit, `_`, `-`, `.` or `/`.
fn is_word_byte(byte: u8) -> bool {
    matches!(byte, b'0'..=b'9' | b'A'..=b'Z' | b'a'..=b'z' | b'_' | b'-' | b'.' | b'/')
}

/// Adds a word as it is, or in quotes where Kconfig could not write it without a reference: it is empty or has another
/// character than words have.
fn push_word(text: &mut String, word: &str) -> Result<(), AllocError> {
    if word.is_empty() || !word.as_bytes().iter().all(|byte| is_word_byte(*byte)) {
        return push_quoted(text, word);
    }
    text.push_str(word)
}

/// Adds a term as Kconfig writes it.
///
/// # Errors
///
/// `AllocError` where memory is refused.
pub fn push_term(text: &mut String, tree: &Tree, term: &Term) -> Result<(), AllocError> {
    match term {
        Term::Tri(tri) => text.push_str(tri.letter()),
        Term::Text(quoted) => push_quoted(text, quoted.as_str()),
        Term::Symbol(symbol) => text.push_str(tree.name(*symbol)),
        Term::Undefined(word) => push_word(text, word.as_str()),
    }
}

/// Adds a term, with the value of a symbol after its name.
///
/// # Errors
///
/// `AllocError` where memory is refused.
pub fn push_valued_term(
    text: &mut String,
    known: &Known<'_>,
    term: &Term,
) -> Result<(), AllocError> {
    push_term(text, known.tree(), term)?;
    match term {
        Term::Symbol(symbol) => push_value_after(text, known, *symbol),
        Term::Undefined(word) if !is_number(word.as_str()) => text.push_str("=undefined"),
        Term::Undefined(_) | Term::Tri(_) | Term::Text(_) => Ok(()),
    }
}

/// Adds the value of a symbol, after `=`.
fn push_value_after(text: &mut String, known: &Known<'_>, symbol: SymId) -> Result<(), AllocError> {
    text.push('=')?;
    let value = value_text(known, symbol);
    match known.tree().symbol_type(symbol) {
        SymbolType::String => push_quoted(text, value),
        _ => text.push_str(value),
    }
}

/// Adds a text in quotes, with a backslash before each quote and backslash.
pub fn push_quoted(text: &mut String, quoted: &str) -> Result<(), AllocError> {
    text.push('"')?;
    for character in quoted.chars() {
        if character == '"' || character == '\\' {
            text.push('\\')?;
        }
        text.push(character)?;
    }
    text.push('"')
}

/// The sign of a comparison.
fn sign_of(comparison: Comparison) -> &'static str {
    match comparison {
        Comparison::Equal => " = ",
        Comparison::NotEqual => " != ",
        Comparison::Less => " < ",
        Comparison::LessOrEqual => " <= ",
        Comparison::Greater => " > ",
        Comparison::GreaterOrEqual => " >= ",
    }
}

/// Adds a term, with its value where values are written.
fn push_written_term(
    text: &mut String,
    tree: &Tree,
    written: Written<'_>,
    term: &Term,
) -> Result<(), AllocError> {
    match written {
        Written::Plain => push_term(text, tree, term),
        Written::Valued(known) => push_valued_term(text, known, term),
    }
}

/// Whether a word is a number, decimal or with `0x` before it, which is a constant like a text in quotes.
pub(crate) fn is_number(word: &str) -> bool {
    let is_hex = word.starts_with("0x") || word.starts_with("0X");
    let kind = if is_hex {
        SymbolType::Hex
    } else {
        SymbolType::Int
    };
    numeral(kind, word).is_some()
}

/// Whether a term has a value that is not its own text: it is a name.
fn has_value(term: &Term) -> bool {
    match term {
        Term::Symbol(_) => true,
        Term::Undefined(word) => !is_number(word.as_str()),
        Term::Tri(_) | Term::Text(_) => false,
    }
}

/// Adds a side of a comparison, in parentheses where a value is written after it.
fn push_side(
    text: &mut String,
    tree: &Tree,
    written: Written<'_>,
    term: &Term,
) -> Result<(), AllocError> {
    if matches!(written, Written::Plain) || !has_value(term) {
        return push_written_term(text, tree, written, term);
    }
    text.push('(')?;
    push_written_term(text, tree, written, term)?;
    text.push(')')
}

/// Adds `!`, so often.
fn push_marks(text: &mut String, count: usize) -> Result<(), AllocError> {
    for _ in 0..count {
        text.push('!')?;
    }
    Ok(())
}

/// Adds an m that stands alone, which means `m && MODULES`: with values `MODULES=n`, where it counts as n.
fn push_bare_module(
    text: &mut String,
    tree: &Tree,
    written: Written<'_>,
    term: &Term,
) -> Result<(), AllocError> {
    match written {
        Written::Valued(known) if modules_value(known).is_no() => push_modules(text, known),
        Written::Valued(_) | Written::Plain => push_term(text, tree, term),
    }
}

/// Adds an expression, with values where they are written.
#[cycle(push)]
fn push_written(
    text: &mut String,
    tree: &Tree,
    written: Written<'_>,
    expr: &Expr,
) -> Result<(), AllocError> {
    match expr.node() {
        ExprNode::Term(term) => push_written_term(text, tree, written, term),
        ExprNode::BareModule(term) => push_bare_module(text, tree, written, term),
        ExprNode::Compare(comparison, operands) => {
            push_side(text, tree, written, &operands.left)?;
            text.push_str(sign_of(*comparison))?;
            push_side(text, tree, written, &operands.right)
        }
        ExprNode::Not(count, inner) => {
            push_marks(text, *count)?;
            push_written(text, tree, written, inner)
        }
        ExprNode::Group(inner) => {
            text.push('(')?;
            push_written(text, tree, written, inner)?;
            text.push(')')
        }
        ExprNode::All(parts) => push_parts(text, tree, written, parts.as_slice(), " && "),
        ExprNode::Any(parts) => push_parts(text, tree, written, parts.as_slice(), " || "),
    }
}

/// Adds expressions with a sign between them.
#[cycle(push)]
fn push_parts(
    text: &mut String,
    tree: &Tree,
    written: Written<'_>,
    parts: &[Expr],
    sign: &str,
) -> Result<(), AllocError> {
    let mut is_first = true;
    for part in parts {
        if !is_first {
            text.push_str(sign)?;
        }
        is_first = false;
        push_written(text, tree, written, part)?;
    }
    Ok(())
}
