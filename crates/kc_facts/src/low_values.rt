//! Parts of conditions in words, with what makes them less than was asked for.

use crate::expressions::{is_number, push_expr};
use crate::modules::{modules_value, push_modules_name};
use crate::word_list::WordList;
use crate::words::{push_value, value_text};
use kc_lines::{leaves_of, shown_line, type_words};
use kc_statement::{ExprNode, Term};
use kc_tree::{Expr, SymId, SymbolType};
use kc_value::{Known, tri};
use std::alloc::{AllocError, Global};

/// A part of a condition in words.
#[derive(Drop)]
pub(crate) struct LowPart {
    /// The part as it is written: a name alone, or an expression.
    written: String,
    /// What the name is, or what each name in the expression is.
    values: String,
    is_name: bool,
}

impl LowPart {
    /// Of a part.
    ///
    /// # Errors
    ///
    /// `AllocError` where memory is refused.
    pub fn of(alloc: Global, known: &Known<'_>, part: &Expr) -> Result<LowPart, AllocError> {
        let part = inside(part);
        match part.node() {
            ExprNode::BareModule(_) if modules_value(known).is_no() => {
                LowPart::of_modules(alloc, known)
            }
            ExprNode::Term(term) => Ok(LowPart {
                written: shown_expr(alloc, known, part)?,
                values: term_words(alloc, known, part, term)?,
                is_name: true,
            }),
            _ => Ok(LowPart {
                written: shown_expr(alloc, known, part)?,
                values: values_in(alloc, known, part)?,
                is_name: false,
            }),
        }
    }

    /// The symbol that switches modules, as a part.
    ///
    /// # Errors
    ///
    /// `AllocError` where memory is refused.
    pub fn of_modules(alloc: Global, known: &Known<'_>) -> Result<LowPart, AllocError> {
        let mut written = String::new(alloc);
        push_modules_name(&mut written, known)?;
        Ok(LowPart {
            written,
            values: String::from_str(alloc, modules_words(known))?,
            is_name: true,
        })
    }

    /// Adds it as the only part: `NET, which is n`, `!NET (NET is y)`.
    ///
    /// # Errors
    ///
    /// `AllocError` where memory is refused.
    pub fn push_alone(&self, text: &mut String) -> Result<(), AllocError> {
        if !self.is_name {
            return self.push_listed(text);
        }
        text.push_str(self.written.as_str())?;
        text.push_str(", which is ")?;
        text.push_str(self.values.as_str())
    }

    /// Adds it as one of several parts: `NET (n)`, `!NET (NET is y)`.
    ///
    /// # Errors
    ///
    /// `AllocError` where memory is refused.
    pub fn push_listed(&self, text: &mut String) -> Result<(), AllocError> {
        text.push_str(self.written.as_str())?;
        text.push_str(" (")?;
        text.push_str(self.values.as_str())?;
        text.push(')')
    }
}

/// A part without the parentheses around it.
fn inside(part: &Expr) -> &Expr {
    match part.node() {
        ExprNode::Group(inner) => inner,
        _ => part,
    }
}

/// An expression as it is written, of a long one the first 160 bytes.
fn shown_expr(alloc: Global, known: &Known<'_>, expr: &Expr) -> Result<String, AllocError> {
    let mut written = String::new(alloc);
    push_expr(&mut written, known.tree(), expr)?;
    String::from_str(alloc, shown_line(written.as_str()))
}

/// What the symbol that switches modules is.
fn modules_words(known: &Known<'_>) -> &'static str {
    match known.tree().modules() {
        Some(_) => modules_value(known).letter(),
        None => "undefined",
    }
}

/// What an expression is that is a term: the value of its symbol, or what it always is.
fn term_words(
    alloc: Global,
    known: &Known<'_>,
    expr: &Expr,
    term: &Term,
) -> Result<String, AllocError> {
    let letter = tri(known, expr).letter();
    match term {
        Term::Symbol(symbol) => {
            let kind = known.tree().symbol_type(*symbol);
            if kind.is_tri() {
                return String::from_str(alloc, letter);
            }
            let kind = type_words(kind);
            format!(in alloc; "{kind}, so always {letter}")
        }
        Term::Undefined(word) if !is_number(word.as_str()) => {
            String::from_str(alloc, "undefined")
        }
        Term::Undefined(_) | Term::Tri(_) | Term::Text(_) => format!(in alloc; "always {letter}"),
    }
}

/// What each name in an expression is: `A is y, B is "x"`; of an expression without names what it always is.
fn values_in(alloc: Global, known: &Known<'_>, expr: &Expr) -> Result<String, AllocError> {
    let leaves = leaves_of(alloc, expr)?;
    let mut list = WordList::new(alloc);
    for leaf in leaves {
        add_leaf(alloc, &mut list, known, leaf)?;
    }
    if list.is_empty() {
        let letter = tri(known, expr).letter();
        return format!(in alloc; "always {letter}");
    }
    let mut values = String::new(alloc);
    list.push_to(&mut values)?;
    Ok(values)
}

/// Adds what each name in a leaf of an expression is.
fn add_leaf(
    alloc: Global,
    list: &mut WordList,
    known: &Known<'_>,
    leaf: &Expr,
) -> Result<(), AllocError> {
    match leaf.node() {
        ExprNode::Term(term) => add_term(alloc, list, known, term),
        ExprNode::Compare(_, operands) => {
            add_term(alloc, list, known, &operands.left)?;
            add_term(alloc, list, known, &operands.right)
        }
        ExprNode::BareModule(_) => {
            let mut words = String::new(alloc);
            push_modules_name(&mut words, known)?;
            words.push_str(" is ")?;
            words.push_str(modules_words(known))?;
            list.add(words)
        }
        ExprNode::Not(_, _) | ExprNode::Group(_) | ExprNode::All(_) | ExprNode::Any(_) => Ok(()),
    }
}

/// Adds what a term is, if it is a name.
fn add_term(
    alloc: Global,
    list: &mut WordList,
    known: &Known<'_>,
    term: &Term,
) -> Result<(), AllocError> {
    match term {
        Term::Symbol(symbol) => {
            let mut words = String::from_str(alloc, shown_line(known.tree().name(*symbol)))?;
            push_being(&mut words, known, *symbol)?;
            list.add(words)
        }
        Term::Undefined(word) if !is_number(word.as_str()) => {
            let word = shown_line(word.as_str());
            let words = format!(in alloc; "{word} is undefined")?;
            list.add(words)
        }
        Term::Undefined(_) | Term::Tri(_) | Term::Text(_) => Ok(()),
    }
}

/// Adds what the value of a symbol is.
fn push_being(words: &mut String, known: &Known<'_>, symbol: SymId) -> Result<(), AllocError> {
    let kind = known.tree().symbol_type(symbol);
    if kind != SymbolType::String && value_text(known, symbol) == "" {
        return words.push_str(" has no value");
    }
    words.push_str(" is ")?;
    push_value(words, known, symbol)
}
