//! Who selects or implies a symbol, in a row.

ghost use Rattle.std.specs.Prelude.{◌≡◌};
ghost use Rattle.kc_facts.specs.WhyRows.{reverses_of};

use crate::expressions::push_valued_expr;
use crate::low_parts::{is_below, parts_below};
use crate::view::View;
use crate::words::push_valued;
use kc_statement::ExprNode;
use kc_tree::{Expr, Node, Reverse, SymId, Symbol, Tri};
use kc_value::{reverse_factors, reverse_value};
use std::alloc::{AllocError, Global};

/// The most symbols of a row that are shown, and the most parts of the condition of one.
const MOST_SHOWN: usize = 3;

/// Which lines of other definitions give a symbol a value.
#[derive(Clone, Copy, Debug, PartialEq, Eq)]
pub enum ReverseKind {
    Select,
    Imply,
}

impl ReverseKind {
    /// The lines of this kind that name a symbol.
    pub fn of(self, symbol: &Symbol) -> &[Reverse]
        ensures { result.now ≡ reverses_of self symbol.now }
    {
        match self {
            ReverseKind::Select => symbol.selected(),
            ReverseKind::Imply => symbol.implied(),
        }
    }

    /// What such a line does to its symbol.
    pub fn done(self) -> &'static str {
        match self {
            ReverseKind::Select => "selected",
            ReverseKind::Imply => "implied",
        }
    }
}

/// The symbols of a row.
#[derive(Drop)]
struct ReverseRow {
    shown: Vec<SymId>,
    /// The numbers of those that came when enough was shown, perhaps several times.
    more: Vec<u32>,
}

impl ReverseRow {
    /// Without symbols.
    fn new(alloc: Global) -> ReverseRow {
        ReverseRow {
            shown: Vec::new(alloc),
            more: Vec::new(alloc),
        }
    }

    /// Adds a symbol. Gives whether it is shown, and was not before.
    fn add(&mut self, symbol: SymId) -> Result<bool, AllocError> {
        if self.shown.contains(&symbol) {
            return Ok(false);
        }
        if self.shown.len() < MOST_SHOWN {
            self.shown.push(symbol)?;
            return Ok(true);
        }
        self.more.push(symbol.0)?;
        Ok(false)
    }

    /// Adds what comes before the symbol that was added last.
    fn push_before(&self, text: &mut String) -> Result<(), AllocError> {
        text.push_str(if self.shown.len() > 1 { ", " } else { "" })
    }

    /// Adds how many more symbols there are than are shown.
    fn push_more(mut self, text: &mut String) -> Result<(), AllocError> {
        self.more.sort_unstable();
        self.more.dedup();
        let more = self.more.len();
        if more > 0 {
            write!(text, ", and {more} more")?;
        }
        Ok(())
    }
}

/// Adds who selects or implies a symbol, in a row: `selected by A=n, B if C=n`, each symbol once by its first line, at most
/// three, and how many more there are. Where only lines count that give more than a value, it is `selected by A=y`. Gives
/// whether there is anything.
///
/// # Errors
///
/// `AllocError` where memory is refused.
pub fn push_reverse_row(
    alloc: Global,
    text: &mut String,
    view: &View<'_>,
    kind: ReverseKind,
    symbol: SymId,
    above: Option<Tri>,
) -> Result<bool, AllocError> {
    let mut names = String::new(alloc);
    if !push_reverse_names(alloc, &mut names, view, kind, symbol, above)? {
        return Ok(false);
    }
    text.push_str(kind.done())?;
    text.push_str(" by ")?;
    text.push_str(names.as_str())?;
    Ok(true)
}

/// Adds who selects or implies a symbol, as [`push_reverse_row`] does, without the words before: `A=n, B if C=n`. Gives
/// whether there is anything.
///
/// # Errors
///
/// `AllocError` where memory is refused.
pub fn push_reverse_names(
    alloc: Global,
    text: &mut String,
    view: &View<'_>,
    kind: ReverseKind,
    symbol: SymId,
    above: Option<Tri>,
) -> Result<bool, AllocError> {
    let Some(found) = view.tree().symbols().get(symbol.0 as usize) else {
        return Ok(false);
    };
    let mut row = ReverseRow::new(alloc);
    for line in kind.of(found) {
        let value = reverse_value(view.known(), line);
        if is_above(value, above) && row.add(line.by)? {
            row.push_before(text)?;
            match above {
                Some(_) => push_valued(text, view.known(), line.by)?,
                None => push_line_words(alloc, text, view, line, value)?,
            }
        }
    }
    let has_any = !row.shown.is_empty();
    row.push_more(text)?;
    Ok(has_any)
}

/// Whether a value is above another one, where there is one.
fn is_above(value: Tri, bound: Option<Tri>) -> bool {
    match bound {
        Some(bound) => is_below(bound, value),
        None => true,
    }
}

/// Adds the symbol of a line with its value; where that is more than the line gives, `if` and the parts of the condition
/// of the line that are no more in place of the value.
fn push_line_words<'s>(
    alloc: Global,
    text: &mut String,
    view: &View<'s>,
    line: &'s Reverse,
    value: Tri,
) -> Result<(), AllocError> {
    let by = view.known().tri(Node::Val(line.by));
    if !is_below(value, by) {
        return push_valued(text, view.known(), line.by);
    }
    let above = if value.is_no() { Tri::Module } else { Tri::Yes };
    let factors = reverse_factors(alloc, view.known(), line)?;
    let parts = parts_below(alloc, view, factors.as_slice(), above)?;
    text.push_str(view.tree().name(line.by))?;
    text.push_str(" if ")?;
    push_parts(text, view, parts.as_slice())
}

/// Adds parts of a condition with their values, which `&&` joins: at most three, and how many more there are.
fn push_parts(text: &mut String, view: &View<'_>, parts: &[&Expr]) -> Result<(), AllocError> {
    let is_alone = parts.len() == 1;
    let shown = &parts[..MOST_SHOWN.min(parts.len())];
    let mut between = "";
    for part in shown {
        text.push_str(between)?;
        push_part(text, view, part, is_alone)?;
        between = " && ";
    }
    let more = parts.len().saturating_sub(MOST_SHOWN);
    if more > 0 {
        write!(text, " && {more} more")?;
    }
    Ok(())
}

/// Adds a part of a condition, in parentheses where it is a list that `||` joins and others are beside it.
fn push_part(
    text: &mut String,
    view: &View<'_>,
    part: &Expr,
    is_alone: bool,
) -> Result<(), AllocError> {
    if is_alone || !matches!(part.node(), ExprNode::Any(_)) {
        return push_valued_expr(text, view.known(), part);
    }
    text.push('(')?;
    push_valued_expr(text, view.known(), part)?;
    text.push(')')
}
