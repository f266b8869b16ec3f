//! What a value that was asked for needs: the factors of the prompts of a symbol that are below it.

use crate::expressions::push_valued_expr;
use crate::low_parts::{is_below, parts_below};
use crate::low_values::LowPart;
use crate::view::View;
use crate::word_list::WordList;
use kc_lines::shown_line;
use kc_statement::ExprNode;
use kc_tree::{Expr, Symbol, Tri};
use kc_value::{Factor, prompt_factors, tri};
use std::alloc::{AllocError, Global};

/// The most prompts of a symbol that are looked at.
const MOST_PROMPTS: usize = 64;

/// What the prompt of a symbol is to have, so that the user can give it a value.
#[derive(Clone, Copy)]
pub(crate) struct Wanted {
    /// What each factor of its condition has to be at least.
    pub level: Tri,
    /// Whether modules have to be built besides, which are not.
    pub modules: bool,
    /// Whether it is to have y, and m is not enough for that.
    pub is_yes: bool,
}

/// Whether an expression is an m that stands alone, which nothing makes y.
fn is_bare_module(expr: &Expr) -> bool {
    matches!(expr.node(), ExprNode::BareModule(_))
}

/// How many factors are below what is wanted.
fn count_below(factors: &[Factor<'_>], level: Tri) -> usize {
    factors
        .iter()
        .filter(|factor| is_below(factor.value, level))
        .count()
}

/// The number of the definition whose prompt comes nearest to what is wanted, the first of several: it has the fewest
/// factors below that. None where no definition has a prompt.
fn nearest_prompt(
    alloc: Global,
    view: &View<'_>,
    symbol: &Symbol,
    level: Tri,
) -> Result<Option<usize>, AllocError> {
    let mut nearest = None;
    let mut least = usize::MAX;
    for number in symbol.definitions().iter().take(MOST_PROMPTS) {
        let factors = factors_of(alloc, view, *number)?;
        let Some(factors) = factors else {
            continue;
        };
        let below = count_below(factors.as_slice(), level);
        if nearest.is_none() || below < least {
            nearest = Some(*number);
            least = below;
        }
    }
    Ok(nearest)
}

/// The factors of the prompt of a definition, if it has one.
fn factors_of<'s>(
    alloc: Global,
    view: &View<'s>,
    number: usize,
) -> Result<Option<Vec<Factor<'s>>>, AllocError> {
    let tree = view.tree();
    let has_prompt = match tree.definitions().get(number) {
        Some(definition) => definition.prompt().is_some(),
        None => false,
    };
    if !has_prompt {
        return Ok(None);
    }
    let factors = prompt_factors(alloc, view.known(), number)?;
    Ok(Some(factors))
}

/// The parts in words, without an m that stands alone and counts as m, and then the symbol that switches modules, if
/// modules are wanted.
fn low_parts(
    alloc: Global,
    view: &View<'_>,
    parts: &[&Expr],
    wanted: Wanted,
) -> Result<Vec<LowPart>, AllocError> {
    let mut low = Vec::new(alloc);
    for part in parts {
        if !is_bare_module(part) || tri(view.known(), part).is_no() {
            low.push(LowPart::of(alloc, view.known(), part)?)?;
        }
    }
    if wanted.modules {
        low.push(LowPart::of_modules(alloc, view.known())?)?;
    }
    Ok(low)
}

/// Adds parts in words, each once: `A, which is n`, `A (n), !B (B is y)`.
fn push_low_parts(alloc: Global, text: &mut String, low: &[LowPart]) -> Result<(), AllocError> {
    let mut list = WordList::new(alloc);
    for part in low {
        let mut words = String::new(alloc);
        part.push_listed(&mut words)?;
        list.add(words)?;
    }
    match low.first() {
        Some(part) if list.has_one() => part.push_alone(text),
        _ => list.push_to(text),
    }
}

/// Adds what parts of conditions need that are below what is wanted: `needs A, which is n`, `needs A (n), B (m)`, and
/// `m at most` where nothing makes one y.
fn push_parts(
    alloc: Global,
    text: &mut String,
    view: &View<'_>,
    parts: &[&Expr],
    wanted: Wanted,
) -> Result<(), AllocError> {
    let low = low_parts(alloc, view, parts, wanted)?;
    let has_needs = !low.is_empty();
    if has_needs {
        text.push_str("needs ")?;
        push_low_parts(alloc, text, low.as_slice())?;
    }
    if wanted.is_yes && parts.iter().any(|part| is_bare_module(part)) {
        text.push_str(if has_needs { "; " } else { "" })?;
        text.push_str("m at most")?;
    }
    Ok(())
}

/// Adds what a value needs that was asked for: `needs A (n), B (m)`, of the prompt that comes nearest to it. Gives
/// whether there is anything.
pub(crate) fn push_needs(
    alloc: Global,
    text: &mut String,
    view: &View<'_>,
    symbol: &Symbol,
    wanted: Wanted,
) -> Result<bool, AllocError> {
    let Some(number) = nearest_prompt(alloc, view, symbol, wanted.level)? else {
        return Ok(false);
    };
    let factors = prompt_factors(alloc, view.known(), number)?;
    let parts = parts_below(alloc, view, factors.as_slice(), wanted.level)?;
    if parts.is_empty() {
        return Ok(false);
    }
    push_parts(alloc, text, view, parts.as_slice(), wanted)?;
    Ok(true)
}

/// Adds the parts of a factor that are less than y, each with the values of its symbols: `A=n, B=m || C=n`, of a long
/// one the first 160 bytes.
///
/// # Errors
///
/// `AllocError` where memory is refused.
pub fn push_low_values(
    alloc: Global,
    text: &mut String,
    view: &View<'_>,
    factor: &Factor<'_>,
) -> Result<(), AllocError> {
    let parts = parts_below(alloc, view, &[*factor], Tri::Yes)?;
    let mut list = WordList::new(alloc);
    for part in parts {
        let mut words = String::new(alloc);
        push_valued_expr(&mut words, view.known(), part)?;
        list.add(String::from_str(alloc, shown_line(words.as_str()))?)?;
    }
    list.push_to(text)
}

/// Whether a definition of a symbol has a prompt.
pub fn has_prompt(view: &View<'_>, symbol: &Symbol) -> bool {
    let definitions = view.tree().definitions();
    symbol
        .definitions()
        .iter()
        .any(|number| match definitions.get(*number) {
            Some(definition) => definition.prompt().is_some(),
            None => false,
        })
}
