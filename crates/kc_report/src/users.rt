//! Which symbols and choices are computed from the value of a symbol.

ghost use Rattle.kc_tree.specs.declared.node.Node.TheVariants.{Val};
ghost use Rattle.kc_tree.specs.Nodes.{IsNodeOf};

use crate::extent::Extent;
use kc_facts::{View, push_choice};
use kc_tree::{ChoiceId, Node, SymId, Tree};
use std::alloc::{AllocError, Global};

/// The most users that are shown, where not all are wanted.
const MOST_SHOWN: usize = 8;

/// By number, whether each symbol and each choice uses a value.
#[derive(Drop)]
struct Users {
    symbols: Vec<bool>,
    choices: Vec<bool>,
}

/// Marks the place of a number.
fn mark(marks: &mut Vec<bool>, number: usize) {
    if let Some(place) = marks.get_mut(number) {
        *place = true;
    }
}

/// Who uses the value of a symbol, but for the symbol itself.
fn users_of(alloc: Global, tree: &Tree, symbol: SymId) -> Result<Users, AllocError>
    requires { IsNodeOf tree.now (Val symbol) }
{
    let mut symbols = vec![in alloc; false; tree.symbols().len()]?;
    let mut choices = vec![in alloc; false; tree.choices().len()]?;
    for node in tree.used_by(Node::Val(symbol)) {
        match node {
            Node::Vis(user) | Node::Val(user) => mark(&mut symbols, user.0 as usize),
            Node::Mode(choice) | Node::Sel(choice) => mark(&mut choices, choice.0 as usize),
        }
    }
    if let Some(own) = symbols.get_mut(symbol.0 as usize) {
        *own = false;
    }
    Ok(Users { symbols, choices })
}

/// How many places are marked.
fn count_marked(marks: &[bool]) -> usize {
    marks.iter().filter(|mark| **mark).count()
}

/// How many of a count are shown.
fn shown_of(extent: Extent, count: usize) -> usize {
    match extent {
        Extent::Short => count.min(MOST_SHOWN),
        Extent::All => count,
    }
}

/// Adds who uses the value of a symbol: `used by 2: A B`, symbols in the order of their first definitions, and then
/// choices. Nothing where nobody does.
pub(crate) fn push_users(
    alloc: Global,
    text: &mut String,
    view: &View<'_>,
    symbol: SymId,
    extent: Extent,
) -> Result<(), AllocError> {
    let tree = view.tree();
    let Some(_found) = tree.symbols().get(symbol.0 as usize) else {
        return Ok(());
    };
    let users = users_of(alloc, tree, symbol)?;
    let symbols = count_marked(users.symbols.as_slice());
    let count = symbols.saturating_add(count_marked(users.choices.as_slice()));
    if count == 0 {
        return Ok(());
    }
    write!(text, "  used by {count}:")?;
    let shown = shown_of(extent, count);
    push_symbols(text, tree, users.symbols.as_slice(), shown)?;
    push_choices(
        text,
        tree,
        users.choices.as_slice(),
        shown.saturating_sub(symbols),
    )?;
    let left = count.saturating_sub(shown);
    if left > 0 {
        write!(text, " and {left} more")?;
    }
    text.push('\n')
}

/// Adds the names of the first symbols that are marked, at most as many as the count says.
fn push_symbols(
    text: &mut String,
    tree: &Tree,
    marks: &[bool],
    most: usize,
) -> Result<(), AllocError> {
    let marked = marks.iter().enumerate().filter(|(_, mark)| **mark);
    for (number, _) in marked.take(most) {
        if let Ok(number) = u32::try_from(number) {
            text.push(' ')?;
            text.push_str(tree.name(SymId(number)))?;
        }
    }
    Ok(())
}

/// Adds the first choices that are marked, at most as many as the count says.
fn push_choices(
    text: &mut String,
    tree: &Tree,
    marks: &[bool],
    most: usize,
) -> Result<(), AllocError> {
    let marked = marks.iter().enumerate().filter(|(_, mark)| **mark);
    for (number, _) in marked.take(most) {
        if let Ok(number) = u32::try_from(number) {
            text.push(' ')?;
            push_choice(text, tree, ChoiceId(number))?;
        }
    }
    Ok(())
}
