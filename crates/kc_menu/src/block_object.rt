//! The JSON objects of menus, comments and choices.

ghost use Rattle.std.specs.Prelude.{◌≡◌, IfOk, option_map};
ghost use Rattle.std.specs.String.{string_bytes};
ghost use Rattle.kc_outline.specs.TreeValue.{name_of};
ghost use Rattle.kc_statement.specs.Tristate.{letter};
ghost use Rattle.kc_value.specs.Assignment.{assignment_of};
ghost use Rattle.kc_value.specs.Conditions.{comment_condition, menu_condition};
ghost use Rattle.kc_value.specs.UserValues.{chosen_in};
ghost use Rattle.kc_menu.specs.Objects.{choice_help};

use crate::conditions_as_text::{FactorsOf, factors_text, least_value};
use crate::menu_inputs::MenuInputs;
use crate::places_as_text::{help_text, place_text};
use kc_facts::Row;
use kc_lines::{Family, Part};
use kc_tree::{BlockId, BlockKind, Choice, ChoiceId, CommentId, Node, SymId, Tree, Tri};
use kc_value::{
    Factor, Known, choice_factors, comment_condition, comment_factors, menu_condition, menu_factors,
};
use serde::Serialize;
use std::alloc::{AllocError, Global};

/// What a titled entry is.
#[derive(Clone, Copy, Drop, PartialEq, Eq, Serialize)]
#[serde(rename_all = "lowercase")]
pub(crate) enum TitleKind {
    Menu,
    Comment,
}

/// The JSON object of a menu or a comment.
#[derive(Drop, Serialize)]
pub(crate) struct TitleObject<'m> {
    id: usize,
    parent: usize,
    kind: TitleKind,
    prompt: &'m str,
    #[serde(skip_serializing_if = "Option::is_none")]
    at: Option<String>,
    #[serde(skip_serializing_if = "Option::is_none")]
    depends: Option<String>,
    #[serde(skip_serializing_if = "Option::is_none")]
    visible_if: Option<String>,
    shown: &'static str,
}

/// The JSON object of a choice.
#[derive(Drop, Serialize)]
pub(crate) struct ChoiceObject<'m> {
    id: usize,
    parent: usize,
    kind: &'static str,
    prompt: &'m str,
    #[serde(skip_serializing_if = "Option::is_none")]
    at: Option<String>,
    #[serde(skip_serializing_if = "Option::is_none")]
    depends: Option<String>,
    #[serde(skip_serializing_if = "Option::is_none")]
    prompt_if: Option<String>,
    #[serde(skip_serializing_if = "std::ops::Not::not")]
    optional: bool,
    members: Vec<&'m str>,
    shown: &'static str,
    mode: &'static str,
    sel: Option<&'m str>,
    user: Option<&'m str>,
    #[serde(skip_serializing_if = "Option::is_none")]
    help: Option<String>,
}

/// The title of a menu, empty for a number that is none.
fn menu_title(tree: &Tree, menu: BlockId) -> &str {
    match tree.blocks().get(menu.0) {
        Some(block) => title_in(block.kind()),
        None => "",
    }
}

/// The title of what opens a block, empty for an `if` and a choice.
fn title_in(kind: &BlockKind) -> &str {
    match kind {
        BlockKind::Menu(title) => title.as_str(),
        BlockKind::If | BlockKind::Choice => "",
    }
}

/// The text of a comment, empty for a number that is none.
fn comment_title(tree: &Tree, comment: CommentId) -> &str {
    match tree.comments().get(comment.0) {
        Some(comment) => comment.title(),
        None => "",
    }
}

/// The object of a menu, which a row is of.
pub(crate) fn menu_object<'m>(
    alloc: Global,
    inputs: &MenuInputs<'m>,
    row: Row,
    menu: BlockId,
) -> Result<TitleObject<'m>, AllocError>
    ensures id { IfOk result (λ o. o.id ≡ row.id) }
    ensures parent { IfOk result (λ o. o.parent ≡ row.parent) }
    ensures shown { IfOk result (λ o. o.shown.now ≡ letter (menu_condition inputs.now.view.tree
        (assignment_of inputs.now.view.tree inputs.now.view.values) menu)) }
{
    let (tree, known) = (inputs.view().tree(), inputs.view().known());
    let factors = menu_factors(alloc, known, menu)?;
    let factors = factors.as_slice();
    Ok(TitleObject {
        id: row.id,
        parent: row.parent,
        kind: TitleKind::Menu,
        prompt: menu_title(tree, menu),
        at: place_text(
            alloc,
            inputs.index().line(Part::Owner(Family::Block, menu.0)),
        )?,
        depends: factors_text(alloc, tree, factors, FactorsOf::Dependencies)?,
        visible_if: factors_text(alloc, tree, factors, FactorsOf::Prompt)?,
        shown: menu_condition(known, menu).letter(),
    })
}

/// The object of a comment, which a row is of.
pub(crate) fn comment_object<'m>(
    alloc: Global,
    inputs: &MenuInputs<'m>,
    row: Row,
    comment: CommentId,
) -> Result<TitleObject<'m>, AllocError>
    ensures id { IfOk result (λ o. o.id ≡ row.id) }
    ensures parent { IfOk result (λ o. o.parent ≡ row.parent) }
    ensures shown { IfOk result (λ o. o.shown.now ≡ letter (comment_condition inputs.now.view.tree
        (assignment_of inputs.now.view.tree inputs.now.view.values) comment)) }
{
    let (tree, known) = (inputs.view().tree(), inputs.view().known());
    let factors = comment_factors(alloc, known, comment)?;
    Ok(TitleObject {
        id: row.id,
        parent: row.parent,
        kind: TitleKind::Comment,
        prompt: comment_title(tree, comment),
        at: place_text(
            alloc,
            inputs.index().line(Part::Owner(Family::Comment, comment.0)),
        )?,
        depends: factors_text(alloc, tree, factors.as_slice(), FactorsOf::Dependencies)?,
        visible_if: None,
        shown: comment_condition(known, comment).letter(),
    })
}

/// The object of a choice, which a row is of.
pub(crate) fn choice_object<'m>(
    alloc: Global,
    inputs: &MenuInputs<'m>,
    row: Row,
    id: ChoiceId,
) -> Result<ChoiceObject<'m>, AllocError>
    ensures id { IfOk result (λ o. o.id ≡ row.id) }
    ensures parent { IfOk result (λ o. o.parent ≡ row.parent) }
    ensures user { IfOk result (λ o. option_map (λ p. p.now) o.user
        ≡ option_map (name_of inputs.now.view.tree) (chosen_in inputs.now.view.user id)) }
    ensures help { IfOk result (λ o. option_map string_bytes o.help ≡ choice_help inputs.now.help inputs.now.lines id) }
{
    let (view, index) = (inputs.view(), inputs.index());
    let (tree, known) = (view.tree(), view.known());
    let choice = tree.choices().get(id.0 as usize);
    let part = Part::Owner(Family::Choice, id.0 as usize);
    let factors = choice_factors(alloc, known, id)?;
    let factors = factors.as_slice();
    Ok(ChoiceObject {
        id: row.id,
        parent: row.parent,
        kind: "choice",
        prompt: choice_title(choice),
        at: place_text(alloc, index.line(part))?,
        depends: factors_text(alloc, tree, factors, FactorsOf::Dependencies)?,
        prompt_if: factors_text(alloc, tree, factors, FactorsOf::Prompt)?,
        optional: is_optional(choice),
        members: member_names(alloc, tree, choice)?,
        shown: shown(choice, factors).letter(),
        mode: known.tri(Node::Mode(id)).letter(),
        sel: selected(known, id),
        user: name_of(tree, view.user().chosen(id)),
        help: help_text(
            alloc,
            inputs.help(),
            index.attributes(Family::Choice, id.0 as usize),
        )?,
    })
}

/// The prompt of a choice, empty where it has none.
fn choice_title<'t>(choice: Option<&'t Choice>) -> &'t str {
    match choice {
        Some(choice) => match choice.prompt() {
            Some(prompt) => prompt.text.as_str(),
            None => "",
        },
        None => "",
    }
}

/// Whether a choice is optional.
fn is_optional(choice: Option<&Choice>) -> bool {
    match choice {
        Some(choice) => choice.is_optional(),
        None => false,
    }
}

/// Whether the prompt of a choice is shown, n where it has none.
fn shown(choice: Option<&Choice>, factors: &[Factor<'_>]) -> Tri {
    match choice {
        Some(choice) if choice.prompt().is_some() => least_value(factors),
        _ => Tri::No,
    }
}

/// The names of the members of a choice, in the order of their lines.
fn member_names<'t>(
    alloc: Global,
    tree: &'t Tree,
    choice: Option<&Choice>,
) -> Result<Vec<&'t str>, AllocError> {
    let mut names = Vec::new(alloc);
    let Some(choice) = choice else {
        return Ok(names);
    };
    for member in choice.members() {
        names.push(tree.name(*member))?;
    }
    Ok(names)
}

/// The name of a symbol, if there is one.
fn name_of(tree: &Tree, symbol: Option<SymId>) -> Option<&str>
    ensures { option_map (λ p. p.now) result ≡ option_map (name_of tree.now) symbol }
{
    Some(tree.name(symbol?))
}

/// The name of the member that a choice selects, if it selects one.
fn selected<'t>(known: &Known<'t>, choice: ChoiceId) -> Option<&'t str> {
    name_of(known.tree(), known.get(Node::Sel(choice))?.as_member())
}
