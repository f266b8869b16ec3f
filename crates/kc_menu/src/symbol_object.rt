//! The JSON object of a definition of a symbol.

ghost use Rattle.std.specs.Prelude.{◌≡◌, IfOk, option_and_then, option_map, slice_get};
ghost use Rattle.std.specs.Option.{option_copied};
ghost use Rattle.std.specs.String.{string_bytes};
ghost use Rattle.kc_outline.specs.TreeValue.{name_of, prompt_of};
ghost use Rattle.kc_menu.specs.Objects.{definition_help, definition_prompt, is_again};

use crate::conditions_as_text::{FactorsOf, condition_text, expr_text, factors_text, least_value};
use crate::menu_inputs::MenuInputs;
use crate::places_as_text::{help_text, is_menuconfig, names_after, place_text};
use crate::settings::Setting;
use crate::symbol_now::{SymbolNow, symbol_now};
use kc_facts::{Row, push_term};
use kc_lines::{Family, Part, type_name};
use kc_statement::{Keyword, Term};
use kc_text::Line;
use kc_tree::{Definition, Entry, SymId, SymbolType, Tree, Tri};
use kc_value::{Factor, dependency_factors, prompt_factors};
use serde::Serialize;
use std::alloc::{AllocError, Global};

/// The word that begins a definition.
#[derive(Clone, Copy, Drop, PartialEq, Eq, Serialize)]
#[serde(rename_all = "lowercase")]
enum DefinitionKind {
    Config,
    Menuconfig,
}

/// The JSON object of a definition of a symbol.
#[derive(Drop, Serialize)]
pub(crate) struct SymbolObject<'m> {
    id: usize,
    parent: usize,
    kind: DefinitionKind,
    name: &'m str,
    #[serde(rename = "type")]
    type_name: &'static str,
    #[serde(skip_serializing_if = "std::ops::Not::not")]
    again: bool,
    #[serde(skip_serializing_if = "Option::is_none")]
    prompt: Option<&'m str>,
    #[serde(skip_serializing_if = "Option::is_none")]
    at: Option<String>,
    #[serde(skip_serializing_if = "Option::is_none")]
    depends: Option<String>,
    #[serde(skip_serializing_if = "Option::is_none")]
    prompt_if: Option<String>,
    #[serde(skip_serializing_if = "Vec::is_empty")]
    defaults: Vec<(String, Option<String>)>,
    #[serde(skip_serializing_if = "Vec::is_empty")]
    ranges: Vec<(String, String, Option<String>)>,
    #[serde(skip_serializing_if = "Vec::is_empty")]
    selects: Vec<&'m str>,
    #[serde(skip_serializing_if = "Vec::is_empty")]
    implies: Vec<&'m str>,
    #[serde(flatten)]
    now: SymbolNow<'m>,
    #[serde(skip_serializing_if = "Option::is_none")]
    help: Option<String>,
}

/// The object of the definition of a number, which a row is of, with what a user can give its symbol.
pub(crate) fn symbol_object<'m>(
    alloc: Global,
    inputs: &MenuInputs<'m>,
    row: Row,
    symbol: SymId,
    number: usize,
    setting: Setting,
) -> Result<SymbolObject<'m>, AllocError>
    ensures id { IfOk result (λ o. o.id ≡ row.id) }
    ensures parent { IfOk result (λ o. o.parent ≡ row.parent) }
    ensures name { IfOk result (λ o. o.name.now ≡ name_of inputs.now.view.tree symbol) }
    ensures again { IfOk result (λ o. o.again ≡ is_again row.entry) }
    ensures prompt { IfOk result (λ o. option_map (λ p. p.now) o.prompt
        ≡ definition_prompt inputs.now.view.tree number) }
    ensures help { IfOk result (λ o. option_map string_bytes o.help
        ≡ definition_help inputs.now.help inputs.now.lines number) }
{
    let view = inputs.view();
    let (tree, index) = (view.tree(), inputs.index());
    let definition = definition_at(tree, number);
    let attributes = index.attributes(Family::Definition, number);
    let dependencies = dependency_factors(alloc, view.known(), number)?;
    let prompt = prompt_factors(alloc, view.known(), number)?;
    let title = prompt_title(definition);
    let line = index.line(Part::Owner(Family::Definition, number));
    Ok(SymbolObject {
        id: row.id,
        parent: row.parent,
        kind: kind_of(line),
        name: tree.name(symbol),
        type_name: type_name(tree.symbol_type(symbol)),
        again: is_again(row.entry),
        prompt: title,
        at: place_text(alloc, line)?,
        depends: factors_text(
            alloc,
            tree,
            dependencies.as_slice(),
            FactorsOf::Dependencies,
        )?,
        prompt_if: factors_text(alloc, tree, prompt.as_slice(), FactorsOf::Prompt)?,
        defaults: default_texts(alloc, tree, definition)?,
        ranges: range_texts(alloc, tree, definition)?,
        selects: names_after(alloc, attributes, Keyword::Select)?,
        implies: names_after(alloc, attributes, Keyword::Imply)?,
        now: symbol_now(inputs, symbol, setting, shown(title, prompt.as_slice())),
        help: help_text(alloc, inputs.help(), attributes)?,
    })
}

/// Whether the prompt of a definition is shown, by the factors of its condition; n where it has none.
fn shown(prompt: Option<&str>, factors: &[Factor<'_>]) -> Tri {
    match prompt {
        Some(_) => least_value(factors),
        None => Tri::No,
    }
}

/// Whether an entry is a further definition of its symbol.
fn is_again(entry: Entry) -> bool
    ensures { result ≡ is_again entry }
{
    matches!(entry, Entry::Again(_))
}

/// The word of the line that begins a definition.
fn kind_of(line: Option<&Line<'_>>) -> DefinitionKind {
    match line {
        Some(line) if is_menuconfig(line) => DefinitionKind::Menuconfig,
        _ => DefinitionKind::Config,
    }
}

/// A definition by number.
fn definition_at(tree: &Tree, number: usize) -> Option<&Definition>
    ensures { option_copied result ≡ slice_get tree.now.definitions number }
{
    tree.definitions().get(number)
}

/// The text of the prompt of a definition.
fn prompt_title<'t>(definition: Option<&'t Definition>) -> Option<&'t str>
    ensures { option_map (λ p. p.now) result
        ≡ option_map (λ p. p.text) (option_and_then prompt_of (option_copied definition.entry)) }
{
    let prompt = definition?.prompt()?;
    Some(prompt.text.as_str())
}

/// The defaults of a definition, each as its value and its condition.
fn default_texts(
    alloc: Global,
    tree: &Tree,
    definition: Option<&Definition>,
) -> Result<Vec<(String, Option<String>)>, AllocError> {
    let mut texts = Vec::new(alloc);
    let Some(definition) = definition else {
        return Ok(texts);
    };
    for default in definition.defaults() {
        let value = expr_text(alloc, tree, &default.value)?;
        let condition = condition_text(alloc, tree, default.condition.as_ref())?;
        texts.push((value, condition))?;
    }
    Ok(texts)
}

/// The ranges of a definition, each as its bounds and its condition.
fn range_texts(
    alloc: Global,
    tree: &Tree,
    definition: Option<&Definition>,
) -> Result<Vec<(String, String, Option<String>)>, AllocError> {
    let mut texts = Vec::new(alloc);
    let Some(definition) = definition else {
        return Ok(texts);
    };
    for range in definition.ranges() {
        let low = term_text(alloc, tree, &range.low)?;
        let high = term_text(alloc, tree, &range.high)?;
        let condition = condition_text(alloc, tree, range.condition.as_ref())?;
        texts.push((low, high, condition))?;
    }
    Ok(texts)
}

/// A bound of a range as a text.
fn term_text(alloc: Global, tree: &Tree, term: &Term) -> Result<String, AllocError> {
    let mut text = String::new(alloc);
    push_term(&mut text, tree, term)?;
    Ok(text)
}
