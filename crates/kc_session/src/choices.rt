//! The lines of the command `choices`.
ghost use Rattle.std.specs.Prelude.{◌≡◌, ◌++◌, length, codes, decimal, IfOk, OnOk};
ghost use Rattle.std.specs.String.{string_bytes};
ghost use Rattle.kc_outline.specs.declared.id.ChoiceId.{ChoiceId};
ghost use Rattle.kc_tree.specs.declared.node.Node.TheVariants.{Mode, Sel};
ghost use Rattle.kc_tree.specs.Nodes.{IsNodeOf};
ghost use Rattle.kc_outline.specs.TreeValue.{choice_title};
ghost use Rattle.kc_value.specs.Kept.{IsKept};
ghost use Rattle.kc_files.specs.Quoting.{quoted};
ghost use Rattle.kc_session.specs.ChoiceLine.{choice_line_of, choices_text_of, member_text};

use kc_files::push_quoted;
use kc_tree::{ChoiceId, Node, SymId, Tree};
use kc_value::Solved;
use std::alloc::{AllocError, Global};

/// The prompt of a choice, empty where it has none.
fn title_of(tree: &Tree, choice: ChoiceId) -> &str
    ensures { result.now ≡ choice_title tree.now choice }
{
    match tree.choices().get(choice.0 as usize) {
        Some(choice) => match choice.prompt() {
            Some(prompt) => prompt.text.as_str(),
            None => "",
        },
        None => "",
    }
}

/// The name of a member, a dash where there is none.
fn member_name(tree: &Tree, member: Option<SymId>) -> &str
    ensures { result.now ≡ member_text tree.now member }
{
    match member {
        Some(member) => tree.name(member),
        None => "-",
    }
}

/// The number and the prompt of a choice.
fn line_start(alloc: Global, tree: &Tree, choice: ChoiceId) -> Result<String, AllocError>
    ensures { IfOk result (λ text. string_bytes text
        ≡ codes "choice " ++ decimal choice.0 ++ codes " " ++ quoted (choice_title tree.now choice)) }
{
    let number = choice.0;
    let mut text = format!(in alloc; "choice {number} ")?;
    push_quoted(&mut text, title_of(tree, choice))?;
    Ok(text)
}

/// The line about a choice whose selection and mode are kept.
///
/// The error comes where memory is refused.
#[tactic(auto, unfolding(crate::specs::ChoiceLine::choice_line_of))]
fn choice_line(alloc: Global, solved: &Solved<'_>, choice: ChoiceId) -> Result<String, AllocError>
    requires inside { IsNodeOf solved.now.tree (Mode choice) }
    requires asked { IsKept solved.now.tree solved.now.values (Sel choice) }
    requires mode { IsKept solved.now.tree solved.now.values (Mode choice) }
    ensures { IfOk result (λ text. string_bytes text ≡ choice_line_of solved.now.tree solved.now.user choice) }
{
    let tree = solved.tree();
    let mode = solved.value(Node::Mode(choice)).as_tri();
    let selected = solved.value(Node::Sel(choice)).as_member();
    let mut text = line_start(alloc, tree, choice)?;
    text.push_str(" mode=")?;
    text.push_str(mode.letter())?;
    text.push_str(" sel=")?;
    text.push_str(member_name(tree, selected))?;
    text.push_str(" user=")?;
    text.push_str(member_name(tree, solved.user().chosen(choice)))?;
    text.push_str("\n")?;
    Ok(text)
}

/// How many choices there are.
pub(crate) fn choice_count(tree: &Tree) -> u32
    ensures { result ≡ length tree.now.choices }
{
    tree.choices().len() as u32
}

/// The lines about all choices, by number. The selections and the modes of all choices are kept.
///
/// The error comes where memory is refused.
#[tactic(auto, unfolding(crate::specs::ChoiceLine::choices_text_of))]
pub(crate) fn choices_text(alloc: Global, solved: &Solved<'_>) -> Result<String, AllocError>
    requires asked { (c : ChoiceId) → IsNodeOf solved.now.tree (Sel c) → IsKept solved.now.tree solved.now.values (Sel c) }
    requires modes { (c : ChoiceId) → IsNodeOf solved.now.tree (Mode c) → IsKept solved.now.tree solved.now.values (Mode c) }
    ensures { IfOk result (λ text. string_bytes text ≡ choices_text_of solved.now.tree solved.now.user) }
{
    let mut text = String::new(alloc);
    for number in 0..choice_count(solved.tree()) {
        let line = choice_line(alloc, solved, ChoiceId(number))?;
        text.push_str(line.as_str())?;
    }
    Ok(text)
}
