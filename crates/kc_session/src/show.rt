//! The line of the command `show`, and those of `list`.
ghost use Rattle.std.specs.Prelude.{◌≡◌, ◌++◌, length, codes, IfOk, OnOk};
ghost use Rattle.std.specs.String.{string_bytes};
ghost use Rattle.std.specs.Option.{option_copied};
ghost use Rattle.kc_statement.specs.declared.id.SymId.{SymId};
ghost use Rattle.kc_tree.specs.declared.node.Node.TheVariants.{Vis, Val};
ghost use Rattle.kc_tree.specs.Nodes.{IsNodeOf};
ghost use Rattle.kc_outline.specs.TreeValue.{name_of};
ghost use Rattle.kc_value.specs.Kept.{IsKept};
ghost use Rattle.kc_value.specs.Solution.{solution};
ghost use Rattle.kc_tree.specs.Fits.{type_of};
ghost use Rattle.kc_session.specs.ShowLine.{show_line_of, list_text_of, line_text, type_text, tri_text, values_text, user_part, given_text};

use kc_files::push_text_in;
use kc_tree::{Node, SymId, SymbolType, Tree, Tri, UserVal};
use kc_value::{Solved, User, assignable_among};
use std::alloc::{AllocError, Global};

/// The line of `show` about a symbol whose value is kept, as [`push_show_line`] appends it.
///
/// The error comes where memory is refused.
pub(crate) fn show_line(
    alloc: Global,
    solved: &Solved<'_>,
    symbol: SymId,
) -> Result<String, AllocError>
    requires inside { IsNodeOf solved.now.tree (Vis symbol) }
    requires asked { IsKept solved.now.tree solved.now.values (Val symbol) }
    requires visibility { IsKept solved.now.tree solved.now.values (Vis symbol) }
    ensures { IfOk result (λ text. string_bytes text ≡ show_line_of solved.now.tree solved.now.user symbol) }
{
    let mut text = String::new(alloc);
    push_show_line(&mut text, alloc, solved, symbol)?;
    Ok(text)
}

/// Appends the line of `show` about a symbol whose value and visibility are kept.
///
/// The error comes where memory is refused.
#[tactic(auto, unfolding(crate::specs::ShowLine::show_line_of))]
pub(crate) fn push_show_line(
    text: &mut String,
    alloc: Global,
    solved: &Solved<'_>,
    symbol: SymId,
) -> Result<(), AllocError>
    requires inside { IsNodeOf solved.now.tree (Vis symbol) }
    requires asked { IsKept solved.now.tree solved.now.values (Val symbol) }
    requires visibility { IsKept solved.now.tree solved.now.values (Vis symbol) }
    ensures { OnOk result (string_bytes text.new
        ≡ string_bytes text.old ++ show_line_of solved.now.tree solved.now.user symbol) }
{
    let visibility = solved.value(Node::Vis(symbol)).as_tri();
    let assignable = assignable_among(alloc, solved.known(), symbol)?;
    push_line(text, solved, symbol, visibility, assignable.as_slice())
}

/// Appends the line about a symbol whose value is kept, with its visibility and the values that it can be given.
#[tactic(auto, unfolding(crate::specs::ShowLine::line_text))]
fn push_line(
    text: &mut String,
    solved: &Solved<'_>,
    symbol: SymId,
    visibility: Tri,
    values: &[Tri],
) -> Result<(), AllocError>
    requires inside { IsNodeOf solved.now.tree (Vis symbol) }
    requires asked { IsKept solved.now.tree solved.now.values (Val symbol) }
    ensures { OnOk result (string_bytes text.new ≡ string_bytes text.old
        ++ line_text (name_of solved.now.tree symbol) (type_of solved.now.tree symbol)
        (solution solved.now.tree solved.now.user (Val symbol)) visibility values.now
        (user_part solved.now.tree solved.now.user symbol)) }
{
    let tree = solved.tree();
    let kind = tree.symbol_type(symbol);
    text.push_str(tree.name(symbol))?;
    text.push_str(type_part(kind))?;
    push_text_in(text, kind, solved.value(Node::Val(symbol)).as_text())?;
    text.push_str(visibility_part(visibility))?;
    push_values(text, values)?;
    text.push_str(" user=")?;
    push_user_part(text, tree, solved.user(), symbol)?;
    text.push_str("\n")
}

/// Appends what the user gave a symbol: of a member of a choice y where he chose it, and a dash where he gave nothing.
fn push_user_part(
    text: &mut String,
    tree: &Tree,
    user: &User,
    symbol: SymId,
) -> Result<(), AllocError>
    requires { IsNodeOf tree.now (Vis symbol) }
    ensures { OnOk result (string_bytes text.new ≡ string_bytes text.old ++ user_part tree.now user.now symbol) }
{
    let Some(choice) = tree.choice_of(symbol) else {
        return push_given(text, tree.symbol_type(symbol), user.get(symbol));
    };
    let is_chosen = user.chosen(choice).is_some_and(|chosen| chosen == symbol);
    text.push_str(if is_chosen { "y" } else { "-" })
}

/// Appends what the user gave a symbol of a type, a dash where he gave nothing.
fn push_given(
    text: &mut String,
    kind: SymbolType,
    value: Option<&UserVal>,
) -> Result<(), AllocError>
    ensures { OnOk result (string_bytes text.new ≡ string_bytes text.old ++ given_text kind (option_copied value.entry)) }
{
    match value {
        None => text.push_str("-"),
        Some(UserVal::Tri(tri)) => text.push_str(tri.letter()),
        Some(UserVal::Text(given)) => push_text_in(text, kind, given.as_str()),
    }
}

/// How many symbols there are.
pub(crate) fn symbol_count(tree: &Tree) -> u32
    ensures { result ≡ length tree.now.symbols }
{
    tree.symbols().len() as u32
}

/// The lines of `list`: one about each symbol, by number. The values and the visibilities of all symbols are kept.
///
/// The error comes where memory is refused.
#[tactic(auto, unfolding(crate::specs::ShowLine::list_text_of))]
pub(crate) fn list_text(alloc: Global, solved: &Solved<'_>) -> Result<String, AllocError>
    requires asked { (s : SymId) → IsNodeOf solved.now.tree (Val s) → IsKept solved.now.tree solved.now.values (Val s) }
    requires visibility { (s : SymId) → IsNodeOf solved.now.tree (Vis s) → IsKept solved.now.tree solved.now.values (Vis s) }
    ensures { IfOk result (λ text. string_bytes text ≡ list_text_of solved.now.tree solved.now.user) }
{
    let mut text = String::new(alloc);
    for number in 0..symbol_count(solved.tree()) {
        push_show_line(&mut text, alloc, solved, SymId(number))?;
    }
    Ok(text)
}

/// The part of a line between the name and the value.
fn type_part(kind: SymbolType) -> &'static str
    ensures { result.now ≡ codes " type=" ++ type_text kind ++ codes " value=" }
{
    match kind {
        SymbolType::Bool => " type=bool value=",
        SymbolType::Tristate => " type=tristate value=",
        SymbolType::String => " type=string value=",
        SymbolType::Int => " type=int value=",
        SymbolType::Hex => " type=hex value=",
    }
}

/// The part of a line between the value and those that the user can give.
fn visibility_part(visibility: Tri) -> &'static str
    ensures { result.now ≡ codes " vis=" ++ tri_text visibility ++ codes " can=" }
{
    match visibility {
        Tri::No => " vis=n can=",
        Tri::Module => " vis=m can=",
        Tri::Yes => " vis=y can=",
    }
}

/// Appends values with commas between them, a dash where there is none.
fn push_values(text: &mut String, values: &[Tri]) -> Result<(), AllocError>
    ensures { OnOk result (string_bytes text.new ≡ string_bytes text.old ++ values_text values.now) }
{
    let Some((first, rest)) = values.split_first() else {
        return text.push_str("-");
    };
    text.push_str(first.letter())?;
    for value in rest {
        text.push_str(",")?;
        text.push_str(value.letter())?;
    }
    Ok(())
}
