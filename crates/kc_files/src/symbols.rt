//! What is written of a symbol of a tree, and what its choice selects.

ghost use Rattle.std.specs.Prelude.{◌≡◌};
ghost use Rattle.std.specs.Option.{option_copied};
ghost use Rattle.kc_tree.specs.declared.node.Node.TheVariants.{Val};
ghost use Rattle.kc_value.specs.Assignment.{as_text};
ghost use Rattle.kc_value.specs.ChoiceRule.{selected_in};
ghost use Rattle.kc_value.specs.Known.{given};
ghost use Rattle.kc_files.specs.ConfigText.{written_value};

use kc_tree::{ChoiceId, Node, SymId, UserVal};
use kc_value::{Known, Value};

/// The value of a symbol that is written.
pub(crate) fn written_value<'a>(known: &Known<'a>, symbol: SymId) -> Option<&'a UserVal>
    ensures { option_copied result ≡ written_value (given known.now) symbol }
{
    match known.get(Node::Val(symbol)) {
        Some(Value::Shown(value, true)) => Some(value),
        Some(Value::Shown(_, false) | Value::Tri(_) | Value::Member(_)) | None => None,
    }
}

/// The text of the value that a symbol shows.
pub(crate) fn shown_text<'a>(known: &Known<'a>, symbol: SymId) -> &'a str
    ensures { result.now ≡ as_text (given known.now (Val symbol)) }
{
    match known.get(Node::Val(symbol)) {
        Some(value) => value.as_text(),
        None => "n",
    }
}

/// The selected member of a choice of the tree.
pub(crate) fn selected_member(known: &Known<'_>, choice: ChoiceId) -> Option<SymId>
    ensures { result ≡ selected_in known.now.tree (given known.now) choice }
{
    known.tree().choices().get(choice.0 as usize)?;
    known.get(Node::Sel(choice))?.as_member()
}
