//! Which values the mode of a choice and its members may have.

ghost use Rattle.std.specs.Prelude.{◌≡◌, Option};
ghost use Rattle.kc_statement.specs.declared.id.SymId.{SymId};
ghost use Rattle.kc_tree.specs.Nodes.{IsNodeOf};
ghost use Rattle.kc_tree.specs.declared.node.Node.TheVariants.{Val};
ghost use Rattle.kc_value.specs.ChoiceRule.{is_symbol, mode, selected_in};
ghost use Rattle.kc_value.specs.ExprValue.{yes_if};
ghost use Rattle.kc_value.specs.Solution.{solution};
ghost use Rattle.kc_value.specs.UserValues.{UserValues};
ghost use Rattle.kc_bounds.specs.Bounds.{CoversIn, IsScoped};
ghost use Rattle.kc_bounds.specs.TriSets.{IsIn};

use crate::conditions::choice_prompt_set;
use crate::table::ScopedBounds;
use crate::tri_set::TriSet;
use kc_tree::{Choice, ChoiceId, Node, SymId};

/// Which values the mode of a choice may have, whichever member the user chooses: y where the condition of its prompt may
/// be more than n, and n where that may be n, and where the choice is optional.
pub(crate) fn mode_set(bounds: &ScopedBounds<'_>, choice: &Choice) -> TriSet
    ensures { (w : UserValues) → IsScoped bounds.now.tree bounds.now.modules w → (chosen : Option SymId)
        → IsIn result (mode bounds.now.tree (solution bounds.now.tree w) choice.now chosen) }
{
    let prompt = choice_prompt_set(bounds, choice);
    TriSet {
        no: prompt.no || choice.is_optional(),
        module: false,
        yes: prompt.has_more(),
    }
}

/// Which values a member of a choice may have: y where it may be visible, and n.
pub(crate) fn member_set(bounds: &ScopedBounds<'_>, choice: ChoiceId, member: SymId) -> TriSet
    requires { IsNodeOf bounds.now.tree (Val member) }
    ensures { CoversIn bounds.now.tree bounds.now.modules result (λ a. yes_if (is_symbol (selected_in bounds.now.tree a choice) member)) }
{
    // That the tree has one solution for all user values is a clause of this call.
    let _ = bounds.tree();
    TriSet {
        no: true,
        module: false,
        yes: bounds.node(Node::Vis(member)).has_more(),
    }
}
