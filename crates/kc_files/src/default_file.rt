//! The text of the default file.

ghost use Rattle.std.specs.Prelude.{◌≡◌, ⊤, refl, IfOk, option_and_then};
ghost use Rattle.std.specs.List.{flat_map};
ghost use Rattle.std.specs.String.{string_bytes};
ghost use Rattle.kc_tree.specs.declared.node.Node.TheVariants.{Vis, Val, Sel};
ghost use Rattle.kc_tree.specs.Nodes.{IsNodeOf, all_nodes};
ghost use Rattle.kc_value.specs.ChangedValue.{changed_value};
ghost use Rattle.kc_value.specs.Replay.{shown_in};
ghost use Rattle.kc_value.specs.Solution.{solution, AreSolved, IsOnlySolution};
ghost use Rattle.kc_value.specs.UserValues.{UserValues};
ghost use Rattle.kc_files.specs.DefaultLoading.{HasNoFeeds, KeepsChanges};
ghost use Rattle.kc_files.specs.DefaultText.{is_changed_member, default_value, default_entry, default_text_of};

use crate::draft::Draft;
use crate::entry_text::{EntryText, text_of};
use crate::prefix::Prefix;
use crate::symbol_line::push_symbol_line;
use crate::symbols::selected_member;
use kc_tree::{ChoiceId, Entry, Node, SymId, Tri, UserVal};
use kc_value::{Resolver, Solved, Value, changed_value, values_of_all};
use std::alloc::{AllocError, Global};

/// The value of a symbol, where it is another than without the user's own: it is the same where the user gave none.
#[tactic(auto, using(crate::proofs::DefaultChanges::own_value))]
fn changed_symbol(
    alloc: Global,
    solved: &Solved<'_>,
    symbol: SymId,
) -> Result<Option<Value>, AllocError>
    requires node { IsNodeOf solved.now.tree (Val symbol) }
    requires solved { AreSolved solved.now.tree solved.now.user solved.now.values }
    ensures { IfOk result (λ v. v ≡ changed_value solved.now.tree solved.now.user (Val symbol)) }
{
    if solved.user().get(symbol).is_none() {
        return Ok(None);
    }
    changed_value(alloc, solved.known(), Node::Val(symbol))
}

/// The selection of a choice, where it is another than without a chosen member: it is the same where the user chose none.
#[tactic(auto, using(crate::proofs::DefaultChanges::own_member))]
fn changed_selection(
    alloc: Global,
    solved: &Solved<'_>,
    choice: ChoiceId,
) -> Result<Option<Value>, AllocError>
    requires node { IsNodeOf solved.now.tree (Sel choice) }
    requires solved { AreSolved solved.now.tree solved.now.user solved.now.values }
    ensures { IfOk result (λ v. v ≡ changed_value solved.now.tree solved.now.user (Sel choice)) }
{
    if solved.user().chosen(choice).is_none() {
        return Ok(None);
    }
    changed_value(alloc, solved.known(), Node::Sel(choice))
}

/// Whether a member is the selected one of a choice whose selection is another than without a chosen member.
fn is_changed_member(
    alloc: Global,
    solved: &Solved<'_>,
    choice: ChoiceId,
    member: SymId,
) -> Result<bool, AllocError>
    requires solved { AreSolved solved.now.tree solved.now.user solved.now.values }
    ensures { IfOk result (λ b. b ≡ is_changed_member solved.now.tree solved.now.user choice member) }
{
    if solved.tree().choices().get(choice.0 as usize).is_none() {
        return Ok(false);
    }
    if selected_member(solved.known(), choice) != Some(member) {
        return Ok(false);
    }
    let changed = changed_selection(alloc, solved, choice)?;
    Ok(changed.is_some())
}

/// The value that a symbol has in the default file.
fn default_value(
    alloc: Global,
    solved: &Solved<'_>,
    symbol: SymId,
) -> Result<Option<UserVal>, AllocError>
    requires node { IsNodeOf solved.now.tree (Vis symbol) }
    requires solved { AreSolved solved.now.tree solved.now.user solved.now.values }
    ensures { IfOk result (λ v. v ≡ default_value solved.now.tree solved.now.user symbol) }
{
    let Some(choice) = solved.tree().choice_of(symbol) else {
        let changed = changed_symbol(alloc, solved, symbol)?;
        return Ok(shown_value(changed));
    };
    if is_changed_member(alloc, solved, choice, symbol)? {
        Ok(Some(UserVal::Tri(Tri::Yes)))
    } else {
        Ok(None)
    }
}

/// What a symbol shows, of its value.
fn shown_value(value: Option<Value>) -> Option<UserVal>
    ensures { result ≡ option_and_then shown_in value }
{
    match value {
        Some(Value::Shown(value, _)) => Some(value),
        Some(Value::Tri(_) | Value::Member(_)) | None => None,
    }
}

/// The default file, as it is made of the entries of a tree.
#[derive(Clone, Copy)]
struct DefaultEntries<'s, 'a> {
    alloc: Global,
    solved: &'s Solved<'a>,
    prefix: &'s Prefix,
}

impl EntryText for DefaultEntries<'_, '_> {
    ghost tree_of = { λ e. e.solved.now.tree };

    ghost is_ready = { λ e. AreSolved e.solved.now.tree e.solved.now.user e.solved.now.values };

    ghost is_over = { λ e a. ⊤ };

    ghost rest = { λ e a d before es. flat_map (default_entry e.solved.now.tree e.solved.now.user e.prefix.now) es };

    ghost rest_of_none = { λ e a d before. refl };

    fn push(
        &self,
        draft: &mut Draft,
        _before: Option<Entry>,
        entry: Entry,
    ) -> Result<(), AllocError> {
        let tree = self.solved.tree();
        match entry {
            Entry::Symbol(symbol) => match default_value(self.alloc, self.solved, symbol)? {
                Some(value) => push_symbol_line(
                    &mut draft.text,
                    self.prefix.as_str(),
                    tree.name(symbol),
                    tree.symbol_type(symbol),
                    &value,
                ),
                None => Ok(()),
            },
            Entry::Again(_)
            | Entry::Choice(_)
            | Entry::Menu(_)
            | Entry::EndMenu(_)
            | Entry::Comment(_) => Ok(()),
        }
    }
}

/// The text of the default file, over the values of all nodes: what `defconfig_text` gives, with what is said there. The
/// error comes where memory is refused.
pub fn defconfig_text_over(
    alloc: Global,
    solved: &Solved<'_>,
    prefix: &Prefix,
) -> Result<String, AllocError>
    requires { AreSolved solved.now.tree solved.now.user solved.now.values }
    ensures text { IfOk result (λ text. string_bytes text ≡ default_text_of solved.now.tree solved.now.user prefix.now) }
    ensures keeps { HasNoFeeds solved.now.user
        → IfOk result (λ text. KeepsChanges solved.now.tree solved.now.user prefix.now (string_bytes text)) }
{
    // That the prefix is well formed, and that what the user values change is just enough, are clauses of these calls.
    let _ = prefix.as_str();
    let _ = solved.user();
    let entries = DefaultEntries {
        alloc,
        solved,
        prefix,
    };
    text_of(alloc, "", solved.tree(), &entries)
}

/// The text of the default file (`savedefconfig` of the kernel's scripts/kconfig/conf.c and `write_min_config` of
/// Kconfiglib; which lines it has is this project's own, so it can have others than theirs): in the order of the first
/// definitions, the `.config` line of each symbol that has another value than it would have without the user's own, all
/// else as it is; and of the selected member of each choice whose selection is another than without a chosen member.
/// Texts are compared as they are spelt. The resolver keeps its tree and its user values. Only memory can be refused.
///
/// Where no text of the user has a line feed, the text is read back without a warning. Loaded in the place of all user
/// values, it gives each visibility, value and selection as it is, and each mode but that of an optional choice, which
/// is n where the choice selects none; and without any one of its lines, some value or selection is another. That
/// the tree has one solution, and no other, for any user values holds whatever the call returns.
pub fn defconfig_text<R: Resolver>(
    alloc: Global,
    resolver: &mut R,
    prefix: &Prefix,
) -> Result<String, AllocError>
    ensures text { IfOk result (λ text. string_bytes text
        ≡ default_text_of (R.tree_of resolver.old) (R.user_of resolver.old) prefix.now) }
    ensures solved { (u : UserValues) → IsOnlySolution (R.tree_of resolver.old) u (solution (R.tree_of resolver.old) u) }
    ensures keeps { HasNoFeeds (R.user_of resolver.old) → IfOk result (λ text.
        KeepsChanges (R.tree_of resolver.old) (R.user_of resolver.old) prefix.now (string_bytes text)) }
    ensures tree { R.tree_of resolver.new ≡ R.tree_of resolver.old }
    ensures user { R.user_of resolver.new ≡ R.user_of resolver.old }
    ensures grew { R.grew resolver.old resolver.new (all_nodes (R.tree_of resolver.old)) }
{
    let values = values_of_all(alloc, resolver)?;
    let solved = Solved::of_nodes(resolver.tree(), resolver.user(), &values);
    defconfig_text_over(alloc, &solved, prefix)
}
