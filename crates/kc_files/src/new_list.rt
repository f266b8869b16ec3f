//! The list of symbols that have no value from the user yet.

ghost use Rattle.std.specs.Prelude.{◌≡◌, ⊤, refl, nat_le, count_by, IfOk};
ghost use Rattle.std.specs.List.{flat_map};
ghost use Rattle.std.specs.String.{string_bytes};
ghost use Rattle.kc_tree.specs.declared.node.Node.TheVariants.{Vis};
ghost use Rattle.kc_tree.specs.Nodes.{IsNodeOf, all_nodes};
ghost use Rattle.kc_value.specs.ChoiceRule.{is_visible};
ghost use Rattle.kc_value.specs.Known.{given};
ghost use Rattle.kc_value.specs.Solution.{solution, AreSolved, IsOnlySolution};
ghost use Rattle.kc_files.specs.NewText.{has_another_value, is_new_symbol, visible_count, is_new_member, is_new, new_entry, new_text_of};

use crate::draft::Draft;
use crate::entry_text::{EntryText, text_of};
use crate::prefix::Prefix;
use crate::symbol_line::push_text_line;
use crate::symbols::{selected_member, shown_text};
use kc_tree::{ChoiceId, Entry, Node, SymId};
use kc_value::{Known, Resolver, Solved, assignable_among, values_of_all};
use std::alloc::{AllocError, Global};

/// Whether a user can give the symbol another value than it has.
fn has_another_value(alloc: Global, solved: &Solved<'_>, symbol: SymId) -> Result<bool, AllocError>
    requires inside { IsNodeOf solved.now.tree (Vis symbol) }
    requires solved { AreSolved solved.now.tree solved.now.user solved.now.values }
    ensures { IfOk result (λ b. b ≡ has_another_value solved.now.tree solved.now.user symbol) }
{
    if !solved.tree().symbol_type(symbol).is_tri() {
        return Ok(true);
    }
    let assignable = assignable_among(alloc, solved.known(), symbol)?;
    Ok(assignable.len() >= 2)
}

/// Whether a symbol that is no member of a choice is visible, has no value from the user, and can have another one.
fn is_new_symbol(alloc: Global, solved: &Solved<'_>, symbol: SymId) -> Result<bool, AllocError>
    requires inside { IsNodeOf solved.now.tree (Vis symbol) }
    requires solved { AreSolved solved.now.tree solved.now.user solved.now.values }
    ensures { IfOk result (λ b. b ≡ is_new_symbol solved.now.tree solved.now.user symbol) }
{
    if solved.known().tri(Node::Vis(symbol)).is_no() || solved.user().get(symbol).is_some() {
        return Ok(false);
    }
    has_another_value(alloc, solved, symbol)
}

/// Whether a symbol of the tree is visible.
fn is_visible(known: &Known<'_>, symbol: SymId) -> bool
    ensures { result ≡ is_visible known.now.tree (given known.now) symbol }
{
    match known.tree().symbols().get(symbol.0 as usize) {
        Some(_) => !known.tri(Node::Vis(symbol)).is_no(),
        None => false,
    }
}

/// How many of the members are visible.
fn visible_count(known: &Known<'_>, members: &[SymId]) -> usize
    ensures { result ≡ count_by (is_visible known.now.tree (given known.now)) members.now }
{
    members
        .iter()
        .filter(|member| is_visible(known, **member))
        .count()
}

/// Whether two members of a choice or more are visible.
fn has_another_member(known: &Known<'_>, choice: ChoiceId) -> bool
    ensures { result ≡ nat_le 2 (visible_count known.now.tree (given known.now) choice) }
{
    match known.tree().choices().get(choice.0 as usize) {
        Some(choice) => visible_count(known, choice.members()) >= 2,
        None => false,
    }
}

/// Whether a member is the selected one of its choice, the user chose none, and another one is visible, too.
fn is_new_member(solved: &Solved<'_>, choice: ChoiceId, member: SymId) -> bool
    requires { AreSolved solved.now.tree solved.now.user solved.now.values }
    ensures { result ≡ is_new_member solved.now.tree solved.now.user choice member }
{
    selected_member(solved.known(), choice) == Some(member)
        && solved.user().chosen(choice).is_none()
        && has_another_member(solved.known(), choice)
}

/// Whether a symbol has a line.
fn is_new(alloc: Global, solved: &Solved<'_>, symbol: SymId) -> Result<bool, AllocError>
    requires inside { IsNodeOf solved.now.tree (Vis symbol) }
    requires solved { AreSolved solved.now.tree solved.now.user solved.now.values }
    ensures { IfOk result (λ b. b ≡ is_new solved.now.tree solved.now.user symbol) }
{
    match solved.tree().choice_of(symbol) {
        Some(choice) => Ok(is_new_member(solved, choice, symbol)),
        None => is_new_symbol(alloc, solved, symbol),
    }
}

/// The list of new symbols, as it is made of the entries of a tree.
#[derive(Clone, Copy)]
struct NewEntries<'s, 'a> {
    alloc: Global,
    solved: &'s Solved<'a>,
    prefix: &'s Prefix,
}

impl EntryText for NewEntries<'_, '_> {
    ghost tree_of = { λ n. n.solved.now.tree };

    ghost is_ready = { λ n. AreSolved n.solved.now.tree n.solved.now.user n.solved.now.values };

    ghost is_over = { λ n a. ⊤ };

    ghost rest = { λ n a d before es. flat_map (new_entry n.solved.now.tree n.solved.now.user n.prefix.now) es };

    ghost rest_of_none = { λ n a d before. refl };

    fn push(
        &self,
        draft: &mut Draft,
        _before: Option<Entry>,
        entry: Entry,
    ) -> Result<(), AllocError> {
        let solved = self.solved;
        match entry {
            Entry::Symbol(symbol) => {
                if !is_new(self.alloc, solved, symbol)? {
                    return Ok(());
                }
                push_text_line(
                    &mut draft.text,
                    self.prefix.as_str(),
                    solved.tree().name(symbol),
                    solved.tree().symbol_type(symbol),
                    shown_text(solved.known(), symbol),
                )
            }
            Entry::Again(_)
            | Entry::Choice(_)
            | Entry::Menu(_)
            | Entry::EndMenu(_)
            | Entry::Comment(_) => Ok(()),
        }
    }
}

/// The list of symbols that the user can still decide on, over the values of all nodes: what `new_text` gives. The error
/// comes where memory is refused.
pub fn new_text_over(
    alloc: Global,
    solved: &Solved<'_>,
    prefix: &Prefix,
) -> Result<String, AllocError>
    requires { AreSolved solved.now.tree solved.now.user solved.now.values }
    ensures { IfOk result (λ text. string_bytes text ≡ new_text_of solved.now.tree solved.now.user prefix.now) }
{
    let entries = NewEntries {
        alloc,
        solved,
        prefix,
    };
    text_of(alloc, "", solved.tree(), &entries)
}

/// The list of symbols that the user can still decide on, each with the value that it has (`listnewconfig` of the
/// kernel's scripts/kconfig/conf.c; which symbols these are is this project's own): in the order of their first
/// definitions, a line `CONFIG_X=value` for each visible symbol without a user value that can have another value, n as
/// `CONFIG_X=n` and a string in quotes; and one for the selected member of each choice without a chosen member that has
/// two visible members or more. The resolver keeps its tree and its user values. Only memory can be refused.
pub fn new_text<R: Resolver>(
    alloc: Global,
    resolver: &mut R,
    prefix: &Prefix,
) -> Result<String, AllocError>
    ensures text { IfOk result (λ text. string_bytes text
        ≡ new_text_of (R.tree_of resolver.old) (R.user_of resolver.old) prefix.now) }
    ensures solved { IsOnlySolution (R.tree_of resolver.old) (R.user_of resolver.old)
        (solution (R.tree_of resolver.old) (R.user_of resolver.old)) }
    ensures tree { R.tree_of resolver.new ≡ R.tree_of resolver.old }
    ensures user { R.user_of resolver.new ≡ R.user_of resolver.old }
    ensures grew { R.grew resolver.old resolver.new (all_nodes (R.tree_of resolver.old)) }
{
    let values = values_of_all(alloc, resolver)?;
    let solved = Solved::of_nodes(resolver.tree(), resolver.user(), &values);
    new_text_over(alloc, &solved, prefix)
}
