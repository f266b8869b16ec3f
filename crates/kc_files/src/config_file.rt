//! The text of the `.config`.

ghost use Rattle.std.specs.Prelude.{◌≡◌, ◌&&◌, ⊤, refl, not, IfOk, OnOk};
ghost use Rattle.std.specs.String.{string_bytes};
ghost use Rattle.kc_tree.specs.Nodes.{all_nodes};
ghost use Rattle.kc_statement.specs.Tristate.{is_no};
ghost use Rattle.kc_value.specs.Assignment.{Assignment};
ghost use Rattle.kc_value.specs.Conditions.{menu_condition, comment_condition};
ghost use Rattle.kc_value.specs.Solution.{solution, IsOnlySolution};
ghost use Rattle.kc_files.specs.ConfigText.{title_block, end_line, menu_title, comment_title, title_of, end_of, piece_if, config_text_of};
ghost use Rattle.kc_files.specs.DraftValue.{with_option, opens_menu, bytes_of_pieces, pieces_after, Agrees};

use crate::draft::Draft;
use crate::entry_text::{EntryText, text_of};
use crate::prefix::Prefix;
use crate::symbols::written_value;
use crate::titles::{comment_title, menu_title};
use kc_tree::{BlockId, CommentId, Entry};
use kc_value::{Known, Resolver, comment_condition, menu_condition, values_of_all};
use std::alloc::{AllocError, Global};

/// Whether a menu has its lines: its condition is not n.
fn menu_shows(known: &Known<'_>, menu: BlockId) -> bool
    ensures { (a : Assignment) → Agrees known.now.tree known.now.values a
        → result ≡ not (is_no (menu_condition known.now.tree a menu)) }
{
    !menu_condition(known, menu).is_no()
}

/// Whether a comment has its lines: its condition is not n.
fn comment_shows(known: &Known<'_>, comment: CommentId) -> bool
    ensures { (a : Assignment) → Agrees known.now.tree known.now.values a
        → result ≡ not (is_no (comment_condition known.now.tree a comment)) }
{
    !comment_condition(known, comment).is_no()
}

/// Whether an entry opens this menu: directly before the menu's end it leaves nothing inside.
fn opens_menu(menu: BlockId, entry: Option<Entry>) -> bool
    ensures { result ≡ opens_menu menu entry }
{
    match entry {
        Some(Entry::Menu(opened)) => opened == menu,
        _ => false,
    }
}

/// Appends the title of a menu that shows.
fn push_menu(draft: &mut Draft, known: &Known<'_>, menu: BlockId) -> Result<(), AllocError>
    ensures { OnOk result ((a : Assignment) → Agrees known.now.tree known.now.values a
        → draft.new ≡ with_option draft.old (piece_if (not (is_no (menu_condition known.now.tree a menu)))
        (title_of (title_block (menu_title known.now.tree menu))))) }
{
    if menu_shows(known, menu) {
        draft.push_title(menu_title(known.tree(), menu))?;
    }
    Ok(())
}

/// Appends the end line of a menu that shows and has an entry inside.
fn push_menu_end(
    draft: &mut Draft,
    known: &Known<'_>,
    before: Option<Entry>,
    menu: BlockId,
) -> Result<(), AllocError>
    ensures { OnOk result ((a : Assignment) → Agrees known.now.tree known.now.values a
        → draft.new ≡ with_option draft.old (piece_if
        (not (is_no (menu_condition known.now.tree a menu)) && not (opens_menu menu before))
        (end_of (end_line (menu_title known.now.tree menu))))) }
{
    if !opens_menu(menu, before) && menu_shows(known, menu) {
        draft.push_end(menu_title(known.tree(), menu))?;
    }
    Ok(())
}

/// Appends the title of a comment that shows.
fn push_comment(draft: &mut Draft, known: &Known<'_>, comment: CommentId) -> Result<(), AllocError>
    ensures { OnOk result ((a : Assignment) → Agrees known.now.tree known.now.values a
        → draft.new ≡ with_option draft.old (piece_if (not (is_no (comment_condition known.now.tree a comment)))
        (title_of (title_block (comment_title known.now.tree comment))))) }
{
    if comment_shows(known, comment) {
        draft.push_title(comment_title(known.tree(), comment))?;
    }
    Ok(())
}

/// The `.config`, as it is made of the entries of a tree.
#[derive(Clone, Copy)]
struct ConfigEntries<'s, 'a> {
    known: &'s Known<'a>,
    prefix: &'s Prefix,
}

impl EntryText for ConfigEntries<'_, '_> {
    ghost tree_of = { λ c. c.known.now.tree };

    ghost is_ready = { λ c. ⊤ };

    ghost is_over = { λ c a. Agrees c.known.now.tree c.known.now.values a };

    ghost rest = { λ c a d before es. bytes_of_pieces d.after_end (pieces_after c.known.now.tree c.prefix.now a before es) };

    ghost rest_of_none = { λ c a d before. refl };

    #[tactic(auto, using(crate::proofs::DraftLaws::piece_then_rest))]
    fn push(
        &self,
        draft: &mut Draft,
        before: Option<Entry>,
        entry: Entry,
    ) -> Result<(), AllocError> {
        let tree = self.known.tree();
        match entry {
            Entry::Symbol(symbol) => match written_value(self.known, symbol) {
                Some(value) => {
                    draft.push_symbol(
                        self.prefix,
                        tree.name(symbol),
                        tree.symbol_type(symbol),
                        value,
                    )
                }
                None => Ok(()),
            },
            Entry::Again(_) | Entry::Choice(_) => Ok(()),
            Entry::Menu(menu) => push_menu(draft, self.known, menu),
            Entry::EndMenu(menu) => push_menu_end(draft, self.known, before, menu),
            Entry::Comment(comment) => push_comment(draft, self.known, comment),
        }
    }
}

/// The text of the `.config` over the values of all nodes: what `config_text` gives
/// where they are those of the solution. The error comes where memory is refused.
pub fn config_text_over(
    alloc: Global,
    known: &Known<'_>,
    prefix: &Prefix,
    header: &str,
) -> Result<String, AllocError>
    ensures { IfOk result (λ text. (a : Assignment) → Agrees known.now.tree known.now.values a
        → string_bytes text ≡ config_text_of known.now.tree prefix.now header.now a) }
{
    text_of(
        alloc,
        header,
        known.tree(),
        &ConfigEntries { known, prefix },
    )
}

/// The text of the `.config`: the header as it is, then what the tree's entries give in their order. A symbol that is
/// written has its line at its first definition, a menu or a comment whose condition is not n its title, and such a
/// menu with an entry inside its end line (`conf_write` of the kernel's scripts/kconfig/confdata.c, and
/// `write_config` of Kconfiglib). The resolver keeps its tree and its user values. Only memory can be refused.
pub fn config_text<R: Resolver>(
    alloc: Global,
    resolver: &mut R,
    prefix: &Prefix,
    header: &str,
) -> Result<String, AllocError>
    ensures text { IfOk result (λ text. string_bytes text
        ≡ config_text_of (R.tree_of resolver.old) prefix.now header.now
        (solution (R.tree_of resolver.old) (R.user_of resolver.old))) }
    ensures solved { IsOnlySolution (R.tree_of resolver.old) (R.user_of resolver.old)
        (solution (R.tree_of resolver.old) (R.user_of resolver.old)) }
    ensures tree { R.tree_of resolver.new ≡ R.tree_of resolver.old }
    ensures user { R.user_of resolver.new ≡ R.user_of resolver.old }
    ensures grew { R.grew resolver.old resolver.new (all_nodes (R.tree_of resolver.old)) }
{
    let values = values_of_all(alloc, resolver)?;
    let known = Known::of_nodes(resolver.tree(), &values);
    config_text_over(alloc, &known, prefix, header)
}
