//! The titles of menus and comments.

ghost use Rattle.std.specs.Prelude.{◌≡◌};
ghost use Rattle.kc_files.specs.ConfigText.{menu_title_in, menu_title, comment_title};

use kc_tree::{BlockId, BlockKind, CommentId, Tree};

fn menu_title_in(kind: &BlockKind) -> &str
    ensures { result.now ≡ menu_title_in kind.now }
{
    match kind {
        BlockKind::Menu(title) => title.as_str(),
        BlockKind::If | BlockKind::Choice => "",
    }
}

/// The title of a menu, empty for a number that is none.
pub(crate) fn menu_title(tree: &Tree, menu: BlockId) -> &str
    ensures { result.now ≡ menu_title tree.now menu }
{
    match tree.blocks().get(menu.0) {
        Some(block) => menu_title_in(block.kind()),
        None => "",
    }
}

/// The title of a comment, empty for a number that is none.
pub(crate) fn comment_title(tree: &Tree, comment: CommentId) -> &str
    ensures { result.now ≡ comment_title tree.now comment }
{
    match tree.comments().get(comment.0) {
        Some(comment) => comment.title(),
        None => "",
    }
}
