//! A text that is made of the entries of a tree, one after the other.

ghost use Rattle.std.specs.Prelude.{◌≡◌, ◌∷◌, ◌++◌, ℕ, List, [], Option, None, Some, IfOk, OnOk};
ghost use Rattle.std.specs.String.{string_bytes};
ghost use Rattle.kc_outline.specs.declared.entry.Entry.{Entry};
ghost use Rattle.kc_outline.specs.Entries.{IsEntryOf};
ghost use Rattle.kc_outline.specs.TreeValue.{TreeValue};
ghost use Rattle.kc_value.specs.Assignment.{Assignment};
ghost use Rattle.kc_files.specs.DraftValue.{DraftValue, draft_of};

use crate::draft::Draft;
use kc_tree::{Entry, Tree};
use std::alloc::{AllocError, Global};

/// What a text has of the entries of a tree.
pub(crate) trait EntryText {
    /// The tree, as contracts see it.
    ghost tree_of: { Self → TreeValue };

    /// What has to be known of the values that the text is made over.
    ghost is_ready: { Self → Type 0 };

    /// That the text is made over an assignment.
    ghost is_over: { Self → Assignment → Type 0 };

    /// The bytes that these entries add to a draft, the first of them after the entry before it.
    ghost rest: { Self → Assignment → DraftValue → Option Entry → List Entry → List ℕ };

    /// Appends what the text has of an entry, after the entry before it. The error comes where memory is refused.
    fn push(&self, draft: &mut Draft, before: Option<Entry>, entry: Entry) -> Result<(), AllocError>
        requires entry { IsEntryOf (tree_of self.now) entry }
        requires ready { is_ready self.now }
        ensures { OnOk result ((a : Assignment) → is_over self.now a → (later : List Entry)
            → draft.new.bytes ++ rest self.now a draft.new (Some entry) later
            ≡ draft.old.bytes ++ rest self.now a draft.old before (entry ∷ later)) };

    /// No entries add nothing.
    ghost rest_of_none: { (s : Self) (a : Assignment) (d : DraftValue) (before : Option Entry) → rest s a d before [] ≡ [] };
}

/// A text: what it begins with, and then what it has of each entry of the tree, in their order. The error comes where
/// memory is refused.
pub(crate) fn text_of<T: EntryText>(
    alloc: Global,
    beginning: &str,
    tree: &Tree,
    entries: &T,
) -> Result<String, AllocError>
    requires ready { T.is_ready entries.now }
    requires tree { T.tree_of entries.now ≡ tree.now }
    ensures { IfOk result (λ text. (a : Assignment) → T.is_over entries.now a
        → string_bytes text ≡ beginning.now ++ T.rest entries.now a (draft_of beginning.now) None tree.now.entries) }
{
    let mut draft = Draft::new(String::from_str(alloc, beginning)?);
    let mut before = None;
    for entry in tree.entries() {
        entries.push(&mut draft, before, *entry)?;
        before = Some(*entry);
    }
    Ok(draft.into_string())
}
