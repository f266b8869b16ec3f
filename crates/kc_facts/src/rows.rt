//! The rows of the menu tree.

ghost use Rattle.std.specs.Prelude.{◌≡◌, ◌<◌, ◌+◌, ◌^◌, [], ◌∷◌, ◌++◌, None, if◌then◌else◌, IfOk, OnOk, filter, map, replicate, reverse, slice_get, slice_index_or};
ghost use Rattle.std.specs.Option.{option_copied};
ghost use Rattle.kc_facts.specs.MenuTree.{AreRowsOf, IsRowAfter, block_around, has_row, is_definition, opened, parent_block};
ghost use Rattle.kc_lines.specs.BlocksOutwards.{blocks_outwards};
ghost use Rattle.kc_facts.specs.RowSteps.{AreRowsSoFar, first_found, found_after, found_in};

use crate::row::Row;
use kc_outline::MOST_OPEN_BLOCKS;
use kc_tree::{Block, BlockId, Entry, Tree};
use std::alloc::{AllocError, Global};

/// Whether an entry is a definition of a symbol.
fn is_definition(entry: Entry) -> bool
    ensures { result ≡ is_definition entry }
{
    matches!(entry, Entry::Symbol(_) | Entry::Again(_))
}

/// The block that an entry opens: a menu, or that of a choice.
fn opened(tree: &Tree, entry: Entry) -> Option<BlockId>
    ensures { result ≡ opened tree.now entry }
{
    match entry {
        Entry::Menu(block) => Some(block),
        Entry::Choice(choice) => Some(tree.choices().get(choice.0 as usize)?.block()),
        Entry::Symbol(_) | Entry::Again(_) | Entry::EndMenu(_) | Entry::Comment(_) => None,
    }
}

/// The innermost block around a block.
fn parent_block(tree: &Tree, block: BlockId) -> Option<BlockId>
    ensures { result ≡ parent_block tree.now block }
{
    tree.blocks().get(block.0)?.parent()
}

/// The innermost block around an entry, by its number where it is a definition.
fn block_around(tree: &Tree, definition: Option<usize>, entry: Entry) -> Option<BlockId>
    ensures { result ≡ block_around tree.now definition entry }
{
    if let Some(number) = definition {
        return tree.definitions().get(number)?.block();
    }
    match entry {
        Entry::Menu(block) => parent_block(tree, block),
        Entry::Choice(choice) => {
            parent_block(tree, tree.choices().get(choice.0 as usize)?.block())
        }
        Entry::Comment(comment) => tree.comments().get(comment.0)?.block(),
        Entry::Symbol(_) | Entry::Again(_) | Entry::EndMenu(_) => None,
    }
}

/// A block by number.
fn block_at(tree: &Tree, id: BlockId) -> Option<&Block>
    ensures { option_copied result ≡ slice_get tree.now.blocks id.0 }
{
    tree.blocks().get(id.0)
}

/// The row that opens a block, if it is found.
fn found_at(found: &[Option<usize>], block: BlockId) -> Option<usize>
    ensures { result ≡ slice_index_or found.now block.0 None }
{
    match found.get(block.0) {
        Some(row) => *row,
        None => None,
    }
}

/// The row of the innermost block around that has one, 0 where none has. `found` has the rows by the numbers of blocks.
fn innermost_row(tree: &Tree, found: &[Option<usize>], innermost: Option<BlockId>) -> usize
    ensures { result ≡ first_found (found_in found.now) (blocks_outwards tree.now.blocks MOST_OPEN_BLOCKS innermost) }
{
    let mut next = innermost;
    for _ in 0..MOST_OPEN_BLOCKS {
        let Some(id) = next else {
            return 0;
        };
        let Some(block) = block_at(tree, id) else {
            return 0;
        };
        if let Some(row) = found_at(found, id) {
            return row;
        }
        next = block.parent();
    }
    0
}

/// The rows so far, with what the next row is made from.
#[derive(Drop)]
struct RowsSoFar {
    rows: Vec<Row>,
    /// By the number of a block, the row that opens it.
    found: Vec<Option<usize>>,
    /// How many of the rows are definitions.
    definitions: usize,
}

impl RowsSoFar {
    /// Before any entry is read.
    fn new(alloc: Global, tree: &Tree) -> Result<RowsSoFar, AllocError>
        ensures rows { IfOk result (λ s. s.rows.items ≡ []) }
        ensures right { IfOk result (λ s. AreRowsSoFar tree.now s.rows.items s.found.items s.definitions) }
    {
        Ok(RowsSoFar {
            rows: Vec::with_capacity(alloc, tree.entries().len())?,
            found: no_rows(alloc, tree.blocks().len())?,
            definitions: 0,
        })
    }

    /// The row of the next entry.
    #[tactic(auto, using(crate::proofs::RowLemmas::row_after))]
    fn row_of(&self, tree: &Tree, entry: Entry) -> Row
        requires { AreRowsSoFar tree.now self.now.rows.items self.now.found.items self.now.definitions }
        ensures row { IsRowAfter tree.now (reverse self.now.rows.items) result }
        ensures entry { result.entry ≡ entry }
    {
        let definition = is_definition(entry).then_some(self.definitions);
        let around = block_around(tree, definition, entry);
        Row {
            id: self.rows.len() + 1,
            parent: innermost_row(tree, self.found.as_slice(), around),
            entry,
            definition,
        }
    }

    /// Notes that a row opens a block, where there is a place for it.
    fn find_block(&mut self, block: Option<BlockId>, row: usize)
        ensures rows { self.new.rows.items ≡ self.old.rows.items }
        ensures definitions { self.new.definitions ≡ self.old.definitions }
        ensures found { self.new.found.items ≡ found_after self.old.found.items block row }
    {
        if let Some(block) = block {
            if block.0 < self.found.len() {
                self.found[block.0] = Some(row);
            }
        }
    }

    /// Counts an entry that is a definition.
    fn count(&mut self, entry: Entry)
        requires { self.old.definitions < 2 ^ 63 }
        ensures rows { self.new.rows.items ≡ self.old.rows.items }
        ensures found { self.new.found.items ≡ self.old.found.items }
        ensures definitions { self.new.definitions ≡ (if is_definition entry then self.old.definitions + 1 else self.old.definitions) }
    {
        if is_definition(entry) {
            self.definitions += 1;
        }
    }

    /// Adds the row of the next entry.
    #[tactic(auto, using(crate::proofs::RowLemmas::so_far_next, crate::proofs::RowLemmas::entries_next))]
    fn add(&mut self, tree: &Tree, entry: Entry) -> Result<(), AllocError>
        requires { AreRowsSoFar tree.now self.old.rows.items self.old.found.items self.old.definitions }
        ensures entries { OnOk result (map (λ r. r.entry) self.new.rows.items ≡ map (λ r. r.entry) self.old.rows.items ++ entry ∷ []) }
        ensures right { OnOk result (AreRowsSoFar tree.now self.new.rows.items self.new.found.items self.new.definitions) }
    {
        let row = self.row_of(tree, entry);
        self.rows.push(row)?;
        self.find_block(opened(tree, entry), row.id);
        self.count(entry);
        Ok(())
    }

    /// Adds the row of the next entry, where it has one.
    #[tactic(auto, using(crate::proofs::RowLemmas::one_row, crate::proofs::RowLemmas::no_row))]
    fn add_if(&mut self, tree: &Tree, entry: Entry) -> Result<(), AllocError>
        requires { AreRowsSoFar tree.now self.old.rows.items self.old.found.items self.old.definitions }
        ensures entries { OnOk result (map (λ r. r.entry) self.new.rows.items
            ≡ map (λ r. r.entry) self.old.rows.items ++ filter has_row (entry ∷ [])) }
        ensures right { OnOk result (AreRowsSoFar tree.now self.new.rows.items self.new.found.items self.new.definitions) }
    {
        if has_row(entry) {
            return self.add(tree, entry);
        }
        Ok(())
    }
}

/// A place for each block, with nothing in it. The error comes where memory is refused.
fn no_rows(alloc: Global, count: usize) -> Result<Vec<Option<usize>>, AllocError>
    ensures { IfOk result (λ v. v.items ≡ replicate count None) }
{
    vec![in alloc; None; count]
}

/// Whether an entry has a row: each has one but the ends of menus.
fn has_row(entry: Entry) -> bool
    ensures { result ≡ has_row entry }
{
    !matches!(entry, Entry::EndMenu(_))
}

/// Adds the rows of all entries, where none was read before.
fn read_entries(read: &mut RowsSoFar, tree: &Tree) -> Result<(), AllocError>
    requires { AreRowsSoFar tree.now read.old.rows.items read.old.found.items read.old.definitions }
    ensures entries { OnOk result (map (λ r. r.entry) read.new.rows.items
        ≡ map (λ r. r.entry) read.old.rows.items ++ filter has_row tree.now.entries) }
    ensures right { OnOk result (AreRowsSoFar tree.now read.new.rows.items read.new.found.items read.new.definitions) }
{
    for entry in tree.entries() {
        read.add_if(tree, *entry)?;
    }
    Ok(())
}

/// The rows of the menu tree: the entries of the tree but the ends of menus, in their order (kconfig-language.rst, "Menu
/// structure"). The parent of a row is the row of the innermost menu or choice around it, which is before it, and 0 at the
/// top; an `if` has no row.
///
/// # Errors
///
/// `AllocError` where memory is refused.
pub fn menu_rows(alloc: Global, tree: &Tree) -> Result<Vec<Row>, AllocError>
    ensures { IfOk result (λ rows. AreRowsOf tree.now rows.items) }
{
    let mut read = RowsSoFar::new(alloc, tree)?;
    read_entries(&mut read, tree)?;
    let RowsSoFar { rows, .. } = read;
    Ok(rows)
}
