//! Dropping what is computed from some nodes.

ghost use Rattle.std.specs.Prelude.{◌≡◌, ◌+◌, ◌<◌, ◌≤◌, ◌^◌, ℕ, Contains, List, Option, length, vec_capacity};
ghost use Rattle.kc_tree.specs.Accepted.{IsAccepted};
ghost use Rattle.kc_tree.specs.CellLaws.{CellLaws};
ghost use Rattle.kc_tree.specs.Cells.{cell_count};
ghost use Rattle.kc_value.specs.declared.value.Value.{Value};
ghost use Rattle.kc_value.specs.DropWalk.{DropsAll, IsDropped, IsDropping, IsOneIf};
ghost use Rattle.kc_value.specs.Kept.{IsClosed, value_count};
ghost use Rattle.kc_value.specs.UserValues.{UserValues};

use crate::node_values::NodeValues;
use kc_tree::Tree;

/// Drops the value of the cell of a number, if it has one, and then lists the number. There is room for it, so that this
/// takes no memory.
pub(crate) fn drop_one(values: &mut NodeValues, list: &mut Vec<u32>, number: u32)
    requires inside { number < length values.old }
    requires room { length list.old.items + value_count values.old ≤ vec_capacity list.old }
    ensures drops { DropsAll (λ k. k ≡ number) values.old values.new list.old.items list.new.items }
    ensures capacity { vec_capacity list.old ≤ vec_capacity list.new }
{
    if values.has(number as usize) {
        values.remove(number as usize);
        let _ = list.push(number);
    }
}

/// The same of a node that changes, and nothing of one that does not.
pub(crate) fn drop_if(values: &mut NodeValues, list: &mut Vec<u32>, changes: bool, number: usize)
    requires few { number < 2 ^ 32 }
    requires inside { number < length values.old }
    requires room { length list.old.items + value_count values.old ≤ vec_capacity list.old }
    ensures drops { DropsAll (IsOneIf changes number) values.old values.new list.old.items list.new.items }
    ensures capacity { vec_capacity list.old ≤ vec_capacity list.new }
{
    if changes {
        drop_one(values, list, number as u32);
    }
}

/// Drops the values of the cells of a row, and lists those that had one.
fn drop_row(values: &mut NodeValues, list: &mut Vec<u32>, numbers: &[u32])
    requires inside { (k : ℕ) → Contains numbers.now k → k < length values.old }
    requires room { length list.old.items + value_count values.old ≤ vec_capacity list.old }
    ensures drops { DropsAll (Contains numbers.now) values.old values.new list.old.items list.new.items }
    ensures capacity { vec_capacity list.old ≤ vec_capacity list.new }
{
    for number in numbers {
        drop_one(values, list, *number);
    }
}

/// Goes on from cells that were dropped and listed: drops what is computed from them, itself and through others. The walk
/// goes on only from cells that were kept: what is computed from another is not kept either. It takes no memory.
pub(crate) fn walk(tree: &Tree, values: &mut NodeValues, list: &mut Vec<u32>)
    requires inside { (k : ℕ) → Contains list.old.items k → k < cell_count tree.now }
    requires whole { length values.old ≡ cell_count tree.now }
    requires room { length list.old.items + value_count values.old ≤ vec_capacity list.old }
    ensures drops { (u w : UserValues) (first : List (Option Value)) → IsClosed tree.now first
        → IsDropping tree.now u w first values.old list.old.items → IsDropped tree.now u w first values.new }
    ensures whole { length values.new ≡ length values.old }
    ensures capacity { vec_capacity list.old ≤ vec_capacity list.new }
    ensures laws { CellLaws tree.now }
    ensures accepted { IsAccepted tree.now }
{
    let table = tree.user_table();
    while let Some(next) = list.pop() {
        drop_row(values, list, table.row(next as usize));
    }
}
