//! Rows of numbers in one vector: a row takes the memory of its numbers, and of the place where it ends.

ghost use Rattle.std.specs.Prelude.{◌≡◌, ◌<◌, ◌^◌, [], ◌∷◌, ◌++◌, IfOk, OnErr, OnOk, length, slice_index_or};
ghost use Rattle.kc_graph.specs.Rows.{rows_in, number_count, AreEnds};

use std::alloc::{AllocError, Global};
use std::marker::Model;

/// The rows of numbers are kept one after another in one list, so that a row takes the memory of its numbers and of one
/// place. Contracts see the list of the rows.
///
/// Memory alone limits how many rows there are, and how many numbers they hold.
#[derive(Drop)]
pub struct Rows {
    /// Each row has the place before which it ends, and where the next row starts.
    ends: Vec<usize>,

    /// These are the numbers of all rows.
    numbers: Vec<u32>,
}

impl Model for Rows {
    ghost use Rattle.std.specs.Prelude.{ℕ, List, length};
    ghost use Rattle.kc_graph.specs.Rows.{rows_in, AreEnds};

    ghost Value = { List (List ℕ) };

    ghost view = { λ r. rows_in r.numbers.items r.ends.items };

    ghost invariant = { λ r. AreEnds 0 r.ends.items (length r.numbers.items) };
}

impl Rows {
    /// There are no rows at first, and there is room for this many, of a number each.
    ///
    /// It fails where memory runs out.
    pub fn with_capacity(alloc: Global, rows: usize) -> Result<Rows, AllocError>
        ensures { IfOk result (λ r. r ≡ []) }
    {
        Ok(Rows {
            ends: Vec::with_capacity(alloc, rows)?,
            numbers: Vec::with_capacity(alloc, rows)?,
        })
    }

    /// The result is the rows that end before these places, where the numbers are those of all rows.
    pub(crate) fn of_ends(ends: Vec<usize>, numbers: Vec<u32>) -> Rows
        requires { AreEnds 0 ends.items (length numbers.items) }
        ensures { result ≡ rows_in numbers.items ends.items }
    {
        Rows { ends, numbers }
    }

    /// A row of numbers is added after the others.
    ///
    /// It fails where memory runs out, and nowhere else. After a failure the rows are as they were.
    pub fn add_row(&mut self, numbers: &[u32]) -> Result<(), AllocError>
        ensures added { OnOk result (self.new ≡ self.old ++ numbers.now ∷ []) }
        ensures kept { OnErr result (self.new ≡ self.old) }
    {
        self.ends.reserve(1)?; // so no number is added whose row has no end
        self.numbers.extend_from_slice(numbers)?;
        self.ends.push(self.numbers.len())?;
        Ok(())
    }

    /// The result says how many rows there are. Its clauses say as well that there are fewer than 2^63, and that they hold
    /// fewer than 2^63 numbers, as memory has room for no more.
    pub fn len(&self) -> usize
        ensures len { result ≡ length self.now }
        ensures few { result < 2 ^ 63 }
        ensures few_numbers { number_count self.now < 2 ^ 63 }
    {
        self.ends.len()
    }

    /// The result is the row of a number, which is empty past the last.
    pub fn row(&self, number: usize) -> &[u32]
        ensures row { result.now ≡ slice_index_or self.now number [] }
    {
        let Some(end) = self.ends.get(number) else {
            return &[];
        };
        let start = if number == 0 {
            0
        } else {
            self.ends[number - 1]
        };
        &self.numbers[start..*end]
    }
}
