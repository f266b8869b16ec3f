//! Evaluating what nodes are computed from, and the nodes, as far as they are not kept.

ghost use Rattle.std.specs.Prelude.{◌≡◌, ◌+◌, ◌<◌, ◌≤◌, ℕ, [], ◌∷◌, false, Contains, IfOk, OnErr, OnOk, IsOk, Some, length, map, slice_index_or, slice_set};
ghost use Rattle.std.specs.List.{range_with_len};
ghost use Rattle.kc_tree.specs.declared.cell.Cell.{Cell};
ghost use Rattle.kc_tree.specs.declared.node.Node.{Node};
ghost use Rattle.kc_tree.specs.Accepted.{IsAccepted};
ghost use Rattle.kc_tree.specs.CellLaws.{CellLaws};
ghost use Rattle.kc_tree.specs.Cells.{IsCellOf, cell_at, cell_count, read_cells};
ghost use Rattle.kc_tree.specs.Nodes.{IsNodeOf, all_nodes, node_at, node_count};
ghost use Rattle.kc_value.specs.declared.summary.Summary.TheVariants.{Absent};
ghost use Rattle.kc_value.specs.Assignment.{assignment_of};
ghost use Rattle.kc_value.specs.FillWalk.{ArePresent, HasValue, cell_rule, counted_with};
ghost use Rattle.kc_value.specs.Kept.{IsHeld, IsKept, AreKept, Fills};
ghost use Rattle.kc_value.specs.Known.{AreRight, given};
ghost use Rattle.kc_value.specs.Solution.{solution, IsOnlySolution};
ghost use Rattle.kc_value.specs.Summaries.{is_present};

use crate::conditions::condition_tri;
use crate::evaluation::apply_rule;
use crate::kept_values::KeptValues;
use crate::known::Known;
use crate::summary::Summary;
use crate::user::User;
use crate::value::Value;
use kc_tree::{Cell, Node, Tree};
use std::alloc::{AllocError, Global};

/// A cell that is wanted, by number, and how many of the cells that it reads have been passed.
#[derive(Clone, Copy)]
struct Step {
    number: usize,
    passed: usize,
}

/// Whether the cell of a number has a value.
fn is_filled(summaries: &[Summary], number: usize) -> bool
    ensures { result ≡ is_present (slice_index_or summaries.now number Absent) }
{
    match summaries.get(number) {
        Some(summary) => summary.is_present(),
        None => false,
    }
}

/// The place of the first number of a row, from a place on, that is that of a cell without a value.
fn first_missing(summaries: &[Summary], numbers: &[u32], from: usize) -> usize
    ensures from { from ≤ result }
    ensures passed { ArePresent summaries.now numbers.now from result }
    ensures missing { result < length numbers.now → is_present (slice_index_or summaries.now (slice_index_or numbers.now result 0) Absent) ≡ false }
{
    let mut place = from;
    while place < numbers.len() {
        if !is_filled(summaries, numbers[place] as usize) {
            return place;
        }
        place += 1;
    }
    place
}

/// What the rule of a cell gives. The error comes where memory is refused for a text.
fn cell_value(
    alloc: Global,
    known: &Known<'_>,
    user: &User,
    cell: Cell,
) -> Result<Value, AllocError>
    requires { IsCellOf known.now.tree cell }
    ensures { IfOk result (λ v. v ≡ cell_rule known.now.tree user.now (given known.now) cell) }
{
    match cell {
        Cell::Node(node) => apply_rule(alloc, known, user, node),
        condition => Ok(Value::Tri(condition_tri(known, condition))),
    }
}

impl KeptValues {
    /// Evaluates the cell of a number over the values that are kept, and keeps what it gives. A node is counted, and a
    /// condition is not.
    ///
    /// The error comes where memory is refused; nothing is kept or counted then.
    fn evaluate(
        &mut self,
        alloc: Global,
        tree: &Tree,
        user: &User,
        number: usize,
    ) -> Result<(), AllocError>
        requires inside { number < cell_count tree.now }
        requires whole { length self.old.values ≡ cell_count tree.now }
        requires right { AreRight tree.now self.old.values }
        ensures value { OnOk result (self.new.values
            ≡ slice_set self.old.values number (Some (cell_rule tree.now user.now (assignment_of tree.now self.old.values) (cell_at tree.now number)))) }
        ensures counted { OnOk result (self.new.evals ≡ counted_with (cell_at tree.now number) self.old.evals) }
        ensures stays { OnErr result (self.new ≡ self.old) }
    {
        let known = Known::of_cells(tree, &self.values);
        let cell = tree.cell(number);
        let value = cell_value(alloc, &known, user, cell)?;
        self.values.put(number, value)?;
        if matches!(cell, Cell::Node(_)) {
            self.meter.raise();
        }
        Ok(())
    }

    /// Evaluates a node and all that it is computed from, itself and through others, as far as they are not kept, each
    /// after all that it uses, and keeps the values. A node that is kept takes nothing: no evaluation and no memory. That
    /// the tree has one solution, and no other, holds whatever the call returns.
    ///
    /// The walk has a path from the node down to the cell that it is at: each step reads the cell of the next.
    ///
    /// The error comes where memory is refused; what was evaluated before is kept and counted then.
    pub fn fill(
        &mut self,
        alloc: Global,
        tree: &Tree,
        user: &User,
        node: Node,
    ) -> Result<(), AllocError>
        requires inside { IsNodeOf tree.now node }
        requires kept { AreKept tree.now user.now self.old.values }
        ensures kept { AreKept tree.now user.now self.new.values }
        ensures fills { Fills tree.now (node ∷ []) self.old self.new }
        ensures done { OnOk result (IsKept tree.now self.new.values node) }
        ensures known { IsKept tree.now self.old.values node → IsOk result }
        ensures solved { IsOnlySolution tree.now user.now (solution tree.now user.now) }
    {
        if self.is_kept(tree, node) {
            return Ok(());
        }
        let table = tree.use_table();
        let mut path = Vec::new(alloc);
        path.push(Step {
            number: tree.number(node),
            passed: 0,
        })?;
        while let Some(mut step) = path.pop() {
            let numbers = table.row(step.number);
            step.passed = first_missing(self.values.summaries(), numbers, step.passed);
            match numbers.get(step.passed) {
                Some(number) => {
                    path.push(step)?;
                    path.push(Step {
                        number: *number as usize,
                        passed: 0,
                    })?;
                }
                None => self.evaluate(alloc, tree, user, step.number)?,
            }
        }
        Ok(())
    }

    /// Evaluates as many nodes as a count, from one number on, and all that they are computed from, as far as they are not
    /// kept. That the tree has one solution, and no other, holds whatever the call returns.
    ///
    /// The error comes where memory is refused; what was evaluated before is kept and counted then.
    pub fn fill_numbers(
        &mut self,
        alloc: Global,
        tree: &Tree,
        user: &User,
        first: usize,
        count: usize,
    ) -> Result<(), AllocError>
        requires inside { first + count ≤ node_count tree.now }
        requires kept { AreKept tree.now user.now self.old.values }
        ensures kept { AreKept tree.now user.now self.new.values }
        ensures fills { Fills tree.now (map (node_at tree.now) (range_with_len first count)) self.old self.new }
        ensures done { OnOk result ((n : Node) → Contains (map (node_at tree.now) (range_with_len first count)) n → IsKept tree.now self.new.values n) }
        ensures solved { IsOnlySolution tree.now user.now (solution tree.now user.now) }
    {
        let end = tree.node_count().min(first + count);
        for number in first..end {
            self.fill(alloc, tree, user, tree.node(number))?;
        }
        Ok(())
    }

    /// Evaluates the cell of a number, if it is not kept. All that it reads is kept.
    ///
    /// The error comes where memory is refused; nothing is kept or counted then.
    fn fill_next(
        &mut self,
        alloc: Global,
        tree: &Tree,
        user: &User,
        number: usize,
    ) -> Result<(), AllocError>
        requires accepted { IsAccepted tree.now }
        requires laws { CellLaws tree.now }
        requires inside { number < cell_count tree.now }
        requires kept { AreKept tree.now user.now self.old.values }
        requires ready { (e : Cell) → Contains (read_cells tree.now (cell_at tree.now number)) e → IsHeld tree.now self.old.values e }
        ensures kept { AreKept tree.now user.now self.new.values }
        ensures fills { Fills tree.now (all_nodes tree.now) self.old self.new }
        ensures stay { (k : ℕ) → HasValue self.old.values k → HasValue self.new.values k }
        ensures done { OnOk result (IsHeld tree.now self.new.values (cell_at tree.now number)) }
    {
        if self.values.has(number) {
            return Ok(());
        }
        self.evaluate(alloc, tree, user, number)?;
        Ok(())
    }

    /// Evaluates all nodes, as far as they are not kept, in the tree's order: each cell after all that it reads. So a pass
    /// over all nodes goes over no list of what a node uses, however long these lists are together. That the tree has one
    /// solution, and no other, holds whatever the call returns.
    ///
    /// The error comes where memory is refused; what was evaluated before is kept and counted then.
    pub fn fill_all(&mut self, alloc: Global, tree: &Tree, user: &User) -> Result<(), AllocError>
        requires kept { AreKept tree.now user.now self.old.values }
        ensures kept { AreKept tree.now user.now self.new.values }
        ensures fills { Fills tree.now (all_nodes tree.now) self.old self.new }
        ensures done { OnOk result ((n : Node) → IsNodeOf tree.now n → IsKept tree.now self.new.values n) }
        ensures solved { IsOnlySolution tree.now user.now (solution tree.now user.now) }
    {
        for number in tree.cell_order() {
            self.fill_next(alloc, tree, user, *number as usize)?;
        }
        Ok(())
    }
}
