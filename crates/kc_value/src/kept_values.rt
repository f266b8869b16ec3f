//! The values of nodes that are kept from one question to the next, and the count of evaluations. A meter is made here,
//! with kept values, and nowhere else: so what is evaluated over them is counted by theirs.

ghost use Rattle.std.specs.Prelude.{◌≡◌, Some, None, IfOk, length};
ghost use Rattle.kc_tree.specs.Accepted.{IsAccepted};
ghost use Rattle.kc_value.specs.Assignment.{value_at};
ghost use Rattle.kc_value.specs.Counting.{raised};
ghost use Rattle.kc_value.specs.Kept.{KeptValue, nothing_kept, is_kept, AreKept, IsKept};
ghost use Rattle.kc_value.specs.KeptLaws.{KeptLaws};
ghost use Rattle.kc_value.specs.Solution.{solution, IsOnlySolution};
ghost use Rattle.kc_value.specs.UserValues.{UserValues};

use crate::node_values::NodeValues;
use crate::value::Value;
use kc_tree::{Node, Tree};
use std::alloc::{AllocError, Global};
use std::marker::Model;

/// A count of evaluations. Contracts see the number.
#[derive(Debug, Drop)]
pub struct Meter {
    count: u64,
}

impl Model for Meter {
    ghost use Rattle.std.specs.Prelude.{ℕ};

    ghost Value = { ℕ };

    ghost view = { λ m. m.count };
}

impl Meter {
    /// A meter at 0.
    fn new() -> Meter
        ensures { result ≡ 0 }
    {
        Meter { count: 0 }
    }

    /// How many evaluations were counted.
    pub fn count(&self) -> u64
        ensures { result ≡ self.now }
    {
        self.count
    }

    /// One more evaluation; at 2^64 - 1 the count stays.
    pub(crate) fn raise(&mut self)
        ensures { self.new ≡ raised self.old 1 }
    {
        self.count = self.count.saturating_add(1);
    }
}

/// The values that are kept of a tree's nodes, and how many evaluations there were. Contracts see a value or none for
/// each node, by number, and the count.
#[derive(Drop)]
pub struct KeptValues {
    pub(crate) values: NodeValues,
    /// The numbers of the cells whose readers are still to be dropped, which takes no memory: there is room for all cells.
    pub(crate) dropped: Vec<u32>,
    pub(crate) meter: Meter,
}

impl Model for KeptValues {
    ghost use Rattle.std.specs.Prelude.{◌≤◌, length, vec_capacity};
    ghost use Rattle.kc_value.specs.Kept.{KeptValue};

    ghost Value = { KeptValue };

    ghost view = { λ k. record { values = k.values; evals = k.meter } };

    ghost invariant = { λ k. length k.values ≤ vec_capacity k.dropped };
}

impl KeptValues {
    /// Nothing is kept, so that what is kept is right for any user values, and there is room for a value for each cell of
    /// the tree. The laws of what is kept of a tree hold, and so does that the tree has one solution, and no other, whatever
    /// the call returns.
    ///
    /// The error comes where memory is refused for that room.
    #[tactic(auto, using(crate::proofs::KeptLaws::nothing_right))]
    pub fn new(alloc: Global, tree: &Tree) -> Result<KeptValues, AllocError>
        ensures nothing { IfOk result (λ k. k ≡ nothing_kept tree.now) }
        ensures right { (u : UserValues) → AreKept tree.now u (nothing_kept tree.now).values }
        ensures solved { (u : UserValues) → IsOnlySolution tree.now u (solution tree.now u) }
        ensures laws { KeptLaws tree.now }
    {
        let count = tree.use_table().len();
        Ok(KeptValues {
            values: NodeValues::empty(alloc, count)?,
            dropped: Vec::with_capacity(alloc, count)?,
            meter: Meter::new(),
        })
    }

    /// How many evaluations there were; from 2^64 - 1 on the count stays.
    pub fn evals(&self) -> u64
        ensures { result ≡ self.now.evals }
    {
        self.meter.count()
    }

    /// The values by number, with nothing for a node that is not kept.
    pub fn values(&self) -> &NodeValues
        ensures { result.now ≡ self.now.values }
    {
        &self.values
    }

    /// The values by number, with nothing for a node that is not kept, and the meter: with these, who asks can evaluate
    /// nodes one at a time, by [`eval`](crate::eval).
    pub fn into_parts(self) -> (NodeValues, Meter)
        ensures values { result.0 ≡ self.values }
        ensures evals { result.1 ≡ self.evals }
    {
        (self.values, self.meter)
    }

    /// Whether the value of a node is kept.
    pub fn is_kept(&self, tree: &Tree, node: Node) -> bool
        ensures kept { result ≡ is_kept tree.now self.now.values node }
        ensures accepted { IsAccepted tree.now }
    {
        self.values.has(tree.number(node))
    }

    /// The value of a node that is kept.
    pub fn value(&self, tree: &Tree, node: Node) -> &Value
        requires { IsKept tree.now self.now.values node }
        ensures { value_at tree.now self.now.values node ≡ Some result.now }
    {
        match self.values.get(tree.number(node)) {
            Some(value) => value,
            None => unreachable!(),
        }
    }
}
