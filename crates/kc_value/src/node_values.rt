//! The values of nodes, by number.

ghost use Rattle.std.specs.Prelude.{◌≡◌, ◌<◌, ℕ, [], IfOk, IfSome, None, OnErr, OnOk, Some, false, is_some, length, map, nat_eq, replicate, slice_index_or, slice_set, unwrap_or};
ghost use Rattle.std.specs.Option.{option_copied};
ghost use Rattle.indexmap.specs.IndexMap.{get};
ghost use Rattle.kc_value.specs.declared.summary.Summary.TheVariants.{Absent};
ghost use Rattle.kc_statement.specs.declared.tri.Tri.TheVariants.{No};
ghost use Rattle.kc_value.specs.declared.value.Value.TheVariants.{Tri as Level};
ghost use Rattle.kc_value.specs.Assignment.{as_tri};
ghost use Rattle.kc_value.specs.NodeValues.{seen};
ghost use Rattle.kc_value.specs.Summaries.{summary_of};

use crate::summary::{SaidValues, Summary};
use crate::value::Value;
use indexmap::IndexMap;
use kc_tree::{Tri, UserVal};
use std::alloc::{AllocError, Global};
use std::marker::Model;

/// The values of nodes by number, with nothing for a node that has none. Contracts see the list of them.
///
/// A summary of two bytes says of each node whether it has a value, and which one, but for texts and selections, which
/// few nodes have: those are stored beside. Conditions and walks ask for no more than the summary, and far more often
/// than any asks for a text. What was stored of a node that has another value by now, or none, is left there until the
/// next is stored, and is not seen.
#[derive(Drop)]
pub struct NodeValues {
    summaries: Vec<Summary>,
    stored: IndexMap<usize, Value>,
    said: SaidValues,
}

impl Model for NodeValues {
    ghost use Rattle.std.specs.Prelude.{◌≡◌, map, nat_eq};
    ghost use Rattle.indexmap.specs.IndexMap.{get};
    ghost use Rattle.kc_value.specs.NodeValues.{Slots, held};
    ghost use Rattle.kc_value.specs.Summaries.{summary_of};

    ghost Value = { Slots };

    ghost view = { λ s. held s.summaries.items (get nat_eq s.stored) };

    ghost invariant = { λ s. s.summaries.items ≡ map summary_of (held s.summaries.items (get nat_eq s.stored)) };
}

/// What is said of as many nodes without a value. The error comes where memory is refused.
fn nothing_said(alloc: Global, count: usize) -> Result<Vec<Summary>, AllocError>
    ensures { IfOk result (λ s. s.items ≡ replicate count Absent) }
{
    vec![in alloc; Summary::Absent; count]
}

/// What is said of the node of a number; a node that is not there has no value.
fn summary_at(summaries: &[Summary], number: usize) -> Summary
    ensures { result ≡ slice_index_or summaries.now number Absent }
{
    match summaries.get(number) {
        Some(summary) => *summary,
        None => Summary::Absent,
    }
}

/// Stores a value under a number, unless a summary says it whole, and returns what is said of it. The error comes where
/// memory is refused.
fn summary_stored(
    stored: &mut IndexMap<usize, Value>,
    number: usize,
    value: Value,
) -> Result<Summary, AllocError>
    ensures said { IfOk result (λ s. s ≡ summary_of (Some value)) }
    ensures here { IfOk result (λ s. seen s (get nat_eq stored.new number) ≡ Some value) }
    ensures others { (k : ℕ) → nat_eq number k ≡ false → get nat_eq stored.new k ≡ get nat_eq stored.old k }
    ensures stays { OnErr result ((k : ℕ) → get nat_eq stored.new k ≡ get nat_eq stored.old k) }
{
    match value {
        Value::Tri(tri) => Ok(Summary::Level(tri)),
        Value::Shown(UserVal::Tri(tri), false) => Ok(Summary::Unwritten(tri)),
        Value::Shown(UserVal::Tri(tri), true) => Ok(Summary::Written(tri)),
        value => {
            stored.insert(number, value)?;
            Ok(Summary::Stored)
        }
    }
}

impl NodeValues {
    /// As many nodes without a value. The error comes where memory is refused.
    #[tactic(auto, using(crate::proofs::NodeValueLemmas::nothing_held, crate::proofs::NodeValueLemmas::nothing_said))]
    pub fn empty(alloc: Global, count: usize) -> Result<NodeValues, AllocError>
        ensures { IfOk result (λ s. s ≡ replicate count None) }
    {
        Ok(NodeValues {
            summaries: nothing_said(alloc, count)?,
            stored: IndexMap::new(alloc),
            said: SaidValues::new(),
        })
    }

    /// By number, what is said of the nodes.
    pub(crate) fn summaries(&self) -> &[Summary]
        ensures { result.now ≡ map summary_of self.now }
    {
        self.summaries.as_slice()
    }

    /// Whether the node of a number has a value.
    pub(crate) fn has(&self, number: usize) -> bool
        ensures { result ≡ is_some (slice_index_or self.now number None) }
    {
        summary_at(self.summaries.as_slice(), number).is_present()
    }

    /// The tristate value of the node of a number, n where it has none.
    pub fn tri(&self, number: usize) -> Tri
        ensures { result ≡ as_tri (unwrap_or (slice_index_or self.now number None) (Level No)) }
    {
        match summary_at(self.summaries.as_slice(), number) {
            Summary::Level(tri) | Summary::Unwritten(tri) | Summary::Written(tri) => tri,
            Summary::Absent | Summary::Stored => Tri::No,
        }
    }

    /// The value of the condition of a number, if it has one.
    pub(crate) fn level(&self, number: usize) -> Option<Tri>
        ensures { IfSome result (λ v. slice_index_or self.now number None ≡ Some (Level v)) }
    {
        match summary_at(self.summaries.as_slice(), number) {
            Summary::Level(tri) => Some(tri),
            _ => None,
        }
    }

    /// The value of the node of a number, if it has one.
    #[tactic(auto, using(crate::proofs::NodeValueLemmas::seen_at))]
    pub fn get(&self, number: usize) -> Option<&Value>
        ensures { option_copied result ≡ slice_index_or self.now number None }
    {
        match summary_at(self.summaries.as_slice(), number) {
            Summary::Absent => None,
            Summary::Level(tri) => Some(&self.said.of(tri).level),
            Summary::Unwritten(tri) => Some(&self.said.of(tri).unwritten),
            Summary::Written(tri) => Some(&self.said.of(tri).written),
            Summary::Stored => self.stored.get(&number),
        }
    }

    /// Gives the node of a number a value. The error comes where memory is refused, and nothing changes then.
    #[tactic(auto, using(crate::proofs::NodeValueLemmas::held_set, crate::proofs::NodeValueLemmas::said_set))]
    pub(crate) fn put(&mut self, number: usize, value: Value) -> Result<(), AllocError>
        requires { number < length self.old }
        ensures value { OnOk result (self.new ≡ slice_set self.old number (Some value)) }
        ensures stays { OnErr result (self.new ≡ self.old) }
    {
        self.summaries[number] = summary_stored(&mut self.stored, number, value)?;
        Ok(())
    }

    /// Drops the value of the node of a number.
    #[tactic(auto, using(crate::proofs::NodeValueLemmas::held_set, crate::proofs::NodeValueLemmas::said_set))]
    pub(crate) fn remove(&mut self, number: usize)
        requires { number < length self.old }
        ensures { self.new ≡ slice_set self.old number None }
    {
        self.summaries[number] = Summary::Absent;
    }
}
