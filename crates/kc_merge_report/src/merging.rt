//! What became of the lines of fragments that were merged into a `.config`.

ghost use Rattle.std.specs.Prelude.{◌≡◌, ◌+◌, IfOk, count_by, length};
ghost use Rattle.kc_value.specs.Assignment.{assignment_of};
ghost use Rattle.kc_value.specs.Solution.{AreSolved};
ghost use Rattle.kc_files.specs.Outcomes.{fragment_lines, outcomes, is_got, is_other, is_unusable, is_replaced};
ghost use Rattle.kc_files.specs.LineFacts.{reported_of};

use crate::earlier_effects::EffectsBefore;
use crate::merge_lines::{MergeText, push_counts, push_lost};
use kc_facts::View;
use kc_files::{
    FoundInLine, Input, MergeCounts, Outcome, Prefix, ReadFault, giving_lines, outcomes_of,
    read_fragments, reported_of,
};
use std::alloc::Global;

/// What became of the lines of fragments.
#[derive(Debug, Drop)]
pub struct MergeReport {
    /// A line for each line of a fragment that replaces one of a fragment, can't be used, or has no effect; one for each
    /// line of the `.config` that was lost; and last the counts.
    pub text: String,
    pub counts: MergeCounts,
    /// What became of each line of the fragments that says something, in their order.
    pub outcomes: Vec<Outcome>,
    /// What the lines of the text say of the lines of the fragments, in their order.
    pub reported: Vec<FoundInLine>,
}

/// What became of the lines of fragments, over the values of the tree after all of them were merged into a `.config`
/// (this project's own): of each line that says something, whether a later line of a fragment replaced it, it can't be
/// used, its symbol has its value, or another one; and which lines of the `.config` have lost their effect, of symbols
/// that no fragment names. What is said of each line that can't be used is passed in, in their order; each such line is
/// reported, also where there are fewer words than lines.
///
/// # Errors
///
/// - `ReadFault::Limit` where a fragment has more than 16,777,216 bytes.
/// - `ReadFault::NoMemory` where memory was refused.
pub fn merge_report(
    alloc: Global,
    view: &View<'_>,
    prefix: &Prefix,
    before: &EffectsBefore,
    fragments: &[Input<'_>],
    unusable: &[String],
) -> Result<MergeReport, ReadFault>
    ensures outcomes { IfOk result (λ r. r.outcomes.items
        ≡ outcomes view.now.tree (assignment_of view.now.tree view.now.values) (fragment_lines view.now.tree prefix.now fragments.now)) }
    ensures reported { IfOk result (λ r. r.reported.items
        ≡ reported_of (fragment_lines view.now.tree prefix.now fragments.now) r.outcomes.items) }
    ensures asked { IfOk result (λ r. r.counts.asked ≡ length r.outcomes.items) }
    ensures got { IfOk result (λ r. r.counts.got ≡ count_by is_got r.outcomes.items) }
    ensures other { IfOk result (λ r. r.counts.other ≡ count_by is_other r.outcomes.items) }
    ensures unusable { IfOk result (λ r. r.counts.unusable ≡ count_by is_unusable r.outcomes.items) }
    ensures replaced { IfOk result (λ r. r.counts.replaced ≡ count_by is_replaced r.outcomes.items) }
    ensures adds_up { IfOk result (λ r. r.counts.asked ≡ r.counts.got + r.counts.other + r.counts.unusable + r.counts.replaced) }
    ensures solved { AreSolved view.now.tree view.now.user view.now.values }
{
    let tree = view.tree();
    let values = view.values();
    let read = read_fragments(alloc, tree, prefix, fragments)?;
    let outcomes = outcomes_of(alloc, tree, values, read.lines.as_slice())?;
    let reported = reported_of(alloc, read.lines.as_slice(), outcomes.as_slice())?;
    let symbols = tree.symbols().len();
    let giving = giving_lines(alloc, read.lines.as_slice(), outcomes.as_slice(), symbols)?;
    let lost = before.lost(alloc, tree, values, read.lines.as_slice())?;
    let counts = MergeCounts::of(outcomes.as_slice(), lost.len());
    let lines = MergeText {
        view,
        fragments,
        read: &read,
        unusable,
        reported: reported.as_slice(),
        giving: giving.as_slice(),
    };
    let mut text = lines.written(alloc)?;
    push_lost(alloc, &mut text, view, before, lost.as_slice())?;
    push_counts(&mut text, &counts, before.path.as_str())?;
    Ok(MergeReport {
        text,
        counts,
        outcomes,
        reported,
    })
}
