//! What became of the lines of fragments that were merged, and the words on lines that give wanted values.
#![tactic(auto)]

mod earlier_effects;
mod how_lines;
mod merge_lines;
mod merging;
mod obstacles;

pub use earlier_effects::{EffectsBefore, effects_before};
pub use how_lines::{
    HowCosts, HowCounts, LostLine, Need, how_costs, push_how_counts, push_needed_line,
    push_not_found, push_unusable_lines,
};
pub use merging::{MergeReport, merge_report};
pub use obstacles::push_impossible;
