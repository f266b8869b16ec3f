//! How many lines of fragments came to what.

ghost use Rattle.std.specs.Prelude.{◌≡◌, ◌+◌, ◌||◌, count_by, length, nat_lt};
ghost use Rattle.kc_files.specs.Outcomes.{is_got, is_other, is_unusable, is_replaced};

use crate::outcomes::Outcome;

/// How many lines of fragments came to what, and how many lines of the `.config` they cost.
#[derive(Clone, Copy, Debug, PartialEq, Eq)]
pub struct MergeCounts {
    /// All lines of the fragments that say something.
    pub asked: usize,
    pub got: usize,
    /// Whose symbol has another value.
    pub other: usize,
    pub unusable: usize,
    /// Lines whose place a later line of a fragment takes.
    pub replaced: usize,
    /// Lines of the `.config` that had an effect before, and have none now.
    pub lost: usize,
}

impl MergeCounts {
    /// Those of lines of fragments.
    #[tactic(auto, using(crate::proofs::CountLaws::counts_add_up))]
    pub fn of(outcomes: &[Outcome], lost: usize) -> MergeCounts
        ensures got { result.got ≡ count_by is_got outcomes.now }
        ensures other { result.other ≡ count_by is_other outcomes.now }
        ensures unusable { result.unusable ≡ count_by is_unusable outcomes.now }
        ensures replaced { result.replaced ≡ count_by is_replaced outcomes.now }
        ensures asked { result.asked ≡ length outcomes.now }
        ensures lost { result.lost ≡ lost }
        ensures adds_up { result.asked ≡ result.got + result.other + result.unusable + result.replaced }
    {
        MergeCounts {
            asked: outcomes.len(),
            got: got_count(outcomes),
            other: other_count(outcomes),
            unusable: unusable_count(outcomes),
            replaced: replaced_count(outcomes),
            lost,
        }
    }

    /// Whether a line of a fragment can't be used, or has no effect.
    pub fn has_unmet(&self) -> bool
        ensures { result ≡ (nat_lt 0 self.now.other || nat_lt 0 self.now.unusable) }
    {
        self.other > 0 || self.unusable > 0
    }
}

fn is_got(outcome: Outcome) -> bool
    ensures { result ≡ is_got outcome }
{
    matches!(outcome, Outcome::Got)
}

fn is_other(outcome: Outcome) -> bool
    ensures { result ≡ is_other outcome }
{
    matches!(outcome, Outcome::Other)
}

fn is_unusable(outcome: Outcome) -> bool
    ensures { result ≡ is_unusable outcome }
{
    matches!(outcome, Outcome::Unusable)
}

fn is_replaced(outcome: Outcome) -> bool
    ensures { result ≡ is_replaced outcome }
{
    matches!(outcome, Outcome::Replaced(_))
}

fn got_count(outcomes: &[Outcome]) -> usize
    ensures { result ≡ count_by is_got outcomes.now }
{
    outcomes.iter().filter(|outcome| is_got(**outcome)).count()
}

fn other_count(outcomes: &[Outcome]) -> usize
    ensures { result ≡ count_by is_other outcomes.now }
{
    outcomes
        .iter()
        .filter(|outcome| is_other(**outcome))
        .count()
}

fn unusable_count(outcomes: &[Outcome]) -> usize
    ensures { result ≡ count_by is_unusable outcomes.now }
{
    outcomes
        .iter()
        .filter(|outcome| is_unusable(**outcome))
        .count()
}

fn replaced_count(outcomes: &[Outcome]) -> usize
    ensures { result ≡ count_by is_replaced outcomes.now }
{
    outcomes
        .iter()
        .filter(|outcome| is_replaced(**outcome))
        .count()
}
