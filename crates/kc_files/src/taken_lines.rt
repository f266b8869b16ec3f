//! Which lines take the place of others, and which give symbols the values that these have.

ghost use Rattle.std.specs.Prelude.{◌≡◌, ◌<◌, ℕ, None, IfOk, length, slice_index_or};
ghost use Rattle.std.specs.Option.{option_copied};
ghost use Rattle.kc_files.specs.LineFacts.{assign_at, giver_of, got_in, have_common, is_same_symbol, noted, taken_by, taker_in};

use crate::assign::Assign;
use crate::fragments::FragmentLine;
use crate::numbered_lines::LineSays;
use crate::outcomes::Outcome;
use std::alloc::{AllocError, Global};

/// What a line has in common with the line that takes its place.
#[derive(Clone, Copy, Debug, PartialEq, Eq)]
pub(crate) enum Common {
    /// Both name one symbol.
    Symbol,
    /// Both choose a member of one choice.
    Choice,
}

/// What the line of an index gives, if it can be used.
pub fn assign_at(lines: &[FragmentLine], index: usize) -> Option<&Assign>
    ensures { option_copied result ≡ assign_at lines.now index }
{
    match &lines.get(index)?.line.says {
        LineSays::Usable(assign) => Some(assign),
        LineSays::Warned(_) => None,
    }
}

/// Whether the lines of two indices can be used, and name one symbol.
fn is_same_symbol(lines: &[FragmentLine], index: usize, other: usize) -> bool
    ensures { result ≡ is_same_symbol lines.now index other }
{
    match (assign_at(lines, index), assign_at(lines, other)) {
        (Some(assign), Some(after)) => assign.symbol.0 == after.symbol.0,
        (Some(_), None) => false,
        (None, _) => false,
    }
}

/// Whether two lines have this in common, by their indices: the second takes the place of the first.
fn have_common(lines: &[FragmentLine], common: Common, index: usize, other: usize) -> bool
    ensures { result ≡ have_common lines.now common index other }
{
    match common {
        Common::Symbol => is_same_symbol(lines, index, other),
        Common::Choice => !is_same_symbol(lines, index, other),
    }
}

/// The line that takes the place of that of an index, by what becomes of that, if they have this in common.
fn taker_in(lines: &[FragmentLine], common: Common, index: usize, outcome: Outcome) -> Option<usize>
    ensures { result ≡ taker_in lines.now common index outcome }
{
    match outcome {
        Outcome::Replaced(by) if have_common(lines, common, index, by) => Some(by),
        Outcome::Replaced(_) | Outcome::Got | Outcome::Other | Outcome::Unusable => None,
    }
}

/// The symbol, by number, that has the value which the line of an index gives it, by what becomes of that.
fn got_in(lines: &[FragmentLine], index: usize, outcome: Outcome) -> Option<usize>
    ensures { result ≡ got_in lines.now index outcome }
{
    match (outcome, assign_at(lines, index)) {
        (Outcome::Got, Some(assign)) => Some(assign.symbol.0 as usize),
        (Outcome::Got, None) => None,
        (Outcome::Other | Outcome::Unusable | Outcome::Replaced(_), _) => None,
    }
}

/// Notes the line of an index as the last one of a number, if it has one.
fn note(last: &mut Vec<Option<usize>>, number: Option<usize>, index: usize)
    ensures { last.new.items ≡ noted last.old.items number index }
{
    if let Some(number) = number {
        if number < last.len() {
            last[number] = Some(index);
        }
    }
}

/// The last line of a number, among lines that are noted.
pub(crate) fn noted_at(last: &[Option<usize>], number: usize) -> Option<usize>
    ensures { result ≡ slice_index_or last.now number None }
{
    match last.get(number) {
        Some(index) => *index,
        None => None,
    }
}

/// By the index of a line, the last line whose place it takes, and with which it has this in common.
pub(crate) fn taken_lines(
    alloc: Global,
    lines: &[FragmentLine],
    outcomes: &[Outcome],
    common: Common,
) -> Result<Vec<Option<usize>>, AllocError>
    ensures { IfOk result (λ r. (k : ℕ) → k < length outcomes.now
        → slice_index_or r.items k None ≡ taken_by lines.now outcomes.now common k) }
{
    let mut last = vec![in alloc; None; outcomes.len()]?;
    for (index, outcome) in outcomes.iter().enumerate() {
        note(&mut last, taker_in(lines, common, index, *outcome), index);
    }
    Ok(last)
}

/// For each of this number of symbols, the last line that gives it the value that it has.
///
/// # Errors
///
/// `AllocError` where memory is refused.
pub fn giving_lines(
    alloc: Global,
    lines: &[FragmentLine],
    outcomes: &[Outcome],
    symbols: usize,
) -> Result<Vec<Option<usize>>, AllocError>
    ensures { IfOk result (λ r. (k : ℕ) → k < symbols → slice_index_or r.items k None ≡ giver_of lines.now outcomes.now k) }
{
    let mut last = vec![in alloc; None; symbols]?;
    for (index, outcome) in outcomes.iter().enumerate() {
        note(&mut last, got_in(lines, index, *outcome), index);
    }
    Ok(last)
}
