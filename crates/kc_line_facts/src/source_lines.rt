//! The `source` lines to which the reader of a Kconfig comes, and those that are superfluous, by the numbers of the times
//! that files are included.

ghost use Rattle.std.specs.Prelude.{◌≡◌, ℕ, Some, None, IfOk, OnOk, if◌then◌else◌, ◌==◌};
ghost use Rattle.std.specs.BTreeMap.{get};
ghost use Rattle.std.specs.List.{find};
ghost use Rattle.std.specs.Option.{option_or};
ghost use Rattle.std.specs.Ordering.{nat_cmp};
ghost use Rattle.kc_line_facts.specs.EarlierFindings.{if_puts, mark_run, puts, repeats};

use crate::read_order::{Mark, Reached};
use crate::sourced_twice::RepeatedFile;
use std::alloc::{AllocError, Global};
use std::collections::BTreeMap;

/// The number of the inclusion that a mark begins, if it does.
fn run_of(mark: Mark) -> Option<usize>
    ensures { result ≡ mark_run mark }
{
    match mark {
        Mark::Use(_) => None,
        Mark::Source { run, .. } => Some(run),
    }
}

/// Notes an item of a number, if it is the first one of that.
fn note_first<T: Copy>(
    noted: &mut BTreeMap<usize, T>,
    run: usize,
    item: T,
) -> Result<(), AllocError>
    ensures { OnOk result ((r : ℕ) → get nat_cmp noted.new r ≡ option_or (get nat_cmp noted.old r) (if run == r then Some item else None)) }
{
    if noted.get(&run).is_none() {
        noted.insert(run, item)?;
    }
    Ok(())
}

/// Notes a `source` line, if it is the first one of its number.
fn note_source(sources: &mut BTreeMap<usize, Reached>, mark: Reached) -> Result<(), AllocError>
    ensures { OnOk result ((r : ℕ) → get nat_cmp sources.new r ≡ option_or (get nat_cmp sources.old r) (if_puts r mark)) }
{
    match run_of(mark.mark) {
        Some(run) => note_first(sources, run, mark),
        None => Ok(()),
    }
}

/// The first `source` line of each number, of those to which the reader comes.
pub(crate) fn sources_by_run(
    alloc: Global,
    reached: &[Reached],
) -> Result<BTreeMap<usize, Reached>, AllocError>
    ensures { IfOk result (λ sources. (r : ℕ) → get nat_cmp sources r ≡ find (puts r) reached.now) }
{
    let mut sources = BTreeMap::new(alloc);
    for mark in reached {
        note_source(&mut sources, *mark)?;
    }
    Ok(sources)
}

/// The first of each number, of the times that others have made superfluous.
pub(crate) fn repeated_by_run(
    alloc: Global,
    repeated: &[RepeatedFile],
) -> Result<BTreeMap<usize, RepeatedFile>, AllocError>
    ensures { IfOk result (λ noted. (r : ℕ) → get nat_cmp noted r ≡ find (repeats r) repeated.now) }
{
    let mut noted = BTreeMap::new(alloc);
    for one in repeated {
        note_first(&mut noted, one.run, *one)?;
    }
    Ok(noted)
}
