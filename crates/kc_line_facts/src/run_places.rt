//! Where the lines of each inclusion of a file begin and end, and which is the first of a file.

ghost use Rattle.std.specs.Prelude.{◌≡◌, ◌≤◌, ◌+◌, ℕ, IfOk, length, map, slice_index_or};
ghost use Rattle.std.specs.List.{range_with_len};
ghost use Rattle.kc_line_facts.specs.SourcedFiles.{start_of};
ghost use Rattle.kc_line_facts.specs.ReadingOrder.{lent_run, noted_rest, rest_of};

use crate::read_again::is_end;
use crate::sourced_twice::{end_of_path, next_start};
use kc_text::Line;
use std::alloc::{AllocError, Global};

/// Where inclusions of these numbers begin.
pub(crate) fn starts_of(
    alloc: Global,
    lines: &[Line<'_>],
    count: usize,
) -> Result<Vec<usize>, AllocError>
    ensures few { IfOk result (λ starts. (r : ℕ) → slice_index_or starts.items r 0 ≤ length lines.now + 1) }
    ensures starts { IfOk result (λ starts. starts.items ≡ map (start_of lines.now) (range_with_len 0 count)) }
{
    let mut starts = Vec::new(alloc);
    let mut from = 0;
    for run in 0..count {
        let start = next_start(lines, from, run);
        starts.push(start)?;
        from = start;
    }
    Ok(starts)
}

/// Notes which line is after the end of an inclusion, if a line before it is that end.
fn note_rest(rests: &mut Vec<usize>, run: usize, is_end: bool, rest: usize)
    ensures { rests.new.items ≡ noted_rest rests.old.items run is_end rest }
{
    if is_end && run < rests.len() {
        rests[run] = rest;
    }
}

/// The line after the end of each of this number of inclusions.
pub(crate) fn rests_of(
    alloc: Global,
    lines: &[Line<'_>],
    count: usize,
) -> Result<Vec<usize>, AllocError>
    ensures few { IfOk result (λ rests. (r : ℕ) → slice_index_or rests.items r 0 ≤ length lines.now + 1) }
    ensures rests { IfOk result (λ rests. rests.items ≡ map (rest_of lines.now) (range_with_len 0 count)) }
{
    let mut rests = vec![in alloc; lines.len() + 1; count]?;
    let mut left = lines.len();
    while left > 0 {
        let rest = left;
        left -= 1;
        let line = &lines[left];
        note_rest(&mut rests, line.run(), is_end(line), rest);
    }
    Ok(rests)
}

/// The first inclusion of the file of a path, by the ends of files.
pub(crate) fn first_run_of(ends: &[&Line<'_>], path: &str) -> Option<usize>
    ensures { result ≡ lent_run ends.now path.now }
{
    Some(end_of_path(ends, path)?.run())
}
