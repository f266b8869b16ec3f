//! In which order the reader of a Kconfig comes to the variables and the `source` lines of its files.

ghost use Rattle.std.specs.Prelude.{◌≡◌, ◌≤◌, ◌<◌, ◌+◌, ◌++◌, ◌^◌, ℕ, IfOk, OnOk, drop, length, nat_le, nat_lt, slice_index_or};
ghost use Rattle.std.specs.List.{prefix_len};
ghost use Rattle.kc_line_facts.specs.ReadingOrder.{AreReached, gap_of, marks_from, marks_of, run_after, run_marks, uses_between, uses_up_to};

use crate::named_variables::{FileVariables, NamedVariable};
use crate::read_again::ends_of;
use crate::run_places::{first_run_of, rests_of, starts_of};
use kc_text::Line;
use std::alloc::{AllocError, Global};

/// A file of a Kconfig with the variables in it.
#[derive(Debug, Drop)]
pub struct VariableFile<'i> {
    pub path: &'i str,
    pub found: FileVariables,
}

/// What the reader comes to in a file.
#[derive(Clone, Copy, Debug, PartialEq, Eq)]
pub enum Mark {
    /// The use of a variable, by its number among those in the file.
    Use(usize),
    /// The `source` line of a number, which begins the inclusion of a number.
    Source { line: usize, run: usize },
}

/// What the reader comes to in a file, by the number of that, before the logical line of an index.
#[derive(Clone, Copy, Debug, PartialEq, Eq)]
pub struct Reached {
    pub before: usize,
    pub file: usize,
    pub mark: Mark,
}

/// The place of a number in a list, or 0.
fn place_at(places: &[usize], number: usize) -> usize
    ensures { result ≡ slice_index_or places.now number 0 }
{
    match places.get(number) {
        Some(place) => *place,
        None => 0,
    }
}

/// With how many inclusions lists begin that begin before a line.
fn count_before(starts: &[usize], line: usize) -> usize
    ensures count { result ≡ prefix_len (λ s. nat_lt s line) starts.now }
    ensures within { result ≤ length starts.now }
{
    starts.iter().take_while(|start| **start < line).count()
}

/// The first inclusion, from that of a number on, that doesn't begin before a line.
fn run_after(starts: &[usize], run: usize, line: usize) -> usize
    requires { run ≤ length starts.now }
    ensures after { result ≡ run_after starts.now run line }
    ensures within { result ≤ length starts.now }
{
    run + count_before(&starts[run..], line)
}

/// The lines from one on, before another.
fn gap_of<'l, 'a>(lines: &'l [Line<'a>], from: usize, to: usize) -> &'l [Line<'a>]
    ensures gap { result.now ≡ gap_of lines.now from to }
    ensures few { length lines.now + 1 ≤ 2 ^ 63 }
{
    let end = to.min(lines.len());
    if from < end {
        return &lines[from..end];
    }
    &[]
}

/// With how many lines of smaller numbers lines begin.
fn numbered_below(lines: &[Line<'_>], number: usize) -> usize
    ensures count { result ≡ prefix_len (λ line. nat_lt line.number number) lines.now }
    ensures within { result ≤ length lines.now }
{
    lines
        .iter()
        .take_while(|line| line.number() < number)
        .count()
}

/// The same, where those before the line of an index have smaller numbers.
fn numbered_below_from(lines: &[Line<'_>], from: usize, number: usize) -> usize
    requires { from ≤ length lines.now }
    ensures count { result ≡ from + prefix_len (λ line. nat_lt line.number number) (drop from lines.now) }
    ensures within { result ≤ length lines.now }
{
    from + numbered_below(&lines[from..], number)
}

/// With how many lines of smaller numbers than one lines begin, of which so many have smaller ones than another.
fn passed_below(lines: &[Line<'_>], passed: usize, last: usize, number: usize) -> usize
    requires passed { passed ≡ prefix_len (λ line. nat_lt line.number last) lines.now }
    requires within { passed ≤ length lines.now }
    ensures count { result ≡ prefix_len (λ line. nat_lt line.number number) lines.now }
    ensures within { result ≤ length lines.now }
{
    if number < last {
        return numbered_below(lines, number);
    }
    numbered_below_from(lines, passed, number)
}

/// With how many uses lists begin in lines up to one.
fn count_up_to(uses: &[NamedVariable], line: usize) -> usize
    ensures count { result ≡ prefix_len (λ u. nat_le u.line line) uses.now }
    ensures within { result ≤ length uses.now }
{
    uses.iter()
        .take_while(|variable| variable.line <= line)
        .count()
}

/// The first use from that of a number on that is in a line after one.
fn uses_up_to(uses: &[NamedVariable], first: usize, line: usize) -> usize
    requires { first ≤ length uses.now }
    ensures count { result ≡ uses_up_to uses.now first line }
    ensures after { first ≤ result }
    ensures within { result ≤ length uses.now }
{
    first + count_up_to(&uses[first..], line)
}

/// Lines of the file of a number, from one on, up to one of its `source` lines or to its end.
#[derive(Clone, Copy)]
struct Gap<'l, 'a> {
    lines: &'l [Line<'a>],
    from: usize,
    file: usize,
}

/// Adds the uses of a file from that of a number on, before another, which are in these lines.
fn push_uses(
    reached: &mut Vec<Reached>,
    gap: Gap<'_, '_>,
    uses: &[NamedVariable],
    first: usize,
    end: usize,
) -> Result<(), AllocError>
    requires few { gap.from ≤ 2 ^ 63 }
    requires forward { first ≤ end }
    requires within { end ≤ length uses.now }
    ensures { OnOk result (reached.new.items ≡ reached.old.items ++ uses_between gap.entry.lines.now gap.entry.from gap.entry.file uses.now first end) }
{
    let mut passed = 0;
    let mut last = 0;
    for place in first..end {
        let line = uses[place].line;
        let count = passed_below(gap.lines, passed, last, line);
        reached.push(Reached {
            before: gap.from + count,
            file: gap.file,
            mark: Mark::Use(place),
        })?;
        passed = count;
        last = line;
    }
    Ok(())
}

/// Where each inclusion of a file begins among lines, and where the lines after it begin.
#[derive(Clone, Copy)]
struct Runs<'l, 'a> {
    lines: &'l [Line<'a>],
    starts: &'l [usize],
    rests: &'l [usize],
}

/// Adds what is in the file of a number, whose first inclusion has a number.
fn push_file(
    reached: &mut Vec<Reached>,
    runs: Runs<'_, '_>,
    file: usize,
    run: usize,
    uses: &[NamedVariable],
    sources: &[usize],
) -> Result<(), AllocError>
    requires inside { run < length runs.starts.now }
    requires starts { (r : ℕ) → slice_index_or runs.starts.now r 0 ≤ length runs.lines.now + 1 }
    requires rests { (r : ℕ) → slice_index_or runs.rests.now r 0 ≤ length runs.lines.now + 1 }
    ensures { OnOk result (reached.new.items ≡ reached.old.items ++ run_marks runs.entry.lines.now runs.entry.starts.now runs.entry.rests.now file uses.now sources.now run) }
{
    let mut first = 0;
    let mut from = place_at(runs.starts, run);
    let mut inner = run + 1;
    for place in 0..sources.len() {
        let line = sources[place];
        let before = place_at(runs.starts, inner);
        let end = uses_up_to(uses, first, line);
        let lines = gap_of(runs.lines, from, before);
        push_uses(reached, Gap { lines, from, file }, uses, first, end)?;
        let mark = Mark::Source { line, run: inner };
        reached.push(Reached { before, file, mark })?;
        first = end;
        from = place_at(runs.rests, inner);
        inner = run_after(runs.starts, inner, from);
    }
    let lines = gap_of(runs.lines, from, place_at(runs.rests, run));
    push_uses(reached, Gap { lines, from, file }, uses, first, uses.len())?;
    Ok(())
}

/// Adds what is in the file of a number, if it is included.
fn push_if_read(
    reached: &mut Vec<Reached>,
    runs: Runs<'_, '_>,
    file: usize,
    found: &FileVariables,
    run: Option<usize>,
) -> Result<(), AllocError>
    requires starts { (r : ℕ) → slice_index_or runs.starts.now r 0 ≤ length runs.lines.now + 1 }
    requires rests { (r : ℕ) → slice_index_or runs.rests.now r 0 ≤ length runs.lines.now + 1 }
    ensures { OnOk result (reached.new.items ≡ reached.old.items ++ marks_from runs.entry.lines.now runs.entry.starts.now runs.entry.rests.now file found.now run) }
{
    let Some(run) = run else {
        return Ok(());
    };
    let uses = found.uses.as_slice();
    let sources = found.sources.as_slice();
    if run < runs.starts.len() {
        push_file(reached, runs, file, run, uses, sources)?;
    }
    Ok(())
}

/// What is in files, in their order.
fn marks_of(
    alloc: Global,
    lines: &[Line<'_>],
    files: &[VariableFile<'_>],
) -> Result<Vec<Reached>, AllocError>
    ensures { IfOk result (λ marks. marks.items ≡ marks_of lines.now files.now) }
{
    let ends = ends_of(alloc, lines)?;
    let starts = starts_of(alloc, lines, ends.len())?;
    let rests = rests_of(alloc, lines, ends.len())?;
    let runs = Runs {
        lines,
        starts: starts.as_slice(),
        rests: rests.as_slice(),
    };
    let mut marks = Vec::new(alloc);
    for number in 0..files.len() {
        let file = &files[number];
        let run = first_run_of(ends.as_slice(), file.path);
        push_if_read(&mut marks, runs, number, &file.found, run)?;
    }
    Ok(marks)
}

/// What the reader of logical lines comes to in their files, in its order (this project's own): the uses of variables and the
/// `source` lines, each before the logical line that is the next one to be read. A file that is included again has
/// neither the second time.
///
/// # Errors
///
/// `AllocError` where memory is refused.
pub fn reading_order(
    alloc: Global,
    lines: &[Line<'_>],
    files: &[VariableFile<'_>],
) -> Result<Vec<Reached>, AllocError>
    ensures { IfOk result (λ reached. AreReached lines.now files.now reached.items) }
{
    let mut reached = marks_of(alloc, lines, files)?;
    reached.sort_by_key(|mark| mark.before)?;
    Ok(reached)
}
