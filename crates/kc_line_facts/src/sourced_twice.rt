//! Files that are included twice, where the first time is enough.

ghost use Rattle.std.specs.Prelude.{◌≡◌, ◌≤◌, ◌<◌, ◌++◌, ◌+◌, ◌==◌, ◌&&◌, ℕ, None, false, true, IfOk, OnOk, drop, length, nat_lt, option_and_then, option_to_list, position, slice_index_or};
ghost use Rattle.std.specs.List.{list_any, prefix_len};
ghost use Rattle.std.specs.Option.{option_map_or};
ghost use Rattle.std.specs.Str.{bytes_eq};
ghost use Rattle.kc_lines.specs.Culprits.{first_with};
ghost use Rattle.kc_line_facts.specs.SourcedFiles.{has_statement, if_earlier, is_statement, lent_first, lent_first_before, noted_run, repeated_files, repeated_with};

use crate::noted::noted_at;
use crate::open_numbers::{OpenNumbers, pass_lines};
use crate::read_again::ends_of;
use kc_statement::read_keyword;
use kc_text::Line;
use kc_tree::Tree;
use std::alloc::{AllocError, Global};

/// An inclusion of a file, by its number, that another one has made superfluous, which is the first of that file.
#[derive(Clone, Copy, Debug, PartialEq, Eq)]
pub struct RepeatedFile {
    pub run: usize,
    pub first: usize,
}

/// Whether a line is a statement.
fn is_statement(line: &Line<'_>) -> bool
    ensures { result ≡ is_statement line.now }
{
    match read_keyword(line) {
        Some(word) => !word.is_attribute(),
        None => false,
    }
}

/// Notes that an inclusion has a statement, if it has one.
pub(crate) fn note_run(noted: &mut Vec<bool>, run: usize, has_statement: bool)
    ensures { noted.new.items ≡ noted_run noted.old.items run has_statement }
{
    if has_statement && run < noted.len() {
        noted[run] = true;
    }
}

/// For each of this number of inclusions of files whether it has a statement.
fn runs_with_statements(
    alloc: Global,
    lines: &[Line<'_>],
    count: usize,
) -> Result<Vec<bool>, AllocError>
    ensures { IfOk result (λ noted. (r : ℕ) → r < count → slice_index_or noted.items r false ≡ has_statement lines.now r) }
{
    let mut noted = vec![in alloc; false; count]?;
    for place in 0..lines.len() {
        let line = &lines[place];
        note_run(&mut noted, line.run(), is_statement(line));
    }
    Ok(noted)
}

/// The place, among the ends of files, of that of the inclusion of a number.
fn place_of_run(ends: &[&Line<'_>], run: usize) -> Option<usize>
    ensures { result ≡ position (λ e. e.now.run == run) ends.now }
{
    ends.iter().position(|end| end.run() == run)
}

/// The place, among the ends of files, of the first end of the file of a path.
fn place_of_path(ends: &[&Line<'_>], path: &str) -> Option<usize>
    ensures { result ≡ position (λ e. bytes_eq e.now.path path.now) ends.now }
{
    ends.iter().position(|end| end.path() == path)
}

/// The end of the inclusion of a number.
fn end_of_run<'l, 'a>(ends: &[&'l Line<'a>], run: usize) -> Option<&'l Line<'a>>
    ensures { result ≡ first_with (λ e. e.now.run == run) ends.now }
{
    let place = place_of_run(ends, run)?;
    ends.get(place).copied()
}

/// The first end of the file of a path.
pub(crate) fn end_of_path<'l, 'a>(ends: &[&'l Line<'a>], path: &str) -> Option<&'l Line<'a>>
    ensures { result ≡ first_with (λ e. bytes_eq e.now.path path.now) ends.now }
{
    let place = place_of_path(ends, path)?;
    ends.get(place).copied()
}

/// A number, if it is less than another.
fn if_earlier(run: usize, first: usize) -> Option<usize>
    ensures { result ≡ if_earlier run first }
{
    if first < run {
        return Some(first);
    }
    None
}

/// The first inclusion of the file of a path, by the ends of files, if it is before that of a number.
fn first_of_path(ends: &[&Line<'_>], run: usize, path: &str) -> Option<usize>
    ensures { result ≡ lent_first run ends.now path.now }
{
    match end_of_path(ends, path) {
        Some(first) => if_earlier(run, first.run()),
        None => None,
    }
}

/// The first inclusion of the file that is included, by the ends of files, if that is an earlier one.
fn first_before(ends: &[&Line<'_>], run: usize) -> Option<usize>
    ensures { result ≡ lent_first_before ends.now run }
{
    match end_of_run(ends, run) {
        Some(end) => first_of_path(ends, run, end.path()),
        None => None,
    }
}

/// Whether the inclusion of a number has a statement, of those that are noted.
pub(crate) fn is_noted(noted: &[bool], run: usize) -> bool
    ensures { result ≡ slice_index_or noted.now run false }
{
    match noted.get(run) {
        Some(is) => *is,
        None => false,
    }
}

/// Whether a block is open, if there is one.
fn is_around(around: &OpenNumbers, block: Option<usize>) -> bool
    ensures { result ≡ option_map_or (λ n. list_any (λ k. k == n) around.now) block true }
{
    match block {
        Some(block) => around.has(block),
        None => true,
    }
}

/// The inclusion of a number, if the lines of an earlier one of the same file count here: it has a statement, and
/// the innermost block with a condition around it is open.
fn repeated(
    run: usize,
    first: Option<usize>,
    statements: &[bool],
    conditions: &[Option<usize>],
    around: &OpenNumbers,
) -> Option<RepeatedFile>
    ensures { result ≡ option_and_then (repeated_with run (λ f. slice_index_or statements.now f false
        && option_map_or (λ n. list_any (λ k. k == n) around.now) (slice_index_or conditions.now f None) true)) first }
{
    let first = first?;
    if is_noted(statements, first) && is_around(around, noted_at(conditions, first)) {
        return Some(RepeatedFile { run, first });
    }
    None
}

/// Adds an inclusion, if there is one.
fn add_file(found: &mut Vec<RepeatedFile>, file: Option<RepeatedFile>) -> Result<(), AllocError>
    ensures { OnOk result (found.new.items ≡ found.old.items ++ option_to_list file) }
{
    if let Some(file) = file {
        found.push(file)?;
    }
    Ok(())
}

/// With how many lines of inclusions of smaller numbers lines begin.
fn count_below(lines: &[Line<'_>], run: usize) -> usize
    ensures count { result ≡ prefix_len (λ line. nat_lt line.run run) lines.now }
    ensures within { result ≤ length lines.now }
{
    lines.iter().take_while(|line| line.run() < run).count()
}

/// Where the inclusion of a number begins, after that of a smaller number, which begins at a line.
pub(crate) fn next_start(lines: &[Line<'_>], from: usize, run: usize) -> usize
    requires { from ≤ length lines.now }
    ensures start { result ≡ from + prefix_len (λ line. nat_lt line.run run) (drop from lines.now) }
    ensures after { from ≤ result }
    ensures within { result ≤ length lines.now }
{
    from + count_below(&lines[from..], run)
}

/// The inclusions of files, in their order, that an earlier one of the same file has made superfluous: it has a
/// statement, and all blocks with a condition around it are around this one, too, so that its lines count already (this
/// project's own). Attributes alone may be meant for one statement after the other.
///
/// # Errors
///
/// `AllocError` where memory is refused.
pub fn repeated_files(
    alloc: Global,
    lines: &[Line<'_>],
    tree: &Tree,
) -> Result<Vec<RepeatedFile>, AllocError>
    ensures { IfOk result (λ r. r.items ≡ repeated_files lines.now tree.now) }
{
    let ends = ends_of(alloc, lines)?;
    let statements = runs_with_statements(alloc, lines, ends.len())?;
    let mut conditions = Vec::new(alloc);
    let mut around = OpenNumbers::new(alloc);
    let mut begun = 0;
    let mut from = 0;
    let mut found = Vec::new(alloc);
    for run in 0..ends.len() {
        let start = next_start(lines, from, run);
        begun = pass_lines(&mut around, begun, lines, from, start)?;
        from = start;
        let first = first_before(ends.as_slice(), run);
        let file = repeated(
            run,
            first,
            statements.as_slice(),
            conditions.as_slice(),
            &around,
        );
        add_file(&mut found, file)?;
        conditions.push(around.condition(tree))?;
    }
    Ok(found)
}
