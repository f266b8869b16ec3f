//! The files that the lines of a Kconfig were read of, for the target `files`.

ghost use Rattle.std.specs.Prelude.{◌≡◌, [], map, IfOk};
ghost use Rattle.std.specs.List.{filter};
ghost use Rattle.kc_folder.specs.PathsRead.{AreEndsInOrder, AreFirstReads, end_of, has_path, is_end, once, shown};

use kc_text::{Line, LineKind};
use std::alloc::{AllocError, Global};

/// The paths of the files that lines were read of, each once, in the order in which the files were first read: a file
/// where a `source` line names it, and the top file first.
///
/// # Errors
///
/// `AllocError` where memory is refused.
pub fn paths_read<'a>(alloc: Global, lines: &'a [Line<'a>]) -> Result<Vec<&'a str>, AllocError>
    ensures { IfOk result (λ paths. AreFirstReads lines.now paths.items) }
{
    let ends = ends_in_order(alloc, lines)?;
    let paths = paths_once(alloc, ends.as_slice())?;
    Ok(paths)
}

/// The paths of the ends of files, each where it is the first time. There are at most 4,096 ends, so the list is short
/// enough to be searched.
fn paths_once<'a>(alloc: Global, ends: &[(usize, &'a str)]) -> Result<Vec<&'a str>, AllocError>
    ensures { IfOk result (λ paths. paths.items ≡ once [] ends.now) }
{
    let mut paths = Vec::new(alloc);
    for end in ends {
        let path = end.1;
        if !has_path(paths.as_slice(), path) {
            paths.push(path)?;
        }
    }
    Ok(paths)
}

/// Whether a path is one of a list.
fn has_path(paths: &[&str], path: &str) -> bool
    ensures { result ≡ has_path paths.now path.now }
{
    paths.contains(&path)
}

/// Of each putting in place of a file its number and its path, in the order of the numbers.
fn ends_in_order<'a>(
    alloc: Global,
    lines: &'a [Line<'a>],
) -> Result<Vec<(usize, &'a str)>, AllocError>
    ensures { IfOk result (λ ends. AreEndsInOrder lines.now ends.items) }
{
    let mut ends = ends_of(alloc, lines)?;
    ends.sort_by_key(|end| end.0)?;
    Ok(ends)
}

/// Of each putting in place of a file its number and its path, by the line that ends it.
fn ends_of<'a>(alloc: Global, lines: &'a [Line<'a>]) -> Result<Vec<(usize, &'a str)>, AllocError>
    ensures { IfOk result (λ ends. map shown ends.items ≡ map end_of (filter is_end lines.now)) }
{
    lines
        .iter()
        .filter(|line| is_end(line))
        .map(|line| (line.run(), line.path()))
        .collect(alloc)
}

/// Whether a line is the end of a file.
fn is_end(line: &Line<'_>) -> bool
    ensures { result ≡ is_end line.now }
{
    line.kind() == LineKind::EndOfFile
}
