//! Tables of many rows, each in one text: a row a line, its fields parted by ` | `, in which `\n` is a line feed. Lines
//! that begin with `//` say something of the rows below.
use std::alloc::{AllocError, Global};
use std::test::Fail;

/// The rows of a table. The error is out of memory.
pub(crate) fn rows<'a>(alloc: Global, table: &'a str) -> Result<Vec<&'a str>, AllocError> {
    table
        .lines()
        .filter(|line| !line.is_empty() && !line.starts_with("//"))
        .collect(alloc)
}

/// The text that a field has.
fn unescaped(alloc: Global, field: &str) -> Result<String, AllocError> {
    field.replace(alloc, "\\n", "\n")
}

/// The two fields of a row.
pub(crate) fn two_fields(alloc: Global, row: &str) -> Result<(String, String), Fail> {
    let (first, second) = row.split_once(" | ").ok_or("a row of one field")?;
    Ok((unescaped(alloc, first)?, unescaped(alloc, second)?))
}

/// The three fields of a row.
pub(crate) fn three_fields(alloc: Global, row: &str) -> Result<(String, String, String), Fail> {
    let (first, rest) = row.split_once(" | ").ok_or("a row of one field")?;
    let (second, third) = two_fields(alloc, rest)?;
    Ok((unescaped(alloc, first)?, second, third))
}
