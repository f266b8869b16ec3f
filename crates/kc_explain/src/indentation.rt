//! How far lines of a file are indented.

/// The columns of a tab stop, as in help texts.
const TAB: usize = 8;

/// The line of a number in a text, counted from 1, without its line end. It is empty where the text has no such line.
pub fn line_of(text: &str, number: usize) -> &str {
    text.lines()
        .skip(number.saturating_sub(1))
        .next()
        .unwrap_or("")
}

/// How many columns a line is indented by: a tab goes on to the next multiple of 8.
pub(crate) fn indentation(line: &str) -> usize {
    let mut columns = 0usize;
    for byte in line.bytes() {
        columns = match byte {
            b' ' => columns.saturating_add(1),
            b'\t' => (columns / TAB).saturating_add(1).saturating_mul(TAB),
            _ => return columns,
        };
    }
    columns
}

/// How many columns the first line of the help text after a line of a number is indented by: none where no line follows
/// that has more than blanks.
pub(crate) fn help_indentation(text: &str, number: usize) -> Option<usize> {
    let line = text
        .lines()
        .skip(number)
        .find(|line| !line.trim().is_empty())?;
    Some(indentation(line))
}
