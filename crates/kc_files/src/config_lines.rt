//! Lines of a `.config`, each cut off its front in turn.

ghost use Rattle.std.specs.Prelude.{◌≡◌, ◌<◌, ◌≤◌, ◌∷◌, length};
ghost use Rattle.std.specs.List.{position_or_len, suffix_len};
ghost use Rattle.kc_files.specs.ConfigLines.{is_feed, is_trailing, lines_in, trimmed};

use memchr::memchr;

/// How many bytes stand before the first line feed of a text: all of them where there is none.
fn line_len(text: &[u8]) -> usize
    ensures len { result ≡ position_or_len is_feed text.now }
    ensures within { result ≤ length text.now }
{
    match memchr(b'\n', text) {
        Some(len) => len,
        None => text.len(),
    }
}

/// The first line of a text, without its line feed, and the text after that.
pub(crate) fn first_line(text: &[u8]) -> (&[u8], &[u8])
    requires some { 0 < length text.now }
    ensures lines { lines_in text.now ≡ result.0.now ∷ lines_in result.1.now }
    ensures shorter { length result.1.now < length text.now }
{
    let (line, end) = text.split_at(line_len(text));
    match end {
        [_, rest @ ..] => (line, rest),
        [] => (line, end),
    }
}

/// Whether a byte means nothing at the end of a line: it is a space, a tab or a carriage return.
pub(crate) fn is_trailing(byte: u8) -> bool
    ensures { result ≡ is_trailing byte }
{
    byte == b' ' || byte == b'\t' || byte == b'\r'
}

/// How many bytes at the end of a line mean nothing.
fn trailing_len(line: &[u8]) -> usize
    ensures count { result ≡ suffix_len is_trailing line.now }
    ensures within { result ≤ length line.now }
{
    line.iter()
        .rev()
        .take_while(|byte| is_trailing(**byte))
        .count()
}

/// The line without the spaces, tabs and carriage returns at its end.
pub(crate) fn trimmed(line: &[u8]) -> &[u8]
    ensures { result.now ≡ trimmed line.now }
{
    &line[..line.len() - trailing_len(line)]
}
