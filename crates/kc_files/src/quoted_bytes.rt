//! Texts in quotes, in which a backslash is dropped.

ghost use Rattle.std.specs.Prelude.{◌≡◌, ℕ, false, MatchOption};
ghost use Rattle.kc_files.specs.Quoting.{is_special};
ghost use Rattle.kc_files.specs.QuotedBytes.{LosesAt, lost_from};

/// Whether a byte is `"` or a backslash, which keep their meaning after a backslash alone.
fn is_special(byte: u8) -> bool
    ensures { result ≡ is_special byte }
{
    byte == b'"' || byte == b'\\'
}

/// The place of the first byte that loses the backslash before it, in the bytes after an opening quote.
fn lost_place(raw: &[u8]) -> Option<usize>
    ensures { result ≡ lost_from false raw.now }
{
    let mut is_escaped = false;
    for (place, byte) in raw.iter().enumerate() {
        if is_escaped && !is_special(*byte) {
            return Some(place);
        }
        if !is_escaped && *byte == b'"' {
            return None;
        }
        is_escaped = !is_escaped && *byte == b'\\';
    }
    None
}

/// The place of the first byte, other than `"` and a backslash, that loses the backslash before it, in the bytes after an
/// opening quote; none where the text in quotes ends before.
pub(crate) fn lost_backslash(raw: &[u8]) -> Option<usize>
    ensures place { result ≡ lost_from false raw.now }
    ensures first { MatchOption result ((place : ℕ) → LosesAt raw.now place → ⊥) (LosesAt raw.now) }
{
    lost_place(raw)
}
