//! How a line of a file, or a text, is shown in a message.
ghost use Rattle.std.specs.Prelude.{◌≡◌, ◌≤◌, ◌<◌, length, ℕ, take};
ghost use Rattle.std.specs.Str.{trim, IsCharBoundary};

/// The most bytes of a line that a message shows.
const MOST_SHOWN: usize = 160;

/// A line without the blanks around it, and of one that has more than 160 bytes then the first 160, or fewer where
/// these end within a character.
pub fn shown_line(line: &str) -> &str
    ensures short { length result.now ≤ 160 }
    ensures beginning { result.now ≡ take (length result.now) (trim line.now) }
    ensures longest { (n : ℕ) → length result.now < n → n ≤ 160 → ¬ (IsCharBoundary (trim line.now) n) }
{
    let line = line.trim();
    let end = line.floor_char_boundary(MOST_SHOWN);
    &line[..end]
}

/// Of a text that has more than 160 bytes the first 160, or fewer where these end within a character.
pub fn shown_text(text: &str) -> &str
    ensures short { length result.now ≤ 160 }
    ensures beginning { result.now ≡ take (length result.now) text.now }
    ensures longest { (n : ℕ) → length result.now < n → n ≤ 160 → ¬ (IsCharBoundary text.now n) }
{
    let shown = text.floor_char_boundary(MOST_SHOWN);
    &text[..shown]
}
