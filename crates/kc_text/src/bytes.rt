//! Classes of bytes, and how far runs of them go.

ghost use Rattle.std.specs.Prelude.{◌≡◌, ◌+◌, ◌<◌, ◌≤◌, false, length, drop, slice_index};
ghost use Rattle.std.specs.List.{prefix_len, suffix_len};
ghost use Rattle.kc_text.specs.Bytes.{is_blank, is_name, is_word, behind_blanks, before_blanks, trimmed};
ghost use Rattle.kc_text.specs.Lexing.{raw_tokens};

/// The class of each byte: `n` of those of a variable's name, `w` of the others of a word, `,` of any other byte.
static CLASSES: [u8; 256] = *b"\
    ,,,,,,,,,,,,,,,,,,,,,,,,,,,,,,,,\
    ,,,,,,,,,,,,,nwwnnnnnnnnnn,,,,,,\
    ,nnnnnnnnnnnnnnnnnnnnnnnnnn,,,,n\
    ,nnnnnnnnnnnnnnnnnnnnnnnnnn,,,,,\
    ,,,,,,,,,,,,,,,,,,,,,,,,,,,,,,,,\
    ,,,,,,,,,,,,,,,,,,,,,,,,,,,,,,,,\
    ,,,,,,,,,,,,,,,,,,,,,,,,,,,,,,,,\
    ,,,,,,,,,,,,,,,,,,,,,,,,,,,,,,,,";

/// Whether a byte is a space or a tab.
pub(crate) fn is_blank(byte: u8) -> bool
    ensures { result ≡ is_blank byte }
{
    byte == b' ' || byte == b'\t'
}

/// Whether a byte is one of a word.
pub(crate) fn is_word(byte: u8) -> bool
    ensures { result ≡ is_word byte }
{
    CLASSES[byte as usize] != b','
}

/// Whether a byte is one of a variable's name.
pub(crate) fn is_name(byte: u8) -> bool
    ensures { result ≡ is_name byte }
{
    CLASSES[byte as usize] == b'n'
}

/// The number of blanks that a text begins with.
pub(crate) fn blank_len(text: &str) -> usize
    ensures count { result ≡ prefix_len is_blank text.now }
    ensures within { result ≤ length text.now }
{
    text.as_bytes()
        .iter()
        .take_while(|byte| is_blank(**byte))
        .count()
}

/// The number of bytes of a word that a text begins with.
pub(crate) fn word_len(text: &str) -> usize
    ensures count { result ≡ prefix_len is_word text.now }
    ensures within { result ≤ length text.now }
{
    text.as_bytes()
        .iter()
        .take_while(|byte| is_word(**byte))
        .count()
}

/// The number of bytes of a variable's name that a text begins with.
pub(crate) fn name_len(text: &str) -> usize
    ensures count { result ≡ prefix_len is_name text.now }
    ensures within { result ≤ length text.now }
{
    text.as_bytes()
        .iter()
        .take_while(|byte| is_name(**byte))
        .count()
}

/// The number of blanks that a text ends with.
fn end_blank_len(text: &str) -> usize
    ensures count { result ≡ suffix_len is_blank text.now }
    ensures within { result ≤ length text.now }
{
    text.as_bytes()
        .iter()
        .rev()
        .take_while(|byte| is_blank(**byte))
        .count()
}

/// The text after an ASCII byte.
pub(crate) fn text_after(text: &str, place: usize) -> &str
    requires within { place < length text.now }
    requires ascii { slice_index text.now place < 128 }
    ensures { result.now ≡ drop (place + 1) text.now }
{
    &text[place + 1..]
}

/// The text after the blanks at its beginning, which has the same tokens.
pub(crate) fn behind_blanks(text: &str) -> &str
    ensures value { result.now ≡ behind_blanks text.now }
    ensures same { raw_tokens result.now ≡ raw_tokens text.now }
    ensures first { 0 < length result.now → is_blank (slice_index result.now 0) ≡ false }
    ensures within { length result.now ≤ length text.now }
{
    &text[blank_len(text)..]
}

/// The text before the blanks at its end.
pub(crate) fn before_blanks(text: &str) -> &str
    ensures { result.now ≡ before_blanks text.now }
{
    &text[..text.len() - end_blank_len(text)]
}

/// The text without the blanks at both ends.
pub(crate) fn trimmed(text: &str) -> &str
    ensures { result.now ≡ trimmed text.now }
{
    before_blanks(behind_blanks(text))
}
