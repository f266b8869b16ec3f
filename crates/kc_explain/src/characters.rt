//! The names of characters.

use std::alloc::AllocError;

/// Characters that are easily mistaken for others or not seen, with their names in Unicode's or ASCII's words.
static NAMES: [(char, &str); 22] = [
    ('\0', "NUL"),
    ('\u{8}', "backspace"),
    ('\u{b}', "vertical tab"),
    ('\u{c}', "form feed"),
    ('\r', "carriage return"),
    ('\u{1b}', "escape"),
    ('\u{a0}', "no-break space"),
    ('\u{ad}', "soft hyphen"),
    ('\u{200b}', "zero-width space"),
    ('\u{200c}', "zero-width non-joiner"),
    ('\u{200d}', "zero-width joiner"),
    ('\u{2010}', "hyphen"),
    ('\u{2013}', "en dash"),
    ('\u{2014}', "em dash"),
    ('\u{2018}', "left single quotation mark"),
    ('\u{2019}', "right single quotation mark"),
    ('\u{201c}', "left double quotation mark"),
    ('\u{201d}', "right double quotation mark"),
    ('\u{202f}', "narrow no-break space"),
    ('\u{2212}', "minus sign"),
    ('\u{3000}', "ideographic space"),
    ('\u{feff}', "byte order mark"),
];

/// Adds what the first character of a text is: itself, or its code and its name.
pub(crate) fn push_character(words: &mut String, text: &str) -> Result<(), AllocError> {
    let Some(character) = text.chars().next() else {
        return Ok(());
    };
    if character.is_ascii_graphic() {
        return write!(words, "`{character}`");
    }
    let code = u32::from(character);
    write!(words, "U+{code:04X}")?;
    match NAMES.iter().find(|row| row.0 == character) {
        Some((_, name)) => write!(words, " ({name})"),
        None => Ok(()),
    }
}
