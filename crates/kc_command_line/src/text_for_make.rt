//! The values of a `.config` as make reads them: the `include/config/auto.conf` of the kernel's conf, with signs that make
//! would read otherwise.

ghost use Rattle.std.specs.Prelude.{◌≡◌, ◌++◌, [], ◌∷◌, if◌then◌else◌, false, IfOk, OnOk};
ghost use Rattle.kc_command_line.specs.MakeText.{begins_blank, is_end, is_escape, is_loose, make_byte, make_bytes, make_line, make_spelling, make_text, make_value, unquoted};

use std::alloc::{AllocError, Global};

/// What make reads as nothing. It keeps what is before it or after it from being read as a blank or a line's end.
const NOTHING: &[u8] = b"$()";

/// A line `NAME=VALUE` for each line of a `.config` with a value, in their order. VALUE is written so that make reads the
/// value: a string without its quotes. Comments, lines `# NAME is not set` among them, and empty lines are left out.
///
/// The rule is that of the kernel's scripts/kconfig/confdata.c (`print_symbol_for_autoconf`), but for the signs that GNU
/// make would read otherwise.
///
/// # Errors
///
/// `AllocError` where memory is refused.
pub fn make_text(alloc: Global, config: &str) -> Result<Vec<u8>, AllocError>
    ensures { IfOk result (λ text. text.items ≡ make_text config.now) }
{
    let mut text = Vec::new(alloc);
    for line in config.lines() {
        push_line(alloc, &mut text, line)?;
    }
    Ok(text)
}

/// Appends the line of a line of a `.config`, if it has a value.
fn push_line(alloc: Global, text: &mut Vec<u8>, line: &str) -> Result<(), AllocError>
    ensures { OnOk result (text.new.items ≡ text.old.items ++ make_line line.now) }
{
    if line.starts_with('#') {
        return Ok(());
    }
    let Some((name, value)) = line.split_once('=') else {
        return Ok(());
    };
    text.extend_from_slice(name.as_bytes())?;
    text.extend_from_slice(b"=")?;
    push_value(alloc, text, value.as_bytes())?;
    text.extend_from_slice(b"\n")
}

/// Appends a value of a `.config`, without the quotes and the backslashes of a string.
fn push_value(alloc: Global, text: &mut Vec<u8>, value: &[u8]) -> Result<(), AllocError>
    ensures { OnOk result (text.new.items ≡ text.old.items ++ make_value value.now) }
{
    match value {
        [b'"', quoted @ ..] => push_spelling(text, unquoted(alloc, quoted)?.as_slice()),
        _ => push_spelling(text, value),
    }
}

/// The bytes up to the closing quote. A backslash is left out, and the byte after it is taken as it is.
fn unquoted(alloc: Global, quoted: &[u8]) -> Result<Vec<u8>, AllocError>
    ensures { IfOk result (λ value. value.items ≡ unquoted false quoted.now) }
{
    let mut value = Vec::new(alloc);
    let mut escape = false;
    for byte in quoted {
        if is_end(escape, *byte) {
            return Ok(value);
        }
        escape = push_unescaped(&mut value, escape, *byte)?;
    }
    Ok(value)
}

/// Whether a byte is the closing quote: it is `"`, and no backslash makes it a byte of the text.
fn is_end(escape: bool, byte: u8) -> bool
    ensures { result ≡ is_end escape byte }
{
    byte == b'"' && !escape
}

/// Whether a byte is left out, and makes the next one a byte of the text: it is a backslash without such another before it.
fn is_escape(escape: bool, byte: u8) -> bool
    ensures { result ≡ is_escape escape byte }
{
    byte == b'\\' && !escape
}

/// Appends a byte that is not left out. The result says whether it is.
fn push_unescaped(value: &mut Vec<u8>, escape: bool, byte: u8) -> Result<bool, AllocError>
    ensures escape { IfOk result (λ next. next ≡ is_escape escape byte) }
    ensures items { OnOk result (value.new.items ≡ value.old.items ++ (if is_escape escape byte then [] else byte ∷ [])) }
{
    if is_escape(escape, byte) {
        return Ok(true);
    }
    value.push(byte)?;
    Ok(false)
}

/// Appends a value as make is to read it.
fn push_spelling(text: &mut Vec<u8>, value: &[u8]) -> Result<(), AllocError>
    ensures { OnOk result (text.new.items ≡ text.old.items ++ make_spelling value.now) }
{
    if begins_blank(value) {
        text.extend_from_slice(NOTHING)?;
    }
    push_bytes(text, value)
}

/// Whether make would skip the first byte: it is a space, a tab, a vertical tab, a form feed or a carriage return.
fn begins_blank(value: &[u8]) -> bool
    ensures { result ≡ begins_blank value.now }
{
    matches!(value, [b' ' | b'\t' | 11 | 12 | b'\r', ..])
}

/// Appends the bytes of a value, with nothing after the last one where that is a backslash or a carriage return.
fn push_bytes(text: &mut Vec<u8>, value: &[u8]) -> Result<(), AllocError>
    ensures { OnOk result (text.new.items ≡ text.old.items ++ make_bytes false value.now) }
{
    let mut loose = false;
    for byte in value {
        push_byte(text, loose, *byte)?;
        loose = is_loose(*byte);
    }
    if loose {
        text.extend_from_slice(NOTHING)?;
    }
    Ok(())
}

/// Whether make would read a byte otherwise at the end of the line, or a backslash also before `#`.
fn is_loose(byte: u8) -> bool
    ensures { result ≡ is_loose byte }
{
    byte == b'\\' || byte == b'\r'
}

/// Appends a byte: a dollar twice, and `#` after a backslash, which make would else count with those before it.
fn push_byte(text: &mut Vec<u8>, loose: bool, byte: u8) -> Result<(), AllocError>
    ensures { OnOk result (text.new.items ≡ text.old.items ++ make_byte loose byte) }
{
    match byte {
        b'$' => text.extend_from_slice(b"$$"),
        b'#' if loose => text.extend_from_slice(b"$()\\#"),
        b'#' => text.extend_from_slice(b"\\#"),
        _ => Ok(text.push(byte)?),
    }
}
