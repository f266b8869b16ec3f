//! What a dollar in a text begins, and whether a backslash takes its meaning.

/// What a dollar begins.
#[derive(Clone, Copy, PartialEq, Eq)]
pub(crate) enum Dollar<'t> {
    /// A reference to a variable, by its name.
    Reference(&'t str),
    /// A call of a function, by its name.
    Function(&'t str),
    /// A name in parentheses that can't be referenced: of digits alone, `filename` or `lineno`.
    Reserved(&'t str),
    /// Nothing that is known.
    Other,
}

/// Whether a text ends with an odd number of backslashes, so that a dollar after it is a plain one.
pub(crate) fn is_escaped(text: &str) -> bool {
    let count = text.bytes().rev().take_while(|byte| *byte == b'\\').count();
    count % 2 == 1
}

/// What a dollar before a text begins.
pub(crate) fn dollar_of(text: &str) -> Dollar<'_> {
    let Some(inside) = text.strip_prefix('(') else {
        return Dollar::Other;
    };
    let len = inside
        .bytes()
        .take_while(|byte| is_variable_byte(*byte))
        .count();
    let (Some(name), Some(after)) = (inside.get(..len), inside.get(len..)) else {
        return Dollar::Other;
    };
    if name.is_empty() {
        Dollar::Other
    } else if after.starts_with(',') {
        Dollar::Function(name)
    } else if !after.starts_with(')') {
        Dollar::Other
    } else if is_referable(name) {
        Dollar::Reference(name)
    } else {
        Dollar::Reserved(name)
    }
}

/// Whether a byte can be in the name of a variable.
fn is_variable_byte(byte: u8) -> bool {
    byte.is_ascii_alphanumeric() || byte == b'_' || byte == b'-'
}

/// Whether a variable of a name can be referenced.
fn is_referable(name: &str) -> bool {
    name != "filename" && name != "lineno" && !name.bytes().all(|byte| byte.is_ascii_digit())
}
