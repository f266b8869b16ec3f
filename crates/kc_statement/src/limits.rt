//! What a line and a tree may have: this project's own limits, past each of which a line is refused (K01).

/// The number of symbols that a tree may have.
pub const MOST_SYMBOLS: usize = 65_535;

/// The number of parentheses that may be open in one another on a line, and of `!` that may be in a row.
pub const MOST_NESTED: usize = 64;
