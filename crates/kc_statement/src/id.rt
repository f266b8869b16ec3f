//! The number by which expressions and statements name a symbol.

/// The number of a symbol, from 0 in the order of first definitions: that of its name among the names.
#[derive(Clone, Copy, Debug, PartialEq, Eq)]
pub struct SymId(pub u32);
