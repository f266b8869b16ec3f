use kc_statement::{SharedText, Tri};

/// A value that a user gives to a symbol.
#[derive(Debug, Drop)]
pub enum UserVal {
    /// That of a bool or tristate symbol.
    Tri(Tri),
    /// That of a symbol of another type, as it is spelt.
    Text(SharedText),
}
