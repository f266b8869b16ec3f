//! Whether the program explains the numbers that it writes.

/// Whether words are written after the numbers of faults and warnings.
#[derive(Clone, Copy, PartialEq, Eq)]
pub enum Wording {
    /// The number alone.
    Number,
    /// The number and what it means.
    Explained,
}
