//! The limits of what lines may define (this project's own).

/// The number of blocks that may be open in one another.
pub const MOST_OPEN_BLOCKS: usize = 64;
