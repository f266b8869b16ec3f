//! Names that no symbol has, where a symbol is sought that they may be meant as.

use std::alloc::{AllocError, Global};
use std::collections::BTreeSet;

/// How many bytes at the end of two names are compared.
const END: usize = 4;

/// Names that symbols are sought for, by their lengths and their ends, so that few symbols have to be compared with them.
#[derive(Drop)]
pub(crate) struct SoughtNames {
    lengths: BTreeSet<usize>,
    ends: BTreeSet<u32>,
}

impl SoughtNames {
    /// No names.
    pub fn none(alloc: Global) -> SoughtNames {
        SoughtNames {
            lengths: BTreeSet::new(alloc),
            ends: BTreeSet::new(alloc),
        }
    }

    /// Adds a name.
    pub fn add(&mut self, name: &str) -> Result<(), AllocError> {
        let len = name.len();
        self.lengths.insert(len.saturating_sub(1))?;
        self.lengths.insert(len)?;
        self.lengths.insert(len.saturating_add(1))?;
        if let Some(end) = end_of(name) {
            self.ends.insert(end)?;
        }
        Ok(())
    }

    /// Whether one of the names may be meant as the name of a symbol (`MeantNames::meant`): such a symbol's name has one
    /// byte more or less at most, or it ends in one of the names, which has four bytes then.
    pub fn has(&self, symbol: &str) -> bool {
        self.lengths.contains(&symbol.len())
            || end_of(symbol).is_some_and(|end| self.ends.contains(&end))
    }
}

/// The last four bytes of a name, without regard to small and capital letters.
fn end_of(name: &str) -> Option<u32> {
    let start = name.len().checked_sub(END)?;
    let mut end = 0u32;
    for byte in name.as_bytes().get(start..)? {
        end = (end << 8) | u32::from(byte.to_ascii_lowercase());
    }
    Some(end)
}
