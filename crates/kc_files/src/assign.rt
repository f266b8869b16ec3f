use kc_tree::{SymId, UserVal};

/// A value for a symbol, as a line of a `.config` gives it.
#[derive(Debug, Drop)]
pub struct Assign {
    pub symbol: SymId,
    pub value: UserVal,
}
