use kc_tree::Entry;

/// An entry in the menu tree.
#[derive(Clone, Copy, Debug, PartialEq, Eq)]
pub struct Row {
    /// From 1, in the order of the entries.
    pub id: usize,
    /// That of the innermost menu or choice around, 0 at the top.
    pub parent: usize,
    /// What it is the row of, which is no end of a menu.
    pub entry: Entry,
    /// The number of the definition, where the entry is one.
    pub definition: Option<usize>,
}
