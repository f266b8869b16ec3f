/// How much is said of a symbol's value.
#[derive(Clone, Copy, Debug, PartialEq, Eq)]
pub enum Extent {
    /// The first of each list, and how many more there are.
    Short,
    /// All of each list.
    All,
}
