/// Whether help texts are written.
#[derive(Clone, Copy, Debug, PartialEq, Eq)]
pub enum Help {
    /// Each definition and each choice with its help text.
    With,
    /// None.
    Without,
}
