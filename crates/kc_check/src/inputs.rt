//! What is checked beside a tree and its values.

use kc_files::{Input, Prefix};
use kc_text::Line;

/// A file of the Kconfig by its path, with its text.
#[derive(Clone, Copy)]
pub struct SourceText<'a> {
    pub path: &'a str,
    pub text: &'a str,
}

/// What a check looks at beside the tree and its values.
#[derive(Drop)]
pub struct CheckInputs<'a, 'l> {
    /// The logical lines of the Kconfig.
    pub lines: &'a [Line<'l>],
    /// What is before the names of symbols in a `.config`.
    pub prefix: &'a Prefix,
    /// The `.config`, if there is one.
    pub config: Option<Input<'a>>,
    /// What is said of each line of the `.config` that can't be used, in their order.
    pub unusable: &'a [String],
    /// The names of the variables that were given.
    pub given: &'a [&'a str],
    /// The files of the Kconfig, each once.
    pub sources: &'a [SourceText<'a>],
}
