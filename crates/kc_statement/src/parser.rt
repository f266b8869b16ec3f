//! What the readers of a line share.

use crate::names::Names;
use std::alloc::Global;

/// Reads the parts of lines, whose words are symbols by the names of the defined ones.
#[derive(Clone, Copy)]
pub(crate) struct Parser<'a> {
    pub(crate) alloc: Global,
    pub(crate) names: &'a Names,
}
