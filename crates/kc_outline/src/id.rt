//! The numbers by which parts of a tree name one another.

/// The number of a block, a `menu`, an `if` or a `choice`, from 0 in the order of the lines that open them.
#[derive(Clone, Copy, Debug, PartialEq, Eq)]
pub struct BlockId(pub usize);

/// The number of a choice, from 0 in the order of their lines.
#[derive(Clone, Copy, Debug, PartialEq, Eq)]
pub struct ChoiceId(pub u32);

/// The number of a comment, from 0 in the order of their lines.
#[derive(Clone, Copy, Debug, PartialEq, Eq)]
pub struct CommentId(pub usize);
