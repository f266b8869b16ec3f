//! Texts that are lent, which may be shared.

ghost use Rattle.std.specs.Prelude.{◌≡◌, IfOk};
ghost use Rattle.kc_statement.specs.LentText.{lent_bytes};

use crate::shared_text::SharedText;
use std::alloc::{AllocError, Global};

/// A text that is lent: by one that can be shared, or as it is.
#[derive(Clone, Copy)]
pub enum LentText<'a> {
    /// One that has to be copied where it is kept.
    Plain(&'a str),
    /// One that can be shared.
    Shared(&'a SharedText),
}

impl<'a> LentText<'a> {
    /// The text.
    pub fn as_str(self) -> &'a str
        ensures { result.now ≡ lent_bytes self.entry }
    {
        match self {
            LentText::Plain(text) => text,
            LentText::Shared(text) => text.as_str(),
        }
    }

    /// The text to keep, which is shared where it can be. The error comes where memory is refused for a copy, or the
    /// owners can't be counted.
    pub fn to_shared(self, alloc: Global) -> Result<SharedText, AllocError>
        ensures { IfOk result (λ t. t ≡ lent_bytes self.entry) }
    {
        match self {
            LentText::Plain(text) => SharedText::copy_of(alloc, text),
            LentText::Shared(text) => text.share(),
        }
    }
}
