//! Texts that several owners share.

ghost use Rattle.std.specs.Prelude.{◌≡◌, List, ℕ, IfOk};
ghost use Rattle.std.specs.String.{string_bytes};

use std::alloc::{AllocError, Global};
use std::marker::Model;
use std::rc::Rc;

/// A text that is shared by all that have it, such as the default of a symbol and each value that comes from it: so a
/// long text is in memory once. Contracts see it as the list of its bytes, which are UTF-8.
#[derive(Drop, Debug)]
pub struct SharedText {
    text: Rc<String>,
}

impl Model for SharedText {
    ghost Value = { List ℕ };

    ghost view = { λ t. string_bytes t.text.value };
}

impl SharedText {
    /// The text of a string, which is not copied. The error comes where memory is refused.
    pub fn new(alloc: Global, text: String) -> Result<SharedText, AllocError>
        ensures { IfOk result (λ t. t ≡ string_bytes text) }
    {
        Ok(SharedText {
            text: Rc::new(alloc, text)?,
        })
    }

    /// A copy of a text, which nothing shares yet. The error comes where memory is refused.
    pub fn copy_of(alloc: Global, text: &str) -> Result<SharedText, AllocError>
        ensures { IfOk result (λ t. t ≡ text.now) }
    {
        SharedText::new(alloc, String::from_str(alloc, text)?)
    }

    /// The same text with one more owner, which takes no memory. The error comes where the owners can't be counted.
    pub fn share(&self) -> Result<SharedText, AllocError>
        ensures { IfOk result (λ t. t ≡ self.now) }
    {
        Ok(SharedText {
            text: self.text.clone()?,
        })
    }

    /// The text, lent.
    pub fn as_str(&self) -> &str
        ensures { result.now ≡ self.now }
    {
        self.text.as_str()
    }
}
