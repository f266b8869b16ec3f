ghost use Rattle.std.specs.Prelude.{◌≡◌, List, ℕ, IfOk, Some};
ghost use Rattle.std.specs.String.{string_bytes};

use std::alloc::{AllocError, Global};
use std::fmt;
use std::marker::Model;

/// A text that owns its bytes. Contracts see it as the list of its bytes, which are UTF-8.
#[derive(Drop, Debug)]
pub struct Text {
    content: String,
}

impl Model for Text {
    ghost Value = { List ℕ };

    ghost view = { λ t. string_bytes t.content };
}

impl Text {
    /// The text of a string, which takes no memory.
    pub fn new(content: String) -> Text
        ensures { result ≡ string_bytes content }
    {
        Text { content }
    }

    /// A copy of a text.
    pub fn copy_of(alloc: Global, text: &str) -> Result<Text, AllocError>
        ensures { IfOk result (λ t. t ≡ text.now) }
    {
        Ok(Text {
            content: String::from_str(alloc, text)?,
        })
    }

    /// The text, lent.
    pub fn as_str(&self) -> &str
        ensures { result.now ≡ self.now }
    {
        self.content.as_str()
    }

    /// The string, which takes no memory.
    pub fn into_string(self) -> String
        ensures { string_bytes result ≡ self }
    {
        let Text { content } = self;
        content
    }
}

impl fmt::Display for Text {
    ghost output = { λ t. Some t };

    fn fmt<W: fmt::Write>(&self, f: &mut fmt::Formatter<W>) -> fmt::Result {
        let content = self.content.as_str();
        write!(f, "{content}")
    }
}

/// A text that is lent by what owns it: the path of a line by the sources, the text of a token by them or by the arena.
/// Contracts see its bytes.
#[derive(Drop, Debug)]
pub struct TextRef<'a> {
    text: &'a str,
}

impl<'a> Model for TextRef<'a> {
    ghost Value = { List ℕ };

    ghost view = { λ t. t.text.now };
}

impl<'a> TextRef<'a> {
    /// The text that is lent, which takes no memory.
    pub fn new(text: &'a str) -> TextRef<'a>
        ensures { result ≡ text.entry.now }
    {
        TextRef { text }
    }

    /// The text that was lent.
    pub fn as_str(&self) -> &str
        ensures { result.now ≡ self.now }
    {
        self.text
    }
}
