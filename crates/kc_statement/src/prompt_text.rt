//! Texts of prompts.

ghost use Rattle.std.specs.Prelude.{◌≡◌};

use crate::shared_text::SharedText;
use kc_text::Text;
use std::marker::Model;

/// Whose a text is.
#[derive(Drop, Debug)]
enum Kept {
    Own(Text),
    Shared(SharedText),
}

/// The text of a prompt: its own, or one that is shared, as long ones are. Contracts see it as the list of its bytes, which
/// are UTF-8.
#[derive(Drop, Debug)]
pub struct PromptText {
    kept: Kept,
}

impl Model for PromptText {
    ghost use Rattle.std.specs.Prelude.{List, ℕ};
    ghost use Rattle.kc_statement.specs.PromptText.{kept_bytes};

    ghost Value = { List ℕ };

    ghost view = { λ t. kept_bytes t.kept };
}

impl PromptText {
    /// A text of its own.
    pub(crate) fn new(text: Text) -> PromptText
        ensures { result ≡ text }
    {
        PromptText {
            kept: Kept::Own(text),
        }
    }

    /// A text that is shared.
    pub(crate) fn shared(text: SharedText) -> PromptText
        ensures { result ≡ text }
    {
        PromptText {
            kept: Kept::Shared(text),
        }
    }

    /// The text, lent.
    pub fn as_str(&self) -> &str
        ensures { result.now ≡ self.now }
    {
        match &self.kept {
            Kept::Own(text) => text.as_str(),
            Kept::Shared(text) => text.as_str(),
        }
    }
}
