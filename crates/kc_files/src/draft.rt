//! A `.config` while it is written.

ghost use Rattle.std.specs.Prelude.{◌≡◌, ◌++◌, codes, OnOk, if◌then◌else◌, []};
ghost use Rattle.std.specs.String.{string_bytes};
ghost use Rattle.kc_files.specs.ConfigText.{symbol_line, line_of_symbol, title_of, title_block, end_of, end_line};
ghost use Rattle.kc_files.specs.DraftValue.{draft_of, with_piece};

use crate::prefix::Prefix;
use crate::symbol_line::push_symbol_line;
use kc_tree::{SymbolType, UserVal};
use std::alloc::AllocError;
use std::marker::Model;

/// The text so far, and what has to be known of its last piece. Contracts see the record of both.
#[derive(Drop)]
pub(crate) struct Draft {
    pub(crate) text: String,
    /// Whether the last piece is the end line of a menu, which an empty line parts from a symbol line.
    after_end: bool,
}

impl Model for Draft {
    ghost use Rattle.kc_files.specs.DraftValue.{DraftValue};
    ghost use Rattle.std.specs.String.{string_bytes};

    ghost Value = { DraftValue };

    ghost view = { λ d. record { bytes = string_bytes d.text; after_end = d.after_end } };
}

impl Draft {
    /// A draft that begins with a text.
    pub(crate) fn new(text: String) -> Draft
        ensures { result ≡ draft_of (string_bytes text) }
    {
        Draft {
            text,
            after_end: false,
        }
    }

    /// The text, which takes no memory.
    pub(crate) fn into_string(self) -> String
        ensures { string_bytes result ≡ self.bytes }
    {
        let Draft { text, after_end: _ } = self;
        text
    }

    /// Parts an end line from what comes next.
    fn push_gap(&mut self) -> Result<(), AllocError>
        ensures { OnOk result (self.new
            ≡ draft_of (self.old.bytes ++ (if self.old.after_end then codes "\n" else []))) }
    {
        if self.after_end {
            self.text.push_str("\n")?;
            self.after_end = false;
        }
        Ok(())
    }

    /// Appends the line of a symbol of a type.
    pub(crate) fn push_symbol(
        &mut self,
        prefix: &Prefix,
        name: &str,
        kind: SymbolType,
        value: &UserVal,
    ) -> Result<(), AllocError>
        ensures { OnOk result (self.new
            ≡ with_piece self.old (line_of_symbol (symbol_line prefix.now name.now kind value.now))) }
    {
        self.push_gap()?;
        push_symbol_line(&mut self.text, prefix.as_str(), name, kind, value)
    }

    /// Appends the title of a menu or a comment, between lines of `#` and after an empty line.
    pub(crate) fn push_title(&mut self, title: &str) -> Result<(), AllocError>
        ensures { OnOk result (self.new ≡ with_piece self.old (title_of (title_block title.now))) }
    {
        self.text.push_str("\n#\n# ")?;
        self.text.push_str(title)?;
        self.text.push_str("\n#\n")?;
        self.after_end = false;
        Ok(())
    }

    /// Appends the end line of a menu.
    pub(crate) fn push_end(&mut self, title: &str) -> Result<(), AllocError>
        ensures { OnOk result (self.new ≡ with_piece self.old (end_of (end_line title.now))) }
    {
        self.text.push_str("# end of ")?;
        self.text.push_str(title)?;
        self.text.push_str("\n")?;
        self.after_end = true;
        Ok(())
    }
}
