ghost use Rattle.std.specs.Prelude.{◌≡◌, ◌<◌, [], length, position, slice_index_or, IfOk, IfSome, OnOk, OnErr};
ghost use Rattle.kc_statement.specs.declared.limits.TheConstants.{MOST_SYMBOLS};
ghost use Rattle.std.specs.Str.{bytes_eq};
ghost use Rattle.kc_statement.specs.Names.{symbol_among, with_name};

use crate::id::SymId;
use crate::limits::MOST_SYMBOLS;
use crate::long_texts::LongTexts;
use crate::prompt_text::PromptText;
use crate::seed::{NameSeed, Seed};
use crate::shared_text::SharedText;
use indexmap::IndexSet;
use kc_text::Text;
use std::alloc::{AllocError, Global};
use std::marker::Model;

/// The names of the symbols in the order of their first definitions, as many as a tree may have. Contracts see the list
/// of the names.
#[derive(Drop)]
pub struct Names {
    set: IndexSet<String, NameSeed>,
    /// The long texts of the lines that the names are read from.
    long: LongTexts,
}

impl Model for Names {
    ghost use Rattle.std.specs.Prelude.{List, ℕ, map};
    ghost use Rattle.std.specs.String.{string_bytes};

    ghost Value = { List (List ℕ) };

    ghost view = { λ a. map string_bytes a.set.keys };

    ghost use Rattle.std.specs.Prelude.{◌≤◌, length};
    ghost use Rattle.std.specs.List.{IsDistinct};
    ghost use Rattle.std.specs.Str.{bytes_eq};
    ghost use Rattle.kc_statement.specs.declared.limits.TheConstants.{MOST_SYMBOLS};

    ghost invariant = { λ a. IsDistinct bytes_eq (map string_bytes a.set.keys) × (length a.set.keys ≤ MOST_SYMBOLS) };
}

impl Names {
    /// No names, with room for some, which are kept under the hash of a seed; or `AllocError` where there is no memory
    /// for them.
    pub fn with_capacity(alloc: Global, seed: Seed, room: usize) -> Result<Names, AllocError>
        ensures { IfOk result (λ names. names ≡ []) }
    {
        Ok(Names {
            set: IndexSet::with_capacity_and_hasher(alloc, room, seed.names())?,
            long: LongTexts::new(alloc, seed.names()),
        })
    }

    /// How many names there are.
    pub fn len(&self) -> usize
        ensures { result ≡ length self.now }
    {
        self.set.len()
    }

    /// The number of a name: its position among the names, from 0.
    pub fn find(&self, name: &str) -> Option<usize>
        ensures number { result ≡ position (bytes_eq name.now) self.now }
        ensures few { IfSome result (λ n. n < MOST_SYMBOLS) }
    {
        self.set.get_index_of(name)
    }

    /// The symbol of a name.
    pub fn symbol(&self, name: &str) -> Option<SymId>
        ensures { result ≡ symbol_among self.now name.now }
    {
        let number = self.find(name)?;
        Some(SymId(number as u32))
    }

    /// The symbol of a name, which is likely to have this number. Where it has, no table is asked.
    pub(crate) fn symbol_at(&self, name: &str, likely: usize) -> Option<SymId>
        ensures { result ≡ symbol_among self.now name.now }
    {
        if likely < self.set.len() && self.get(likely) == name {
            Some(SymId(likely as u32))
        } else {
            self.symbol(name)
        }
    }

    /// Adds a name at the end, where it is new and there is room for it. Where there is no memory for it
    /// (`AllocError`), the names stay as they were.
    pub fn add(&mut self, alloc: Global, name: &str) -> Result<(), AllocError>
        ensures added { OnOk result (self.new ≡ with_name self.old name.now) }
        ensures unchanged { OnErr result (self.new ≡ self.old) }
    {
        if self.set.len() < MOST_SYMBOLS {
            let name = String::from_str(alloc, name)?;
            self.set.insert(name)?;
        }
        Ok(())
    }

    /// Keeps a text of the lines, if it is a long one.
    pub(crate) fn keep_text(&mut self, alloc: Global, text: &str) -> Result<(), AllocError>
        ensures { OnOk result (self.new ≡ self.old) }
    {
        self.long.keep(alloc, text)
    }

    /// A text, which is shared where it is kept. The error comes where memory is refused.
    pub(crate) fn shared_text(&self, alloc: Global, text: &str) -> Result<SharedText, AllocError>
        ensures { IfOk result (λ t. t ≡ text.now) }
    {
        self.long.shared(alloc, text)
    }

    /// The text of a prompt, which is shared where it is kept. The error comes where memory is refused.
    pub(crate) fn prompt_text(&self, alloc: Global, text: &str) -> Result<PromptText, AllocError>
        ensures { IfOk result (λ t. t ≡ text.now) }
    {
        match self.long.kept(text) {
            Some(kept) => Ok(PromptText::shared(kept.share()?)),
            None => Ok(PromptText::new(Text::copy_of(alloc, text)?)),
        }
    }

    /// The name of a number, empty past the last.
    pub fn get(&self, number: usize) -> &str
        ensures { result.now ≡ slice_index_or self.now number [] }
    {
        match self.set.get_index(number) {
            Some(name) => name.as_str(),
            None => "",
        }
    }
}
