ghost use Rattle.std.specs.Prelude.{◌≡◌, ◌↔◌, ℕ, List, false, IsTrue, IfOk};
ghost use Rattle.kc_outline.specs.TreeValue.{TreeValue};
ghost use Rattle.kc_files.specs.OneReading.{IsReadAs};
ghost use Rattle.kc_files.specs.PrefixForm.{is_prefix};

use crate::line_form::has_name_bytes;
use kc_text::Text;
use std::alloc::{AllocError, Global};
use std::marker::Model;

/// The most bytes that a prefix has.
const MAX_BYTES: usize = 64;

/// What comes before the name of each symbol in the files, mostly `CONFIG_`. It has at most 64 bytes, each
/// an ASCII letter, a digit or `_`. Contracts see its bytes.
#[derive(Debug, Drop)]
pub struct Prefix {
    text: Text,
}

impl Model for Prefix {
    ghost use Rattle.std.specs.Prelude.{List, ℕ, IsTrue};
    ghost use Rattle.kc_files.specs.PrefixForm.{is_prefix};

    ghost Value = { List ℕ };

    ghost view = { λ p. p.text };

    ghost invariant = { λ p. IsTrue (is_prefix p.text) };
}

/// Why a text is no prefix.
#[derive(Clone, Copy, Debug, PartialEq, Eq)]
pub enum PrefixFault {
    /// It is too long, or has a byte other than a letter, a digit and `_`.
    Malformed,
    /// Memory was refused.
    NoMemory,
}

/// Whether a text is a prefix.
fn is_well_formed(text: &str) -> bool
    ensures { result ≡ is_prefix text.now }
{
    text.len() <= MAX_BYTES && has_name_bytes(text)
}

impl Prefix {
    /// The prefix of a text, which may be empty. `Malformed` comes before memory is asked for.
    pub fn new(alloc: Global, text: &str) -> Result<Prefix, PrefixFault>
        ensures prefix { IfOk result (λ p. p ≡ text.now) }
        ensures malformed { (result ≡ Err PrefixFault.Malformed) ↔ (is_prefix text.now ≡ false) }
        ensures no_memory { result ≡ Err PrefixFault.NoMemory → IsTrue (is_prefix text.now) }
    {
        if !is_well_formed(text) {
            return Err(PrefixFault::Malformed);
        }
        match Text::copy_of(alloc, text) {
            Ok(text) => Ok(Prefix { text }),
            Err(_) => Err(PrefixFault::NoMemory),
        }
    }

    /// The same prefix once more.
    pub fn copy(&self, alloc: Global) -> Result<Prefix, AllocError>
        ensures { IfOk result (λ p. p ≡ self.now) }
    {
        Ok(Prefix {
            text: Text::copy_of(alloc, self.text.as_str())?,
        })
    }

    /// The text of the prefix. With it each text of a `.config` has one reading for a tree.
    pub fn as_str(&self) -> &str
        ensures text { result.now ≡ self.now }
        ensures valid { IsTrue (is_prefix self.now) }
        ensures readings { (t : TreeValue) (text : List ℕ) → IsReadAs t self.now text }
    {
        self.text.as_str()
    }
}
