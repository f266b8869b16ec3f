//! Long texts of lines: each is in memory once.

ghost use Rattle.std.specs.Prelude.{◌≡◌, IfOk, IfSome};

use crate::seed::NameSeed;
use crate::shared_text::SharedText;
use std::alloc::{AllocError, Global};
use std::collections::BTreeMap;
use std::hash::{BuildHasher, Hasher};
use std::marker::Model;

/// The most bytes of a text that each place has a copy of.
const MOST_SHORT: usize = 128;

/// Long texts, by their hashes under a seed. A reference of a few bytes may put a text of thousands in place, so each is
/// shared by all places that have it. Of two with one hash the first is kept: the other is copied at each place.
#[derive(Drop)]
pub(crate) struct LongTexts {
    seed: NameSeed,
    texts: BTreeMap<u64, SharedText>,
}

impl Model for LongTexts {
    ghost use Rattle.std.specs.Prelude.{⊤};

    ghost Value = { ⊤ };

    ghost view = { λ _. tt };
}

impl LongTexts {
    /// No texts so far.
    pub(crate) fn new(alloc: Global, seed: NameSeed) -> LongTexts {
        LongTexts {
            seed,
            texts: BTreeMap::new(alloc),
        }
    }

    /// The hash of a text.
    fn hash(&self, text: &str) -> u64 {
        let mut hasher = self.seed.build_hasher();
        hasher.write(text.as_bytes());
        hasher.finish()
    }

    /// Keeps a text, if it is a long one and the first of its hash.
    pub(crate) fn keep(&mut self, alloc: Global, text: &str) -> Result<(), AllocError> {
        if text.len() <= MOST_SHORT {
            return Ok(());
        }
        let hash = self.hash(text);
        if self.texts.get(&hash).is_none() {
            self.texts.insert(hash, SharedText::copy_of(alloc, text)?)?;
        }
        Ok(())
    }

    /// The kept text that is this one.
    pub(crate) fn kept(&self, text: &str) -> Option<&SharedText>
        ensures { IfSome result (λ t. t.now ≡ text.now) }
    {
        if text.len() <= MOST_SHORT {
            return None;
        }
        let kept = self.texts.get(&self.hash(text))?;
        if kept.as_str() == text {
            Some(kept)
        } else {
            None
        }
    }

    /// A text, shared where it is kept.
    pub(crate) fn shared(&self, alloc: Global, text: &str) -> Result<SharedText, AllocError>
        ensures { IfOk result (λ t. t ≡ text.now) }
    {
        match self.kept(text) {
            Some(kept) => kept.share(),
            None => SharedText::copy_of(alloc, text),
        }
    }
}
