//! The seeds of the hashes under which untrusted texts are kept.

ghost use Rattle.std.specs.Option.{option_map_or};
ghost use Rattle.std.specs.Hash.DefaultHasher.{initial};
ghost use Rattle.std.specs.RandomState.{initial_hasher};

use std::hash::{BuildHasher, DefaultHasher, FoldHasher, Hasher, RandomState};
use std::io;
use std::random::RandomSource;

/// The seed of the hashes under which names and paths are kept. No answer and no order depends on it, only how long it
/// takes: who doesn't know the seed can't choose names that are slow to find.
#[derive(Clone, Copy)]
pub struct Seed {
    /// The keys of the hash of paths, `None` for keys that are zero.
    keys: Option<RandomState>,
    names: NameSeed,
}

impl Seed {
    /// The same seed each time, for names that are not chosen to be slow.
    pub fn fixed() -> Seed {
        Seed {
            keys: None,
            names: NameSeed {
                hasher: FoldHasher::default(),
            },
        }
    }

    /// A seed that the system draws. It is an error where the system gives no random bytes.
    pub fn drawn(rt: &impl RandomSource) -> io::Result<Seed> {
        Ok(Seed {
            keys: Some(RandomState::new(rt)?),
            names: NameSeed::drawn(rt)?,
        })
    }

    /// The seed of the hash of names.
    pub(crate) fn names(self) -> NameSeed {
        self.names
    }
}

/// The seed of the hash under which names are kept: a state from which a multiplying hash goes on. It takes a third of
/// the time of that of paths, and is not cryptographic; docs/SECURITY.md says what it resists.
#[derive(Clone, Copy)]
pub(crate) struct NameSeed {
    hasher: FoldHasher,
}

impl NameSeed {
    /// A seed that the system draws.
    fn drawn(rt: &impl RandomSource) -> io::Result<NameSeed> {
        let mut secret = [0; 16];
        rt.fill_bytes(&mut secret)?;
        let mut hasher = FoldHasher::default();
        hasher.write(&secret);
        Ok(NameSeed { hasher })
    }
}

impl BuildHasher for NameSeed {
    type Hasher = FoldHasher;

    ghost build_hasher = { λ seed. seed.hasher };

    fn build_hasher(&self) -> FoldHasher {
        self.hasher
    }
}

impl BuildHasher for Seed {
    type Hasher = DefaultHasher;

    ghost build_hasher = { λ seed. option_map_or initial_hasher seed.keys initial };

    fn build_hasher(&self) -> DefaultHasher {
        match self.keys {
            Some(keys) => keys.build_hasher(),
            None => DefaultHasher::new(),
        }
    }
}
