//! Where the seeds of keys are drawn.

ghost use Rattle.std.specs.Prelude.{◌≡◌, ℕ, List, IfOk, None, Some, ⊤};

use base_streams::Fault;
use lmots::PRIVATE_SEED_LEN;
use std::random::RandomSource;

/// Draws seeds of keys. A contract names what may be drawn, where the source tells it.
pub trait DrawSeed {
    /// These bytes may be drawn.
    ghost draws: { Self → List ℕ → Type 0 };

    /// The bytes of a new seed: the key's id, then the seed.
    fn draw(&self) -> Result<[u8; PRIVATE_SEED_LEN], Fault>
        ensures { IfOk result (λ bytes. draws self.now bytes) };
}

/// The random source of the system, of whose bytes nothing is told.
#[derive(Drop)]
pub struct SystemSeeds<'a, R: RandomSource> {
    source: &'a R,
}

impl<'a, R: RandomSource> SystemSeeds<'a, R> {
    pub fn new(source: &'a R) -> SystemSeeds<'a, R> {
        SystemSeeds { source }
    }
}

impl<R: RandomSource> DrawSeed for SystemSeeds<'_, R> {
    ghost draws = { λ _ _. ⊤ };

    fn draw(&self) -> Result<[u8; PRIVATE_SEED_LEN], Fault> {
        let mut bytes = [0; PRIVATE_SEED_LEN];
        match self.source.fill_bytes(&mut bytes) {
            Ok(()) => Ok(bytes),
            Err(_) => Err(Fault),
        }
    }
}

/// A seed that is known before it is drawn, or none: for tests.
#[derive(Clone, Copy)]
pub struct KnownSeed {
    bytes: Option<[u8; PRIVATE_SEED_LEN]>,
}

impl KnownSeed {
    /// These bytes are drawn, whenever one is.
    pub fn of(bytes: [u8; PRIVATE_SEED_LEN]) -> KnownSeed
        ensures { result.bytes ≡ Some bytes }
    {
        KnownSeed { bytes: Some(bytes) }
    }

    /// None is drawn: the source fails.
    pub fn none() -> KnownSeed
        ensures { result.bytes ≡ None }
    {
        KnownSeed { bytes: None }
    }
}

impl DrawSeed for KnownSeed {
    ghost draws = { λ s bytes. s.bytes ≡ Some bytes };

    fn draw(&self) -> Result<[u8; PRIVATE_SEED_LEN], Fault> {
        match self.bytes {
            Some(bytes) => Ok(bytes),
            None => Err(Fault),
        }
    }
}
