//! Why a source was not fetched.

ghost use Rattle.std.specs.Prelude.{◌≡◌};
ghost use Rattle.log_transfer.specs.Refusals.{fetch_error_number};
ghost use Rattle.log_transfer.specs.declared.error.FetchError.TheVariants.{Memory};

use std::alloc::AllocError;

/// Why a source was not fetched. What a source does is never a refusal: the status tells it.
#[derive(Clone, Copy, Debug, PartialEq, Eq)]
pub enum FetchError {
    /// Memory was refused.
    Memory = 1,
}

impl FetchError {
    /// The number of the refusal, which never changes.
    pub fn number(self) -> u8
        ensures { result ≡ fetch_error_number self }
    {
        self as u8
    }
}

impl From<AllocError> for FetchError {
    ghost from_gives = { λ _ e. e ≡ Memory };

    fn from(_: AllocError) -> Self {
        FetchError::Memory
    }
}
