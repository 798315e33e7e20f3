// Why bytes are not read as a certificate of claims.
ghost use Rattle.std.specs.Prelude.{◌≡◌};
ghost use Rattle.claim_text.specs.declared.refused.TextRefused.TheVariants.{NoMemory};

use std::alloc::{AllocError, AllocFailed};

/// Why bytes are not read as a certificate of claims.
#[derive(Clone, Copy, Debug, PartialEq, Eq)]
pub enum TextRefused {
    /// They are no text. The number is the first byte, counted from 0, that no text continues, or the count
    /// of bytes where they begin a text and are none.
    Form(u64),
    /// Memory was wanting, and nothing is said of the bytes.
    NoMemory,
}

impl From<AllocError> for TextRefused {
    ghost from_gives = { λ _ e. e ≡ NoMemory };

    fn from(_: AllocError) -> Self {
        TextRefused::NoMemory
    }
}

impl<T: Drop> From<AllocFailed<T>> for TextRefused {
    ghost from_gives = { λ _ e. e ≡ NoMemory };

    fn from(_: AllocFailed<T>) -> Self {
        TextRefused::NoMemory
    }
}
