// Why bytes are not read as a certificate.
ghost use Rattle.std.specs.Prelude.{◌≡◌};
ghost use Rattle.cert_text.specs.declared.refused.CertRefused.TheVariants.{NoMemory};

use std::alloc::{AllocError, AllocFailed};

/// Why bytes are not read as a certificate.
#[derive(Clone, Copy, Debug, PartialEq, Eq)]
pub enum CertRefused {
    /// They are no certificate text. The number is the first byte, counted from 0, that no certificate text
    /// continues, or the count of bytes where they begin a certificate text and are none.
    Form(u64),
    /// Memory was wanting, and nothing is said of the bytes.
    NoMemory,
}

impl From<AllocError> for CertRefused {
    ghost from_gives = { λ _ e. e ≡ NoMemory };

    fn from(_: AllocError) -> Self {
        CertRefused::NoMemory
    }
}

impl<T: Drop> From<AllocFailed<T>> for CertRefused {
    ghost from_gives = { λ _ e. e ≡ NoMemory };

    fn from(_: AllocFailed<T>) -> Self {
        CertRefused::NoMemory
    }
}
