// What a check answers.
ghost use Rattle.std.specs.Prelude.{◌≡◌};
ghost use Rattle.cert_check.specs.declared.verdict.CheckRefused.TheVariants.{NoMemory};

use std::alloc::AllocError;

/// Whether a certificate is lawful for a formula and a kind of trace.
#[derive(Clone, Copy, PartialEq, Eq, Debug, Drop)]
pub enum Verdict {
    /// It is, so no trace of the kind satisfies the formula.
    Verified,
    Rejected(Reason),
}

/// Why a certificate is not lawful: the first of these that applies, in this order.
#[derive(Clone, Copy, PartialEq, Eq, Debug, Drop)]
pub enum Reason {
    /// It is one of the other kind.
    Kind,
    /// The first line that is no hinted step. Lines count from 1.
    Line(u64),
    /// The first target that names no line that is live at the close, or one with a literal that it may not
    /// have. Targets count from 1.
    Target(u32),
}

/// Why a certificate was not judged.
#[derive(Clone, Copy, PartialEq, Eq, Debug, Drop)]
pub enum CheckRefused {
    /// The bytes are no certificate text: the first byte, counted from 0, with which no text goes on, or the
    /// count of the bytes where they begin a text and are none.
    Form(u64),
    /// The formula has too many letters through the certificate's depth: the greatest depth up to it where it
    /// has few enough.
    Letters(u32),
    /// No memory was left.
    NoMemory,
}

impl From<AllocError> for CheckRefused {
    ghost from_gives = { λ _ e. e ≡ NoMemory };

    fn from(_: AllocError) -> Self {
        CheckRefused::NoMemory
    }
}
