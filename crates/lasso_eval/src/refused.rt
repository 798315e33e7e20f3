// Why a formula was not evaluated.
ghost use Rattle.std.specs.Prelude.{◌≡◌};
ghost use Rattle.lasso_eval.specs.declared.refused.EvalRefused.TheVariants.{NoMemory};

use std::alloc::{AllocError, AllocFailed};

/// Why a formula was not evaluated.
#[derive(Clone, Copy, Debug, PartialEq, Eq)]
pub enum EvalRefused {
    /// The table would have this many cells, which is above 67,108,864.
    Cells(u128),
    /// No memory was left.
    NoMemory,
}

impl From<AllocError> for EvalRefused {
    ghost from_gives = { λ _ e. e ≡ NoMemory };

    fn from(_: AllocError) -> Self {
        EvalRefused::NoMemory
    }
}

impl<T: Drop> From<AllocFailed<T>> for EvalRefused {
    ghost from_gives = { λ _ e. e ≡ NoMemory };

    fn from(_: AllocFailed<T>) -> Self {
        EvalRefused::NoMemory
    }
}
