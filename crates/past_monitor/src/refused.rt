// Why there is no monitor of a formula, or no answer to a text.
ghost use Rattle.std.specs.Prelude.{◌≡◌};
ghost use Rattle.past_monitor.specs.declared.refused.MonitorRefused.TheVariants.{NoMemory};
ghost use Rattle.past_monitor.specs.declared.refused.WatchRefused.TheVariants as watch_refused;

use std::alloc::{AllocError, AllocFailed};

/// Why there is no monitor: an operator that looks ahead is under the root, or memory ran out.
#[derive(Clone, Copy, Debug, PartialEq, Eq)]
pub enum MonitorRefused {
    /// One of `X wX F G U R W M X[n] F[a,b] G[a,b]`.
    Future,
    /// Memory was wanting, and nothing is said of the formula.
    NoMemory,
}

impl From<AllocError> for MonitorRefused {
    ghost from_gives = { λ _ e. e ≡ NoMemory };

    fn from(_: AllocError) -> MonitorRefused {
        MonitorRefused::NoMemory
    }
}

impl<T: Drop> From<AllocFailed<T>> for MonitorRefused {
    ghost from_gives = { λ _ e. e ≡ NoMemory };

    fn from(_: AllocFailed<T>) -> MonitorRefused {
        MonitorRefused::NoMemory
    }
}

/// Why there are no answers to a text.
#[derive(Clone, Copy, Debug, PartialEq, Eq)]
pub enum WatchRefused {
    /// An operator that looks ahead is under the root.
    Future,
    /// The line with this number, from 1, is the first that is neither white space nor a state.
    State(u64),
    /// Memory was wanting, and nothing is said of the formula and the text.
    NoMemory,
}

impl From<AllocError> for WatchRefused {
    ghost from_gives = { λ _ e. e ≡ watch_refused.NoMemory };

    fn from(_: AllocError) -> WatchRefused {
        WatchRefused::NoMemory
    }
}

impl<T: Drop> From<AllocFailed<T>> for WatchRefused {
    ghost from_gives = { λ _ e. e ≡ watch_refused.NoMemory };

    fn from(_: AllocFailed<T>) -> WatchRefused {
        WatchRefused::NoMemory
    }
}
