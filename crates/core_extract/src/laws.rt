//! Laws of cores. Each function is empty: its contract is the law, and a proof cites it by a call.
ghost use Rattle.core_extract.specs.Laws.{TestsAreOne, CoreIsOne, LimitIsThere, TestsDecide, CoreIsThere};
ghost use Rattle.core_extract.specs.Laws.{CoreIsRefuted, CoreHasNoTrace, CoreIsLeast, CoreIsApart};

/// A formula has one core at most.
pub fn core_is_one()
    ensures test { TestsAreOne }
    ensures core { CoreIsOne }
{}

/// A formula within the limit on sizes has a limit in force, is refuted or unrefuted there, and has a core.
pub fn core_exists()
    ensures limit { LimitIsThere }
    ensures test { TestsDecide }
    ensures core { CoreIsThere }
{}

/// The core of a refuted formula is refuted and has no trace, and with one kept occurrence more replaced it
/// is refuted no more.
pub fn core_is_least()
    ensures refuted { CoreIsRefuted }
    ensures no_trace { CoreHasNoTrace }
    ensures least { CoreIsLeast }
    ensures apart { CoreIsApart }
{}
