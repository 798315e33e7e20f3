//! Laws of monitors. Each function is empty: its contract is the law, and a proof cites it by a call.
ghost use Rattle.past_monitor.specs.Laws.{PrefixDecides, RunsAreRight, HasOneAnswer};

/// Whether a formula that does not look ahead holds at a position of a finite trace depends on the states up
/// to it alone.
pub fn prefixes()
    ensures { PrefixDecides }
{}

/// A new monitor that takes states one after the other answers, for each, whether its formula holds at the
/// last position of the finite trace of the states up to it.
pub fn runs()
    ensures { RunsAreRight }
{}

/// A text has one answer, but for want of memory.
pub fn one_answer()
    ensures { HasOneAnswer }
{}
