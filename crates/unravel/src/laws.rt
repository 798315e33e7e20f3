//! The law of verdicts. The function is empty: its contract is the law, and a proof cites it by a call.
ghost use Rattle.unravel.specs.Laws.{VerdictIsThere};

/// Each formula has a verdict at each limit. That it has no second one is a law of `ltl_run`.
pub fn verdict_exists()
    ensures { VerdictIsThere }
{}
