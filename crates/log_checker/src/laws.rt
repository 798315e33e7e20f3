//! Laws of checking. Each function is empty: its contract is the law, and a proof cites it by a call.
ghost use Rattle.log_checker.specs.Laws.{FirstBadIsThere, CutsAgree, CheckersKeepLive, HintsGoOn};
ghost use Rattle.log_checker.specs.Laws.{NoHintsRefute, UnnamedRefuteNothing};

/// The first bad line, by however many pieces it is looked for, and what a checker keeps that takes one
/// part after another.
pub fn judging()
    ensures first { FirstBadIsThere }
    ensures cuts { CutsAgree }
    ensures kept { CheckersKeepLive }
{}

/// How hints are gone through one after another.
pub fn hint_by_hint()
    ensures on { HintsGoOn }
    ensures none { NoHintsRefute }
    ensures unnamed { UnnamedRefuteNothing }
{}
