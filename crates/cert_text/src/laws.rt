//! Laws of certificate texts. Each function is empty: its contract is the law, and a proof cites it by a
//! call.
ghost use Rattle.cert_text.specs.Worked.{WorkedTexts};
ghost use Rattle.cert_text.specs.Laws.{TextsSayOne, TextsAreFound, FaultsAreOne, TextsHaveNone};
ghost use Rattle.cert_text.specs.Laws.{OthersHaveOne, ScansRead, ScansBegin, ScansStop, ScansEnd, AllAreLive};
ghost use Rattle.cert_text.specs.Laws.{GoodLinesAreLive, LiveToUser, LastUsersStand, GoodLinesFollow};
ghost use Rattle.cert_text.specs.Laws.{LastUsesAreLast, EndedAscend, EndedAreOne, EndedAmongAll, LinesStand};
ghost use Rattle.cert_text.specs.Laws.{TargetsStand, WrittenSays, WrittenIsText, WrittenIsGood};
ghost use Rattle.cert_text.specs.Laws.{TargetsAreLive};

/// A text says one thing. Bytes that are no text have one form fault, and a text has none.
pub fn texts()
    ensures one { TextsSayOne }
    ensures found { TextsAreFound }
    ensures fault { FaultsAreOne }
    ensures none { TextsHaveNone }
    ensures other { OthersHaveOne }
{}

/// One pass over the bytes reads a text to its end, and stops at the form fault.
pub fn scanning()
    ensures read { ScansRead }
    ensures begins { ScansBegin }
    ensures stops { ScansStop }
    ensures ends { ScansEnd }
{}

/// Which lines are live where.
pub fn live_lines()
    ensures all { AllAreLive }
    ensures good { GoodLinesAreLive }
    ensures user { LiveToUser }
    ensures stand { LastUsersStand }
    ensures follow { GoodLinesFollow }
{}

/// The text of given lines and targets, with each line deleted after its last use.
pub fn writing()
    ensures says { WrittenSays }
    ensures text { WrittenIsText }
    ensures good { WrittenIsGood }
    ensures targets { TargetsAreLive }
{}

/// Texts that were judged by hand.
pub fn worked()
    ensures { WorkedTexts }
{}

/// What is deleted behind a line that is written.
pub fn deleting()
    ensures last { LastUsesAreLast }
    ensures ended { EndedAscend }
    ensures one { EndedAreOne }
    ensures among { EndedAmongAll }
{}

/// Where the parts of a text stand.
pub fn standing()
    ensures lines { LinesStand }
    ensures targets { TargetsStand }
{}
