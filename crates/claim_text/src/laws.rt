//! Laws of the texts. Each function is empty: its contract is the law, and a proof cites it by a call.
ghost use Rattle.claim_text.specs.Worked.{WorkedTexts};
ghost use Rattle.claim_text.specs.Laws.{TextsSayOne, OthersHaveFaults, TextsHaveNone, FaultsAreOne};
ghost use Rattle.claim_text.specs.Laws.{WrittenIsText};

/// A text says one thing. Bytes that are no text have one fault, and a text has none.
pub fn texts()
    ensures one { TextsSayOne }
    ensures other { OthersHaveFaults }
    ensures none { TextsHaveNone }
    ensures fault { FaultsAreOne }
    ensures written { WrittenIsText }
{}

/// Texts that were judged by hand.
pub fn worked()
    ensures { WorkedTexts }
{}
