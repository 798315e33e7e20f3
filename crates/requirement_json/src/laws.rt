//! Laws of the JSON text. Each function is empty: its contract is the law, and a proof cites it by a call.
ghost use Rattle.requirement_json.specs.Laws.{IsOnOneLine};
ghost use Rattle.requirement_json.specs.Worked.{WorkedTexts};

/// The object of a report has no newline within.
pub fn on_one_line()
    ensures { IsOnOneLine }
{}

/// Texts that were written by hand.
pub fn worked()
    ensures { WorkedTexts }
{}
