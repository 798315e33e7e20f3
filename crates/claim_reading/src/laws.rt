//! Laws of claims as formulas. Each function is empty: its contract is the law, and a proof cites it by a
//! call.
ghost use Rattle.claim_reading.specs.Laws.{ReadableIsNormal, LinesAreTexts, LawfulAreOfEntries, NeversHold};
ghost use Rattle.claim_reading.specs.Worked.{WorkedLines};

/// What a normal form is read as has that normal form.
pub fn readable_is_normal()
    ensures { ReadableIsNormal }
{}

/// What a line says is the text of the claim's formula, without the parentheses of its `&`.
pub fn lines_are_texts()
    ensures { LinesAreTexts }
{}

/// Lawful layers have claims that can be printed, and what is printed of them is true: no trace of the kind
/// has a position where such a formula holds.
pub fn nevers_hold()
    ensures entries { LawfulAreOfEntries }
    ensures hold { NeversHold }
{}

/// Lines that were written by hand.
pub fn worked()
    ensures { WorkedLines }
{}
