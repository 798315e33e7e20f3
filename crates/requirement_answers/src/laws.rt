//! Laws of reports. Each function is empty or calls the laws that it stands on: its contract is the law, and
//! a proof cites it by a call.
ghost use Rattle.std.specs.Prelude.{List, ℕ};
ghost use Rattle.requirement_document.specs.Values.{DocumentValue};
ghost use Rattle.requirement_document.specs.Document.{IsDocument};
ghost use Rattle.requirement_answers.specs.Laws.{VerdictIsRight};
ghost use Rattle.requirement_answers.specs.Reports.{RecordsTraces};
ghost use Rattle.requirement_answers.specs.Worked.{WorkedDocument};

/// Where the verdict on the whole document is that all is as wished, it is.
pub fn verdict_is_right()
    ensures { VerdictIsRight }
{
    ltl_word::laws::decided();
}

/// The behaviours of a document are traces, as a report wants.
pub fn behaviours_are_traces()
    ensures { (text : List ℕ) (d : DocumentValue) → IsDocument text d → RecordsTraces d }
{}

/// What is asked of a small document, worked by hand.
pub fn worked_document()
    ensures { WorkedDocument }
{}
