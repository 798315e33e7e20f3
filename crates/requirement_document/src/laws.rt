//! Laws of documents. Each function is empty or calls the laws that it stands on: its contract is the law,
//! and a proof cites it by a call.
ghost use Rattle.std.specs.Prelude.{◌≡◌, List, ℕ};
ghost use Rattle.requirement_document.specs.declared.fault.DocumentFault.{DocumentFault};
ghost use Rattle.requirement_document.specs.Values.{DocumentValue};
ghost use Rattle.requirement_document.specs.Document.{IsDocument, HasFault};
ghost use Rattle.requirement_document.specs.Worked.{WorkedDocuments};

/// No text is a document and has a fault.
pub fn document_or_fault()
    ensures { (text : List ℕ) (d : DocumentValue) (f : DocumentFault) → IsDocument text d → HasFault text f → ⊥ }
{
    ltl_parser::laws::one_outcome();
}

/// A text is one document at most.
pub fn one_document()
    ensures { (text : List ℕ) (d e : DocumentValue) → IsDocument text d → IsDocument text e → d ≡ e }
{
    ltl_parser::laws::one_outcome();
}

/// Documents that were judged by hand.
pub fn worked()
    ensures { WorkedDocuments }
{
    ltl_parser::laws::printed_text();
}
