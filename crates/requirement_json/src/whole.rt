// A report about a document as JSON on one line. The text of the same report is made in
// `requirement_report/src/whole.rt`, the page in `requirement_page/src/whole.rt`.
ghost use Rattle.std.specs.Prelude.{◌≡◌, IfOk};
ghost use Rattle.requirement_document.specs.Values.{document_in};
ghost use Rattle.requirement_report.specs.Shown.{ReportCanBeShown};
ghost use Rattle.requirement_json.specs.Whole.{json_text};

use crate::report::report_value;
use requirement_answers::Report;
use requirement_document::Document;
use requirement_questions::Limits;
use std::alloc::{AllocError, Global};

/// The answers of a report as one JSON object, on one line.
pub fn json(
    alloc: Global,
    document: &Document,
    report: &Report,
    limits: Limits,
) -> Result<Vec<u8>, AllocError>
    requires { ReportCanBeShown report.now }
    ensures { IfOk result (λ text.
        text.items ≡ json_text (document_in document.now) report.now limits.steps) }
{
    let value = report_value(alloc, document, report, limits)?;
    let mut text = value.to_vec(alloc)?;
    text.extend_from_slice(b"\n")?;
    Ok(text)
}
