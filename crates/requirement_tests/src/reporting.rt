// A report on the document that a text is.
ghost use Rattle.std.specs.Prelude.{◌≤◌, IfOk};
ghost use Rattle.requirement_certificate.specs.Text.{HaveFormulas};
ghost use Rattle.requirement_report.specs.Shown.{ReportCanBeShown};

use requirement_answers::laws::behaviours_are_traces;
use requirement_answers::{Effort, NoWatch, Report, Scope, Watch, report_on};
use requirement_certificate::laws::reports_have_formulas;
use requirement_document::{Document, read};
use requirement_questions::Limits;
use requirement_report::laws::reports_can_be_shown;
use std::alloc::Global;
use std::test::Fail;
use std::thread::Threads;

/// The document, and the report. It can be shown, and its certificates can be asked for.
pub(crate) fn reported<R: Threads + Sync>(
    rt: &R,
    alloc: Global,
    text: &str,
    scope: Scope,
    limits: Limits,
) -> Result<(Document, Report), Fail>
    ensures shown { IfOk result (λ r. ReportCanBeShown r.1) }
    ensures formulas { IfOk result (λ r. HaveFormulas r.1) }
{
    reported_by(
        rt,
        alloc,
        text,
        scope,
        Effort { limits, workers: 1 },
        &mut NoWatch,
    )
}

/// The same by this number of workers, and told to somebody.
pub(crate) fn reported_by<R: Threads + Sync, W: Watch>(
    rt: &R,
    alloc: Global,
    text: &str,
    scope: Scope,
    effort: Effort,
    watch: &mut W,
) -> Result<(Document, Report), Fail>
    requires some { 1 ≤ effort.workers }
    requires few { effort.workers ≤ 16 }
    ensures shown { IfOk result (λ r. ReportCanBeShown r.1) }
    ensures formulas { IfOk result (λ r. HaveFormulas r.1) }
{
    behaviours_are_traces();
    reports_can_be_shown();
    reports_have_formulas();
    let document = read(alloc, text.as_bytes())?;
    let report = report_on(rt, alloc, &document, scope, effort, watch)?;
    Ok((document, report))
}
