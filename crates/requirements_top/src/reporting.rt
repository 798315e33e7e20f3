// What is printed of a document: its report in one of its forms, whole or about one name, a certificate, or
// its letters.
ghost use Rattle.std.specs.Prelude.{◌≡◌, false, IfOk};
ghost use Rattle.report.specs.declared.status.Status.TheVariants as statuses;
ghost use Rattle.requirement_document.specs.Values.{document_in};
ghost use Rattle.requirement_answers.specs.Reports.{IsReport, RecordsTraces};
ghost use Rattle.requirement_answers.specs.Verdicts.{verdict};
ghost use Rattle.requirement_report.specs.Letters.{letters_text};
ghost use Rattle.requirement_report.specs.Shown.{ReportCanBeShown};
ghost use Rattle.requirements_top.specs.Words.{progress_of};
ghost use Rattle.requirements_top.specs.Said.{face_of, request_of, query_of, AreFew, IsFit};
ghost use Rattle.requirements_top.specs.Inner.{Shows};
ghost use Rattle.requirements_top.specs.Naming.{IsAskedAbout};
ghost use Rattle.requirements_top.specs.Answer.{IsFaceOf, IsReported, IsPrinted, verdict_status};

use crate::Status;
use crate::certifying::certified;
use crate::naming::scope_named;
use crate::output::{Output, cells, no_item};
use crate::progress::report_with;
use crate::words::{Face, Query, Request};
use ltl_io::Sink;
use requirement_answers::{Report, ReportRefused, ReportVerdict, Scope, verdict_of};
use requirement_document::Document;
use requirement_json::json;
use requirement_page::page;
use requirement_questions::Limits;
use requirement_report::laws::reports_can_be_shown;
use requirement_report::{letters_text, text};
use std::alloc::{AllocError, Global};
use std::thread::Threads;

/// What is asked of a document.
pub fn printed<R: Threads + Sync, N: Sink>(
    rt: &R,
    alloc: Global,
    query: Query<'_>,
    document: &Document,
    notes: &mut N,
) -> Result<Output, AllocError>
    requires traces { RecordsTraces (document_in document.now) }
    requires fit { IsFit query }
    ensures printed { IfOk result (λ out.
        IsPrinted document.now (query_of query.entry) out.status out.text.items) }
    ensures silent { progress_of (query_of query.entry) ≡ false → notes.new ≡ notes.old }
{
    match query {
        Query::Letters => letters(alloc, document),
        Query::About(request) => report(rt, alloc, request, document, notes),
        Query::Certificate { name, work } => certified(rt, alloc, name, work, document, notes),
    }
}

/// The letters of a document.
fn letters(alloc: Global, document: &Document) -> Result<Output, AllocError>
    ensures { IfOk result (λ out. Shows out statuses.Good (letters_text (document_in document.now))) }
{
    Ok(Output {
        status: Status::Good,
        text: letters_text(alloc, document)?,
    })
}

/// The report on a document, or on what has the name in it.
fn report<R: Threads + Sync, N: Sink>(
    rt: &R,
    alloc: Global,
    request: Request<'_>,
    document: &Document,
    notes: &mut N,
) -> Result<Output, AllocError>
    requires traces { RecordsTraces (document_in document.now) }
    requires few { AreFew request.work }
    ensures printed { IfOk result (λ out.
        IsReported document.now (request_of request.entry) out.status out.text.items) }
    ensures silent { request.entry.work.progress ≡ false → notes.new ≡ notes.old }
{
    let Some(name) = request.only else {
        return scoped(rt, alloc, request, document, Scope::All, notes);
    };
    match scope_named(document, name)? {
        Some(scope) => scoped(rt, alloc, request, document, scope, notes),
        None => no_item(alloc, name),
    }
}

/// The report within the scope.
fn scoped<R: Threads + Sync, N: Sink>(
    rt: &R,
    alloc: Global,
    request: Request<'_>,
    document: &Document,
    scope: Scope,
    notes: &mut N,
) -> Result<Output, AllocError>
    requires traces { RecordsTraces (document_in document.now) }
    requires few { AreFew request.work }
    requires asked { IsAskedAbout (document_in document.now) (request_of request).only scope }
    ensures printed { IfOk result (λ out.
        IsReported document.now (request_of request.entry) out.status out.text.items) }
    ensures silent { request.entry.work.progress ≡ false → notes.new ≡ notes.old }
{
    reports_can_be_shown();
    match report_with(rt, alloc, document, scope, request.work, notes) {
        Ok(report) => shown(alloc, document, &report, scope, request),
        Err(ReportRefused::Cells { behaviour, .. }) => cells(alloc, document, behaviour),
        Err(ReportRefused::NoMemory) => Err(AllocError),
    }
}

/// A report in its form, and its verdict's status.
fn shown(
    alloc: Global,
    document: &Document,
    report: &Report,
    scope: Scope,
    request: Request<'_>,
) -> Result<Output, AllocError>
    requires { ReportCanBeShown report.now }
    ensures { IfOk result (λ out. (out.status ≡ verdict_status (verdict report.now))
        × IsFaceOf (face_of request.entry.face) (document_in document.now) report.now scope
        request.entry.work.effort.limits.steps out.text.items) }
{
    let text = faced(
        alloc,
        document,
        report,
        scope,
        request.face,
        request.work.effort.limits,
    )?;
    Ok(Output {
        status: verdict_status(verdict_of(report)),
        text,
    })
}

/// A report in a form.
fn faced(
    alloc: Global,
    document: &Document,
    report: &Report,
    scope: Scope,
    face: Face,
    limits: Limits,
) -> Result<Vec<u8>, AllocError>
    requires { ReportCanBeShown report.now }
    ensures { IfOk result (λ text.
        IsFaceOf (face_of face) (document_in document.now) report.now scope limits.steps text.items) }
{
    match face {
        Face::Text => text(alloc, document, report, scope, limits),
        Face::Json => json(alloc, document, report, limits),
        Face::Page => page(alloc, document, report, scope, limits),
    }
}

fn verdict_status(verdict: ReportVerdict) -> Status
    ensures { result ≡ verdict_status verdict }
{
    match verdict {
        ReportVerdict::AsWished => Status::Good,
        ReportVerdict::NotAsWished => Status::Negative,
        ReportVerdict::Undecided => Status::Undecided,
    }
}
