// The certificate of the first answer about a name that says that there is no trace. Its text is printed only
// where `black-refute --check` verifies it.
ghost use Rattle.std.specs.Prelude.{◌≡◌, false, IfOk};
ghost use Rattle.requirement_document.specs.Values.{document_in};
ghost use Rattle.requirement_answers.specs.Reports.{RecordsTraces};
ghost use Rattle.requirement_certificate.specs.Text.{HaveFormulas};
ghost use Rattle.requirements_top.specs.Said.{AreFew};
ghost use Rattle.requirements_top.specs.Naming.{IsNamed};
ghost use Rattle.requirements_top.specs.Certified.{IsJudged, IsCertified};
ghost use Rattle.requirements_top.specs.Inner.{ShowsTried};

use crate::Status;
use crate::naming::scope_named;
use crate::output::{Output, beyond, cells, no_certificate, no_item};
use crate::progress::report_with;
use crate::words::Work;
use ltl_io::Sink;
use ltl_syntax::Kind;
use requirement_answers::{Report, ReportRefused, Scope};
use requirement_certificate::laws::reports_have_formulas;
use requirement_certificate::{certificate, is_verified};
use requirement_document::Document;
use std::alloc::{AllocError, Global};
use std::thread::Threads;

/// The certificate about what has the name.
pub fn certified<R: Threads + Sync, N: Sink>(
    rt: &R,
    alloc: Global,
    name: &str,
    work: Work,
    document: &Document,
    notes: &mut N,
) -> Result<Output, AllocError>
    requires traces { RecordsTraces (document_in document.now) }
    requires few { AreFew work }
    ensures printed { IfOk result (λ out.
        IsCertified (document_in document.now) name.now out.status out.text.items) }
    ensures silent { work.progress ≡ false → notes.new ≡ notes.old }
{
    match scope_named(document, name)? {
        Some(scope) => certified_within(rt, alloc, name, scope, work, document, notes),
        None => no_item(alloc, name),
    }
}

/// The certificate about what the scope names.
fn certified_within<R: Threads + Sync, N: Sink>(
    rt: &R,
    alloc: Global,
    name: &str,
    scope: Scope,
    work: Work,
    document: &Document,
    notes: &mut N,
) -> Result<Output, AllocError>
    requires traces { RecordsTraces (document_in document.now) }
    requires few { AreFew work }
    requires named { IsNamed (document_in document.now) name.now scope }
    ensures printed { IfOk result (λ out.
        IsCertified (document_in document.now) name.now out.status out.text.items) }
    ensures silent { work.progress ≡ false → notes.new ≡ notes.old }
{
    reports_have_formulas();
    match report_with(rt, alloc, document, scope, work, notes) {
        Ok(report) => judged(alloc, document, name, &report, scope),
        Err(ReportRefused::Cells { behaviour, .. }) => cells(alloc, document, behaviour),
        Err(ReportRefused::NoMemory) => Err(AllocError),
    }
}

/// What comes of the report.
fn judged(
    alloc: Global,
    document: &Document,
    name: &str,
    report: &Report,
    scope: Scope,
) -> Result<Output, AllocError>
    requires { HaveFormulas report.now }
    ensures { IfOk result (λ out. IsJudged (document_in document.now) name.now scope report.now
        out.status out.text.items) }
{
    match certificate(alloc, report, scope)? {
        Some(text) => tried(alloc, document.kind, text),
        None => no_certificate(alloc, name),
    }
}

/// The text, where it is verified.
fn tried(alloc: Global, kind: Kind, text: Vec<u8>) -> Result<Output, AllocError>
    ensures { IfOk result (λ out. ShowsTried kind text.items out) }
{
    if is_verified(alloc, kind, &text)? {
        return Ok(Output {
            status: Status::Good,
            text,
        });
    }
    beyond(alloc)
}
