// A report, with a line in the notes for each question where that is asked for. What comes of writing a line
// is not looked at: the report is the same.
ghost use Rattle.std.specs.Prelude.{◌≡◌, ◌++◌, false, IfOk, IfErr, OnOk};
ghost use Rattle.requirement_document.specs.Values.{document_in};
ghost use Rattle.requirement_answers.specs.Reports.{IsReport, IsRefused, RecordsTraces};
ghost use Rattle.requirements_top.specs.Progress.{progress_line, item_text, subject_text, left_text};
ghost use Rattle.requirements_top.specs.Said.{AreFew};

use crate::words::Work;
use ltl_io::{Sink, write_whole};
use requirement_answers::{Asking, NoWatch, Report, ReportRefused, Scope, Watch, report_on};
use requirement_document::Document;
use requirement_report::{name_of, put_flat, question_words};
use std::alloc::{AllocError, Global};
use std::thread::Threads;

/// The report within the scope.
pub fn report_with<R: Threads + Sync, N: Sink>(
    rt: &R,
    alloc: Global,
    document: &Document,
    scope: Scope,
    work: Work,
    notes: &mut N,
) -> Result<Report, ReportRefused>
    requires traces { RecordsTraces (document_in document.now) }
    requires few { AreFew work }
    ensures report { IfOk result (IsReport (document_in document.now) scope) }
    ensures refused { IfErr result (IsRefused (document_in document.now) scope) }
    ensures silent { work.progress ≡ false → notes.new ≡ notes.old }
{
    if !work.progress {
        return report_on(rt, alloc, document, scope, work.effort, &mut NoWatch);
    }
    let mut lines = Lines { alloc, notes };
    report_on(rt, alloc, document, scope, work.effort, &mut lines)
}

/// Writes a line for each question.
#[derive(Drop)]
struct Lines<'n, N: Sink> {
    alloc: Global,
    notes: &'n mut N,
}

impl<N: Sink> Watch for Lines<'_, N> {
    fn begin(&mut self, document: &Document, asking: Asking, left: usize) {
        if let Ok(text) = progress_line(self.alloc, document, asking, left) {
            let _ = write_whole(self.notes, &text);
        }
    }
}

/// The question, the item that it is about, and how many questions stand behind it.
fn progress_line(
    alloc: Global,
    document: &Document,
    asking: Asking,
    left: usize,
) -> Result<Vec<u8>, AllocError>
    ensures { IfOk result (λ text. text.items ≡ progress_line (document_in document.now) asking left) }
{
    let mut text = Vec::from_slice(alloc, question_words(asking))?;
    put_subject(alloc, document, asking, &mut text)?;
    put_left(alloc, left, &mut text)?;
    text.push(b'\n')?;
    Ok(text)
}

/// Adds a blank and the item that the question is about, where it is one.
fn put_subject(
    alloc: Global,
    document: &Document,
    asking: Asking,
    out: &mut Vec<u8>,
) -> Result<(), AllocError>
    ensures { OnOk result (out.new.items ≡ out.old.items ++ subject_text (document_in document.now) asking) }
{
    match asking {
        Asking::Together => Ok(()),
        Asking::Triggered(item)
        | Asking::New(item)
        | Asking::Possible(item)
        | Asking::Follows(item) => put_item(alloc, document, item, out),
    }
}

fn put_item(
    alloc: Global,
    document: &Document,
    item: u32,
    out: &mut Vec<u8>,
) -> Result<(), AllocError>
    ensures { OnOk result (out.new.items ≡ out.old.items ++ item_text (document_in document.now) item) }
{
    out.push(b' ')?;
    put_flat(alloc, name_of(document, item), out)
}

/// Adds how many questions stand behind it, where some do.
fn put_left(alloc: Global, left: usize, out: &mut Vec<u8>) -> Result<(), AllocError>
    ensures { OnOk result (out.new.items ≡ out.old.items ++ left_text left) }
{
    if left == 0 {
        return Ok(());
    }
    out.extend_from_slice(b" (")?;
    out.extend_from_slice(left.to_string(alloc)?.as_bytes())?;
    out.extend_from_slice(b" left)")
}
