// A report about a document as one JSON object: what is said of the report, and what is said of the document.
// The text of the same report is put together in `requirement_report/src/whole.rt`.
ghost use Rattle.std.specs.Prelude.{◌≡◌, IfOk, OnOk};
ghost use Rattle.serde_json.specs.View.{view, members_view};
ghost use Rattle.requirement_document.specs.Values.{document_in};
ghost use Rattle.requirement_answers.specs.Verdicts.{verdict};
ghost use Rattle.requirement_report.specs.Text.{set_aside};
ghost use Rattle.requirement_report.specs.Shown.{ReportCanBeShown};
ghost use Rattle.requirement_json.specs.Whole.{answers_of, aside_data, told, with_letters};
ghost use Rattle.requirement_json.specs.Whole.{with_document, json_of};

use crate::items::{items_value, kind_text, name_value};
use crate::letters::{letters_value, slips_value};
use crate::listing::answers_value;
use crate::texts::put_text;
use requirement_answers::{Report, verdict_of};
use requirement_document::Document;
use requirement_questions::{Limits, Member};
use requirement_report::{set_aside, slips_among, uses_of, verdict_text};
use serde_json::{Map, Value, put};
use std::alloc::{AllocError, Global};

/// The whole object. It tells of the document too, so that nothing else is needed to read it.
pub fn report_value(
    alloc: Global,
    document: &Document,
    report: &Report,
    limits: Limits,
) -> Result<Value, AllocError>
    requires { ReportCanBeShown report.now }
    ensures { IfOk result (λ value.
        view value ≡ json_of (document_in document.now) report.now limits.steps) }
{
    let mut members = told(alloc, document, report, limits)?;
    put_document(alloc, document, &mut members)?;
    Ok(Value::Object(members))
}

/// What is said of the report: all answers, what is set aside, and the verdict.
fn told(
    alloc: Global,
    document: &Document,
    report: &Report,
    limits: Limits,
) -> Result<Map<String, Value>, AllocError>
    requires { ReportCanBeShown report.now }
    ensures { IfOk result (λ members. members_view members.entries
        ≡ told (document_in document.now) (answers_of (document_in document.now) report.now limits.steps)
        (set_aside (document_in document.now) report.now) (verdict report.now)) }
{
    let answers = answers_value(alloc, document, report, limits)?;
    let left_out = set_aside(alloc, document, report)?;
    let aside = aside_value(alloc, document, &left_out)?;
    let mut members = Map::new(alloc);
    put(&mut members, alloc, "answers", answers)?;
    put(&mut members, alloc, "aside", aside)?;
    put_text(
        alloc,
        "verdict",
        verdict_text(verdict_of(report)),
        &mut members,
    )?;
    Ok(members)
}

/// Puts in what is said of the document: the kind of its traces, its letters, slips and items.
fn put_document(
    alloc: Global,
    document: &Document,
    members: &mut Map<String, Value>,
) -> Result<(), AllocError>
    ensures { OnOk result (members_view members.new.entries
        ≡ with_document (document_in document.now) (members_view members.old.entries)) }
{
    let traces = Value::try_from_str(alloc, kind_text(document.kind))?;
    put(members, alloc, "traces", traces)?;
    put_letters(alloc, document, members)?;
    let items = items_value(alloc, &document.items)?;
    put(members, alloc, "items", items)
}

/// Puts in the letters, and those that may be slips. Here they are told whatever the report is about.
fn put_letters(
    alloc: Global,
    document: &Document,
    members: &mut Map<String, Value>,
) -> Result<(), AllocError>
    ensures { OnOk result (members_view members.new.entries
        ≡ with_letters (document_in document.now) (members_view members.old.entries)) }
{
    let uses = uses_of(alloc, document)?;
    let letters = letters_value(alloc, document, &uses)?;
    let among = slips_among(alloc, &uses)?;
    let slips = slips_value(alloc, document, &among)?;
    put(members, alloc, "slips", slips)?;
    put(members, alloc, "letters", letters)
}

/// The names of the items that are set aside.
fn aside_value(alloc: Global, document: &Document, members: &[Member]) -> Result<Value, AllocError>
    ensures { IfOk result (λ value.
        view value ≡ aside_data (document_in document.now) members.now) }
{
    let mut values = Vec::with_capacity(alloc, members.len())?;
    for member in members {
        values.push(name_value(alloc, document, member.given)?)?;
    }
    Ok(Value::Array(values))
}
