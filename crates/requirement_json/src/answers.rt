// The answers to questions about formulas as JSON. The text tells them in
// `requirement_report/src/answers.rt`.
ghost use Rattle.std.specs.Prelude.{◌≡◌, IfOk, OnOk};
ghost use Rattle.std.specs.Option.{option_copied};
ghost use Rattle.serde_json.specs.Data.{number, unsigned};
ghost use Rattle.serde_json.specs.View.{view, members_view};
ghost use Rattle.requirement_document.specs.Values.{document_in};
ghost use Rattle.requirement_report.specs.Shown.{CanBeShown, AnswerCanBeShown};
ghost use Rattle.requirement_json.specs.Answers.{question_text, said, with_reason, with_found};
ghost use Rattle.requirement_json.specs.Answers.{with_name, answer_data, conflict_data};

use crate::because::put_because;
use crate::items::name_value;
use crate::texts::text_value;
use crate::traces::trace_value;
use requirement_answers::Asking;
use requirement_document::Document;
use requirement_questions::{Because, Core, Limits, QuestionAnswer};
use requirement_report::{nevers, word_of};
use serde_json::{Map, Value, put};
use std::alloc::{AllocError, Global};

/// A question with its answer, and with the name of the item that it is about.
pub fn answer_value(
    alloc: Global,
    document: &Document,
    limits: Limits,
    asking: Asking,
    answer: &QuestionAnswer,
) -> Result<Value, AllocError>
    requires { AnswerCanBeShown answer.now }
    ensures { IfOk result (λ value. view value
        ≡ answer_data (document_in document.now) limits.steps asking answer.now) }
{
    let mut members = said(alloc, word_of(asking, answer), question_text(asking))?;
    put_found(alloc, document, limits, answer, &mut members)?;
    put_name(alloc, document, asking, &mut members)?;
    Ok(Value::Object(members))
}

/// A conflict: the answer that what is given cannot be met together, with its members and what matters of
/// each.
pub fn conflict_value(
    alloc: Global,
    document: &Document,
    because: &Because,
    core: Option<&Core>,
) -> Result<Value, AllocError>
    requires { CanBeShown because.now }
    ensures { IfOk result (λ value. view value
        ≡ conflict_data (document_in document.now) (option_copied core.entry) because.now) }
{
    let mut members = said(alloc, b"conflict", "consistent")?;
    put_reason(alloc, document, core, because, &mut members)?;
    Ok(Value::Object(members))
}

/// The word of a question, which is the same whatever the answer.
fn question_text(asking: Asking) -> &'static str
    ensures { result.now ≡ question_text asking }
{
    match asking {
        Asking::Together => "consistent",
        Asking::Triggered(_) => "triggered",
        Asking::New(_) => "new",
        Asking::Possible(_) => "possible",
        Asking::Follows(_) => "follows",
    }
}

/// What each answer has: its word, and the word of the question.
fn said(alloc: Global, word: &[u8], question: &str) -> Result<Map<String, Value>, AllocError>
    ensures { IfOk result (λ members.
        members_view members.entries ≡ said word.now question.now) }
{
    let word = text_value(alloc, word)?;
    let question = Value::try_from_str(alloc, question)?;
    let mut members = Map::new(alloc);
    put(&mut members, alloc, "answer", word)?;
    put(&mut members, alloc, "question", question)?;
    Ok(members)
}

/// Puts in what was found: a trace, or why there is none, or the limit that left the question open. What
/// matters of the members is told of conflicts only, so there is no core here.
fn put_found(
    alloc: Global,
    document: &Document,
    limits: Limits,
    answer: &QuestionAnswer,
    members: &mut Map<String, Value>,
) -> Result<(), AllocError>
    requires { AnswerCanBeShown answer.now }
    ensures { OnOk result (members_view members.new.entries ≡ with_found (document_in document.now)
        limits.steps answer.now (members_view members.old.entries)) }
{
    match answer {
        QuestionAnswer::Can(trace) => {
            let trace = trace_value(alloc, trace)?;
            put(members, alloc, "trace", trace)
        }
        QuestionAnswer::Cannot(because) => put_reason(alloc, document, None, because, members),
        QuestionAnswer::Undecided => put(members, alloc, "steps", Value::from(limits.steps)),
        QuestionAnswer::TooLarge(size) => {
            let nodes = size_value(*size)?;
            put(members, alloc, "nodes", nodes)
        }
    }
}

/// A size of 2^64 or more has no number here. A document has none: each of its formulas has at most 16,384
/// nodes, and memory ends before their sum is that large.
fn size_value(size: u128) -> Result<Value, AllocError>
    ensures { IfOk result (λ value. view value ≡ number (unsigned size)) }
{
    match u64::try_from(size) {
        Ok(size) => Ok(Value::from(size)),
        Err(_) => Err(AllocError),
    }
}

/// Puts in why there is no trace: the members, and all claims of the certificate.
fn put_reason(
    alloc: Global,
    document: &Document,
    core: Option<&Core>,
    because: &Because,
    members: &mut Map<String, Value>,
) -> Result<(), AllocError>
    requires { CanBeShown because.now }
    ensures { OnOk result (members_view members.new.entries ≡ with_reason (document_in document.now)
        (option_copied core.entry) because.now (members_view members.old.entries)) }
{
    let nevers = nevers(alloc, document.kind, because)?;
    put_because(alloc, document, core, &because.members, &nevers, members)
}

/// Puts in the name of the item that is asked about. Whether all can be met together is asked about none.
fn put_name(
    alloc: Global,
    document: &Document,
    asking: Asking,
    members: &mut Map<String, Value>,
) -> Result<(), AllocError>
    ensures { OnOk result (members_view members.new.entries
        ≡ with_name (document_in document.now) asking (members_view members.old.entries)) }
{
    match asking {
        Asking::Together => Ok(()),
        Asking::Triggered(item)
        | Asking::New(item)
        | Asking::Possible(item)
        | Asking::Follows(item) => {
            let name = name_value(alloc, document, item)?;
            put(members, alloc, "name", name)
        }
    }
}
