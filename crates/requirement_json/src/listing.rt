// All answers of a report, in the order of the text. None is left out here, not even one that goes without
// saying.
ghost use Rattle.std.specs.Prelude.{◌≡◌, [], ◌∷◌, ◌++◌, map, IfOk, OnOk, All};
ghost use Rattle.serde_json.specs.Data.{array};
ghost use Rattle.serde_json.specs.View.{view, items_of};
ghost use Rattle.requirement_document.specs.Values.{document_in};
ghost use Rattle.requirement_report.specs.Shown.{CanBeShown, AnswerCanBeShown, ReportCanBeShown};
ghost use Rattle.requirement_answers.specs.declared.asking.Asking.TheVariants.{Together};
ghost use Rattle.requirement_json.specs.Answers.{answer_data, conflicts_from, reply_data};
ghost use Rattle.requirement_json.specs.Checks.{check_data};
ghost use Rattle.requirement_json.specs.Whole.{answers_of};

use crate::answers::{answer_value, conflict_value};
use crate::checks::check_value;
use requirement_answers::{Asking, Check, Reply, Report};
use requirement_document::Document;
use requirement_questions::{Because, Core, Limits};
use requirement_report::core_at;
use serde_json::Value;
use std::alloc::{AllocError, Global};

/// An array of all answers: conflicts, what is met together, further answers, behaviours.
pub fn answers_value(
    alloc: Global,
    document: &Document,
    report: &Report,
    limits: Limits,
) -> Result<Value, AllocError>
    requires { ReportCanBeShown report.now }
    ensures { IfOk result (λ value. view value
        ≡ array (items_of (answers_of (document_in document.now) report.now limits.steps))) }
{
    let mut answers = Vec::new(alloc);
    push_conflicts(
        alloc,
        document,
        &report.conflicts,
        &report.cores,
        &mut answers,
    )?;
    push_together(alloc, document, limits, report, &mut answers)?;
    push_replies(alloc, document, limits, &report.replies, &mut answers)?;
    push_checks(alloc, document, &report.checks, &mut answers)?;
    Ok(Value::Array(answers))
}

/// Adds the conflicts. The core of each stands in the other list at the same place.
fn push_conflicts(
    alloc: Global,
    document: &Document,
    conflicts: &[Box<Because>],
    cores: &[Option<Box<Core>>],
    answers: &mut Vec<Value>,
) -> Result<(), AllocError>
    requires { All (λ b. CanBeShown b.value) conflicts.now }
    ensures { OnOk result (map view answers.new.items ≡ map view answers.old.items
        ++ conflicts_from (document_in document.now) cores.now 0 conflicts.now) }
{
    let mut place: usize = 0;
    for because in conflicts {
        let value = conflict_value(alloc, document, because, core_at(cores, place))?;
        answers.push(value)?;
        place += 1;
    }
    Ok(())
}

/// Adds the answer whether what is left can be met together.
fn push_together(
    alloc: Global,
    document: &Document,
    limits: Limits,
    report: &Report,
    answers: &mut Vec<Value>,
) -> Result<(), AllocError>
    requires { AnswerCanBeShown report.now.together }
    ensures { OnOk result (map view answers.new.items ≡ map view answers.old.items
        ++ answer_data (document_in document.now) limits.steps Together report.now.together ∷ []) }
{
    let value = answer_value(alloc, document, limits, Asking::Together, &report.together)?;
    answers.push(value)?;
    Ok(())
}

/// Adds the answers to the further questions, in the order in which they were asked.
fn push_replies(
    alloc: Global,
    document: &Document,
    limits: Limits,
    replies: &[Reply],
    answers: &mut Vec<Value>,
) -> Result<(), AllocError>
    requires { All (λ p. AnswerCanBeShown p.answer) replies.now }
    ensures { OnOk result (map view answers.new.items ≡ map view answers.old.items
        ++ map (reply_data (document_in document.now) limits.steps) replies.now) }
{
    for reply in replies {
        let value = answer_value(alloc, document, limits, reply.asking, &reply.answer)?;
        answers.push(value)?;
    }
    Ok(())
}

/// Adds what was found of each behaviour.
fn push_checks(
    alloc: Global,
    document: &Document,
    checks: &[Check],
    answers: &mut Vec<Value>,
) -> Result<(), AllocError>
    ensures { OnOk result (map view answers.new.items ≡ map view answers.old.items
        ++ map (check_data (document_in document.now)) checks.now) }
{
    for check in checks {
        answers.push(check_value(alloc, document, check)?)?;
    }
    Ok(())
}
