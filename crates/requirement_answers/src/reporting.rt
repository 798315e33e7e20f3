// All questions of a document.
ghost use Rattle.std.specs.Prelude.{◌≡◌, ◌<◌, ◌≤◌, length, IfOk, IfErr};
ghost use Rattle.requirement_document.specs.Values.{DocumentValue, document_in};
ghost use Rattle.requirement_answers.specs.declared.findings.Scope.{Scope as AScope};
ghost use Rattle.requirement_answers.specs.Items.{given_numbers};
ghost use Rattle.requirement_answers.specs.Asking.{questions_of};
ghost use Rattle.requirement_answers.specs.Checks.{behaviours_of};
ghost use Rattle.requirement_answers.specs.Answers.{AreCores};
ghost use Rattle.requirement_answers.specs.Reports.{IsReport, IsRefused, RecordsTraces};
ghost use Rattle.requirement_answers.specs.Inner.{AreItems, IsTogether, AreReplies, AreChecks};

use crate::asking::Reply;
use crate::checking::{behaviours, checks};
use crate::conflicts::{Together, set_aside};
use crate::cores::cores;
use crate::effort::{Effort, Watch};
use crate::findings::{Check, Report, ReportRefused, Scope};
use crate::numbers::given_numbers;
use crate::planning::questions;
use crate::sharing::replies;
use requirement_document::Document;
use requirement_questions::Core;
use std::alloc::{AllocError, Global};
use std::thread::Threads;

/// How many items, and how many behaviours, there may be: their numbers are of 32 bits.
const MOST: usize = 4_294_967_295;

/// All that is asked of a document, or of what the scope names, answered. The further questions are shared
/// out among the workers, each in a thread of its own where one can be made; with one worker there is none.
/// `watch` is told of questions before they are asked.
pub fn report_on<R: Threads + Sync, W: Watch>(
    rt: &R,
    alloc: Global,
    document: &Document,
    scope: Scope,
    effort: Effort,
    watch: &mut W,
) -> Result<Report, ReportRefused>
    requires traces { RecordsTraces (document_in document.now) }
    requires some { 1 ≤ effort.workers }
    requires few { effort.workers ≤ 16 }
    ensures report { IfOk result (IsReport (document_in document.now) scope) }
    ensures refused { IfErr result (IsRefused (document_in document.now) scope) }
{
    if document.items.len() > MOST || document.behaviours.len() > MOST {
        return Err(ReportRefused::NoMemory);
    }
    let checked = match all_checks(alloc, document, scope) {
        Ok(checked) => checked,
        Err(refused) => return Err(refused),
    };
    let together = set_aside(alloc, document, effort.limits, watch)?;
    let told = cores(alloc, document, &together.conflicts, effort.limits)?;
    let replied = further(rt, alloc, document, scope, &together.left, effort, watch)?;
    Ok(assembled(together, told, replied, checked))
}

/// The report of what is found.
fn assembled(
    together: Box<Together>,
    cores: Vec<Option<Box<Core>>>,
    replied: Vec<Reply>,
    checked: Vec<Check>,
) -> Report
    ensures { (d : DocumentValue) (scope : AScope) → IsTogether d together.value
        → AreCores d together.value.conflicts.items cores.items
        → AreReplies d together.value.left.items
        (questions_of d scope together.value.left.items) replied.items
        → AreChecks d (given_numbers d) (behaviours_of d scope) checked.items → IsReport d scope result }
{
    let together = Box::into_inner(together);
    Report {
        conflicts: together.conflicts,
        cores,
        left: together.left,
        together: together.answer,
        replies: replied,
        checks: checked,
    }
}

/// The answers to the further questions.
fn further<R: Threads + Sync, W: Watch>(
    rt: &R,
    alloc: Global,
    document: &Document,
    scope: Scope,
    left: &[u32],
    effort: Effort,
    watch: &mut W,
) -> Result<Vec<Reply>, AllocError>
    requires items { length document.now.items.items < 4294967296 }
    requires left { AreItems (document_in document.now) left.now }
    requires some { 1 ≤ effort.workers }
    requires few { effort.workers ≤ 16 }
    ensures { IfOk result (λ found. AreReplies (document_in document.now) left.now
        (questions_of (document_in document.now) scope left.now) found.items) }
{
    let asks = questions(alloc, document, scope, left)?;
    replies(rt, alloc, document, left, &asks, effort, watch)
}

/// The behaviours that the scope covers against the given items.
fn all_checks(alloc: Global, document: &Document, scope: Scope) -> Result<Vec<Check>, ReportRefused>
    requires few { length document.now.items.items < 4294967296 }
    requires recorded { length document.now.behaviours.items < 4294967296 }
    requires traces { RecordsTraces (document_in document.now) }
    ensures checks { IfOk result (λ found. AreChecks (document_in document.now)
        (given_numbers (document_in document.now))
        (behaviours_of (document_in document.now) scope) found.items) }
    ensures refused { IfErr result (IsRefused (document_in document.now) scope) }
{
    let given = given_numbers(alloc, document)?;
    let covered = behaviours(alloc, document, scope)?;
    checks(alloc, document, &given, &covered)
}
