// Behaviours against the given items.
ghost use Rattle.std.specs.Prelude.{◌≡◌, ◌<◌, length, All, IfOk, IfErr, OnOk};
ghost use Rattle.requirement_document.specs.Values.{document_in};
ghost use Rattle.requirement_questions.specs.Failure.{IsFirstFailure};
ghost use Rattle.requirement_answers.specs.Items.{formula_of};
ghost use Rattle.requirement_answers.specs.Asking.{covers_behaviour};
ghost use Rattle.requirement_answers.specs.Checks.{trace_of, behaviours_of};
ghost use Rattle.requirement_answers.specs.Reports.{RecordsTraces, IsRefusedAmong};
ghost use Rattle.requirement_answers.specs.Inner.{IsLooked, IsRefusedAt, IsRefusedFor, IsCheckOf, AreChecks};

use crate::findings::{Break, Check, ReportRefused, Scope};
use crate::numbers::add_if;
use crate::replying::item_at;
use lasso_eval::EvalRefused;
use requirement_document::Document;
use requirement_questions::first_failure;
use std::alloc::{AllocError, Global};

/// These behaviours against these items.
pub fn checks(
    alloc: Global,
    document: &Document,
    given: &[u32],
    behaviours: &[u32],
) -> Result<Vec<Check>, ReportRefused>
    requires traces { RecordsTraces (document_in document.now) }
    requires given { All (λ n. n < length document.now.items.items) given.now }
    requires behaviours { All (λ b. b < length document.now.behaviours.items) behaviours.now }
    ensures checks { IfOk result (λ found. AreChecks (document_in document.now) given.now behaviours.now
        found.items) }
    ensures refused { IfErr result (IsRefusedAmong (document_in document.now) behaviours.now given.now) }
{
    let mut found = Vec::with_capacity(alloc, behaviours.len())?;
    'behaviours: for k in 0..behaviours.len() {
        let checked = one_check(alloc, document, given, behaviours[k])?;
        found.push(checked)?;
    }
    Ok(found)
}

/// The behaviours that the scope covers.
pub fn behaviours(alloc: Global, document: &Document, scope: Scope) -> Result<Vec<u32>, AllocError>
    requires { length document.now.behaviours.items < 4294967296 }
    ensures { IfOk result (λ numbers. numbers.items ≡ behaviours_of (document_in document.now) scope) }
{
    let mut numbers = Vec::new(alloc);
    'behaviours: for number in 0..document.behaviours.len() {
        let covered = covers_behaviour(scope, number as u32);
        add_if(&mut numbers, covered, number as u32)?;
    }
    Ok(numbers)
}

/// Whether a report of this scope is about a behaviour.
fn covers_behaviour(scope: Scope, number: u32) -> bool
    ensures { result ≡ covers_behaviour scope number }
{
    match scope {
        Scope::All => true,
        Scope::Item(_) => false,
        Scope::Behaviour(behaviour) => behaviour == number,
    }
}

/// A behaviour against these items.
fn one_check(
    alloc: Global,
    document: &Document,
    given: &[u32],
    behaviour: u32,
) -> Result<Check, ReportRefused>
    requires traces { RecordsTraces (document_in document.now) }
    requires given { All (λ n. n < length document.now.items.items) given.now }
    requires behaviour { behaviour < length document.now.behaviours.items }
    ensures check { IfOk result (IsCheckOf (document_in document.now) given.now behaviour) }
    ensures refused { IfErr result (IsRefusedFor (document_in document.now) behaviour given.now) }
{
    let mut breaks = Vec::new(alloc);
    'given: for k in 0..given.len() {
        look(alloc, document, behaviour, given[k], &mut breaks)?;
    }
    Ok(Check { behaviour, breaks })
}

/// Adds the item where the behaviour breaks it.
fn look(
    alloc: Global,
    document: &Document,
    behaviour: u32,
    number: u32,
    breaks: &mut Vec<Break>,
) -> Result<(), ReportRefused>
    requires traces { RecordsTraces (document_in document.now) }
    requires number { number < length document.now.items.items }
    requires behaviour { behaviour < length document.now.behaviours.items }
    ensures found { OnOk result (IsLooked (document_in document.now)
        (trace_of (document_in document.now) behaviour) number breaks.old.items breaks.new.items) }
    ensures refused { IfErr result (IsRefusedAt (document_in document.now) behaviour number) }
{
    let Some(position) = place_of(alloc, document, behaviour, number)? else {
        return Ok(());
    };
    breaks.push(Break {
        item: number,
        position,
    })?;
    Ok(())
}

/// Where the item fails first on the behaviour, if it does.
fn place_of(
    alloc: Global,
    document: &Document,
    behaviour: u32,
    number: u32,
) -> Result<Option<u32>, ReportRefused>
    requires traces { RecordsTraces (document_in document.now) }
    requires number { number < length document.now.items.items }
    requires behaviour { behaviour < length document.now.behaviours.items }
    ensures place { IfOk result (IsFirstFailure (trace_of (document_in document.now) behaviour)
        (formula_of (document_in document.now) number)) }
    ensures refused { IfErr result (IsRefusedAt (document_in document.now) behaviour number) }
{
    let item = item_at(document, number);
    let recorded = &document.behaviours[behaviour as usize];
    match first_failure(alloc, item.table, item.root, &recorded.trace) {
        Ok(place) => Ok(place),
        Err(EvalRefused::Cells(_)) => Err(ReportRefused::Cells {
            behaviour,
            item: number,
        }),
        Err(EvalRefused::NoMemory) => Err(ReportRefused::NoMemory),
    }
}
