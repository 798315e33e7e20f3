// The text and the status of each answer.
ghost use Rattle.std.specs.Prelude.{◌≡◌, [], true, false, IfOk, OnOk, Some, None};
ghost use Rattle.std.specs.Option.{option_copied};
ghost use Rattle.ltl_word.specs.Trace.{IsTrace};
ghost use Rattle.report.specs.Texts.{ReadsBack};
ghost use Rattle.black_top.specs.Answer.{refused, sat, unsat, undecided, holds, fails, checked, summary};
ghost use Rattle.black_top.specs.Answer.{batched, no_path, paths_hold, path_fails, watched};
ghost use Rattle.black_top.specs.Answer.{shown_status, are_true, watched_status};
ghost use Rattle.black_top.specs.Inner.{Shows};

use crate::Status;
use batch_run::{LineAnswer, all_verdicts, batch_text};
use cert_check::Verdict;
use ltl_word::Trace;
use report::{Fault, Shown, Summary};
use std::alloc::{AllocError, Global};

/// What is shown of an answer.
#[derive(Drop)]
pub struct Output {
    pub status: Status,
    pub text: Vec<u8>,
}

/// SAT at the depth, and the trace.
pub fn sat(alloc: Global, depth: u32, trace: &Trace) -> Result<Output, AllocError>
    ensures shows { IfOk result (λ out. Shows out (sat depth trace.now)) }
    ensures reads { OnOk result (IsTrace trace.now → ReadsBack trace.now) }
{
    let mut text = Vec::new(alloc);
    report::sat(alloc, depth, trace, &mut text)?;
    Ok(Output {
        status: Status::Sat,
        text,
    })
}

/// UNSAT at the depth, with a printed core where one is given. The text of a certificate is put behind it.
pub fn unsat(alloc: Global, depth: u32, core: Option<&[u8]>) -> Result<Output, AllocError>
    ensures { IfOk result (λ out. Shows out (unsat depth (option_copied core.entry) None)) }
{
    let mut text = Vec::new(alloc);
    report::unsat(depth, core, &mut text)?;
    Ok(Output {
        status: Status::Unsat,
        text,
    })
}

/// UNDECIDED up to the depth.
pub fn undecided(alloc: Global, depth: u32) -> Result<Output, AllocError>
    ensures { IfOk result (λ out. Shows out (undecided depth)) }
{
    let mut text = Vec::new(alloc);
    report::undecided(depth, &mut text)?;
    Ok(Output {
        status: Status::Undecided,
        text,
    })
}

/// HOLDS.
pub fn holds(alloc: Global) -> Result<Output, AllocError>
    ensures { IfOk result (λ out. Shows out holds) }
{
    let mut text = Vec::new(alloc);
    report::traced(true, &mut text)?;
    Ok(Output {
        status: Status::Good,
        text,
    })
}

/// FAILS.
pub fn fails(alloc: Global) -> Result<Output, AllocError>
    ensures { IfOk result (λ out. Shows out fails) }
{
    let mut text = Vec::new(alloc);
    report::traced(false, &mut text)?;
    Ok(Output {
        status: Status::Negative,
        text,
    })
}

/// The summary of a demo.
pub fn summary(alloc: Global, about: &Summary) -> Result<Output, AllocError>
    ensures { IfOk result (λ out. Shows out (summary about.now)) }
{
    let mut text = Vec::new(alloc);
    report::demo(about, &mut text)?;
    Ok(Output {
        status: shown_status(about.verdict),
        text,
    })
}

fn shown_status(verdict: Shown) -> Status
    ensures { result ≡ shown_status verdict }
{
    match verdict {
        Shown::Sat(_) => Status::Sat,
        Shown::Unsat(_) => Status::Unsat,
        Shown::Undecided(_) => Status::Undecided,
    }
}

/// VERIFIED, or REJECTED with the reason.
pub fn checked(alloc: Global, verdict: Verdict) -> Result<Output, AllocError>
    ensures { IfOk result (λ out. Shows out (checked verdict)) }
{
    let status = match verdict {
        Verdict::Verified => Status::Good,
        Verdict::Rejected(_) => Status::Negative,
    };
    let mut text = Vec::new(alloc);
    report::checked(&verdict, &mut text)?;
    Ok(Output { status, text })
}

/// The answers to the lines of a batch.
pub fn batched(alloc: Global, answers: &[LineAnswer]) -> Result<Output, AllocError>
    ensures { IfOk result (λ out. Shows out (batched answers.now)) }
{
    let status = if all_verdicts(answers) {
        Status::Good
    } else {
        Status::Text
    };
    Ok(Output {
        status,
        text: batch_text(alloc, answers)?,
    })
}

/// NO PATH at the depth.
pub fn no_path(alloc: Global, depth: u32) -> Result<Output, AllocError>
    ensures { IfOk result (λ out. Shows out (no_path depth)) }
{
    let mut text = Vec::new(alloc);
    report::no_path(depth, &mut text)?;
    Ok(Output {
        status: Status::Unsat,
        text,
    })
}

/// HOLDS at the depth.
pub fn paths_hold(alloc: Global, depth: u32) -> Result<Output, AllocError>
    ensures { IfOk result (λ out. Shows out (paths_hold depth None)) }
{
    let mut text = Vec::new(alloc);
    report::paths_hold(depth, &mut text)?;
    Ok(Output {
        status: Status::Good,
        text,
    })
}

/// HOLDS at the depth, with a printed formula. The text of its certificate is put behind it.
pub fn paths_hold_by(alloc: Global, depth: u32, formula: &[u8]) -> Result<Output, AllocError>
    ensures { IfOk result (λ out. Shows out (paths_hold depth
        (Some record { formula = formula.now; certificate = [] }))) }
{
    let mut text = Vec::new(alloc);
    report::paths_hold_by(depth, formula, &mut text)?;
    Ok(Output {
        status: Status::Good,
        text,
    })
}

/// FAILS at the depth, and the path.
pub fn path_fails(alloc: Global, depth: u32, path: &Trace) -> Result<Output, AllocError>
    ensures shows { IfOk result (λ out. Shows out (path_fails depth path.now)) }
    ensures reads { OnOk result (IsTrace path.now → ReadsBack path.now) }
{
    let mut text = Vec::new(alloc);
    report::path_fails(alloc, depth, path, &mut text)?;
    Ok(Output {
        status: Status::Negative,
        text,
    })
}

/// The answers of a monitor, one a line.
pub fn watched(alloc: Global, answers: &[bool]) -> Result<Output, AllocError>
    ensures { IfOk result (λ out. Shows out (watched answers.now)) }
{
    let mut text = Vec::new(alloc);
    report::answers(answers, &mut text)?;
    Ok(Output {
        status: watched_status(answers),
        text,
    })
}

fn watched_status(answers: &[bool]) -> Status
    ensures { result ≡ watched_status answers.now }
{
    if are_true(answers) {
        Status::Good
    } else {
        Status::Negative
    }
}

fn are_true(answers: &[bool]) -> bool
    ensures { result ≡ are_true answers.now }
{
    answers.iter().all(|answer| *answer)
}

/// A refusal with its line, or the usage.
pub fn refusal(alloc: Global, fault: Fault) -> Result<Output, AllocError>
    ensures { IfOk result (λ out. Shows out (refused fault)) }
{
    let mut text = Vec::new(alloc);
    report::refused(&fault, &mut text)?;
    Ok(Output {
        status: fault.status(),
        text,
    })
}
