// The text and the status of each answer.
ghost use Rattle.std.specs.Prelude.{[], IfOk, OnOk};
ghost use Rattle.ltl_word.specs.Trace.{IsTrace};
ghost use Rattle.report.specs.Texts.{ReadsBack};
ghost use Rattle.refute_top.specs.Answer.{refused, usage, sat, unsat, certified, undecided, checked};
ghost use Rattle.refute_top.specs.Inner.{Shows};

use crate::Status;
use crate::verdict::add_verdict;
use claim_check::ClaimVerdict;
use command_words::refutation_usage;
use ltl_word::Trace;
use report::{Fault, line};
use std::alloc::{AllocError, Global};

/// What is shown of an answer.
#[derive(Drop)]
pub struct Output {
    pub status: Status,
    pub text: Vec<u8>,
}

/// SAT and the trace.
pub fn sat(alloc: Global, trace: &Trace) -> Result<Output, AllocError>
    ensures shows { IfOk result (λ out. Shows out (sat trace.now)) }
    ensures reads { OnOk result (IsTrace trace.now → ReadsBack trace.now) }
{
    let json = trace.to_json(alloc)?;
    let mut text = Vec::new(alloc);
    line(b"SAT", &mut text)?;
    line(&json, &mut text)?;
    Ok(Output {
        status: Status::Sat,
        text,
    })
}

/// UNSAT and the lines of invariants.
pub fn unsat(alloc: Global, lines: &[u8]) -> Result<Output, AllocError>
    ensures { IfOk result (λ out. Shows out (unsat lines.now)) }
{
    let mut text = Vec::new(alloc);
    line(b"UNSAT", &mut text)?;
    text.extend_from_slice(lines)?;
    Ok(Output {
        status: Status::Unsat,
        text,
    })
}

/// UNSAT. The text of a certificate is put behind it.
pub fn certified(alloc: Global) -> Result<Output, AllocError>
    ensures { IfOk result (λ out. Shows out (certified [])) }
{
    let mut text = Vec::new(alloc);
    line(b"UNSAT", &mut text)?;
    Ok(Output {
        status: Status::Unsat,
        text,
    })
}

/// UNDECIDED.
pub fn undecided(alloc: Global) -> Result<Output, AllocError>
    ensures { IfOk result (λ out. Shows out undecided) }
{
    let mut text = Vec::new(alloc);
    line(b"UNDECIDED", &mut text)?;
    Ok(Output {
        status: Status::Undecided,
        text,
    })
}

/// VERIFIED, or REJECTED with the reason.
pub fn checked(alloc: Global, verdict: ClaimVerdict) -> Result<Output, AllocError>
    ensures { IfOk result (λ out. Shows out (checked verdict)) }
{
    let status = match verdict {
        ClaimVerdict::Verified => Status::Good,
        ClaimVerdict::Refused(_) => Status::Negative,
    };
    let mut text = Vec::new(alloc);
    add_verdict(verdict, &mut text)?;
    Ok(Output { status, text })
}

/// A refusal with its line.
pub fn refusal(alloc: Global, fault: Fault) -> Result<Output, AllocError>
    ensures { IfOk result (λ out. Shows out (refused fault)) }
{
    let mut text = Vec::new(alloc);
    report::refused(&fault, &mut text)?;
    Ok(Output {
        status: fault.status(),
        text,
    })
}

/// The usage.
pub fn usage(alloc: Global) -> Result<Output, AllocError>
    ensures { IfOk result (λ out. Shows out usage) }
{
    Ok(Output {
        status: Status::Usage,
        text: Vec::from_slice(alloc, refutation_usage())?,
    })
}
