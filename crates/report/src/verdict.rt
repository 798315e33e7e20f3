// The texts of the verdicts, and of the truth of a formula on a trace.
ghost use Rattle.std.specs.Prelude.{◌≡◌, ◌++◌, Ok, OnOk};
ghost use Rattle.std.specs.Option.{option_copied};
ghost use Rattle.ltl_word.specs.Trace.{IsTrace};
ghost use Rattle.ltl_word.specs.Json.{IsReading, trace_text};
ghost use Rattle.report.specs.Texts.{core_text, sat_text, unsat_lines, undecided_text};
ghost use Rattle.report.specs.Texts.{traced_text, checked_text};

use crate::lines::{line, numbered};
use cert_check::{Reason, Verdict};
use ltl_word::Trace;
use std::alloc::{AllocError, Global};

/// Adds SAT at the depth, and the trace.
pub fn sat(alloc: Global, depth: u32, trace: &Trace, out: &mut Vec<u8>) -> Result<(), AllocError>
    ensures text { OnOk result (out.new.items ≡ out.old.items ++ sat_text depth trace.now) }
    // What stands behind the depth reads back as the trace.
    ensures reads { OnOk result (IsTrace trace.now → IsReading (trace_text trace.now) (Ok trace.now)) }
{
    let json = trace.to_json(alloc)?;
    numbered(b"SAT ", depth.into(), out)?;
    line(&json, out)
}

/// Adds UNSAT at the depth, with the printed core where it is given. The core has no newline. The text of a
/// certificate is put behind these lines as it is.
pub fn unsat(depth: u32, core: Option<&[u8]>, out: &mut Vec<u8>) -> Result<(), AllocError>
    ensures { OnOk result (out.new.items
        ≡ out.old.items ++ unsat_lines depth (option_copied core.entry)) }
{
    numbered(b"UNSAT ", depth.into(), out)?;
    add_core(core, out)
}

/// Adds the line of a core.
fn add_core(core: Option<&[u8]>, out: &mut Vec<u8>) -> Result<(), AllocError>
    ensures { OnOk result (out.new.items ≡ out.old.items ++ core_text (option_copied core.entry)) }
{
    if let Some(core) = core {
        out.extend_from_slice(b"core ")?;
        out.extend_from_slice(core)?;
        out.push(b'\n')?;
    }
    Ok(())
}

/// Adds UNDECIDED up to the depth.
pub fn undecided(depth: u32, out: &mut Vec<u8>) -> Result<(), AllocError>
    ensures { OnOk result (out.new.items ≡ out.old.items ++ undecided_text depth) }
{
    numbered(b"UNDECIDED ", depth.into(), out)
}

/// Adds HOLDS or FAILS.
pub fn traced(holds: bool, out: &mut Vec<u8>) -> Result<(), AllocError>
    ensures { OnOk result (out.new.items ≡ out.old.items ++ traced_text holds) }
{
    if holds {
        line(b"HOLDS", out)
    } else {
        line(b"FAILS", out)
    }
}

/// Adds VERIFIED, or REJECTED with the reason.
pub fn checked(verdict: &Verdict, out: &mut Vec<u8>) -> Result<(), AllocError>
    ensures { OnOk result (out.new.items ≡ out.old.items ++ checked_text verdict.now) }
{
    match *verdict {
        Verdict::Verified => line(b"VERIFIED", out),
        Verdict::Rejected(Reason::Kind) => line(b"REJECTED kind", out),
        Verdict::Rejected(Reason::Line(number)) => numbered(b"REJECTED line ", number.into(), out),
        Verdict::Rejected(Reason::Target(number)) => numbered(
            b"REJECTED target ",
            number.into(),
            out,
        ),
    }
}
