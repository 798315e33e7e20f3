// The text of a demo: what was asked, how much it was, and what came of it.
ghost use Rattle.std.specs.Prelude.{◌≡◌, ◌++◌, OnOk};
ghost use Rattle.report.specs.Summary.{shown_text, summary_text};

use crate::lines::numbered;
use std::alloc::AllocError;

/// A verdict as it is shown, with its depth and without a trace.
#[derive(Clone, Copy, Debug, PartialEq, Eq)]
pub enum Shown {
    Sat(u32),
    Unsat(u32),
    Undecided(u32),
}

/// What is shown of a demo.
#[derive(Clone, Copy, Debug, PartialEq, Eq)]
pub struct Summary {
    /// The number that the demo was asked for with.
    pub number: u32,
    /// The nodes of its formula.
    pub nodes: u32,
    /// The entries of the formula's closure.
    pub entries: u32,
    /// The letters of the clauses through the depth `number`.
    pub letters: u64,
    pub verdict: Shown,
}

/// Adds the five lines of the summary.
pub fn demo(summary: &Summary, out: &mut Vec<u8>) -> Result<(), AllocError>
    ensures { OnOk result (out.new.items ≡ out.old.items ++ summary_text summary.now) }
{
    numbered(b"demo ", summary.number.into(), out)?;
    numbered(b"nodes ", summary.nodes.into(), out)?;
    numbered(b"entries ", summary.entries.into(), out)?;
    numbered(b"letters ", summary.letters.into(), out)?;
    add_verdict(summary.verdict, out)
}

fn add_verdict(verdict: Shown, out: &mut Vec<u8>) -> Result<(), AllocError>
    ensures { OnOk result (out.new.items ≡ out.old.items ++ shown_text verdict) }
{
    match verdict {
        Shown::Sat(depth) => numbered(b"SAT ", depth.into(), out),
        Shown::Unsat(depth) => numbered(b"UNSAT ", depth.into(), out),
        Shown::Undecided(depth) => numbered(b"UNDECIDED ", depth.into(), out),
    }
}
