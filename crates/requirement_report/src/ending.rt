// The last block: the verdict, and counts. On the page they come first: `requirement_page/src/counts.rt`.
ghost use Rattle.std.specs.Prelude.{◌≡◌, ◌++◌, OnOk};
ghost use Rattle.requirement_report.specs.Text.{verdict_text, met_line, count_line, later_counts};
ghost use Rattle.requirement_report.specs.Text.{count_lines, ending};

use crate::lines::{put_inner, put_of_all};
use requirement_answers::{Counts, ReportVerdict, Tally};
use std::alloc::{AllocError, Global};

/// Adds an empty line, the verdict and the lines of counts.
pub fn put_ending(
    alloc: Global,
    verdict: ReportVerdict,
    counts: Counts,
    out: &mut Vec<u8>,
) -> Result<(), AllocError>
    ensures { OnOk result (out.new.items ≡ out.old.items ++ ending verdict counts) }
{
    out.extend_from_slice(b"\n")?;
    out.extend_from_slice(verdict_text(verdict))?;
    out.extend_from_slice(b"\n")?;
    put_counts(alloc, counts, out)
}

/// The words of a verdict, which the page and the JSON have too.
pub fn verdict_text(verdict: ReportVerdict) -> &'static [u8]
    ensures { result.now ≡ verdict_text verdict }
{
    match verdict {
        ReportVerdict::AsWished => b"as wished",
        ReportVerdict::NotAsWished => b"not as wished",
        ReportVerdict::Undecided => b"undecided",
    }
}

/// Adds a line of counts for each sort of question that was asked, in the order in which they are asked.
fn put_counts(alloc: Global, counts: Counts, out: &mut Vec<u8>) -> Result<(), AllocError>
    ensures { OnOk result (out.new.items ≡ out.old.items ++ count_lines counts) }
{
    put_met(alloc, counts.met, out)?;
    put_count(alloc, b"triggered", counts.triggered, out)?;
    put_count(alloc, b"says something new", counts.new, out)?;
    put_later_counts(alloc, counts, out)
}

/// Adds the counts of what the document itself asks: what may happen, what should follow, and what its
/// behaviours keep.
fn put_later_counts(alloc: Global, counts: Counts, out: &mut Vec<u8>) -> Result<(), AllocError>
    ensures { OnOk result (out.new.items ≡ out.old.items ++ later_counts counts) }
{
    put_count(alloc, b"possible", counts.possible, out)?;
    put_count(alloc, b"follows", counts.follows, out)?;
    put_count(alloc, b"keeps all", counts.keeps, out)
}

/// Adds how many of the assumed and required items are met together. That is asked in each report, so the
/// line is always there.
fn put_met(alloc: Global, met: Tally, out: &mut Vec<u8>) -> Result<(), AllocError>
    ensures { OnOk result (out.new.items ≡ out.old.items ++ met_line met) }
{
    let mut line = Vec::from_slice(alloc, b"met together: ")?;
    put_of_all(met.good as u128, met.all as u128, &mut line)?;
    put_inner(&line, out)
}

/// Adds how many questions of a sort have the answer that one hopes for, of how many. Where none was asked
/// there is no line.
fn put_count(alloc: Global, words: &[u8], tally: Tally, out: &mut Vec<u8>) -> Result<(), AllocError>
    ensures { OnOk result (out.new.items ≡ out.old.items ++ count_line words.now tally) }
{
    if tally.all == 0 {
        return Ok(());
    }
    let mut line = Vec::from_slice(alloc, words)?;
    line.extend_from_slice(b": ")?;
    put_of_all(tally.good as u128, tally.all as u128, &mut line)?;
    put_inner(&line, out)
}
