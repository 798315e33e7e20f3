// The text of a report: its answers block by block, then the letters that may be slips, and the verdict with
// counts. The page of the same report is put together in `requirement_page/src/whole.rt`, the JSON in
// `requirement_json/src/report.rt`.
ghost use Rattle.std.specs.Prelude.{◌≡◌, ◌++◌, IfOk, OnOk, All};
ghost use Rattle.std.specs.Option.{option_copied};
ghost use Rattle.requirement_document.specs.Values.{document_in};
ghost use Rattle.requirement_report.specs.Shown.{CanBeShown, ReportCanBeShown};
ghost use Rattle.requirement_report.specs.Text.{conflict_before, conflict_blocks, set_aside};
ghost use Rattle.requirement_report.specs.Text.{answers_text, IsText};

use crate::blocks::{Left, put_replies, put_together};
use crate::checks::put_checks;
use crate::conflicts::put_conflict;
use crate::ending::put_ending;
use crate::parts::core_at;
use crate::remarks::put_slips;
use crate::subjects::aside;
use requirement_answers::{Counts, Report, Scope, counts_of, verdict_of};
use requirement_document::Document;
use requirement_questions::{Because, Core, Limits, Member};
use std::alloc::{AllocError, Global};

/// The text of a report about a document, in the scope and within the limits in which it was asked.
pub fn text(
    alloc: Global,
    document: &Document,
    report: &Report,
    scope: Scope,
    limits: Limits,
) -> Result<Vec<u8>, AllocError>
    requires { ReportCanBeShown report.now }
    ensures { IfOk result (λ text.
        IsText (document_in document.now) report.now scope limits.steps text.items) }
{
    let mut out = Vec::new(alloc);
    let counts = counts_of(document, report);
    put_answers(alloc, document, report, scope, limits, counts, &mut out)?;
    put_slips(alloc, document, scope, &mut out)?;
    put_ending(alloc, verdict_of(report), counts, &mut out)?;
    Ok(out)
}

/// Adds the blocks of all answers, in the order in which the questions are asked.
fn put_answers(
    alloc: Global,
    document: &Document,
    report: &Report,
    scope: Scope,
    limits: Limits,
    counts: Counts,
    out: &mut Vec<u8>,
) -> Result<(), AllocError>
    requires { ReportCanBeShown report.now }
    ensures { OnOk result (out.new.items ≡ out.old.items
        ++ answers_text (document_in document.now) report.now scope limits.steps counts) }
{
    let aside = set_aside(alloc, document, report)?;
    let left = report.left.len();
    let count = Left {
        left,
        all: counts.met.all,
    };
    put_conflicts(alloc, document, &report.conflicts, &report.cores, out)?;
    put_together(
        alloc,
        document,
        limits,
        count,
        &aside,
        &report.together,
        out,
    )?;
    put_replies(alloc, document, scope, limits, &report.replies, out)?;
    put_checks(alloc, document, &report.checks, out)
}

/// The items that are set aside: the given ones that are not left, once there is a conflict. None is marked
/// as not needed.
pub fn set_aside(
    alloc: Global,
    document: &Document,
    report: &Report,
) -> Result<Vec<Member>, AllocError>
    ensures { IfOk result (λ members. members.items
        ≡ set_aside (document_in document.now) report.now) }
{
    if report.conflicts.is_empty() {
        return Ok(Vec::new(alloc));
    }
    aside(alloc, document, &report.left)
}

/// Adds the blocks of all conflicts. The core of each stands in the other list at the same place.
fn put_conflicts(
    alloc: Global,
    document: &Document,
    conflicts: &[Box<Because>],
    cores: &[Option<Box<Core>>],
    out: &mut Vec<u8>,
) -> Result<(), AllocError>
    requires { All (λ b. CanBeShown b.value) conflicts.now }
    ensures { OnOk result (out.new.items ≡ out.old.items
        ++ conflict_blocks (document_in document.now) cores.now 0 conflicts.now) }
{
    let mut place: usize = 0;
    for because in conflicts {
        put_conflict_before(alloc, document, because, core_at(cores, place), out)?;
        place += 1;
    }
    Ok(())
}

/// Adds the block of a conflict, and an empty line behind it.
fn put_conflict_before(
    alloc: Global,
    document: &Document,
    because: &Because,
    core: Option<&Core>,
    out: &mut Vec<u8>,
) -> Result<(), AllocError>
    requires { CanBeShown because.now }
    ensures { OnOk result (out.new.items ≡ out.old.items
        ++ conflict_before (document_in document.now) (option_copied core.entry) because.now) }
{
    put_conflict(alloc, document, because, core, out)?;
    out.extend_from_slice(b"\n")
}
