// The page of a report: the verdict, the counts, the answers, letters that may be slips, and the items. The
// text of the same report is put together in `requirement_report/src/whole.rt`.
ghost use Rattle.std.specs.Prelude.{◌≡◌, ◌^◌, ◌<◌, ◌++◌, length, All, IfOk, OnOk};
ghost use Rattle.requirement_document.specs.Values.{document_in};
ghost use Rattle.requirement_answers.specs.Verdicts.{verdict};
ghost use Rattle.requirement_report.specs.Shown.{CanBeShown, ReportCanBeShown};
ghost use Rattle.requirement_report.specs.Text.{set_aside};
ghost use Rattle.requirement_page.specs.Answers.{together_article};
ghost use Rattle.requirement_page.specs.Places.{together_number, first_reply, first_check};
ghost use Rattle.requirement_page.specs.Page.{verdict_sort, declared, titled, styled, judged, head};
ghost use Rattle.requirement_page.specs.Page.{conflict_articles, reply_if, reply_articles, check_articles};
ghost use Rattle.requirement_page.specs.Page.{answer_articles, IsPage};

use crate::answers::{Left, put_reply, put_together};
use crate::checks::put_check;
use crate::counts::put_table;
use crate::items::put_all_items;
use crate::marks::put_badge;
use crate::places::{first_check, first_reply, next_number, together_number};
use crate::reasons::put_conflict;
use crate::slips::put_slips;
use crate::style::put_style;
use requirement_answers::{
    Check, Counts, Reply, Report, ReportVerdict, Scope, counts_of, verdict_of,
};
use requirement_document::Document;
use requirement_questions::{Because, Core, Limits};
use requirement_report::{core_at, is_hidden, set_aside, verdict_text};
use std::alloc::{AllocError, Global};

/// A report as a page of HTML that needs nothing else and runs nothing. `scope` tells what was asked,
/// `limits` what is said where an answer is open.
pub fn page(
    alloc: Global,
    document: &Document,
    report: &Report,
    scope: Scope,
    limits: Limits,
) -> Result<Vec<u8>, AllocError>
    requires { ReportCanBeShown report.now }
    ensures { IfOk result (λ text.
        IsPage (document_in document.now) report.now scope limits.steps text.items) }
{
    let counts = counts_of(document, report);
    let mut out = Vec::new(alloc);
    put_head_of(report, &mut out)?;
    put_table(counts, &mut out)?;
    put_answers(alloc, document, report, scope, limits, counts, &mut out)?;
    put_slips(alloc, document, scope, &mut out)?;
    put_all_items(alloc, document, scope, report, &mut out)?;
    out.extend_from_slice(b"</body>\n</html>\n")?;
    Ok(out)
}

/// Adds what stands before the counts: the head of the file, and the verdict as the heading of the page.
fn put_head_of(report: &Report, out: &mut Vec<u8>) -> Result<(), AllocError>
    ensures { OnOk result (out.new.items ≡ out.old.items ++ head (verdict report.now)) }
{
    put_head(verdict_of(report), out)
}

/// The same for a verdict.
fn put_head(verdict: ReportVerdict, out: &mut Vec<u8>) -> Result<(), AllocError>
    ensures { OnOk result (out.new.items ≡ out.old.items ++ head verdict) }
{
    put_declared(out)?;
    put_titled(verdict, out)?;
    put_styled(out)?;
    put_judged(verdict, out)
}

/// Adds that this is a page of HTML, that it runs no script, and that it asks for no other file.
fn put_declared(out: &mut Vec<u8>) -> Result<(), AllocError>
    ensures { OnOk result (out.new.items ≡ out.old.items ++ declared) }
{
    out.extend_from_slice(
        b"<!DOCTYPE html>\n<html lang=\"en\">\n<head>\n<meta charset=\"utf-8\">\n",
    )?;
    out.extend_from_slice(
        b"<meta name=\"viewport\" content=\"width=device-width, initial-scale=1\">\n",
    )?;
    out.extend_from_slice(
        b"<meta http-equiv=\"Content-Security-Policy\" \
          content=\"default-src 'none'; style-src 'unsafe-inline'\">\n",
    )
}

/// Adds the title, which has the verdict.
fn put_titled(verdict: ReportVerdict, out: &mut Vec<u8>) -> Result<(), AllocError>
    ensures { OnOk result (out.new.items ≡ out.old.items ++ titled verdict) }
{
    out.extend_from_slice(b"<title>Requirements: ")?;
    out.extend_from_slice(verdict_text(verdict))?;
    out.extend_from_slice(b"</title>\n")
}

/// Adds the style. With it the head of the file ends.
fn put_styled(out: &mut Vec<u8>) -> Result<(), AllocError>
    ensures { OnOk result (out.new.items ≡ out.old.items ++ styled) }
{
    out.extend_from_slice(b"<style>")?;
    put_style(out)?;
    out.extend_from_slice(b"</style>\n</head>\n<body>\n")
}

/// Adds the heading of the page: the verdict in the colour of its sort.
fn put_judged(verdict: ReportVerdict, out: &mut Vec<u8>) -> Result<(), AllocError>
    ensures { OnOk result (out.new.items ≡ out.old.items ++ judged verdict) }
{
    out.extend_from_slice(b"<h1>Requirements: ")?;
    put_badge(verdict_sort(verdict), verdict_text(verdict), out)?;
    out.extend_from_slice(b"</h1>\n")
}

/// The sort of a verdict. None is a remark, as remarks change no verdict.
fn verdict_sort(verdict: ReportVerdict) -> &'static [u8]
    ensures { result.now ≡ verdict_sort verdict }
{
    match verdict {
        ReportVerdict::AsWished => b"good",
        ReportVerdict::NotAsWished => b"bad",
        ReportVerdict::Undecided => b"open",
    }
}

/// Adds the heading and the articles of all answers, in the order of the text.
fn put_answers(
    alloc: Global,
    document: &Document,
    report: &Report,
    scope: Scope,
    limits: Limits,
    counts: Counts,
    out: &mut Vec<u8>,
) -> Result<(), AllocError>
    requires { ReportCanBeShown report.now }
    ensures { OnOk result (out.new.items ≡ out.old.items
        ++ answer_articles (document_in document.now) report.now scope limits.steps counts) }
{
    out.extend_from_slice(b"<h2>Answers</h2>\n")?;
    put_conflicts(alloc, document, &report.conflicts, &report.cores, out)?;
    put_left(alloc, document, report, limits, counts, out)?;
    put_all_replies(alloc, document, report, scope, limits, out)?;
    put_all_checks(alloc, document, report, scope, out)
}

/// Adds the article that says whether what is left can be met together, with what is set aside.
fn put_left(
    alloc: Global,
    document: &Document,
    report: &Report,
    limits: Limits,
    counts: Counts,
    out: &mut Vec<u8>,
) -> Result<(), AllocError>
    ensures { OnOk result (out.new.items ≡ out.old.items
        ++ together_article (document_in document.now) limits.steps (together_number report.now)
        (length report.now.left.items) counts.met.all (set_aside (document_in document.now) report.now)
        report.now.together) }
{
    let aside = set_aside(alloc, document, report)?;
    let left = report.left.len();
    let count = Left {
        left,
        all: counts.met.all,
    };
    put_together(
        alloc,
        document,
        limits,
        together_number(report),
        count,
        &aside,
        &report.together,
        out,
    )
}

/// Adds the articles of the further answers, numbered behind that of what is met together.
fn put_all_replies(
    alloc: Global,
    document: &Document,
    report: &Report,
    scope: Scope,
    limits: Limits,
    out: &mut Vec<u8>,
) -> Result<(), AllocError>
    ensures { OnOk result (out.new.items ≡ out.old.items ++ reply_articles (document_in document.now)
        scope limits.steps (first_reply report.now) report.now.replies.items) }
{
    put_replies(
        alloc,
        document,
        scope,
        limits,
        first_reply(report),
        &report.replies,
        out,
    )
}

/// Adds the articles of all behaviours, numbered behind the further answers that are shown.
fn put_all_checks(
    alloc: Global,
    document: &Document,
    report: &Report,
    scope: Scope,
    out: &mut Vec<u8>,
) -> Result<(), AllocError>
    ensures { OnOk result (out.new.items ≡ out.old.items ++ check_articles (document_in document.now)
        (first_check scope report.now) report.now.checks.items) }
{
    put_checks(
        alloc,
        document,
        first_check(scope, report),
        &report.checks,
        out,
    )
}

/// Adds the articles of all conflicts, numbered from 1. The core of each stands in the other list at the same
/// place.
fn put_conflicts(
    alloc: Global,
    document: &Document,
    conflicts: &[Box<Because>],
    cores: &[Option<Box<Core>>],
    out: &mut Vec<u8>,
) -> Result<(), AllocError>
    requires { All (λ b. CanBeShown b.value) conflicts.now }
    ensures { OnOk result (out.new.items ≡ out.old.items
        ++ conflict_articles (document_in document.now) cores.now 0 conflicts.now) }
{
    let mut place: usize = 0;
    for because in conflicts {
        let number = place as u128 + 1;
        let core = core_at(cores, place);
        put_conflict(alloc, document, number, because, core, out)?;
        place += 1;
    }
    Ok(())
}

/// Adds the articles of the further answers that are shown. The first of them has the number `first`.
fn put_replies(
    alloc: Global,
    document: &Document,
    scope: Scope,
    limits: Limits,
    first: u128,
    replies: &[Reply],
    out: &mut Vec<u8>,
) -> Result<(), AllocError>
    requires { first < 2 ^ 70 }
    ensures { OnOk result (out.new.items ≡ out.old.items
        ++ reply_articles (document_in document.now) scope limits.steps first replies.now) }
{
    let mut number = first;
    for reply in replies {
        put_reply_if(alloc, document, scope, limits, number, reply, out)?;
        number = next_number(scope, number, reply);
    }
    Ok(())
}

/// Adds the article of an answer, if it is shown.
fn put_reply_if(
    alloc: Global,
    document: &Document,
    scope: Scope,
    limits: Limits,
    number: u128,
    reply: &Reply,
    out: &mut Vec<u8>,
) -> Result<(), AllocError>
    ensures { OnOk result (out.new.items ≡ out.old.items
        ++ reply_if (document_in document.now) scope limits.steps number reply.now) }
{
    if is_hidden(scope, reply.asking, &reply.answer) {
        return Ok(());
    }
    put_reply(alloc, document, limits, number, reply, out)
}

/// Adds an article for each behaviour. The first has the number `first`; none is left out.
fn put_checks(
    alloc: Global,
    document: &Document,
    first: u128,
    checks: &[Check],
    out: &mut Vec<u8>,
) -> Result<(), AllocError>
    requires { first < 2 ^ 80 }
    ensures { OnOk result (out.new.items
        ≡ out.old.items ++ check_articles (document_in document.now) first checks.now) }
{
    let mut number = first;
    for check in checks {
        put_check(alloc, document, number, check, out)?;
        number += 1;
    }
    Ok(())
}
