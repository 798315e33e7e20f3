// Whether all is as the document wishes.
ghost use Rattle.std.specs.Prelude.{◌≡◌};
ghost use Rattle.std.specs.List.{list_any};
ghost use Rattle.requirement_answers.specs.Verdicts.{is_can, is_cannot, is_undecided, is_wrong, wrong_reply};
ghost use Rattle.requirement_answers.specs.Verdicts.{open_reply, has_break, has_wrong, has_open, verdict};

use crate::asking::{Asking, Reply};
use crate::findings::{Check, Report};
use requirement_questions::QuestionAnswer;

/// What a report comes to.
#[derive(Clone, Copy, Debug, PartialEq, Eq)]
pub enum ReportVerdict {
    AsWished,
    /// There is a conflict, or something that may happen cannot, or something that should follow does not, or
    /// a behaviour breaks an item.
    NotAsWished,
    /// None of these, but a question is undecided.
    Undecided,
}

/// What a report comes to.
pub fn verdict_of(report: &Report) -> ReportVerdict
    ensures { result ≡ verdict report.now }
{
    if has_wrong(report) {
        return ReportVerdict::NotAsWished;
    }
    if has_open(report) {
        return ReportVerdict::Undecided;
    }
    ReportVerdict::AsWished
}

/// Whether something is not as wished.
fn has_wrong(report: &Report) -> bool
    ensures { result ≡ has_wrong report.now }
{
    if !report.conflicts.is_empty() {
        return true;
    }
    if any_wrong(&report.replies) {
        return true;
    }
    any_broken(&report.checks)
}

/// Whether a question is undecided.
fn has_open(report: &Report) -> bool
    ensures { result ≡ has_open report.now }
{
    if is_undecided(&report.together) {
        return true;
    }
    any_open(&report.replies)
}

/// Whether one of these answers is not as wished.
fn any_wrong(replies: &[Reply]) -> bool
    ensures { result ≡ list_any wrong_reply replies.now }
{
    'replies: for k in 0..replies.len() {
        if is_wrong(replies[k].asking, &replies[k].answer) {
            return true;
        }
    }
    false
}

/// Whether one of these answers is undecided.
fn any_open(replies: &[Reply]) -> bool
    ensures { result ≡ list_any open_reply replies.now }
{
    'replies: for k in 0..replies.len() {
        if is_undecided(&replies[k].answer) {
            return true;
        }
    }
    false
}

/// Whether one of these behaviours breaks an item.
fn any_broken(checks: &[Check]) -> bool
    ensures { result ≡ list_any has_break checks.now }
{
    'checks: for k in 0..checks.len() {
        if has_break(&checks[k]) {
            return true;
        }
    }
    false
}

/// Whether a behaviour breaks an item.
pub fn has_break(check: &Check) -> bool
    ensures { result ≡ has_break check.now }
{
    if check.breaks.is_empty() {
        return false;
    }
    true
}

/// Whether the answer to a question is not as wished.
fn is_wrong(asking: Asking, answer: &QuestionAnswer) -> bool
    ensures { result ≡ is_wrong asking answer.now }
{
    match asking {
        Asking::Together => false,
        Asking::Triggered(_) => false,
        Asking::New(_) => false,
        Asking::Possible(_) => is_cannot(answer),
        Asking::Follows(_) => is_can(answer),
    }
}

/// Whether it is found that it can be.
pub fn is_can(answer: &QuestionAnswer) -> bool
    ensures { result ≡ is_can answer.now }
{
    match answer {
        QuestionAnswer::Can(_) => true,
        QuestionAnswer::Cannot(_) => false,
        QuestionAnswer::Undecided => false,
        QuestionAnswer::TooLarge(_) => false,
    }
}

/// Whether it is shown that it cannot be.
pub fn is_cannot(answer: &QuestionAnswer) -> bool
    ensures { result ≡ is_cannot answer.now }
{
    match answer {
        QuestionAnswer::Can(_) => false,
        QuestionAnswer::Cannot(_) => true,
        QuestionAnswer::Undecided => false,
        QuestionAnswer::TooLarge(_) => false,
    }
}

/// Whether nothing was found.
fn is_undecided(answer: &QuestionAnswer) -> bool
    ensures { result ≡ is_undecided answer.now }
{
    match answer {
        QuestionAnswer::Can(_) => false,
        QuestionAnswer::Cannot(_) => false,
        QuestionAnswer::Undecided => true,
        QuestionAnswer::TooLarge(_) => true,
    }
}
