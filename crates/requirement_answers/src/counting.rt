// How many questions of each sort were answered as one may hope.
ghost use Rattle.std.specs.Prelude.{◌≡◌, ◌≤◌, not, length, if◌then◌else◌};
ghost use Rattle.std.specs.List.{count_by};
ghost use Rattle.requirement_document.specs.Values.{document_in};
ghost use Rattle.requirement_answers.specs.Items.{given_numbers};
ghost use Rattle.requirement_answers.specs.Verdicts.{is_can, has_break};
ghost use Rattle.requirement_answers.specs.Counting.{is_of, is_hoped, asked_so, good_so, tally, AreCounts};
ghost use Rattle.requirement_answers.specs.Counting.{one_if};

use crate::asking::{Asking, Reply};
use crate::findings::{Check, Report};
use crate::judging::{has_break, is_can, is_cannot};
use crate::numbers::is_given;
use requirement_document::Document;
use requirement_questions::QuestionAnswer;

/// How many of how many.
#[derive(Clone, Copy, Debug, PartialEq, Eq)]
pub struct Tally {
    pub good: usize,
    pub all: usize,
}

/// The items that are met together of those assumed and required, none where that is not known; of each sort
/// of further question those with the answer that one hopes for; and the behaviours that keep all.
#[derive(Clone, Copy, Debug, PartialEq, Eq)]
pub struct Counts {
    pub met: Tally,
    pub triggered: Tally,
    pub new: Tally,
    pub possible: Tally,
    pub follows: Tally,
    pub keeps: Tally,
}

/// The sorts of further questions.
#[derive(Clone, Copy)]
pub enum Further {
    Triggered,
    New,
    Possible,
    Follows,
}

/// The counts of a report about a document.
pub fn counts_of(document: &Document, report: &Report) -> Counts
    ensures { AreCounts (document_in document.now) report.now result }
{
    Counts {
        met: met(document, report),
        triggered: tally_of(Further::Triggered, &report.replies),
        new: tally_of(Further::New, &report.replies),
        possible: tally_of(Further::Possible, &report.replies),
        follows: tally_of(Further::Follows, &report.replies),
        keeps: keeps(&report.checks),
    }
}

/// The given items that are met together of all given ones.
fn met(document: &Document, report: &Report) -> Tally
    ensures good { result.good ≡ if is_can report.now.together then length report.now.left.items else 0 }
    ensures all { result.all ≡ length (given_numbers (document_in document.now)) }
{
    Tally {
        good: met_count(report),
        all: given_count(document),
    }
}

/// How many items are met together, where that is known.
fn met_count(report: &Report) -> usize
    ensures { result ≡ if is_can report.now.together then length report.now.left.items else 0 }
{
    if is_can(&report.together) {
        return report.left.len();
    }
    0
}

/// How many items are given.
fn given_count(document: &Document) -> usize
    ensures { result ≡ length (given_numbers (document_in document.now)) }
{
    let mut count = 0;
    'items: for number in 0..document.items.len() {
        count += one_if(is_given(document.items[number].role));
    }
    count
}

/// The answers to the questions of a sort that one hopes for, of all those.
fn tally_of(sort: Further, replies: &[Reply]) -> Tally
    ensures { result ≡ tally sort replies.now }
{
    Tally {
        good: good_count(sort, replies),
        all: asked_count(sort, replies),
    }
}

/// How many questions of a sort are asked.
fn asked_count(sort: Further, replies: &[Reply]) -> usize
    ensures { result ≡ count_by (asked_so sort) replies.now }
{
    let mut count = 0;
    'replies: for k in 0..replies.len() {
        count += one_if(is_of(sort, replies[k].asking));
    }
    count
}

/// How many of them have the answer that one hopes for.
fn good_count(sort: Further, replies: &[Reply]) -> usize
    ensures { result ≡ count_by (good_so sort) replies.now }
{
    let mut count = 0;
    'replies: for k in 0..replies.len() {
        count += one_if(is_good(sort, &replies[k]));
    }
    count
}

/// The behaviours that keep all, of all those.
fn keeps(checks: &[Check]) -> Tally
    ensures good { result.good ≡ count_by (λ c. not (has_break c)) checks.now }
    ensures all { result.all ≡ length checks.now }
{
    Tally {
        good: kept_count(checks),
        all: checks.len(),
    }
}

/// How many behaviours keep all.
fn kept_count(checks: &[Check]) -> usize
    ensures { result ≡ count_by (λ c. not (has_break c)) checks.now }
{
    let mut count = 0;
    'checks: for k in 0..checks.len() {
        count += one_if(!has_break(&checks[k]));
    }
    count
}

/// 1 where it is so.
fn one_if(so: bool) -> usize
    ensures { result ≡ one_if so }
{
    if so {
        return 1;
    }
    0
}

/// Whether the question is of the sort, and has the answer that one hopes for.
fn is_good(sort: Further, reply: &Reply) -> bool
    ensures { result ≡ good_so sort reply.now }
{
    if is_of(sort, reply.asking) {
        return is_hoped(sort, &reply.answer);
    }
    false
}

/// Whether the question is of the sort.
fn is_of(sort: Further, asking: Asking) -> bool
    ensures { result ≡ is_of sort asking }
{
    match sort {
        Further::Triggered => matches!(asking, Asking::Triggered(_)),
        Further::New => matches!(asking, Asking::New(_)),
        Further::Possible => matches!(asking, Asking::Possible(_)),
        Further::Follows => matches!(asking, Asking::Follows(_)),
    }
}

/// Whether one hopes for the answer to a question of the sort.
fn is_hoped(sort: Further, answer: &QuestionAnswer) -> bool
    ensures { result ≡ is_hoped sort answer.now }
{
    match sort {
        Further::Triggered => is_can(answer),
        Further::New => is_can(answer),
        Further::Possible => is_can(answer),
        Further::Follows => is_cannot(answer),
    }
}
