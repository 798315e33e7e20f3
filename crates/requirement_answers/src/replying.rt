// One question about a document, and its answer.
ghost use Rattle.std.specs.Prelude.{◌≡◌, ◌<◌, length, map, All, IfOk, Box};
ghost use Rattle.requirement_document.specs.Values.{document_in};
ghost use Rattle.requirement_questions.specs.Formulas.{formula_in, IsThere, AskedIsThere, asked_formulas};
ghost use Rattle.requirement_answers.specs.Items.{formulas_of, formula_of};
ghost use Rattle.requirement_answers.specs.Asking.{asked_of, given_for};
ghost use Rattle.requirement_answers.specs.Answers.{IsAnswerTo, IsReply};
ghost use Rattle.requirement_answers.specs.Inner.{AreItems, IsAbout};

use crate::asking::{Asking, Reply};
use crate::numbers::without;
use crate::renumbering::renumber;
use requirement_document::Document;
use requirement_questions::{
    Given, Limits, Question, QuestionAnswer, Wanted, answer_question, trigger,
};
use std::alloc::{AllocError, Global};

/// The answer to a question about a document where these items are left.
pub fn reply(
    alloc: Global,
    document: &Document,
    left: &[u32],
    asking: Asking,
    limits: Limits,
) -> Result<Reply, AllocError>
    requires left { AreItems (document_in document.now) left.now }
    requires about { IsAbout (document_in document.now) asking }
    ensures asking { IfOk result (λ r. r.asking ≡ asking) }
    ensures reply { IfOk result (IsReply (document_in document.now) left.now) }
{
    let answer = answer_of(alloc, document, left, asking, limits)?;
    Ok(Reply { asking, answer })
}

/// The answer alone.
fn answer_of(
    alloc: Global,
    document: &Document,
    left: &[u32],
    asking: Asking,
    limits: Limits,
) -> Result<QuestionAnswer, AllocError>
    requires left { AreItems (document_in document.now) left.now }
    requires about { IsAbout (document_in document.now) asking }
    ensures { IfOk result (IsAnswerTo (document_in document.now) (given_for left.now asking)
        (asked_of (document_in document.now) asking)) }
{
    match asking {
        Asking::Together => answer_given(alloc, document, left, Wanted::Nothing, limits),
        Asking::Triggered(number) => triggered(alloc, document, left, number, limits),
        Asking::New(number) => says_new(alloc, document, left, number, limits),
        Asking::Possible(number) => {
            let asked = Wanted::Holds(item_at(document, number));
            answer_given(alloc, document, left, asked, limits)
        }
        Asking::Follows(number) => {
            let asked = Wanted::Fails(item_at(document, number));
            answer_given(alloc, document, left, asked, limits)
        }
    }
}

/// Whether the trigger of the item can hold, or what is given where it has none.
fn triggered(
    alloc: Global,
    document: &Document,
    left: &[u32],
    number: u32,
    limits: Limits,
) -> Result<QuestionAnswer, AllocError>
    requires left { AreItems (document_in document.now) left.now }
    requires about { number < length document.now.items.items }
    ensures { IfOk result (IsAnswerTo (document_in document.now) left.now
        (asked_of (document_in document.now) (Asking.Triggered number))) }
{
    let item = item_at(document, number);
    match trigger(alloc, item.table, item.root)? {
        None => answer_given(alloc, document, left, Wanted::Nothing, limits),
        Some((table, root)) => {
            let asked = Wanted::Holds(Given {
                table: &table,
                root,
            });
            answer_given(alloc, document, left, asked, limits)
        }
    }
}

/// Whether the item can fail where the others hold.
fn says_new(
    alloc: Global,
    document: &Document,
    left: &[u32],
    number: u32,
    limits: Limits,
) -> Result<QuestionAnswer, AllocError>
    requires left { AreItems (document_in document.now) left.now }
    requires about { number < length document.now.items.items }
    ensures { IfOk result (IsAnswerTo (document_in document.now) (given_for left.now (Asking.New number))
        (asked_of (document_in document.now) (Asking.New number))) }
{
    let others = without(alloc, &[number], left)?;
    let asked = Wanted::Fails(item_at(document, number));
    answer_given(alloc, document, &others, asked, limits)
}

/// Whether some trace satisfies the items with these numbers, and what is asked.
pub fn answer_given(
    alloc: Global,
    document: &Document,
    numbers: &[u32],
    asked: Wanted<'_>,
    limits: Limits,
) -> Result<QuestionAnswer, AllocError>
    requires numbers { AreItems (document_in document.now) numbers.now }
    requires asked { AskedIsThere asked }
    ensures { IfOk result (IsAnswerTo (document_in document.now) numbers.now (asked_formulas asked.entry)) }
{
    let given = chosen_items(alloc, document, numbers)?;
    let question = Question {
        kind: document.kind,
        given: &given,
        asked,
    };
    match answer_question(alloc, &question, limits)? {
        QuestionAnswer::Can(trace) => Ok(QuestionAnswer::Can(trace)),
        QuestionAnswer::Cannot(because) => {
            let because = renumber(alloc, numbers, because)?;
            Ok(QuestionAnswer::Cannot(because))
        }
        QuestionAnswer::Undecided => Ok(QuestionAnswer::Undecided),
        QuestionAnswer::TooLarge(size) => Ok(QuestionAnswer::TooLarge(size)),
    }
}

/// The formulas of the items with these numbers.
fn chosen_items<'d>(
    alloc: Global,
    document: &'d Document,
    numbers: &[u32],
) -> Result<Vec<Given<'d>>, AllocError>
    requires { All (λ n. n < length document.now.items.items) numbers.now }
    ensures there { IfOk result (λ given. All IsThere given.items) }
    ensures formulas { IfOk result (λ given. map formula_in given.items
        ≡ formulas_of (document_in document.now) numbers.now) }
{
    let mut given = Vec::with_capacity(alloc, numbers.len())?;
    'numbers: for k in 0..numbers.len() {
        given.push(item_at(document, numbers[k]))?;
    }
    Ok(given)
}

/// The formula of an item.
pub fn item_at<'d>(document: &'d Document, number: u32) -> Given<'d>
    requires { number < length document.now.items.items }
    ensures there { IsThere result }
    ensures formula { formula_in result ≡ formula_of (document_in document.now) number }
{
    let item = &document.items[number as usize];
    Given {
        table: &item.table,
        root: item.root,
    }
}
