// The articles of what is met together, and of the answers to the further questions. The text has a block for
// each: `requirement_report/src/blocks.rt`, with what stands under its head in
// `requirement_report/src/answers.rt`.
ghost use Rattle.std.specs.Prelude.{◌≡◌, ◌++◌, OnOk};
ghost use Rattle.requirement_document.specs.Values.{document_in};
ghost use Rattle.requirement_answers.specs.declared.asking.Asking.TheVariants.{Together};
ghost use Rattle.requirement_report.specs.Lines.{of_all};
ghost use Rattle.requirement_report.specs.Text.{word_of, item_asked};
ghost use Rattle.requirement_page.specs.Marks.{item_link, begun};
ghost use Rattle.requirement_page.specs.Answers.{can_sort, cannot_sort, sort_of, undecided, tried, large};
ghost use Rattle.requirement_page.specs.Answers.{answered, together_article, reply_article};

use crate::marks::{ENDED, put_begun, put_item_link, put_paragraph};
use crate::pictures::put_picture;
use crate::reasons::{put_because, put_described, put_without};
use requirement_answers::{Asking, Reply};
use requirement_document::Document;
use requirement_questions::{Limits, Member, QuestionAnswer};
use requirement_report::{item_asked, put_of_all, put_worded, question_words, word_of};
use std::alloc::{AllocError, Global};

/// How many of the assumed and required items are left when those in a conflict are set aside, and of how
/// many.
#[derive(Clone, Copy)]
pub struct Left {
    pub left: usize,
    pub all: usize,
}

/// The sort of an answer, which is a class of the style: good, bad, a remark or open. The article and its
/// word have the colour of their sort.
fn sort_of(asking: Asking, answer: &QuestionAnswer) -> &'static [u8]
    ensures { result.now ≡ sort_of asking answer.now }
{
    match answer {
        QuestionAnswer::Can(_) => can_sort(asking),
        QuestionAnswer::Cannot(_) => cannot_sort(asking),
        QuestionAnswer::Undecided | QuestionAnswer::TooLarge(_) => b"open",
    }
}

/// The sort where a trace was found. It is bad where it is asked whether an item follows: it fails on this
/// trace.
fn can_sort(asking: Asking) -> &'static [u8]
    ensures { result.now ≡ can_sort asking }
{
    match asking {
        Asking::Together | Asking::Triggered(_) | Asking::New(_) | Asking::Possible(_) => b"good",
        Asking::Follows(_) => b"bad",
    }
}

/// The sort where there is no trace. An item that is never triggered, or says nothing new, is no more than
/// worth a remark.
fn cannot_sort(asking: Asking) -> &'static [u8]
    ensures { result.now ≡ cannot_sort asking }
{
    match asking {
        Asking::Together | Asking::Possible(_) => b"bad",
        Asking::Triggered(_) | Asking::New(_) => b"remark",
        Asking::Follows(_) => b"good",
    }
}

/// Adds the article that says whether what is left can be met together. `number` is its place among the
/// answers on the page, from 1.
pub fn put_together(
    alloc: Global,
    document: &Document,
    limits: Limits,
    number: u128,
    count: Left,
    aside: &[Member],
    answer: &QuestionAnswer,
    out: &mut Vec<u8>,
) -> Result<(), AllocError>
    ensures { OnOk result (out.new.items ≡ out.old.items
        ++ together_article (document_in document.now) limits.steps number count.left count.all aside.now
        answer.now) }
{
    put_together_begun(alloc, number, count, answer, out)?;
    put_without(alloc, document, aside, out)?;
    put_answered(alloc, document, limits, Asking::Together, answer, out)?;
    out.extend_from_slice(ENDED)
}

/// Adds how that article begins: its word, and how many items are left of how many.
fn put_together_begun(
    alloc: Global,
    number: u128,
    count: Left,
    answer: &QuestionAnswer,
    out: &mut Vec<u8>,
) -> Result<(), AllocError>
    ensures { OnOk result (out.new.items ≡ out.old.items ++ begun (sort_of Together answer.now) number
        (word_of Together answer.now) (of_all count.left count.all)) }
{
    let mut subject = Vec::new(alloc);
    put_of_all(count.left as u128, count.all as u128, &mut subject)?;
    let sort = sort_of(Asking::Together, answer);
    let word = word_of(Asking::Together, answer);
    put_begun(sort, number, word, &subject, out)
}

/// Adds the article of the answer to a further question, with the sentence and the formula of the item.
/// Whether it is shown at all is decided before.
pub fn put_reply(
    alloc: Global,
    document: &Document,
    limits: Limits,
    number: u128,
    reply: &Reply,
    out: &mut Vec<u8>,
) -> Result<(), AllocError>
    ensures { OnOk result (out.new.items
        ≡ out.old.items ++ reply_article (document_in document.now) limits.steps number reply.now) }
{
    let item = item_asked(reply.asking);
    put_reply_begun(alloc, document, number, reply, out)?;
    put_described(alloc, document, item, out)?;
    put_answered(alloc, document, limits, reply.asking, &reply.answer, out)?;
    out.extend_from_slice(ENDED)
}

/// Adds how that article begins: its word, and the name of the item as a link.
fn put_reply_begun(
    alloc: Global,
    document: &Document,
    number: u128,
    reply: &Reply,
    out: &mut Vec<u8>,
) -> Result<(), AllocError>
    ensures { OnOk result (out.new.items ≡ out.old.items
        ++ begun (sort_of reply.now.asking reply.now.answer) number
        (word_of reply.now.asking reply.now.answer)
        (item_link (document_in document.now) (item_asked reply.now.asking))) }
{
    let mut subject = Vec::new(alloc);
    put_item_link(alloc, document, item_asked(reply.asking), &mut subject)?;
    let sort = sort_of(reply.asking, &reply.answer);
    let word = word_of(reply.asking, &reply.answer);
    put_begun(sort, number, word, &subject, out)
}

/// Adds what an answer says: the picture of the trace, or the items because of which there is none, or the
/// question and the limit that left it open.
fn put_answered(
    alloc: Global,
    document: &Document,
    limits: Limits,
    asking: Asking,
    answer: &QuestionAnswer,
    out: &mut Vec<u8>,
) -> Result<(), AllocError>
    ensures { OnOk result (out.new.items
        ≡ out.old.items ++ answered (document_in document.now) limits.steps asking answer.now) }
{
    match answer {
        QuestionAnswer::Can(trace) => put_picture(alloc, trace, out),
        QuestionAnswer::Cannot(because) => put_because(alloc, document, &because.members, out),
        QuestionAnswer::Undecided => put_tried(alloc, asking, limits.steps, out),
        QuestionAnswer::TooLarge(size) => put_large(alloc, asking, *size, out),
    }
}

/// Adds the question, and the limit within which neither answer was found. A step is a question to a solver.
fn put_tried(alloc: Global, asking: Asking, steps: u32, out: &mut Vec<u8>) -> Result<(), AllocError>
    ensures { OnOk result (out.new.items ≡ out.old.items ++ undecided asking (tried steps)) }
{
    let mut line = Vec::new(alloc);
    put_worded(b"tried: ", steps as u128, &mut line)?;
    line.extend_from_slice(b" steps")?;
    put_undecided(asking, &line, out)
}

/// Adds the question, and the number of nodes that its formula would have. It was not tried.
fn put_large(alloc: Global, asking: Asking, size: u128, out: &mut Vec<u8>) -> Result<(), AllocError>
    ensures { OnOk result (out.new.items ≡ out.old.items ++ undecided asking (large size)) }
{
    let mut line = Vec::new(alloc);
    put_worded(b"limit nodes 16384 have ", size, &mut line)?;
    put_undecided(asking, &line, out)
}

/// Adds the question in words, which the word `undecided` does not tell, and why it is open.
fn put_undecided(asking: Asking, why: &[u8], out: &mut Vec<u8>) -> Result<(), AllocError>
    ensures { OnOk result (out.new.items ≡ out.old.items ++ undecided asking why.now) }
{
    put_paragraph(question_words(asking), out)?;
    put_paragraph(why, out)
}
