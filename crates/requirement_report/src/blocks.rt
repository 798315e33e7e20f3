// The blocks of what is met together and of the further questions. A block is a head, `word: subject`, with
// the lines under it. The page has an article in place of each: `requirement_page/src/answers.rt`.
ghost use Rattle.std.specs.Prelude.{◌≡◌, ◌++◌, OnOk};
ghost use Rattle.std.specs.List.{flat_map};
ghost use Rattle.requirement_document.specs.Values.{document_in};
ghost use Rattle.requirement_report.specs.Text.{without_line, together_block, item_asked, is_remark};
ghost use Rattle.requirement_answers.specs.Verdicts.{is_can};
ghost use Rattle.requirement_report.specs.Text.{is_all, is_hidden, named_head, reply_block};

use crate::answers::{put_answer, word_of};
use crate::flat::put_flat;
use crate::lines::{put_head, put_inner, put_inner_if, put_of_all};
use crate::members::put_members;
use crate::subjects::{name_of, sentence_of};
use requirement_answers::{Asking, Reply, Scope};
use requirement_document::Document;
use requirement_questions::{Limits, Member, QuestionAnswer};
use std::alloc::{AllocError, Global};

/// How many of the assumed and required items are left when those in a conflict are set aside, and of how
/// many.
#[derive(Clone, Copy)]
pub struct Left {
    pub left: usize,
    pub all: usize,
}

/// Adds the block that says whether what is left can be met together. Its subject is the number of items that
/// are left, of all that are given. Those that are set aside are named in its first line, if there are any.
pub fn put_together(
    alloc: Global,
    document: &Document,
    limits: Limits,
    count: Left,
    aside: &[Member],
    answer: &QuestionAnswer,
    out: &mut Vec<u8>,
) -> Result<(), AllocError>
    ensures { OnOk result (out.new.items ≡ out.old.items
        ++ together_block (document_in document.now) limits.steps count.left count.all aside.now answer.now) }
{
    let mut subject = Vec::new(alloc);
    put_of_all(count.left as u128, count.all as u128, &mut subject)?;
    put_head(word_of(Asking::Together, answer), &subject, out)?;
    put_without(alloc, document, aside, out)?;
    put_answer(alloc, document, limits, Asking::Together, answer, out)
}

/// Adds the line of the items that are set aside. Where there are none there is no line.
fn put_without(
    alloc: Global,
    document: &Document,
    members: &[Member],
    out: &mut Vec<u8>,
) -> Result<(), AllocError>
    ensures { OnOk result (out.new.items
        ≡ out.old.items ++ without_line (document_in document.now) members.now) }
{
    if members.is_empty() {
        return Ok(());
    }
    let mut line = Vec::from_slice(alloc, b"without: ")?;
    put_members(alloc, document, members, &mut line)?;
    put_inner(&line, out)
}

/// Adds the blocks of the further questions, in the order in which they were asked.
pub fn put_replies(
    alloc: Global,
    document: &Document,
    scope: Scope,
    limits: Limits,
    replies: &[Reply],
    out: &mut Vec<u8>,
) -> Result<(), AllocError>
    ensures { OnOk result (out.new.items ≡ out.old.items
        ++ flat_map (reply_block (document_in document.now) scope limits.steps) replies.now) }
{
    for reply in replies {
        put_reply(alloc, document, scope, limits, reply, out)?;
    }
    Ok(())
}

/// Adds the block of a further question, or nothing where its answer goes without saying.
fn put_reply(
    alloc: Global,
    document: &Document,
    scope: Scope,
    limits: Limits,
    reply: &Reply,
    out: &mut Vec<u8>,
) -> Result<(), AllocError>
    ensures { OnOk result (out.new.items
        ≡ out.old.items ++ reply_block (document_in document.now) scope limits.steps reply.now) }
{
    if is_hidden(scope, reply.asking, &reply.answer) {
        return Ok(());
    }
    let number = item_asked(reply.asking);
    let word = word_of(reply.asking, &reply.answer);
    put_named_head(
        alloc,
        word,
        name_of(document, number),
        sentence_of(document, number),
        out,
    )?;
    put_answer(alloc, document, limits, reply.asking, &reply.answer, out)
}

/// Adds an empty line, a word and a name, and the sentence where there is one. So begins each block that is
/// about an item or a behaviour; the empty line parts it from the block before.
pub fn put_named_head(
    alloc: Global,
    word: &[u8],
    name: &str,
    sentence: &str,
    out: &mut Vec<u8>,
) -> Result<(), AllocError>
    ensures { OnOk result (out.new.items
        ≡ out.old.items ++ named_head word.now name.now sentence.now) }
{
    let mut subject = Vec::new(alloc);
    put_flat(alloc, name, &mut subject)?;
    let mut line = Vec::new(alloc);
    put_flat(alloc, sentence, &mut line)?;
    out.extend_from_slice(b"\n")?;
    put_head(word, &subject, out)?;
    put_inner_if(&line, out)
}

/// The number of the item that is asked about, from 0. The question whether all can be met together is about
/// no item; its 0 has no meaning.
pub fn item_asked(asking: Asking) -> u32
    ensures { result ≡ item_asked asking }
{
    match asking {
        Asking::Together => 0,
        Asking::Triggered(item)
        | Asking::New(item)
        | Asking::Possible(item)
        | Asking::Follows(item) => item,
    }
}

/// Whether the answer goes without saying, and is not shown. It does where the whole document is asked about
/// and a required item is triggered, or says something new, as it should.
pub fn is_hidden(scope: Scope, asking: Asking, answer: &QuestionAnswer) -> bool
    ensures { result ≡ is_hidden scope asking answer.now }
{
    is_all(scope) && is_remark(asking) && is_can(answer)
}

/// Whether no item and no behaviour is chosen: the report is about the whole document.
pub fn is_all(scope: Scope) -> bool
    ensures { result ≡ is_all scope }
{
    match scope {
        Scope::All => true,
        Scope::Item(_) | Scope::Behaviour(_) => false,
    }
}

/// Whether no item of the document asks the question: it is whether a required item is triggered, or says
/// something new. Where the whole document is asked about, only an answer that one does not hope for is told.
fn is_remark(asking: Asking) -> bool
    ensures { result ≡ is_remark asking }
{
    match asking {
        Asking::Triggered(_) | Asking::New(_) => true,
        Asking::Together | Asking::Possible(_) | Asking::Follows(_) => false,
    }
}

/// Whether a trace was found. To a question that may be hidden this is the answer that one hopes for.
fn is_can(answer: &QuestionAnswer) -> bool
    ensures { result ≡ is_can answer.now }
{
    match answer {
        QuestionAnswer::Can(_) => true,
        QuestionAnswer::Cannot(_) | QuestionAnswer::Undecided | QuestionAnswer::TooLarge(_) =>
            false,
    }
}
