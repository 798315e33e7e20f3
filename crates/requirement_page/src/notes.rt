// Notes: the words of the answers about an item or a behaviour, each a link to the article of that answer, if
// it has one. They stand in the article of the item, so that one finds from there all that is said of it.
// Only the page has them.
ghost use Rattle.std.specs.Prelude.{◌≡◌, ◌^◌, ◌<◌, ◌++◌, OnOk};
ghost use Rattle.requirement_page.specs.Items.{answer_link, linked_note, is_member, conflict_note};
ghost use Rattle.requirement_page.specs.Items.{conflict_notes, answer_note, reply_note, reply_notes};
ghost use Rattle.requirement_page.specs.Items.{check_note, check_notes, notes, item_notes, behaviour_notes};

use crate::marks::put_paragraph;
use crate::places::{first_check, first_reply, next_number};
use requirement_answers::{Check, Reply, Report, Scope};
use requirement_questions::{Because, Member};
use requirement_report::{is_hidden, item_asked, keeps_word, put_worded, word_of};
use std::alloc::{AllocError, Global};

/// Adds a paragraph of the answers about an item, where there are any: first conflicts of which it is a
/// member, then further answers. `item` counts from 0.
pub fn put_item_notes(
    alloc: Global,
    scope: Scope,
    report: &Report,
    item: u32,
    out: &mut Vec<u8>,
) -> Result<(), AllocError>
    ensures { OnOk result (out.new.items
        ≡ out.old.items ++ notes (item_notes scope report.now item)) }
{
    let mut line = Vec::new(alloc);
    put_conflict_notes(item, &report.conflicts, &mut line)?;
    put_reply_notes(scope, item, first_reply(report), &report.replies, &mut line)?;
    put_notes(&line, out)
}

/// Adds a paragraph of what was found of a behaviour, which counts from 0, where there is anything.
pub fn put_behaviour_notes(
    alloc: Global,
    scope: Scope,
    report: &Report,
    behaviour: u32,
    out: &mut Vec<u8>,
) -> Result<(), AllocError>
    ensures { OnOk result (out.new.items
        ≡ out.old.items ++ notes (behaviour_notes scope report.now behaviour)) }
{
    let mut line = Vec::new(alloc);
    put_check_notes(
        behaviour,
        first_check(scope, report),
        &report.checks,
        &mut line,
    )?;
    put_notes(&line, out)
}

/// Adds the notes of a line as a paragraph. Each has a comma and a blank before it; the first two bytes are
/// those of the first note, and are left out.
fn put_notes(line: &[u8], out: &mut Vec<u8>) -> Result<(), AllocError>
    ensures { OnOk result (out.new.items ≡ out.old.items ++ notes line.now) }
{
    if line.len() < 2 {
        return Ok(());
    }
    put_paragraph(&line[2..], out)
}

/// Adds a note for each conflict of which the item is a member. Conflicts have the first numbers on the page,
/// from 1.
fn put_conflict_notes(
    item: u32,
    conflicts: &[Box<Because>],
    out: &mut Vec<u8>,
) -> Result<(), AllocError>
    ensures { OnOk result (out.new.items ≡ out.old.items ++ conflict_notes item 1 conflicts.now) }
{
    let mut number: u128 = 1;
    for because in conflicts {
        put_conflict_note(item, number, because, out)?;
        number += 1;
    }
    Ok(())
}

/// Adds a note with the number of a conflict, if the item is a member of it.
fn put_conflict_note(
    item: u32,
    number: u128,
    because: &Because,
    out: &mut Vec<u8>,
) -> Result<(), AllocError>
    ensures { OnOk result (out.new.items
        ≡ out.old.items ++ conflict_note item number because.now) }
{
    if is_member(item, &because.members) {
        return put_linked_note(number, b"conflict", out);
    }
    Ok(())
}

fn is_member(item: u32, members: &[Member]) -> bool
    ensures { result ≡ is_member item members.now }
{
    members.iter().any(|member| member.given == item)
}

/// Adds a note for each further answer about the item. `first` is the number of the first further answer that
/// is shown; those that are hidden have none.
fn put_reply_notes(
    scope: Scope,
    item: u32,
    first: u128,
    replies: &[Reply],
    out: &mut Vec<u8>,
) -> Result<(), AllocError>
    requires { first < 2 ^ 70 }
    ensures { OnOk result (out.new.items
        ≡ out.old.items ++ reply_notes scope item first replies.now) }
{
    let mut number = first;
    for reply in replies {
        put_reply_note(scope, item, number, reply, out)?;
        number = next_number(scope, number, reply);
    }
    Ok(())
}

/// Adds the note of a further answer, if it is about the item.
fn put_reply_note(
    scope: Scope,
    item: u32,
    number: u128,
    reply: &Reply,
    out: &mut Vec<u8>,
) -> Result<(), AllocError>
    ensures { OnOk result (out.new.items
        ≡ out.old.items ++ reply_note scope item number reply.now) }
{
    if item_asked(reply.asking) == item {
        return put_answer_note(scope, number, reply, out);
    }
    Ok(())
}

/// Adds the word of an answer. It is a link where the answer is shown; else there is no article to which it
/// could lead.
fn put_answer_note(
    scope: Scope,
    number: u128,
    reply: &Reply,
    out: &mut Vec<u8>,
) -> Result<(), AllocError>
    ensures { OnOk result (out.new.items
        ≡ out.old.items ++ answer_note scope number reply.now) }
{
    let word = word_of(reply.asking, &reply.answer);
    if is_hidden(scope, reply.asking, &reply.answer) {
        out.extend_from_slice(b", ")?;
        return out.extend_from_slice(word);
    }
    put_linked_note(number, word, out)
}

/// Adds a note for each check of the behaviour. `first` is the number of the first check on the page.
fn put_check_notes(
    behaviour: u32,
    first: u128,
    checks: &[Check],
    out: &mut Vec<u8>,
) -> Result<(), AllocError>
    requires { first < 2 ^ 80 }
    ensures { OnOk result (out.new.items
        ≡ out.old.items ++ check_notes behaviour first checks.now) }
{
    let mut number = first;
    for check in checks {
        put_check_note(behaviour, number, check, out)?;
        number += 1;
    }
    Ok(())
}

/// Adds the note of a check, if it is one of the behaviour.
fn put_check_note(
    behaviour: u32,
    number: u128,
    check: &Check,
    out: &mut Vec<u8>,
) -> Result<(), AllocError>
    ensures { OnOk result (out.new.items
        ≡ out.old.items ++ check_note behaviour number check.now) }
{
    if check.behaviour == behaviour {
        return put_linked_note(number, keeps_word(&check.breaks), out);
    }
    Ok(())
}

/// Adds a comma, and a word as a link to the answer with this number on the page.
fn put_linked_note(number: u128, word: &[u8], out: &mut Vec<u8>) -> Result<(), AllocError>
    ensures { OnOk result (out.new.items ≡ out.old.items ++ linked_note number word.now) }
{
    out.extend_from_slice(b", ")?;
    put_answer_link(number, word, out)
}

/// Adds a word as a link to the answer with this number on the page, from 1.
fn put_answer_link(number: u128, word: &[u8], out: &mut Vec<u8>) -> Result<(), AllocError>
    ensures { OnOk result (out.new.items ≡ out.old.items ++ answer_link number word.now) }
{
    put_worded(b"<a href=\"#answer-", number, out)?;
    out.extend_from_slice(b"\">")?;
    out.extend_from_slice(word)?;
    out.extend_from_slice(b"</a>")
}
