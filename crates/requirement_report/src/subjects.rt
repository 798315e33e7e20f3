// What reports are about: the items and behaviours of a document by their numbers, each counted from 0. Texts
// are as somebody wrote them, not yet flat. They are empty for a number that is not there.
ghost use Rattle.std.specs.Prelude.{◌≡◌, ◌++◌, slice_get, IfOk, OnOk};
ghost use Rattle.requirement_document.specs.Values.{document_in};
ghost use Rattle.requirement_report.specs.Subjects.{name_of, sentence_of, written_of, behaviour_name};
ghost use Rattle.requirement_report.specs.Subjects.{behaviour_sentence, is_given, is_given_in};
ghost use Rattle.requirement_report.specs.Subjects.{is_among, is_aside, aside_at, aside};

use requirement_document::{Document, Role};
use requirement_questions::Member;
use std::alloc::{AllocError, Global};

/// The name of the item with this number.
pub fn name_of(document: &Document, number: u32) -> &str
    ensures { result.now ≡ name_of (document_in document.now) number }
{
    match document.items.get(number as usize) {
        Some(item) => item.name.as_str(),
        None => "",
    }
}

/// The sentence of the item with this number. It may be missing, and is empty then.
pub fn sentence_of(document: &Document, number: u32) -> &str
    ensures { result.now ≡ sentence_of (document_in document.now) number }
{
    match document.items.get(number as usize) {
        Some(item) => match &item.sentence {
            Some(sentence) => sentence.as_str(),
            None => "",
        },
        None => "",
    }
}

/// The formula of the item as it is written, with its white space and with defined names in it.
pub fn written_of(document: &Document, number: u32) -> &str
    ensures { result.now ≡ written_of (document_in document.now) number }
{
    match document.items.get(number as usize) {
        Some(item) => item.formula.as_str(),
        None => "",
    }
}

/// The name of the behaviour with this number. It has a count of its own, beside that of the items.
pub fn behaviour_name(document: &Document, number: u32) -> &str
    ensures { result.now ≡ behaviour_name (document_in document.now) number }
{
    match document.behaviours.get(number as usize) {
        Some(behaviour) => behaviour.name.as_str(),
        None => "",
    }
}

/// The sentence of the behaviour with this number. It may be missing, and is empty then.
pub fn behaviour_sentence(document: &Document, number: u32) -> &str
    ensures { result.now ≡ behaviour_sentence (document_in document.now) number }
{
    match document.behaviours.get(number as usize) {
        Some(behaviour) => match &behaviour.sentence {
            Some(sentence) => sentence.as_str(),
            None => "",
        },
        None => "",
    }
}

/// The assumed and required items that are not left, in their order. They are members, so that they are shown
/// as members are, and all count as needed.
pub fn aside(alloc: Global, document: &Document, left: &[u32]) -> Result<Vec<Member>, AllocError>
    ensures { IfOk result (λ members. members.items ≡ aside (document_in document.now) left.now) }
{
    let Ok(count) = u32::try_from(document.items.len()) else {
        return Err(AllocError);
    };
    let mut members = Vec::new(alloc);
    'items: for number in 0..count {
        put_aside(document, left, number, &mut members)?;
    }
    Ok(members)
}

/// Adds the item with this number, if it is set aside.
fn put_aside(
    document: &Document,
    left: &[u32],
    number: u32,
    members: &mut Vec<Member>,
) -> Result<(), AllocError>
    ensures { OnOk result (members.new.items
        ≡ members.old.items ++ aside_at (document_in document.now) left.now number) }
{
    if is_aside(document, left, number) {
        members.push(Member {
            given: number,
            needed: true,
        })?;
    }
    Ok(())
}

/// Whether the item with this number is assumed or required, and not left.
fn is_aside(document: &Document, left: &[u32], number: u32) -> bool
    ensures { result ≡ is_aside (document_in document.now) left.now number }
{
    is_given_at(document, number) && !is_among(left, number)
}

/// Whether there is an item with this number, and it is assumed or required.
fn is_given_at(document: &Document, number: u32) -> bool
    ensures { result ≡ is_given_in (slice_get (document_in document.now).items number) }
{
    match document.items.get(number as usize) {
        Some(item) => is_given(item.role),
        None => false,
    }
}

fn is_among(numbers: &[u32], number: u32) -> bool
    ensures { result ≡ is_among numbers.now number }
{
    numbers.iter().any(|known| *known == number)
}

/// Whether an item of this role is given: it has to be met. What is allowed or ensured is only asked about.
fn is_given(role: Role) -> bool
    ensures { result ≡ is_given role }
{
    match role {
        Role::Assume | Role::Require => true,
        Role::Allow | Role::Ensure => false,
    }
}
