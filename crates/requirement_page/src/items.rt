// The items and the behaviours of the document, with an article for each, to which the names in all answers
// are links. The text has nothing of the kind; the JSON lists the items in `requirement_json/src/items.rt`.
ghost use Rattle.std.specs.Prelude.{◌≡◌, ◌+◌, ◌++◌, length, slice_get, codes, OnOk};
ghost use Rattle.trace_view.specs.Text.{below};
ghost use Rattle.requirement_document.specs.Values.{document_in};
ghost use Rattle.requirement_report.specs.Subjects.{name_of, behaviour_name};
ghost use Rattle.requirement_page.specs.Items.{item_begun, role_word, role_in, item_article};
ghost use Rattle.requirement_page.specs.Items.{behaviour_article, all_items};

use crate::marks::{ENDED, behaviour_number, item_number, put_said, put_sentence};
use crate::notes::{put_behaviour_notes, put_item_notes};
use crate::reasons::put_described;
use requirement_answers::{Report, Scope};
use requirement_document::{Document, Role};
use requirement_report::{behaviour_name, behaviour_sentence, name_of, put_worded};
use std::alloc::{AllocError, Global};

/// Adds the items and the behaviours, each with the words of the answers about it.
pub fn put_all_items(
    alloc: Global,
    document: &Document,
    scope: Scope,
    report: &Report,
    out: &mut Vec<u8>,
) -> Result<(), AllocError>
    ensures { OnOk result (out.new.items
        ≡ out.old.items ++ all_items (document_in document.now) scope report.now) }
{
    out.extend_from_slice(b"<h2>Items</h2>\n")?;
    put_items(alloc, document, scope, report, out)?;
    put_behaviours(alloc, document, scope, report, out)
}

/// Adds the articles of all items, in the order of the document.
#[tactic(auto, using(crate::proofs::Pieces::piece_behind))]
fn put_items(
    alloc: Global,
    document: &Document,
    scope: Scope,
    report: &Report,
    out: &mut Vec<u8>,
) -> Result<(), AllocError>
    ensures { OnOk result (out.new.items ≡ out.old.items ++ below
        (length (document_in document.now).items)
        (item_article (document_in document.now) scope report.now)) }
{
    let Ok(count) = u32::try_from(document.items.len()) else {
        return Err(AllocError);
    };
    'items: for number in 0..count {
        put_item(alloc, document, scope, report, number, out)?;
    }
    Ok(())
}

/// Adds the article of an item: its role and name, its sentence, its formula as it is written, and the words
/// of the answers about it. `number` counts the items from 0.
fn put_item(
    alloc: Global,
    document: &Document,
    scope: Scope,
    report: &Report,
    number: u32,
    out: &mut Vec<u8>,
) -> Result<(), AllocError>
    ensures { OnOk result (out.new.items
        ≡ out.old.items ++ item_article (document_in document.now) scope report.now number) }
{
    put_named_item(alloc, document, number, out)?;
    put_described(alloc, document, number, out)?;
    put_item_notes(alloc, scope, report, number, out)?;
    out.extend_from_slice(ENDED)
}

/// Adds the articles of all behaviours, behind those of the items.
#[tactic(auto, using(crate::proofs::Pieces::piece_behind))]
fn put_behaviours(
    alloc: Global,
    document: &Document,
    scope: Scope,
    report: &Report,
    out: &mut Vec<u8>,
) -> Result<(), AllocError>
    ensures { OnOk result (out.new.items ≡ out.old.items ++ below
        (length (document_in document.now).behaviours)
        (behaviour_article (document_in document.now) scope report.now)) }
{
    let Ok(count) = u32::try_from(document.behaviours.len()) else {
        return Err(AllocError);
    };
    'behaviours: for number in 0..count {
        put_behaviour(alloc, document, scope, report, number, out)?;
    }
    Ok(())
}

/// Adds the article of a behaviour: its name, its sentence, and the words of the answers about it. Its trace
/// is shown among the answers. `number` counts the behaviours from 0.
fn put_behaviour(
    alloc: Global,
    document: &Document,
    scope: Scope,
    report: &Report,
    number: u32,
    out: &mut Vec<u8>,
) -> Result<(), AllocError>
    ensures { OnOk result (out.new.items
        ≡ out.old.items ++ behaviour_article (document_in document.now) scope report.now number) }
{
    put_named_behaviour(alloc, document, number, out)?;
    put_sentence(alloc, behaviour_sentence(document, number), out)?;
    put_behaviour_notes(alloc, scope, report, number, out)?;
    out.extend_from_slice(ENDED)
}

/// Adds how the article of an item begins. Item 0 of the document is number 1 on the page.
fn put_named_item(
    alloc: Global,
    document: &Document,
    number: u32,
    out: &mut Vec<u8>,
) -> Result<(), AllocError>
    ensures { OnOk result (out.new.items ≡ out.old.items ++ item_begun (number + 1)
        (role_in (slice_get (document_in document.now).items number))
        (name_of (document_in document.now) number)) }
{
    let role = role_at(document, number);
    let name = name_of(document, number);
    put_item_begun(alloc, item_number(number), role, name, out)
}

/// Adds how the article of a behaviour begins, with the word `behaviour` in place of a role. On the page
/// behaviours are numbered behind the items, so that no two of these articles have the same number.
fn put_named_behaviour(
    alloc: Global,
    document: &Document,
    number: u32,
    out: &mut Vec<u8>,
) -> Result<(), AllocError>
    ensures { OnOk result (out.new.items ≡ out.old.items
        ++ item_begun (length (document_in document.now).items + number + 1) (codes "behaviour")
        (behaviour_name (document_in document.now) number)) }
{
    let place = behaviour_number(document, number);
    let name = behaviour_name(document, number);
    put_item_begun(alloc, place, b"behaviour", name, out)
}

/// Adds how such an article begins: its role and its name. Links lead to it by `number`, which counts items
/// and behaviours of the page from 1.
fn put_item_begun(
    alloc: Global,
    number: u128,
    role: &[u8],
    name: &str,
    out: &mut Vec<u8>,
) -> Result<(), AllocError>
    ensures { OnOk result (out.new.items
        ≡ out.old.items ++ item_begun number role.now name.now) }
{
    put_worded(b"<article id=\"item-", number, out)?;
    out.extend_from_slice(b"\">\n<h3>")?;
    out.extend_from_slice(role)?;
    out.extend_from_slice(b" ")?;
    put_said(alloc, name, out)?;
    out.extend_from_slice(b"</h3>\n")
}

/// The word for the role of the item with this number, from 0. Empty where there is no such item.
fn role_at(document: &Document, number: u32) -> &'static [u8]
    ensures { result.now ≡ role_in (slice_get (document_in document.now).items number) }
{
    match document.items.get(number as usize) {
        Some(item) => role_word(item.role),
        None => b"",
    }
}

/// The word for a role. It is that of the section in which the document has the item.
fn role_word(role: Role) -> &'static [u8]
    ensures { result.now ≡ role_word role }
{
    match role {
        Role::Assume => b"assume",
        Role::Require => b"require",
        Role::Allow => b"allow",
        Role::Ensure => b"ensure",
    }
}
