// The articles of behaviours: which items each of them breaks, and where. The text has a block for each, in
// `requirement_report/src/checks.rt`, but no picture of a behaviour that keeps all. The picture here has no
// marks.
ghost use Rattle.std.specs.Prelude.{◌≡◌, ◌<◌, ◌++◌, length, slice_get, OnOk};
ghost use Rattle.std.specs.List.{flat_map};
ghost use Rattle.ltl_syntax.specs.Table.{tree_at};
ghost use Rattle.requirement_document.specs.Values.{document_in};
ghost use Rattle.requirement_report.specs.Text.{bare, keeps_word};
ghost use Rattle.requirement_page.specs.Marks.{code, paragraph, behaviour_link, begun};
ghost use Rattle.requirement_page.specs.Checks.{keeps_sort, asked, asked_in, broken_item};
ghost use Rattle.requirement_page.specs.Checks.{behaviour_picture, check_article};

use crate::marks::{
    ENDED, put_begun, put_behaviour_link, put_code, put_item_link, put_paragraph, put_sentence,
};
use crate::pictures::put_picture;
use ltl_syntax::{BinaryOp, FormulaTable, Node, UnaryOp};
use requirement_answers::{Break, Check};
use requirement_document::Document;
use requirement_report::{bare, behaviour_sentence, keeps_word, put_worded};
use std::alloc::{AllocError, Global};

/// Adds the article of a behaviour. `number` is its place among the answers on the page, from 1.
pub fn put_check(
    alloc: Global,
    document: &Document,
    number: u128,
    check: &Check,
    out: &mut Vec<u8>,
) -> Result<(), AllocError>
    ensures { OnOk result (out.new.items
        ≡ out.old.items ++ check_article (document_in document.now) number check.now) }
{
    put_check_begun(alloc, document, number, check, out)?;
    put_sentence(alloc, behaviour_sentence(document, check.behaviour), out)?;
    put_all_broken(alloc, document, &check.breaks, out)?;
    put_behaviour_picture(alloc, document, check.behaviour, out)?;
    out.extend_from_slice(ENDED)
}

/// Adds how that article begins: whether the behaviour keeps all, and its name as a link.
fn put_check_begun(
    alloc: Global,
    document: &Document,
    number: u128,
    check: &Check,
    out: &mut Vec<u8>,
) -> Result<(), AllocError>
    ensures { OnOk result (out.new.items ≡ out.old.items
        ++ begun (keeps_sort check.now.breaks.items) number (keeps_word check.now.breaks.items)
        (behaviour_link (document_in document.now) check.now.behaviour)) }
{
    let mut subject = Vec::new(alloc);
    put_behaviour_link(alloc, document, check.behaviour, &mut subject)?;
    let sort = keeps_sort(&check.breaks);
    let word = keeps_word(&check.breaks);
    put_begun(sort, number, word, &subject, out)
}

/// The sort of the article: good where the behaviour keeps all assumed and required items, and else bad.
fn keeps_sort(breaks: &[Break]) -> &'static [u8]
    ensures { result.now ≡ keeps_sort breaks.now }
{
    if breaks.is_empty() { b"good" } else { b"bad" }
}

/// Adds what is said of each item that the behaviour breaks.
fn put_all_broken(
    alloc: Global,
    document: &Document,
    breaks: &[Break],
    out: &mut Vec<u8>,
) -> Result<(), AllocError>
    ensures { OnOk result (out.new.items
        ≡ out.old.items ++ flat_map (broken_item (document_in document.now)) breaks.now) }
{
    for broken in breaks {
        put_broken(alloc, document, *broken, out)?;
    }
    Ok(())
}

/// Adds an item as a link, with the position at which it first fails, from 0, and what was asked there.
fn put_broken(
    alloc: Global,
    document: &Document,
    broken: Break,
    out: &mut Vec<u8>,
) -> Result<(), AllocError>
    ensures { OnOk result (out.new.items
        ≡ out.old.items ++ broken_item (document_in document.now) broken) }
{
    let mut line = Vec::new(alloc);
    put_item_link(alloc, document, broken.item, &mut line)?;
    put_worded(b" at ", broken.position as u128, &mut line)?;
    put_paragraph(&line, out)?;
    put_asked_in(alloc, document, broken.item, out)
}

/// Adds what asked and what was not answered in the item with this number, from 0.
fn put_asked_in(
    alloc: Global,
    document: &Document,
    item: u32,
    out: &mut Vec<u8>,
) -> Result<(), AllocError>
    ensures { OnOk result (out.new.items
        ≡ out.old.items ++ asked_in (slice_get (document_in document.now).items item)) }
{
    match document.items.get(item as usize) {
        Some(item) => put_asked(alloc, &item.table, item.root, out),
        None => Ok(()),
    }
}

/// Adds what asked and what was not answered where the formula is `G (a -> b)`: a, and b. Of an item of
/// another form nothing more is told than where it fails.
fn put_asked(
    alloc: Global,
    table: &FormulaTable,
    root: u32,
    out: &mut Vec<u8>,
) -> Result<(), AllocError>
    requires { root < length table.now.nodes }
    ensures { OnOk result (out.new.items ≡ out.old.items ++ asked (tree_at table.now root)) }
{
    let Node::Unary(UnaryOp::Always, body) = table.node(root) else {
        return Ok(());
    };
    let Node::Binary(BinaryOp::Implies, condition, answer) = table.node(body) else {
        return Ok(());
    };
    put_words(alloc, b"asked: ", table, condition, out)?;
    put_words(alloc, b"not answered: ", table, answer, out)
}

/// Adds a paragraph of some words and a formula as code. The formula has no parentheses around the whole.
fn put_words(
    alloc: Global,
    words: &[u8],
    table: &FormulaTable,
    root: u32,
    out: &mut Vec<u8>,
) -> Result<(), AllocError>
    requires { root < length table.now.nodes }
    ensures { OnOk result (out.new.items
        ≡ out.old.items ++ paragraph (words.now ++ code (bare (tree_at table.now root)))) }
{
    let formula = bare(alloc, table, root)?;
    let mut line = Vec::from_slice(alloc, words)?;
    put_code(&formula, &mut line)?;
    put_paragraph(&line, out)
}

/// Adds the picture of the behaviour with this number, from 0.
fn put_behaviour_picture(
    alloc: Global,
    document: &Document,
    number: u32,
    out: &mut Vec<u8>,
) -> Result<(), AllocError>
    ensures { OnOk result (out.new.items ≡ out.old.items
        ++ behaviour_picture (slice_get (document_in document.now).behaviours number)) }
{
    match document.behaviours.get(number as usize) {
        Some(behaviour) => put_picture(alloc, &behaviour.trace, out),
        None => Ok(()),
    }
}
