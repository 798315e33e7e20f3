// The blocks of behaviours: which items each of them breaks, and where. A behaviour is a trace that the
// document gives, to be held against its items. The page: `requirement_page/src/checks.rt`; the JSON:
// `requirement_json/src/checks.rt`.
ghost use Rattle.std.specs.Prelude.{◌≡◌, ◌<◌, ◌++◌, length, slice_get, IfOk, OnOk};
ghost use Rattle.std.specs.List.{flat_map};
ghost use Rattle.ltl_syntax.specs.Table.{tree_at};
ghost use Rattle.requirement_document.specs.Values.{document_in};
ghost use Rattle.requirement_report.specs.Lines.{deeper};
ghost use Rattle.requirement_report.specs.Text.{is_joined, bare, asked_lines, asked_in, break_lines};
ghost use Rattle.requirement_report.specs.Text.{keeps_word, positions_of, behaviour_picture};
ghost use Rattle.requirement_report.specs.Text.{broken_picture, check_block};

use crate::blocks::put_named_head;
use crate::flat::put_flat;
use crate::lines::{put_deeper, put_inner, put_worded};
use crate::pictures::put_marked_picture;
use crate::subjects::{behaviour_name, behaviour_sentence, name_of};
use ltl_syntax::{BinaryOp, FormulaTable, Node, UnaryOp, print};
use requirement_answers::{Break, Check};
use requirement_document::Document;
use std::alloc::{AllocError, Global};

/// Adds a block for each behaviour. None is left out, not even one that keeps all.
pub fn put_checks(
    alloc: Global,
    document: &Document,
    checks: &[Check],
    out: &mut Vec<u8>,
) -> Result<(), AllocError>
    ensures { OnOk result (out.new.items
        ≡ out.old.items ++ flat_map (check_block (document_in document.now)) checks.now) }
{
    for check in checks {
        put_check(alloc, document, check, out)?;
    }
    Ok(())
}

/// Adds the block of a behaviour: the items that it breaks and then its picture, which it has only if it
/// breaks any.
fn put_check(
    alloc: Global,
    document: &Document,
    check: &Check,
    out: &mut Vec<u8>,
) -> Result<(), AllocError>
    ensures { OnOk result (out.new.items
        ≡ out.old.items ++ check_block (document_in document.now) check.now) }
{
    put_named_head(
        alloc,
        keeps_word(&check.breaks),
        behaviour_name(document, check.behaviour),
        behaviour_sentence(document, check.behaviour),
        out,
    )?;
    put_breaks(alloc, document, &check.breaks, out)?;
    put_broken_picture(alloc, document, check.behaviour, &check.breaks, out)
}

/// Whether a behaviour keeps all assumed and required items, as the word of its block.
pub fn keeps_word(breaks: &[Break]) -> &'static [u8]
    ensures { result.now ≡ keeps_word breaks.now }
{
    if breaks.is_empty() {
        b"keeps"
    } else {
        b"breaks"
    }
}

/// Adds the lines of all items that a behaviour breaks.
fn put_breaks(
    alloc: Global,
    document: &Document,
    breaks: &[Break],
    out: &mut Vec<u8>,
) -> Result<(), AllocError>
    ensures { OnOk result (out.new.items
        ≡ out.old.items ++ flat_map (break_lines (document_in document.now)) breaks.now) }
{
    for broken in breaks {
        put_break(alloc, document, *broken, out)?;
    }
    Ok(())
}

/// Adds the name of an item with the position at which it first fails, from 0, and what was asked there.
fn put_break(
    alloc: Global,
    document: &Document,
    broken: Break,
    out: &mut Vec<u8>,
) -> Result<(), AllocError>
    ensures { OnOk result (out.new.items
        ≡ out.old.items ++ break_lines (document_in document.now) broken) }
{
    let mut line = Vec::new(alloc);
    put_flat(alloc, name_of(document, broken.item), &mut line)?;
    put_worded(b" at ", broken.position as u128, &mut line)?;
    put_inner(&line, out)?;
    put_asked_in(alloc, document, broken.item, out)
}

/// Adds what asked and what was not answered in the item with this number, from 0.
fn put_asked_in(
    alloc: Global,
    document: &Document,
    number: u32,
    out: &mut Vec<u8>,
) -> Result<(), AllocError>
    ensures { OnOk result (out.new.items
        ≡ out.old.items ++ asked_in (slice_get (document_in document.now).items number)) }
{
    match document.items.get(number as usize) {
        Some(item) => put_asked(alloc, &item.table, item.root, out),
        None => Ok(()),
    }
}

/// Adds what asked and what was not answered where the formula is `G (a -> b)`: a, and b. Of an item of
/// another form nothing more is told than where it fails.
fn put_asked(
    alloc: Global,
    table: &FormulaTable,
    root: u32,
    out: &mut Vec<u8>,
) -> Result<(), AllocError>
    requires { root < length table.now.nodes }
    ensures { OnOk result (out.new.items ≡ out.old.items ++ asked_lines (tree_at table.now root)) }
{
    let Node::Unary(UnaryOp::Always, body) = table.node(root) else {
        return Ok(());
    };
    let Node::Binary(BinaryOp::Implies, condition, answer) = table.node(body) else {
        return Ok(());
    };
    put_words(alloc, b"asked: ", table, condition, out)?;
    put_words(alloc, b"not answered: ", table, answer, out)
}

/// Adds a line of some words and a formula, behind eight blanks.
fn put_words(
    alloc: Global,
    words: &[u8],
    table: &FormulaTable,
    root: u32,
    out: &mut Vec<u8>,
) -> Result<(), AllocError>
    requires { root < length table.now.nodes }
    ensures { OnOk result (out.new.items
        ≡ out.old.items ++ deeper (words.now ++ bare (tree_at table.now root))) }
{
    let formula = bare(alloc, table, root)?;
    let mut line = Vec::from_slice(alloc, words)?;
    line.extend_from_slice(&formula)?;
    put_deeper(&line, out)
}

/// The text of a formula without parentheses around the whole. Printing puts a pair around each operator with
/// two operands, so that it can stand within another formula. A formula that has a line to itself is shown
/// bare.
pub fn bare(alloc: Global, table: &FormulaTable, root: u32) -> Result<Vec<u8>, AllocError>
    requires { root < length table.now.nodes }
    ensures { IfOk result (λ text. text.items ≡ bare (tree_at table.now root)) }
{
    let text = print(alloc, table, root)?;
    if !is_joined(table, root) || text.len() < 2 {
        return Ok(text);
    }
    Vec::from_slice(alloc, &text[1..text.len() - 1])
}

/// Whether an operator joins two formulas there, which printing puts between parentheses.
fn is_joined(table: &FormulaTable, root: u32) -> bool
    requires { root < length table.now.nodes }
    ensures { result ≡ is_joined (tree_at table.now root) }
{
    match table.node(root) {
        Node::Binary(_, _, _) => true,
        Node::Const(_) | Node::Letter(_) | Node::Fresh(_) | Node::Unary(_, _) => false,
    }
}

/// Adds the picture of a behaviour, with a mark wherever an item first fails. One that keeps all has no
/// picture in the text.
fn put_broken_picture(
    alloc: Global,
    document: &Document,
    number: u32,
    breaks: &[Break],
    out: &mut Vec<u8>,
) -> Result<(), AllocError>
    ensures { OnOk result (out.new.items
        ≡ out.old.items ++ broken_picture (document_in document.now) number breaks.now) }
{
    if breaks.is_empty() {
        return Ok(());
    }
    let positions = positions_of(alloc, breaks)?;
    put_behaviour_picture(alloc, document, number, &positions, out)
}

/// The positions at which the items first fail, from 0, in the order of the items. Two may be the same.
fn positions_of(alloc: Global, breaks: &[Break]) -> Result<Vec<u32>, AllocError>
    ensures { IfOk result (λ positions. positions.items ≡ positions_of breaks.now) }
{
    let mut positions = Vec::new(alloc);
    for broken in breaks {
        positions.push(broken.position)?;
    }
    Ok(positions)
}

/// Adds the picture of the behaviour with this number, from 0, with marks at these positions.
fn put_behaviour_picture(
    alloc: Global,
    document: &Document,
    number: u32,
    positions: &[u32],
    out: &mut Vec<u8>,
) -> Result<(), AllocError>
    ensures { OnOk result (out.new.items ≡ out.old.items
        ++ behaviour_picture (slice_get (document_in document.now).behaviours number) positions.now) }
{
    match document.behaviours.get(number as usize) {
        Some(behaviour) => put_marked_picture(alloc, &behaviour.trace, positions, out),
        None => Ok(()),
    }
}
