// The behaviours, and which items they break, as JSON. The text tells them in
// `requirement_report/src/checks.rt`.
ghost use Rattle.std.specs.Prelude.{◌≡◌, ◌<◌, length, slice_get, IfOk, OnOk};
ghost use Rattle.ltl_syntax.specs.Table.{tree_at};
ghost use Rattle.serde_json.specs.View.{view, members_view};
ghost use Rattle.requirement_document.specs.Values.{document_in};
ghost use Rattle.requirement_report.specs.Text.{keeps_word};
ghost use Rattle.requirement_json.specs.Checks.{with_asked, with_asked_of, place_members, break_data};
ghost use Rattle.requirement_json.specs.Checks.{breaks_data, behaviour_data, check_data};

use crate::texts::put_text;
use crate::traces::trace_value;
use ltl_syntax::{BinaryOp, FormulaTable, Node, UnaryOp};
use requirement_answers::{Break, Check};
use requirement_document::Document;
use requirement_report::{bare, behaviour_name, name_of};
use serde_json::{Map, Value, json, put};
use std::alloc::{AllocError, Global};

/// A behaviour with its trace, and the items that it breaks. The trace is told also where it keeps all.
pub fn check_value(alloc: Global, document: &Document, check: &Check) -> Result<Value, AllocError>
    ensures { IfOk result (λ value.
        view value ≡ check_data (document_in document.now) check.now) }
{
    let answer = keeps_word(&check.breaks);
    let breaks = breaks_value(alloc, document, &check.breaks)?;
    let name = behaviour_name(document, check.behaviour);
    let trace = behaviour_value(alloc, document, check.behaviour)?;
    json!(in alloc; {
        "answer": answer,
        "breaks": breaks,
        "name": name,
        "question": "keeps",
        "trace": trace
    })
}

/// Whether a behaviour keeps all assumed and required items, as the word of its answer.
fn keeps_word(breaks: &[Break]) -> &'static str
    ensures { result.now ≡ keeps_word breaks.now }
{
    if breaks.is_empty() { "keeps" } else { "breaks" }
}

/// The trace of the behaviour with this number, from 0.
fn behaviour_value(alloc: Global, document: &Document, number: u32) -> Result<Value, AllocError>
    ensures { IfOk result (λ value. view value
        ≡ behaviour_data (slice_get (document_in document.now).behaviours number)) }
{
    match document.behaviours.get(number as usize) {
        Some(behaviour) => trace_value(alloc, &behaviour.trace),
        None => Ok(Value::Null),
    }
}

/// An array of the items that a behaviour breaks, in the order of the items.
fn breaks_value(alloc: Global, document: &Document, breaks: &[Break]) -> Result<Value, AllocError>
    ensures { IfOk result (λ value.
        view value ≡ breaks_data (document_in document.now) breaks.now) }
{
    let mut values = Vec::with_capacity(alloc, breaks.len())?;
    for broken in breaks {
        values.push(break_value(alloc, document, *broken)?)?;
    }
    Ok(Value::Array(values))
}

/// An item that is broken: where, and what was asked there.
fn break_value(alloc: Global, document: &Document, broken: Break) -> Result<Value, AllocError>
    ensures { IfOk result (λ value.
        view value ≡ break_data (document_in document.now) broken) }
{
    let mut members = place_members(alloc, document, broken)?;
    put_asked_of(alloc, document, broken.item, &mut members)?;
    Ok(Value::Object(members))
}

/// The name of an item that is broken, and the position at which it first fails, from 0.
fn place_members(
    alloc: Global,
    document: &Document,
    broken: Break,
) -> Result<Map<String, Value>, AllocError>
    ensures { IfOk result (λ members.
        members_view members.entries ≡ place_members (document_in document.now) broken) }
{
    let name = Value::try_from_str(alloc, name_of(document, broken.item))?;
    let mut members = Map::new(alloc);
    put(&mut members, alloc, "name", name)?;
    put(
        &mut members,
        alloc,
        "position",
        Value::from(broken.position),
    )?;
    Ok(members)
}

/// Puts in what asked and what was not answered in the item with this number, from 0.
fn put_asked_of(
    alloc: Global,
    document: &Document,
    number: u32,
    members: &mut Map<String, Value>,
) -> Result<(), AllocError>
    ensures { OnOk result (members_view members.new.entries
        ≡ with_asked_of (slice_get (document_in document.now).items number)
        (members_view members.old.entries)) }
{
    match document.items.get(number as usize) {
        Some(item) => put_asked(alloc, &item.table, item.root, members),
        None => Ok(()),
    }
}

/// Puts in what asked and what was not answered where the formula is `G (a -> b)`.
fn put_asked(
    alloc: Global,
    table: &FormulaTable,
    root: u32,
    members: &mut Map<String, Value>,
) -> Result<(), AllocError>
    requires { root < length table.now.nodes }
    ensures { OnOk result (members_view members.new.entries
        ≡ with_asked (tree_at table.now root) (members_view members.old.entries)) }
{
    let Node::Unary(UnaryOp::Always, body) = table.node(root) else {
        return Ok(());
    };
    let Node::Binary(BinaryOp::Implies, condition, answer) = table.node(body) else {
        return Ok(());
    };
    let answer = bare(alloc, table, answer)?;
    let condition = bare(alloc, table, condition)?;
    put_text(alloc, "unanswered", &answer, members)?;
    put_text(alloc, "asked", &condition, members)
}
