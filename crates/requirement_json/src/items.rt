// The items of a document, and what it is about, as JSON. The page shows the items in
// `requirement_page/src/items.rt`.
ghost use Rattle.std.specs.Prelude.{◌≡◌, map, IfOk};
ghost use Rattle.serde_json.specs.View.{view};
ghost use Rattle.requirement_document.specs.Values.{item_in, document_in};
ghost use Rattle.requirement_json.specs.Items.{role_text, kind_text, item_data, items_data};
ghost use Rattle.requirement_json.specs.Items.{name_data, names_data};

use crate::texts::text_or_null;
use ltl_syntax::Kind;
use requirement_document::{Document, Item, Role};
use requirement_report::name_of;
use serde_json::{Value, json};
use std::alloc::{AllocError, Global};

/// The word for the kind of traces that a document is about.
pub fn kind_text(kind: Kind) -> &'static str
    ensures { result.now ≡ kind_text kind }
{
    match kind {
        Kind::Infinite => "infinite",
        Kind::Finite => "finite",
    }
}

/// The word for the role of an item: that of the section in which the document has it.
fn role_text(role: Role) -> &'static str
    ensures { result.now ≡ role_text role }
{
    match role {
        Role::Assume => "assume",
        Role::Require => "require",
        Role::Allow => "allow",
        Role::Ensure => "ensure",
    }
}

/// An array of all items, in the order of the document.
pub fn items_value(alloc: Global, items: &[Item]) -> Result<Value, AllocError>
    ensures { IfOk result (λ value. view value ≡ items_data (map item_in items.now)) }
{
    let mut values = Vec::with_capacity(alloc, items.len())?;
    for item in items {
        values.push(item_value(alloc, item)?)?;
    }
    Ok(Value::Array(values))
}

/// An item: its formula, name and sentence as they are written, and its role. A sentence that is missing is
/// null.
fn item_value(alloc: Global, item: &Item) -> Result<Value, AllocError>
    ensures { IfOk result (λ value. view value ≡ item_data (item_in item.now)) }
{
    let formula = item.formula.as_str();
    let name = item.name.as_str();
    let role = role_text(item.role);
    let text = text_or_null(alloc, &item.sentence)?;
    json!(in alloc; {"formula": formula, "name": name, "role": role, "text": text})
}

/// The names of the items with these numbers.
pub fn names_value(alloc: Global, document: &Document, numbers: &[u32]) -> Result<Value, AllocError>
    ensures { IfOk result (λ value.
        view value ≡ names_data (document_in document.now) numbers.now) }
{
    let mut values = Vec::with_capacity(alloc, numbers.len())?;
    for number in numbers {
        values.push(name_value(alloc, document, *number)?)?;
    }
    Ok(Value::Array(values))
}

/// The name of the item with this number, from 0.
pub fn name_value(alloc: Global, document: &Document, number: u32) -> Result<Value, AllocError>
    ensures { IfOk result (λ value.
        view value ≡ name_data (document_in document.now) number) }
{
    Value::try_from_str(alloc, name_of(document, number))
}
