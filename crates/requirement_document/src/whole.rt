// The document that a table is.
ghost use Rattle.std.specs.Prelude.{◌≡◌, None, Some, IfOk, IfErr, OnOk, codes};
ghost use Rattle.toml.specs.Data.{get, table};
ghost use Rattle.toml.specs.View.{view, table_view};
ghost use Rattle.requirement_document.specs.Keys.{knows_document, HasKeys};
ghost use Rattle.requirement_document.specs.Values.{document_in};
ghost use Rattle.requirement_document.specs.Document.{kind_at, IsDocumentOf, IsRefusedOf};

use crate::behaviours::read_behaviours;
use crate::defining::read_definitions;
use crate::items::add_items;
use crate::keys::unknown_key;
use crate::place::whole;
use crate::values::{TextAt, text_at};
use crate::{Cause, Document, Key, Refused, Role};
use indexmap::IndexSet;
use ltl_syntax::Kind;
use std::alloc::Global;
use toml::{Table, Value};

/// Refuses a document that has a key that it may not have.
pub fn check_document(alloc: Global, members: &Table) -> Result<(), Refused>
    ensures ok { OnOk result (HasKeys knows_document (table (table_view members.now))) }
    ensures err { IfErr result (IsRefusedOf (table (table_view members.now))) }
{
    match unknown_key(None, members) {
        Some(key) => Err(whole(Cause::UnknownKey(String::from_str(alloc, key)?))),
        None => Ok(()),
    }
}

/// The kind of the traces that the document speaks of.
fn kind_of(root: &Value) -> Result<Kind, Refused>
    ensures ok { IfOk result (λ kind. kind_at (get (codes "traces") (view root.now)) ≡ Some kind) }
    ensures err { IfErr result (IsRefusedOf (view root.now)) }
{
    match text_at(root, Key::Traces) {
        TextAt::Missing => Ok(Kind::Infinite),
        TextAt::Unfit => Err(whole(Cause::Unfit(Key::Traces))),
        TextAt::Given(word) => match word {
            "infinite" => Ok(Kind::Infinite),
            "finite" => Ok(Kind::Finite),
            _ => Err(whole(Cause::Unfit(Key::Traces))),
        },
    }
}

/// The document that a table is which has no unknown key.
pub fn document_of(alloc: Global, root: &Value) -> Result<Document, Refused>
    requires { HasKeys knows_document (view root.now) }
    ensures ok { IfOk result (λ d. IsDocumentOf (view root.now) (document_in d)) }
    ensures err { IfErr result (IsRefusedOf (view root.now)) }
{
    let kind = kind_of(root)?;
    let definitions = read_definitions(alloc, root)?;
    let mut names = IndexSet::new(alloc);
    let mut items = Vec::new(alloc);
    add_items(
        alloc,
        Role::Assume,
        root,
        &definitions,
        &mut names,
        &mut items,
    )?;
    add_items(
        alloc,
        Role::Require,
        root,
        &definitions,
        &mut names,
        &mut items,
    )?;
    add_items(
        alloc,
        Role::Allow,
        root,
        &definitions,
        &mut names,
        &mut items,
    )?;
    add_items(
        alloc,
        Role::Ensure,
        root,
        &definitions,
        &mut names,
        &mut items,
    )?;
    let behaviours = read_behaviours(alloc, root, &mut names)?;
    Ok(Document {
        kind,
        items,
        behaviours,
    })
}
