// The further questions of a document.
ghost use Rattle.std.specs.Prelude.{◌≡◌, ◌++◌, ◌<◌, [], ◌∷◌, length, IfOk, OnOk};
ghost use Rattle.requirement_document.specs.Values.{document_in};
ghost use Rattle.requirement_document.specs.declared.document.Role.TheVariants.{Require};
ghost use Rattle.requirement_questions.specs.Trigger.{trigger_of};
ghost use Rattle.requirement_answers.specs.Items.{formula_of};
ghost use Rattle.requirement_answers.specs.Asking.{questions_of, asks_about, asks_of, asks_trigger};
ghost use Rattle.requirement_answers.specs.Asking.{covers_item};
ghost use Rattle.requirement_answers.specs.Inner.{asks_covered};

use crate::asking::Asking;
use crate::findings::Scope;
use crate::numbers::is_among;
use crate::replying::item_at;
use requirement_document::{Document, Role};
use requirement_questions::trigger;
use std::alloc::{AllocError, Global};

/// The questions about the items that the scope covers, in the document's order.
pub fn questions(
    alloc: Global,
    document: &Document,
    scope: Scope,
    left: &[u32],
) -> Result<Vec<Asking>, AllocError>
    requires { length document.now.items.items < 4294967296 }
    ensures { IfOk result (λ asks. asks.items ≡ questions_of (document_in document.now) scope left.now) }
{
    let mut asks = Vec::new(alloc);
    'items: for number in 0..document.items.len() {
        add_covered(alloc, &mut asks, document, scope, left, number as u32)?;
    }
    Ok(asks)
}

/// Adds the questions about an item where the scope covers it.
fn add_covered(
    alloc: Global,
    asks: &mut Vec<Asking>,
    document: &Document,
    scope: Scope,
    left: &[u32],
    number: u32,
) -> Result<(), AllocError>
    requires { number < length document.now.items.items }
    ensures { OnOk result (asks.new.items
        ≡ asks.old.items ++ asks_covered (document_in document.now) scope left.now number) }
{
    if covers_item(scope, number) {
        return add_about(alloc, asks, document, left, number);
    }
    Ok(())
}

/// Whether a report of this scope is about an item.
fn covers_item(scope: Scope, number: u32) -> bool
    ensures { result ≡ covers_item scope number }
{
    match scope {
        Scope::All => true,
        Scope::Item(item) => item == number,
        Scope::Behaviour(_) => false,
    }
}

/// Adds the questions about an item.
fn add_about(
    alloc: Global,
    asks: &mut Vec<Asking>,
    document: &Document,
    left: &[u32],
    number: u32,
) -> Result<(), AllocError>
    requires { number < length document.now.items.items }
    ensures { OnOk result (asks.new.items
        ≡ asks.old.items ++ asks_about (document_in document.now) left.now number) }
{
    let role = document.items[number as usize].role;
    add_by_role(alloc, asks, document, left, number, role)
}

/// Adds the questions about an item that has this role.
fn add_by_role(
    alloc: Global,
    asks: &mut Vec<Asking>,
    document: &Document,
    left: &[u32],
    number: u32,
    role: Role,
) -> Result<(), AllocError>
    requires { number < length document.now.items.items }
    ensures { OnOk result (asks.new.items
        ≡ asks.old.items ++ asks_of (document_in document.now) left.now number role) }
{
    match role {
        Role::Assume => Ok(()),
        Role::Require => add_requirement(alloc, asks, document, left, number),
        Role::Allow => add(asks, Asking::Possible(number)),
        Role::Ensure => add(asks, Asking::Follows(number)),
    }
}

/// Adds the questions about an item that is required.
fn add_requirement(
    alloc: Global,
    asks: &mut Vec<Asking>,
    document: &Document,
    left: &[u32],
    number: u32,
) -> Result<(), AllocError>
    requires { number < length document.now.items.items }
    ensures { OnOk result (asks.new.items
        ≡ asks.old.items ++ asks_of (document_in document.now) left.now number Require) }
{
    if is_among(left, number) {
        add_trigger(alloc, asks, document, number)?;
        return add(asks, Asking::New(number));
    }
    Ok(())
}

/// Adds the question whether an item is ever triggered, where it has a trigger.
fn add_trigger(
    alloc: Global,
    asks: &mut Vec<Asking>,
    document: &Document,
    number: u32,
) -> Result<(), AllocError>
    requires { number < length document.now.items.items }
    ensures { OnOk result (asks.new.items
        ≡ asks.old.items ++ asks_trigger number (trigger_of (formula_of (document_in document.now) number))) }
{
    let item = item_at(document, number);
    match trigger(alloc, item.table, item.root)? {
        Some(_) => add(asks, Asking::Triggered(number)),
        None => Ok(()),
    }
}

/// Adds a question.
fn add(asks: &mut Vec<Asking>, asking: Asking) -> Result<(), AllocError>
    ensures { OnOk result (asks.new.items ≡ asks.old.items ++ asking ∷ []) }
{
    asks.push(asking)?;
    Ok(())
}
