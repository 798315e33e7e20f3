// Which item or behaviour of a document has a name.
ghost use Rattle.std.specs.Prelude.{◌≡◌, IfOk, MatchOption};
ghost use Rattle.requirement_document.specs.Values.{document_in};
ghost use Rattle.requirements_top.specs.Naming.{item_names, behaviour_names, StandsAt, IsMissing, IsNamed};
ghost use Rattle.requirements_top.specs.Naming.{HasNoName};

use requirement_answers::Scope;
use requirement_document::Document;
use std::alloc::AllocError;

/// The item or the behaviour that has the name.
pub fn scope_named(document: &Document, name: &str) -> Result<Option<Scope>, AllocError>
    ensures { IfOk result (λ scope. MatchOption scope (HasNoName (document_in document.now) name.now)
        (IsNamed (document_in document.now) name.now)) }
{
    if let Some(number) = item_named(document, name)? {
        return Ok(Some(Scope::Item(number)));
    }
    match behaviour_named(document, name)? {
        Some(number) => Ok(Some(Scope::Behaviour(number))),
        None => Ok(None),
    }
}

/// The number of the item that has the name.
fn item_named(document: &Document, name: &str) -> Result<Option<u32>, AllocError>
    ensures { IfOk result (λ number. MatchOption number
        (IsMissing (item_names (document_in document.now)) name.now)
        (StandsAt (item_names (document_in document.now)) name.now)) }
{
    'items: for number in 0..document.items.len() {
        if document.items[number].name.as_str() == name {
            return Ok(Some(numbered(number)?));
        }
    }
    Ok(None)
}

/// The number of the behaviour that has the name.
fn behaviour_named(document: &Document, name: &str) -> Result<Option<u32>, AllocError>
    ensures { IfOk result (λ number. MatchOption number
        (IsMissing (behaviour_names (document_in document.now)) name.now)
        (StandsAt (behaviour_names (document_in document.now)) name.now)) }
{
    'behaviours: for number in 0..document.behaviours.len() {
        if document.behaviours[number].name.as_str() == name {
            return Ok(Some(numbered(number)?));
        }
    }
    Ok(None)
}

/// The place as a number of 32 bits, which no place is beyond, as memory has no room for that many names.
fn numbered(place: usize) -> Result<u32, AllocError>
    ensures { IfOk result (λ number. number ≡ place) }
{
    if place > u32::MAX as usize {
        return Err(AllocError);
    }
    Ok(place as u32)
}
