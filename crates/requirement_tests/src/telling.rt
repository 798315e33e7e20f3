// What a text is read as, told in a line.
use ltl_syntax::print;
use requirement_document::{Behaviour, Cause, Document, DocumentFault, Item, Place, Refused, read};
use std::alloc::Global;
use std::test::Fail;

fn told_item(alloc: Global, line: &mut String, item: &Item) -> Result<(), Fail> {
    let formula = print(alloc, &item.table, item.root)?;
    let formula = String::from_utf8(formula)?;
    let head = format!(in alloc;
        "{:?} {} ({:?}) {}; ",
        item.role, item.name, item.sentence, formula
    )?;
    line.push_str(head.as_str())?;
    Ok(())
}

fn told_behaviour(alloc: Global, line: &mut String, behaviour: &Behaviour) -> Result<(), Fail> {
    let trace = String::from_utf8(behaviour.trace.to_json(alloc)?)?;
    let head = format!(in alloc; "{} ({:?}) {}; ", behaviour.name, behaviour.sentence, trace)?;
    line.push_str(head.as_str())?;
    Ok(())
}

fn told_document(alloc: Global, document: &Document) -> Result<String, Fail> {
    let mut line = format!(in alloc; "{:?}: ", document.kind)?;
    for item in &document.items {
        told_item(alloc, &mut line, item)?;
    }
    for behaviour in &document.behaviours {
        told_behaviour(alloc, &mut line, behaviour)?;
    }
    Ok(line)
}

/// What is said of a formula is said with its text.
fn told_fault(alloc: Global, fault: &DocumentFault) -> Result<String, Fail> {
    match &fault.place {
        Place::Document => Ok(format!(in alloc; "Document {:?}", fault.cause)?),
        Place::Entry {
            section,
            number,
            name,
            formula,
        } => match (&fault.cause, formula) {
            (Cause::Lexical(_) | Cause::Grammar(_), Some(formula)) => {
                Ok(format!(in alloc;
                    "{section:?} {number} {name:?} {:?} of {formula}",
                    fault.cause
                )?)
            }
            _ => Ok(format!(in alloc; "{section:?} {number} {name:?} {:?}", fault.cause)?),
        },
    }
}

/// The document, or the place and the cause of the fault.
pub fn told(alloc: Global, text: &[u8]) -> Result<String, Fail> {
    match read(alloc, text) {
        Ok(document) => told_document(alloc, &document),
        Err(Refused::Fault(fault)) => told_fault(alloc, &fault),
        Err(Refused::NoMemory) => Ok(String::from_str(alloc, "no memory")?),
    }
}
