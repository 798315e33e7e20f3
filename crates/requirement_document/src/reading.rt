// A text is read as TOML, and the table as a document.
ghost use Rattle.std.specs.Prelude.{IfOk, IfErr};
ghost use Rattle.toml.specs.View.{table_view};
ghost use Rattle.requirement_document.specs.Values.{document_in};
ghost use Rattle.requirement_document.specs.Document.{IsDocument, IsWritten, IsRefused};
ghost use Rattle.requirement_document.specs.Inner.{IsNotToml};

use crate::place::whole;
use crate::whole::{check_document, document_of};
use crate::{Cause, Document, Refused};
use std::alloc::Global;
use toml::{Table, Value};

const MAX_TEXT: usize = 4_194_304;

/// The line and the column, both from 1, of the place behind a text. A column counts characters.
fn position(before: &[u8]) -> (u64, u64) {
    let mut line = 1u64;
    let mut column = 1u64;
    for byte in before {
        if *byte == b'\n' {
            line = line.saturating_add(1);
            column = 1;
        } else if *byte & 0xC0 != 0x80 {
            column = column.saturating_add(1);
        }
    }
    (line, column)
}

/// The fault of a text that is no TOML.
fn not_toml(alloc: Global, text: &[u8], error: &toml::de::Error) -> Refused
    ensures { IsNotToml result }
{
    let start = match error.span() {
        Some(span) => span.start.min(text.len()),
        None => 0,
    };
    let (line, column) = position(&text[..start]);
    match String::from_str(alloc, error.message()) {
        Ok(message) => whole(Cause::NotToml {
            line,
            column,
            message,
        }),
        Err(_) => Refused::NoMemory,
    }
}

/// The table that a text is.
fn parsed(alloc: Global, text: &[u8]) -> Result<Table, Refused>
    ensures ok { IfOk result (λ t. IsWritten text.now (table_view t)) }
    ensures err { IfErr result (IsRefused text.now) }
{
    if text.len() > MAX_TEXT {
        return Err(whole(Cause::TooLong));
    }
    let words = match std::str::from_utf8(text) {
        Ok(words) => words,
        Err(fault) => return Err(whole(Cause::NotText(fault.valid_up_to() as u64))),
    };
    match toml::table_from_str(alloc, words) {
        Ok(table) => Ok(table),
        Err(error) => {
            if error.is_memory() {
                return Err(Refused::NoMemory);
            }
            Err(not_toml(alloc, text, &error))
        }
    }
}

/// The document that the text is, or else the first of its faults. They are looked for in this order: the
/// text as a whole, its keys, its kind of traces, the definitions, the items in their order, the behaviours.
/// In an entry the order is: its keys, its name, its sentence, and what else it has.
pub fn read(alloc: Global, text: &[u8]) -> Result<Document, Refused>
    ensures document { IfOk result (λ d. IsDocument text.now (document_in d)) }
    ensures refused { IfErr result (IsRefused text.now) }
{
    let table = parsed(alloc, text)?;
    match check_document(alloc, &table) {
        Ok(()) => {}
        Err(refused) => return Err(refused),
    }
    let root = Value::Table(table);
    match document_of(alloc, &root) {
        Ok(document) => Ok(document),
        Err(refused) => Err(refused),
    }
}
