// The letters of a document, and those that may be slips, as JSON. The text tells them in
// `requirement_report/src/letters.rt` and in `requirement_report/src/remarks.rt`.
ghost use Rattle.std.specs.Prelude.{◌≡◌, map, option_map, string_bytes, IfOk};
ghost use Rattle.serde_json.specs.Data.{array};
ghost use Rattle.serde_json.specs.View.{view, items_of};
ghost use Rattle.requirement_document.specs.Values.{document_in};
ghost use Rattle.requirement_report.specs.Letters.{use_in};
ghost use Rattle.requirement_report.specs.Slips.{slip_in};
ghost use Rattle.requirement_json.specs.Letters.{use_data, letters_data, nearly_data};
ghost use Rattle.requirement_json.specs.Letters.{slip_data, slips_data};

use crate::items::names_value;
use requirement_document::Document;
use requirement_report::{Slip, Use};
use serde_json::{Value, json};
use std::alloc::{AllocError, Global};

/// An array of letters, each with the names of the items that have it.
pub fn letters_value(alloc: Global, document: &Document, uses: &[Use]) -> Result<Value, AllocError>
    ensures { IfOk result (λ value.
        view value ≡ letters_data (document_in document.now) (map use_in uses.now)) }
{
    let mut values = Vec::with_capacity(alloc, uses.len())?;
    for letter in uses {
        values.push(use_value(alloc, document, letter)?)?;
    }
    Ok(Value::Array(values))
}

/// One letter with the names of the items that have it.
fn use_value(alloc: Global, document: &Document, letter: &Use) -> Result<Value, AllocError>
    ensures { IfOk result (λ value.
        view value ≡ use_data (document_in document.now) (use_in letter.now)) }
{
    let items = names_value(alloc, document, &letter.items)?;
    let letter = letter.letter.as_str();
    json!(in alloc; {"items": items, "letter": letter})
}

/// An array of letters that may be slips.
pub fn slips_value(alloc: Global, document: &Document, slips: &[Slip]) -> Result<Value, AllocError>
    ensures { IfOk result (λ value.
        view value ≡ slips_data (document_in document.now) (map slip_in slips.now)) }
{
    let mut values = Vec::with_capacity(alloc, slips.len())?;
    for slip in slips {
        values.push(slip_value(alloc, document, slip)?)?;
    }
    Ok(Value::Array(values))
}

/// A letter that may be a slip, with the names of the items that have it.
fn slip_value(alloc: Global, document: &Document, slip: &Slip) -> Result<Value, AllocError>
    ensures { IfOk result (λ value.
        view value ≡ slip_data (document_in document.now) (slip_in slip.now)) }
{
    let items = names_value(alloc, document, &slip.items)?;
    let letter = slip.letter.as_str();
    let nearly = nearly_value(alloc, &slip.nearly)?;
    json!(in alloc; {"items": items, "letter": letter, "nearly": nearly})
}

/// An array of the letter that it is nearly, which is empty where there is none.
fn nearly_value(alloc: Global, nearly: &Option<String>) -> Result<Value, AllocError>
    ensures { IfOk result (λ value. view value
        ≡ array (items_of (nearly_data (option_map string_bytes nearly.now)))) }
{
    match nearly {
        Some(letter) => json!(in alloc; [letter.as_str()]),
        None => Ok(Value::Array(Vec::new(alloc))),
    }
}
