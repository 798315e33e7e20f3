// Texts as JSON, and members that are texts.
ghost use Rattle.std.specs.Prelude.{◌≡◌, option_map, string_bytes, IfOk, OnOk};
ghost use Rattle.serde_json.specs.Data.{string, put as with_member};
ghost use Rattle.serde_json.specs.View.{view, members_view};
ghost use Rattle.requirement_json.specs.Items.{text_data};

use serde_json::{Map, Value, put};
use std::alloc::{AllocError, Global};

/// A text that is given as bytes, as the words of a report and its formulas are. They are UTF-8; for bytes
/// that are not there is no value.
pub fn text_value(alloc: Global, bytes: &[u8]) -> Result<Value, AllocError>
    ensures { IfOk result (λ value. view value ≡ string bytes.now) }
{
    match std::str::from_utf8(bytes) {
        Ok(text) => Value::try_from_str(alloc, text),
        Err(_) => Err(AllocError),
    }
}

/// A text, and null where there is none.
pub fn text_or_null(alloc: Global, text: &Option<String>) -> Result<Value, AllocError>
    ensures { IfOk result (λ value. view value ≡ text_data (option_map string_bytes text.now)) }
{
    match text {
        Some(text) => Value::try_from_str(alloc, text.as_str()),
        None => Ok(Value::Null),
    }
}

/// Puts a text that is given as bytes at a key.
pub fn put_text(
    alloc: Global,
    key: &str,
    bytes: &[u8],
    members: &mut Map<String, Value>,
) -> Result<(), AllocError>
    ensures { OnOk result (members_view members.new.entries
        ≡ with_member key.now (string bytes.now) (members_view members.old.entries)) }
{
    let value = text_value(alloc, bytes)?;
    put(members, alloc, key, value)
}
