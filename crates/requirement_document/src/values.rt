// What a table has at a key, where a value of a type is wanted.
ghost use Rattle.std.specs.Prelude.{◌≡◌, None, Some, IfOk, MatchOption, option_map, option_and_then};
ghost use Rattle.std.specs.Prelude.{string_bytes};
ghost use Rattle.toml.specs.Data.{get, as_str};
ghost use Rattle.toml.specs.View.{view};
ghost use Rattle.requirement_document.specs.Keys.{key_word};
ghost use Rattle.requirement_document.specs.Inner.{IsTextAt};

use crate::Key;
use crate::words::key_word;
use std::alloc::{AllocError, Global};
use toml::Value;

/// The text at a key, where there is one.
pub enum TextAt<'v> {
    Missing,
    Unfit,
    Given(&'v str),
}

/// The value at a key of a table.
pub fn value_at<'v>(entry: &'v Value, key: Key) -> Option<&'v Value>
    ensures { MatchOption result (get (key_word key) (view entry.now) ≡ None)
        (λ v. get (key_word key) (view entry.now) ≡ Some (view v.now)) }
{
    entry.get(key_word(key))
}

/// The text at a key of a table.
pub fn text_at<'v>(entry: &'v Value, key: Key) -> TextAt<'v>
    ensures { IsTextAt key (view entry.now) result }
{
    let Some(value) = value_at(entry, key) else {
        return TextAt::Missing;
    };
    match value.as_str() {
        Some(text) => TextAt::Given(text),
        None => TextAt::Unfit,
    }
}

/// A copy of the text at a key of a table, where there is one.
pub fn copy_at(alloc: Global, entry: &Value, key: Key) -> Result<Option<String>, AllocError>
    ensures { IfOk result (λ text. option_map string_bytes text
        ≡ option_and_then as_str (get (key_word key) (view entry.now))) }
{
    match text_at(entry, key) {
        TextAt::Given(text) => Ok(Some(String::from_str(alloc, text)?)),
        TextAt::Missing => Ok(None),
        TextAt::Unfit => Ok(None),
    }
}
