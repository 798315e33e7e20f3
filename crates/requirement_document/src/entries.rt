// The entries of a section.
ghost use Rattle.std.specs.Prelude.{◌≡◌, Some, IfOk, IfErr, map};
ghost use Rattle.toml.specs.View.{view};
ghost use Rattle.requirement_document.specs.Document.{entries, IsRefusedOf};

use crate::place::whole;
use crate::values::value_at;
use crate::{Cause, Key, Refused, Section};
use toml::Value;

const MAX_ENTRIES: usize = 1024;

/// The entries of a section as they are written: none where the document has not the section.
pub fn entries_of<'v>(root: &'v Value, section: Section) -> Result<&'v [Value], Refused>
    ensures ok { IfOk result (λ es. entries section (view root.now) ≡ Some (map view es.now)) }
    ensures err { IfErr result (IsRefusedOf (view root.now)) }
{
    let Some(value) = value_at(root, Key::Section(section)) else {
        return Ok(&[]);
    };
    let Some(entries) = value.as_array() else {
        return Err(whole(Cause::Unfit(Key::Section(section))));
    };
    if entries.len() > MAX_ENTRIES {
        return Err(whole(Cause::TooMany(section)));
    }
    Ok(entries.as_slice())
}
