// The keys of a table, of which none may be unknown.
ghost use Rattle.std.specs.Prelude.{◌≡◌, None, Some, IfErr, OnOk, MatchOption, ℕ, List};
ghost use Rattle.toml.specs.View.{view, table_view};
ghost use Rattle.requirement_document.specs.Keys.{knows, knows_at, unknown_in, HasKeys};
ghost use Rattle.requirement_document.specs.Substitution.{Definitions};
ghost use Rattle.requirement_document.specs.Inner.{IsRefusedAt};

use crate::fault::Refusal;
use crate::words::knows;
use crate::{Cause, Section};
use std::alloc::Global;
use toml::{Table, Value};

/// The first key that may not stand in an entry of a section, or in the document.
pub fn unknown_key<'v>(section: Option<Section>, table: &'v Table) -> Option<&'v str>
    ensures { MatchOption result (unknown_in (knows_at section) (table_view table.now) ≡ None)
        (λ key. unknown_in (knows_at section) (table_view table.now) ≡ Some key.now) }
{
    for (key, _value) in table.iter() {
        if !knows(section, key.as_str()) {
            return Some(key.as_str());
        }
    }
    None
}

/// Refuses an entry that is no table, or has a key that it may not have.
pub fn check_keys(alloc: Global, section: Section, entry: &Value) -> Result<(), Refusal>
    ensures ok { OnOk result (HasKeys (knows section) (view entry.now)) }
    ensures err { (ds : Definitions) (taken : List (List ℕ))
        → IfErr result (IsRefusedAt section ds taken (view entry.now)) }
{
    let Some(table) = entry.as_table() else {
        return Err(Refusal::Cause(Cause::NotTable));
    };
    match unknown_key(Some(section), table) {
        Some(key) => Err(Refusal::Cause(Cause::UnknownKey(String::from_str(alloc, key)?))),
        None => Ok(()),
    }
}
