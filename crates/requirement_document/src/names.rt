// Names: the name of an entry, and the set of those that are taken.
ghost use Rattle.std.specs.Prelude.{◌≡◌, ◌≢◌, ◌∷◌, ◌++◌, [], false, IfOk, IfErr, OnOk, ℕ, List, map};
ghost use Rattle.std.specs.Prelude.{option_map, string_bytes};
ghost use Rattle.toml.specs.View.{view};
ghost use Rattle.requirement_document.specs.declared.fault.Key.TheVariants as keys;
ghost use Rattle.requirement_document.specs.Substitution.{Definitions};
ghost use Rattle.requirement_document.specs.Entry.{HasText, IsNewName, IsSentence, is_among};
ghost use Rattle.requirement_document.specs.Inner.{IsRefusedAt};
ghost use Rattle.requirement_document.specs.declared.fault.Section.{Section};

use crate::fault::Refusal;
use crate::values::{TextAt, text_at};
use crate::{Cause, Key};
use indexmap::IndexSet;
use std::alloc::{AllocError, Global};
use toml::Value;

/// The name of an entry.
pub fn name_of<'v>(entry: &'v Value) -> Result<&'v str, Refusal>
    ensures text { IfOk result (λ name. HasText (view entry.now) keys.Name name.now) }
    ensures some { IfOk result (λ name. name.now ≢ []) }
    ensures err { (s : Section) (ds : Definitions) (taken : List (List ℕ))
        → IfErr result (IsRefusedAt s ds taken (view entry.now)) }
{
    match text_at(entry, Key::Name) {
        TextAt::Missing => Err(Refusal::Cause(Cause::Missing(Key::Name))),
        TextAt::Unfit => Err(Refusal::Cause(Cause::Unfit(Key::Name))),
        TextAt::Given(name) => {
            if name.is_empty() {
                return Err(Refusal::Cause(Cause::EmptyName));
            }
            Ok(name)
        }
    }
}

/// The name of an entry, which is none of those that are taken.
pub fn new_name<'v>(entry: &'v Value, names: &IndexSet<String>) -> Result<&'v str, Refusal>
    ensures ok { IfOk result (λ name. IsNewName (view entry.now) (map string_bytes names.now.keys) name.now) }
    ensures err { (s : Section) (ds : Definitions)
        → IfErr result (IsRefusedAt s ds (map string_bytes names.now.keys) (view entry.now)) }
{
    let name = name_of(entry)?;
    if is_taken(names, name) {
        return Err(Refusal::Cause(Cause::NameTwice));
    }
    Ok(name)
}

/// A copy of the sentence of an entry, where it has one.
pub fn sentence_of(alloc: Global, entry: &Value) -> Result<Option<String>, Refusal>
    ensures ok { IfOk result (λ found. IsSentence (view entry.now) (option_map string_bytes found)) }
    ensures err { (s : Section) (ds : Definitions) (taken : List (List ℕ))
        → IfErr result (IsRefusedAt s ds taken (view entry.now)) }
{
    match text_at(entry, Key::Text) {
        TextAt::Missing => Ok(None),
        TextAt::Unfit => Err(Refusal::Cause(Cause::Unfit(Key::Text))),
        TextAt::Given(text) => Ok(Some(String::from_str(alloc, text)?)),
    }
}

/// Whether the name is in the set.
fn is_taken(names: &IndexSet<String>, name: &str) -> bool
    ensures { result ≡ is_among name.now (map string_bytes names.now.keys) }
{
    names.contains(name)
}

/// Puts a name into the set.
pub fn take_name(alloc: Global, names: &mut IndexSet<String>, name: &str) -> Result<(), AllocError>
    requires { is_among name.now (map string_bytes names.old.keys) ≡ false }
    ensures { OnOk result (map string_bytes names.new.keys
        ≡ map string_bytes names.old.keys ++ name.now ∷ []) }
{
    let own = String::from_str(alloc, name)?;
    names.insert(own)?;
    Ok(())
}
