// Behaviours: their traces, and the names that they take.
ghost use Rattle.std.specs.Prelude.{◌≡◌, ◌∷◌, ◌++◌, [], None, Some, IfOk, IfErr, OnOk, ℕ, List, codes, map};
ghost use Rattle.std.specs.Prelude.{string_bytes};
ghost use Rattle.toml.specs.Data.{get};
ghost use Rattle.toml.specs.View.{view};
ghost use Rattle.ltl_word.specs.declared.trace.Trace.{Trace};
ghost use Rattle.ltl_word.specs.Trace.{Names, IsTrace};
ghost use Rattle.ltl_word.specs.Json.{AreSetsOf};
ghost use Rattle.requirement_document.specs.declared.fault.Section.TheVariants as sections;
ghost use Rattle.requirement_document.specs.declared.fault.Key.{Key};
ghost use Rattle.requirement_document.specs.Keys.{key_word};
ghost use Rattle.requirement_document.specs.Substitution.{Definitions};
ghost use Rattle.requirement_document.specs.Values.{BehaviourValue, behaviour_in};
ghost use Rattle.requirement_document.specs.Entry.{IsBehaviour, states_data};
ghost use Rattle.requirement_document.specs.Document.{taken_before, name_at, in_list, HasBehaviours};
ghost use Rattle.requirement_document.specs.Document.{HasDefinitions, IsRefusedOf};
ghost use Rattle.requirement_document.specs.Inner.{IsRefusedAt, IsTraceAt, IsStateKey};

use crate::entries::entries_of;
use crate::fault::Refusal;
use crate::keys::check_keys;
use crate::names::{new_name, sentence_of, take_name};
use crate::place::placed;
use crate::states::states_of;
use crate::values::value_at;
use crate::{Behaviour, Cause, Key, Refused, Section};
use indexmap::IndexSet;
use ltl_word::{States, Trace};
use std::alloc::Global;
use toml::Value;

/// The states at a key of the entry, whose value this is.
fn states_at(alloc: Global, entry: &Value, key: Key, value: &Value) -> Result<States, Refusal>
    requires key { IsStateKey key }
    requires value { get (key_word key) (view entry.now) ≡ Some (view value.now) }
    ensures ok { IfOk result (λ states. (all : List Names)
        × (get (key_word key) (view entry.now) ≡ Some (states_data all)) × AreSetsOf all states) }
    ensures err { (ds : Definitions) (taken : List (List ℕ))
        → IfErr result (IsRefusedAt sections.Behaviour ds taken (view entry.now)) }
{
    let _ = entry;
    match states_of(alloc, value)? {
        Some(states) => Ok(states),
        None => Err(Refusal::Cause(Cause::Unfit(key))),
    }
}

/// The finite trace of an entry that has `states` alone.
fn finite(alloc: Global, entry: &Value, states: &Value) -> Result<Trace, Refusal>
    requires states { get (codes "states") (view entry.now) ≡ Some (view states.now) }
    requires stem { get (codes "stem") (view entry.now) ≡ None }
    requires again { get (codes "loop") (view entry.now) ≡ None }
    ensures ok { IfOk result (IsTraceAt (view entry.now)) }
    ensures err { (ds : Definitions) (taken : List (List ℕ))
        → IfErr result (IsRefusedAt sections.Behaviour ds taken (view entry.now)) }
{
    let states = states_at(alloc, entry, Key::States, states)?;
    if states.is_empty() {
        return Err(Refusal::Cause(Cause::NoState));
    }
    Ok(Trace::Finite { states })
}

/// The infinite trace of an entry that has `stem` and `loop` alone.
fn infinite(alloc: Global, entry: &Value, stem: &Value, loop_part: &Value) -> Result<Trace, Refusal>
    requires states { get (codes "states") (view entry.now) ≡ None }
    requires stem { get (codes "stem") (view entry.now) ≡ Some (view stem.now) }
    requires again { get (codes "loop") (view entry.now) ≡ Some (view loop_part.now) }
    ensures ok { IfOk result (IsTraceAt (view entry.now)) }
    ensures err { (ds : Definitions) (taken : List (List ℕ))
        → IfErr result (IsRefusedAt sections.Behaviour ds taken (view entry.now)) }
{
    let stem = states_at(alloc, entry, Key::Stem, stem)?;
    let loop_part = states_at(alloc, entry, Key::Loop, loop_part)?;
    if loop_part.is_empty() {
        return Err(Refusal::Cause(Cause::EmptyLoop));
    }
    Ok(Trace::Infinite { stem, loop_part })
}

/// The trace of an entry.
fn trace_of(alloc: Global, entry: &Value) -> Result<Trace, Refusal>
    ensures ok { IfOk result (IsTraceAt (view entry.now)) }
    ensures err { (ds : Definitions) (taken : List (List ℕ))
        → IfErr result (IsRefusedAt sections.Behaviour ds taken (view entry.now)) }
{
    let states = value_at(entry, Key::States);
    let stem = value_at(entry, Key::Stem);
    let loop_part = value_at(entry, Key::Loop);
    match (states, stem, loop_part) {
        (Some(states), None, None) => finite(alloc, entry, states),
        (None, Some(stem), Some(loop_part)) => infinite(alloc, entry, stem, loop_part),
        _ => Err(Refusal::Cause(Cause::Form)),
    }
}

/// The behaviour that an entry is.
fn behaviour(alloc: Global, entry: &Value, names: &IndexSet<String>) -> Result<Behaviour, Refusal>
    ensures ok { IfOk result (λ b. IsBehaviour (map string_bytes names.now.keys) (view entry.now)
        (behaviour_in b)) }
    ensures err { (ds : Definitions) → IfErr result (IsRefusedAt sections.Behaviour ds
        (map string_bytes names.now.keys) (view entry.now)) }
{
    check_keys(alloc, Section::Behaviour, entry)?;
    let name = new_name(entry, names)?;
    let sentence = sentence_of(alloc, entry)?;
    let trace = trace_of(alloc, entry)?;
    let own = String::from_str(alloc, name)?;
    Ok(Behaviour {
        name: own,
        sentence,
        trace,
    })
}

/// Reads a behaviour, puts it behind the others, and takes its name.
fn add_behaviour(
    alloc: Global,
    entry: &Value,
    names: &mut IndexSet<String>,
    behaviours: &mut Vec<Behaviour>,
) -> Result<(), Refusal>
    ensures behaviour { OnOk result ((b : BehaviourValue)
        × IsBehaviour (map string_bytes names.old.keys) (view entry.now) b
        × (map behaviour_in behaviours.new.items ≡ map behaviour_in behaviours.old.items ++ b ∷ [])) }
    ensures name { OnOk result (map string_bytes names.new.keys
        ≡ map string_bytes names.old.keys ++ in_list (name_at (view entry.now))) }
    ensures err { (ds : Definitions) → IfErr result (IsRefusedAt sections.Behaviour ds
        (map string_bytes names.old.keys) (view entry.now)) }
{
    let behaviour = behaviour(alloc, entry, names)?;
    take_name(alloc, names, behaviour.name.as_str())?;
    behaviours.push(behaviour)?;
    Ok(())
}

/// The behaviours of the document, where these names are taken before them.
pub fn read_behaviours(
    alloc: Global,
    root: &Value,
    names: &mut IndexSet<String>,
) -> Result<Vec<Behaviour>, Refused>
    requires defined { (ds : Definitions) × HasDefinitions (view root.now) ds }
    requires taken { map string_bytes names.old.keys ≡ taken_before sections.Behaviour (view root.now) }
    ensures ok { IfOk result (λ bs. HasBehaviours (view root.now) (map behaviour_in bs.items)) }
    ensures err { IfErr result (IsRefusedOf (view root.now)) }
{
    let entries = entries_of(root, Section::Behaviour)?;
    let mut behaviours = Vec::new(alloc);
    'each: for index in 0..entries.len() {
        let entry = &entries[index];
        match add_behaviour(alloc, entry, names, &mut behaviours) {
            Ok(()) => {}
            Err(refusal) => return Err(placed(alloc, Section::Behaviour, index, entry, refusal)),
        }
    }
    Ok(behaviours)
}
