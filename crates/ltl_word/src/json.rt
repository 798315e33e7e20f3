//! The JSON form of a trace. Writing goes by the value that `serde_json` writes; reading by the one that it
//! reads.
ghost use Rattle.std.specs.Prelude.{◌≡◌, Ok, IfOk, codes};
ghost use Rattle.serde_json.specs.Data.{string, object, member};
ghost use Rattle.serde_json.specs.View.{view, members_view};
ghost use Rattle.ltl_word.specs.declared.json.TraceFault.TheVariants.{NoMemory};
ghost use Rattle.ltl_word.specs.State.{IsAscending};
ghost use Rattle.ltl_word.specs.Trace.{IsTrace};
ghost use Rattle.ltl_word.specs.Json.{state_data, states_data, trace_data, trace_text, AreSetsOf, IsTraceOf};
ghost use Rattle.ltl_word.specs.Json.{IsReading, IsTraceReading, IsStatesReading, IsStateReading};

use crate::{Name, StateSet, States, Trace};
use serde_json::{Value, json};
use std::alloc::{AllocError, AllocFailed, Global};
use std::collections::btree_map::Iter;

/// Why bytes are no trace.
#[derive(Clone, Copy, Debug, PartialEq, Eq)]
pub enum TraceFault {
    /// They are no JSON text.
    NotJson,
    /// The value has not the form of a trace.
    NotTrace,
    /// It has the form, and its loop has no state.
    EmptyLoop,
    /// It has the form, and its list of states is empty.
    EmptyStates,
    /// Memory was wanting, and nothing is said of the bytes.
    NoMemory,
}

impl From<AllocError> for TraceFault {
    ghost from_gives = { λ _ e. e ≡ NoMemory };

    fn from(_refused: AllocError) -> TraceFault {
        TraceFault::NoMemory
    }
}

impl<T: Drop> From<AllocFailed<T>> for TraceFault {
    ghost from_gives = { λ _ e. e ≡ NoMemory };

    fn from(_refused: AllocFailed<T>) -> TraceFault {
        TraceFault::NoMemory
    }
}

impl Trace {
    /// The compact JSON text: an object with `kind` and the lists of states, each state an array of its
    /// names.
    pub fn to_json(&self, alloc: Global) -> Result<Vec<u8>, AllocError>
        ensures text { IfOk result (λ bytes. bytes.items ≡ trace_text self.now) }

        // read again, it is the trace
        ensures reads_back { IfOk result (λ bytes. IsTrace self.now → IsReading bytes.items (Ok self.now)) }
    {
        let value = trace_value(alloc, self)?;
        value.to_vec(alloc)
    }

    /// Reads such a text in any layout. Names may repeat and stand in any order, and a key that repeats has
    /// its last value, as in `serde_json`'s reading. The faults are tried in the order of `TraceFault`.
    pub fn from_json(alloc: Global, bytes: &[u8]) -> Result<Trace, TraceFault>
        ensures { IsReading bytes.now result }
    {
        match Value::from_slice(alloc, bytes) {
            Ok(value) => read_trace(alloc, &value),
            Err(fault) if fault.is_memory() => Err(TraceFault::NoMemory),
            Err(_) => Err(TraceFault::NotJson),
        }
    }
}

fn trace_value(alloc: Global, trace: &Trace) -> Result<Value, AllocError>
    ensures value { IfOk result (λ v. view v ≡ trace_data trace.now) }
    ensures sets { IfOk result (λ _. IsTraceOf trace.now trace.now) }
{
    match trace {
        Trace::Infinite { stem, loop_part } => {
            let stem = states_value(alloc, stem.as_slice())?;
            let loop_part = states_value(alloc, loop_part.as_slice())?;
            json!(in alloc; {"kind": "infinite", "loop": loop_part, "stem": stem})
        }
        Trace::Finite { states } => {
            let states = states_value(alloc, states.as_slice())?;
            json!(in alloc; {"kind": "finite", "states": states})
        }
    }
}

fn states_value(alloc: Global, states: &[StateSet]) -> Result<Value, AllocError>
    ensures value { IfOk result (λ v. view v ≡ states_data states.now) }
    ensures sets { IfOk result (λ _. AreSetsOf states.now states.now) }
{
    let mut items = Vec::with_capacity(alloc, states.len())?;
    for state in states {
        items.push(state_value(alloc, state)?)?;
    }
    Ok(Value::Array(items))
}

fn state_value(alloc: Global, state: &StateSet) -> Result<Value, AllocError>
    ensures value { IfOk result (λ v. view v ≡ state_data state.now) }
    ensures ascending { IsAscending state.now }
{
    let names = state.names();
    let mut items = Vec::with_capacity(alloc, names.len())?;
    for name in names {
        items.push(Value::String(String::from_str(alloc, name.text())?))?;
    }
    Ok(Value::Array(items))
}

// An object gives its members by keys in ascending order, so that `kind` comes first.
fn read_trace(alloc: Global, value: &Value) -> Result<Trace, TraceFault>
    ensures { IsTraceReading (view value.now) result }
{
    let Some(members) = value.as_object() else {
        return Err(TraceFault::NotTrace);
    };
    let mut members = members.iter();
    let Some((key, kind)) = members.next() else {
        return Err(TraceFault::NotTrace);
    };
    if key.as_str() != "kind" {
        return Err(TraceFault::NotTrace);
    }
    match kind.as_str() {
        Some("infinite") => read_infinite(alloc, members),
        Some("finite") => read_finite(alloc, members),
        _ => Err(TraceFault::NotTrace),
    }
}

// The members after the kind of an infinite trace.
fn read_infinite(alloc: Global, members: Iter<'_, String, Value>) -> Result<Trace, TraceFault>
    ensures { IsTraceReading (object (member (codes "kind") (string (codes "infinite"))
        (members_view members.entry))) result }
{
    let mut members = members;
    let (Some((loop_key, loop_part)), Some((stem_key, stem)), None) = (
        members.next(),
        members.next(),
        members.next(),
    ) else {
        return Err(TraceFault::NotTrace);
    };
    if loop_key.as_str() != "loop" || stem_key.as_str() != "stem" {
        return Err(TraceFault::NotTrace);
    }
    let loop_part = read_states(alloc, loop_part)?;
    let stem = read_states(alloc, stem)?;
    if loop_part.is_empty() {
        return Err(TraceFault::EmptyLoop);
    }
    Ok(Trace::Infinite { stem, loop_part })
}

// The members after the kind of a finite trace.
fn read_finite(alloc: Global, members: Iter<'_, String, Value>) -> Result<Trace, TraceFault>
    ensures { IsTraceReading (object (member (codes "kind") (string (codes "finite"))
        (members_view members.entry))) result }
{
    let mut members = members;
    let (Some((key, states)), None) = (members.next(), members.next()) else {
        return Err(TraceFault::NotTrace);
    };
    if key.as_str() != "states" {
        return Err(TraceFault::NotTrace);
    }
    let states = read_states(alloc, states)?;
    if states.is_empty() {
        return Err(TraceFault::EmptyStates);
    }
    Ok(Trace::Finite { states })
}

fn read_states(alloc: Global, value: &Value) -> Result<States, TraceFault>
    ensures { IsStatesReading (view value.now) result }
{
    let Some(items) = value.as_array() else {
        return Err(TraceFault::NotTrace);
    };
    let mut states = Vec::with_capacity(alloc, items.len())?;
    for item in items {
        states.push(read_state(alloc, item)?)?;
    }
    Ok(States::new(states))
}

fn read_state(alloc: Global, value: &Value) -> Result<StateSet, TraceFault>
    ensures { IsStateReading (view value.now) result }
{
    let Some(items) = value.as_array() else {
        return Err(TraceFault::NotTrace);
    };
    let mut names = Vec::with_capacity(alloc, items.len())?;
    for item in items {
        let Some(text) = item.as_str() else {
            return Err(TraceFault::NotTrace);
        };
        names.push(Name::new(alloc, text)?)?;
    }
    Ok(StateSet::from_names(names)?)
}
