// Traces as JSON, as `Trace::to_json` writes them. The text has pictures in their place:
// `requirement_report/src/pictures.rt`.
ghost use Rattle.std.specs.Prelude.{◌≡◌, IfOk};
ghost use Rattle.serde_json.specs.View.{view};
ghost use Rattle.ltl_word.specs.Json.{state_data, states_data, trace_data};

use ltl_word::{StateSet, Trace};
use serde_json::{Value, json};
use std::alloc::{AllocError, Global};

/// A trace: its states, or those of its stem and of its loop.
pub fn trace_value(alloc: Global, trace: &Trace) -> Result<Value, AllocError>
    ensures { IfOk result (λ value. view value ≡ trace_data trace.now) }
{
    match trace {
        Trace::Infinite { stem, loop_part } => {
            let stem = states_value(alloc, stem.as_slice())?;
            let loop_part = states_value(alloc, loop_part.as_slice())?;
            json!(in alloc; {"kind": "infinite", "loop": loop_part, "stem": stem})
        }
        Trace::Finite { states } => {
            let states = states_value(alloc, states.as_slice())?;
            json!(in alloc; {"kind": "finite", "states": states})
        }
    }
}

/// An array of states, in their order.
fn states_value(alloc: Global, states: &[StateSet]) -> Result<Value, AllocError>
    ensures { IfOk result (λ value. view value ≡ states_data states.now) }
{
    let mut values = Vec::with_capacity(alloc, states.len())?;
    for state in states {
        values.push(state_value(alloc, state)?)?;
    }
    Ok(Value::Array(values))
}

/// A state, as an array of the letters that are true in it, in ascending order of their bytes.
fn state_value(alloc: Global, state: &StateSet) -> Result<Value, AllocError>
    ensures { IfOk result (λ value. view value ≡ state_data state.now) }
{
    let names = state.names();
    let mut values = Vec::with_capacity(alloc, names.len())?;
    for name in names {
        values.push(Value::try_from_str(alloc, name.text())?)?;
    }
    Ok(Value::Array(values))
}
