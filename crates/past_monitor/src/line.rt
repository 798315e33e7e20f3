// The state of a line.
ghost use Rattle.std.specs.Prelude.{IfOk};
ghost use Rattle.serde_json.specs.View.{view};
ghost use Rattle.past_monitor.specs.Line.{IsStateOf, IsStateIn};

use ltl_word::{Name, StateSet};
use serde_json::Value;
use std::alloc::{AllocError, Global};

/// The state that a line tells: it is a JSON array of strings, its names, which may repeat and stand in any
/// order. `None` where the line is no such array. The line is read as `Trace::from_json` reads the text of a
/// trace.
pub fn state_of(alloc: Global, line: &[u8]) -> Result<Option<StateSet>, AllocError>
    ensures { IfOk result (IsStateOf line.now) }
{
    match Value::from_slice(alloc, line) {
        Ok(value) => state_in(alloc, &value),
        Err(fault) if fault.is_memory() => Err(AllocError),
        Err(_) => Ok(None),
    }
}

fn state_in(alloc: Global, value: &Value) -> Result<Option<StateSet>, AllocError>
    ensures { IfOk result (IsStateIn (view value.now)) }
{
    let Some(items) = value.as_array() else {
        return Ok(None);
    };
    let mut names = Vec::with_capacity(alloc, items.len())?;
    for item in items {
        let Some(text) = item.as_str() else {
            return Ok(None);
        };
        names.push(Name::new(alloc, text)?)?;
    }
    Ok(Some(StateSet::from_names(names)?))
}
