// States: arrays of arrays of names.
ghost use Rattle.std.specs.Prelude.{◌≡◌, IfOk, MatchOption, ℕ, List};
ghost use Rattle.toml.specs.View.{view};
ghost use Rattle.ltl_word.specs.Trace.{Names};
ghost use Rattle.ltl_word.specs.Json.{IsSetOf, AreSetsOf};
ghost use Rattle.requirement_document.specs.Entry.{state_data, states_data};

use ltl_word::{Name, StateSet, States};
use std::alloc::{AllocError, Global};
use toml::Value;

/// The set of the names of an array, where it is one of texts.
fn state_of(alloc: Global, value: &Value) -> Result<Option<StateSet>, AllocError>
    ensures { IfOk result (λ found. MatchOption found
        ((names : Names) → view value.now ≡ state_data names → ⊥)
        (λ state. (names : Names) × (view value.now ≡ state_data names) × IsSetOf names state)) }
{
    let Some(items) = value.as_array() else {
        return Ok(None);
    };
    let mut names = Vec::with_capacity(alloc, items.len())?;
    for item in items {
        let Some(text) = item.as_str() else {
            return Ok(None);
        };
        names.push(Name::new(alloc, text)?)?;
    }
    Ok(Some(StateSet::from_names(names)?))
}

/// The states of an array, where it is one of arrays of texts.
pub fn states_of(alloc: Global, value: &Value) -> Result<Option<States>, AllocError>
    ensures { IfOk result (λ found. MatchOption found
        ((all : List Names) → view value.now ≡ states_data all → ⊥)
        (λ states. (all : List Names) × (view value.now ≡ states_data all) × AreSetsOf all states)) }
{
    let Some(items) = value.as_array() else {
        return Ok(None);
    };
    let mut states = Vec::with_capacity(alloc, items.len())?;
    for item in items {
        let Some(state) = state_of(alloc, item)? else {
            return Ok(None);
        };
        states.push(state)?;
    }
    Ok(Some(States::new(states)))
}
