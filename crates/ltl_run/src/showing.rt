// The states of a trace from the states of a run: in each the names of the letters that are true there.
ghost use Rattle.std.specs.Prelude.{◌≡◌, All, length, IfOk, OnOk, Some, None};
ghost use Rattle.ltl_run.specs.Shown.{HaveFormula, HasRoom, entry_name, entry_names, IsSmall, HasChosen};
ghost use Rattle.ltl_run.specs.Shown.{HaveChosen};
ghost use Rattle.ltl_run.specs.declared.run_state.RunState.{RunState as Values};

use crate::RunState;
use ltl_closure::Entry;
use ltl_syntax::FormulaTable;
use ltl_word::{Name, StateSet};
use std::alloc::{AllocError, Global};

/// The names of the letters among the entries, in their order.
pub fn letter_names(
    alloc: Global,
    table: &FormulaTable,
    entries: &[Entry],
) -> Result<Vec<Name>, AllocError>
    requires { HaveFormula table.now.names entries.now }
    ensures names { IfOk result (λ names. names.items ≡ entry_names table.now.names entries.now) }
    ensures small { OnOk result (All IsSmall entries.now) }
{
    let mut names = Vec::new(alloc);
    for entry in entries {
        if let Some(name) = letter_name(alloc, table, *entry)? {
            names.push(name)?;
        }
    }
    Ok(names)
}

/// The name of a letter. A fresh letter's is its number between braces.
fn letter_name(
    alloc: Global,
    table: &FormulaTable,
    entry: Entry,
) -> Result<Option<Name>, AllocError>
    requires { HasRoom table.now.names entry }
    ensures name { IfOk result (λ name. name ≡ entry_name table.now.names entry) }
    ensures small { IsSmall entry }
{
    match entry {
        Entry::Letter(n) => Ok(Some(Name::new(alloc, table.name_of(n))?)),
        Entry::Fresh(n) => {
            let text = format!(in alloc; "{{{n}}}")?;
            Ok(Some(Name::new(alloc, text.as_str())?))
        }
        _ => Ok(None),
    }
}

/// The states of the trace, one for each state of the run.
pub fn shown_states(
    alloc: Global,
    names: &[Name],
    states: &[RunState],
) -> Result<Vec<StateSet>, AllocError>
    requires { All (λ (s : Values). length s.letters.items ≡ length names.now) states.now }
    ensures { IfOk result (λ shown. HaveChosen names.now states.now (length states.now) shown.items) }
{
    let mut shown = Vec::new(alloc);
    for state in states {
        shown.push(shown_state(alloc, names, state)?)?;
    }
    Ok(shown)
}

/// The names of the letters that are true in a state.
fn shown_state(alloc: Global, names: &[Name], state: &RunState) -> Result<StateSet, AllocError>
    requires { length state.now.letters.items ≡ length names.now }
    ensures { IfOk result (λ shown. HasChosen names.now state.now shown) }
{
    let mut chosen = Vec::new(alloc);
    for (i, name) in names.iter().enumerate() {
        let holds = state.letters[i];
        if holds {
            chosen.push(Name::new(alloc, name.text())?)?;
        }
    }
    StateSet::from_names(chosen)
}
