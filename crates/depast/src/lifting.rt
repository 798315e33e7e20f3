// A trace with the new names where their past formulas hold.
ghost use Rattle.std.specs.Prelude.{◌≡◌, ℕ, ◌+◌, ◌<◌, ◌≤◌, length, IfOk, OnOk, Err};
ghost use Rattle.ltl_syntax.specs.Table.{tree_at};
ghost use Rattle.ltl_word.specs.Trace.{IsTrace, IsPosition, state_at};
ghost use Rattle.lasso_eval.specs.Cells.{cells, max_cells, AreTooMany};
ghost use Rattle.lasso_eval.specs.Rows.{row_at};
ghost use Rattle.depast.specs.Lifting.{IsLifted};
ghost use Rattle.depast.specs.Removal.{IsRemoved};
ghost use Rattle.depast.specs.Sources.{AreReadable, IsLiftedState, AreLiftedStates, shown};

use crate::lowering::{new_names, others};
use crate::removal::Removed;
use crate::sources::{Source, sources};
use lasso_eval::{EvalRefused, TruthRows, values};
use ltl_syntax::FormulaTable;
use ltl_word::{Name, StateSet, States, Trace};
use std::alloc::{AllocError, Global};

/// What new names stand for: the names as a set, where the truth of each is read, and the values
/// that are read.
#[derive(Drop)]
pub struct Meanings {
    pub new: StateSet,
    pub sources: Vec<Source>,
    pub values: TruthRows,
}

/// The trace with each new name where its past formula holds, and with no new name elsewhere. Its
/// stem is longer by as many loops as past operators are nested. Where the trace satisfies the
/// formula, this one satisfies the formula without past operators.
pub fn lift(
    alloc: Global,
    removed: &Removed,
    table: &FormulaTable,
    root: u32,
    trace: &Trace,
) -> Result<Trace, EvalRefused>
    requires root { root < length table.now.nodes }
    requires removed { IsRemoved (tree_at table.now root) removed.now }
    requires trace { IsTrace trace.now }
    ensures ok { IfOk result (IsLifted (tree_at table.now root) trace.now) }
    ensures few { OnOk result (cells trace.now (tree_at table.now root) ≤ max_cells) }
    ensures many { (a : ℕ) → result ≡ Err (EvalRefused.Cells a)
        → AreTooMany trace.now (tree_at table.now root) a }
{
    let values = values(alloc, table, root, trace)?;
    let new = new_names(alloc, removed)?;
    let sources = sources(alloc, table, root)?;
    let columns = values.positions(root) as u32;
    let meanings = Meanings {
        new,
        sources,
        values,
    };
    match trace {
        Trace::Infinite { stem: _, loop_part } => {
            let start = columns - loop_part.as_slice().len() as u32;
            let stem = lifted(alloc, removed, &meanings, trace, 0, start)?;
            let loop_part = lifted(alloc, removed, &meanings, trace, start, columns)?;
            Ok(Trace::Infinite { stem, loop_part })
        }
        Trace::Finite { states: _ } => {
            let states = lifted(alloc, removed, &meanings, trace, 0, columns)?;
            Ok(Trace::Finite { states })
        }
    }
}

/// The lifted states from a position up to before another.
fn lifted(
    alloc: Global,
    removed: &Removed,
    meanings: &Meanings,
    trace: &Trace,
    first: u32,
    end: u32,
) -> Result<States, AllocError>
    requires trace { IsTrace trace.now }
    requires order { first ≤ end }
    requires there { (i : ℕ) → i < end → IsPosition trace.now i }
    requires readable { (i : ℕ) → i < end → AreReadable meanings.now removed.now.names i }
    ensures { IfOk result (λ states. (count : ℕ) → first + count ≡ end
        → AreLiftedStates meanings.now removed.now.names trace.now first count states) }
{
    let mut states = Vec::with_capacity(alloc, (end - first) as usize)?;
    for position in first..end {
        states.push(lifted_state(alloc, removed, meanings, trace, position)?)?;
    }
    Ok(States::new(states))
}

fn lifted_state(
    alloc: Global,
    removed: &Removed,
    meanings: &Meanings,
    trace: &Trace,
    position: u32,
) -> Result<StateSet, AllocError>
    requires trace { IsTrace trace.now }
    requires there { IsPosition trace.now position }
    requires readable { AreReadable meanings.now removed.now.names position }
    ensures { IfOk result (IsLiftedState meanings.now removed.now.names (state_at trace.now position)
        position) }
{
    let _count = removed.count();
    let mut names = others(alloc, &meanings.new, state_of(trace, position as usize))?;
    for (number, source) in meanings.sources.iter().enumerate() {
        if shows(&meanings.values, *source, position) {
            names.push(Name::new(alloc, removed.name(number as u32))?)?;
        }
    }
    let state = StateSet::from_names(names)?;
    Ok(state)
}

/// The state at a position.
fn state_of(trace: &Trace, position: usize) -> &StateSet
    requires trace { IsTrace trace.now }
    requires there { IsPosition trace.now position }
    ensures { result.now ≡ state_at trace.now position }
{
    match trace {
        Trace::Infinite { stem, loop_part } => {
            let stem = stem.as_slice();
            let loop_part = loop_part.as_slice();
            if position < stem.len() {
                &stem[position]
            } else {
                &loop_part[(position - stem.len()) % loop_part.len()]
            }
        }
        Trace::Finite { states } => &states.as_slice()[position],
    }
}

/// Whether what is read from a source is true at a position.
fn shows(values: &TruthRows, source: Source, position: u32) -> bool
    requires { position < length (row_at values.now source.node) }
    ensures { result ≡ shown values.now source position }
{
    if position < source.back {
        return source.beyond;
    }
    values.at(source.node, position - source.back)
}
