// A trace with the letter `!` in some of its states. A row of a picture is that of a letter, so the row of
// marks is that of this one, which no formula has. A behaviour may have a letter of that name: its own row is
// marked too.
ghost use Rattle.std.specs.Prelude.{◌≡◌, ◌++◌, map, IfOk, OnOk};
ghost use Rattle.requirement_report.specs.Pictures.{looped_column, column, is_column, is_marked, mark_if};
ghost use Rattle.requirement_report.specs.Pictures.{with_mark, marked_states, marked};

use crate::letters::ascending;
use ltl_word::{Name, StateSet, States, Trace};
use std::alloc::{AllocError, Global};

/// The trace in which `!` is true in the states of these positions, counted from 0.
pub fn marked(alloc: Global, trace: &Trace, positions: &[u32]) -> Result<Trace, AllocError>
    ensures { IfOk result (λ made. made ≡ marked (map (column trace.now) positions.now) trace.now) }
{
    let columns = columns(alloc, trace, positions)?;
    marked_in(alloc, trace, &columns)
}

/// The columns in which the positions stand, in the same order.
fn columns(alloc: Global, trace: &Trace, positions: &[u32]) -> Result<Vec<usize>, AllocError>
    ensures { IfOk result (λ columns. columns.items ≡ map (column trace.now) positions.now) }
{
    let mut columns = Vec::new(alloc);
    for position in positions {
        columns.push(column(trace, *position))?;
    }
    Ok(columns)
}

/// The column of a picture in which a position stands, both counted from 0. A trace that repeats has a column
/// for each of its states and many positions for each state of its loop.
fn column(trace: &Trace, position: u32) -> usize
    ensures { result ≡ column trace.now position }
{
    match trace {
        Trace::Infinite { stem, loop_part } => {
            looped_column(stem.len(), loop_part.len(), position as usize)
        }
        Trace::Finite { .. } => position as usize,
    }
}

/// The column of a position of a stem and a loop of these lengths. Each loop has states; of an empty one the
/// position itself would be given.
fn looped_column(stem: usize, loop_part: usize, position: usize) -> usize
    ensures { result ≡ looped_column stem loop_part position }
{
    if position < stem || loop_part == 0 {
        return position;
    }
    stem + (position - stem) % loop_part
}

/// The trace with the mark in the states of these columns. The stem has the first columns, the loop the rest.
fn marked_in(alloc: Global, trace: &Trace, columns: &[usize]) -> Result<Trace, AllocError>
    ensures { IfOk result (λ made. made ≡ marked columns.now trace.now) }
{
    match trace {
        Trace::Infinite { stem, loop_part } => {
            let first = marked_states(alloc, columns, 0, stem.as_slice())?;
            let again = marked_states(alloc, columns, stem.len(), loop_part.as_slice())?;
            Ok(Trace::Infinite {
                stem: States::new(first),
                loop_part: States::new(again),
            })
        }
        Trace::Finite { states } => Ok(Trace::Finite {
            states: States::new(marked_states(alloc, columns, 0, states.as_slice())?),
        }),
    }
}

/// The states with the mark in these columns. The first of the states stands in the column `from`.
fn marked_states(
    alloc: Global,
    columns: &[usize],
    from: usize,
    states: &[StateSet],
) -> Result<Vec<StateSet>, AllocError>
    ensures { IfOk result (λ made. made.items ≡ marked_states columns.now from 0 states.now) }
{
    let mut made = Vec::with_capacity(alloc, states.len())?;
    'places: for place in 0..states.len() {
        let wanted = is_marked(columns, from, place);
        made.push(with_mark(alloc, wanted, &states[place])?)?;
    }
    Ok(made)
}

/// Whether the state at this place is to be marked, where the first one stands in the column `from`.
fn is_marked(columns: &[usize], from: usize, place: usize) -> bool
    ensures { result ≡ is_marked columns.now from place }
{
    columns.iter().any(|column| is_column(*column, from, place))
}

/// Whether the state at this place stands in the column.
fn is_column(column: usize, from: usize, place: usize) -> bool
    ensures { result ≡ is_column from place column }
{
    from <= column && column - from == place
}

/// A copy of the state, with the mark where it is wanted.
fn with_mark(alloc: Global, wanted: bool, state: &StateSet) -> Result<StateSet, AllocError>
    ensures { IfOk result (λ made. made ≡ with_mark wanted state.now) }
{
    let mut names = Vec::new(alloc);
    put_names(alloc, state.names(), &mut names)?;
    put_mark(alloc, wanted, &mut names)?;
    ascending(names)
}

/// Adds copies of the names.
pub fn put_names(alloc: Global, from: &[Name], names: &mut Vec<Name>) -> Result<(), AllocError>
    ensures { OnOk result (names.new.items ≡ names.old.items ++ from.now) }
{
    for name in from {
        names.push(Name::new(alloc, name.text())?)?;
    }
    Ok(())
}

/// Adds the mark where it is wanted.
pub fn put_mark(alloc: Global, wanted: bool, names: &mut Vec<Name>) -> Result<(), AllocError>
    ensures { OnOk result (names.new.items ≡ names.old.items ++ mark_if wanted) }
{
    if wanted {
        names.push(Name::new(alloc, "!")?)?;
    }
    Ok(())
}
