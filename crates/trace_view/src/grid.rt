// The grid of a trace.
ghost use Rattle.std.specs.Prelude.{◌≡◌, ◌↔◌, ◌+◌, ◌*◌, ◌^◌, ◌<◌, ◌≤◌, false, slice_index_or, map, All};
ghost use Rattle.std.specs.Prelude.{IsTrue, IfOk, OnOk, Err, SomeIff};
ghost use Rattle.trace_view.specs.declared.grid.GridRefused.TheVariants as refusals;
ghost use Rattle.trace_view.specs.Grid.{RowValue, IsRowOf, IsGridOf, AreCells, cells_for, states_in};

use ltl_word::{Name, StateSet, Trace};
use std::alloc::{AllocError, AllocFailed, Global};
use std::marker::Model;

/// The most cells that a grid has, where the numbers of the states count as a row.
pub const CELL_LIMIT: usize = 16_777_216;

/// Why there is no grid.
#[derive(Clone, Copy, Debug, PartialEq, Eq)]
pub enum GridRefused {
    /// It would have more cells than `CELL_LIMIT`.
    TooLarge,
    NoMemory,
}

impl From<AllocError> for GridRefused {
    ghost from_gives = { λ _ e. e ≡ refusals.NoMemory };

    fn from(_refused: AllocError) -> GridRefused {
        GridRefused::NoMemory
    }
}

impl<T: Drop> From<AllocFailed<T>> for GridRefused {
    ghost from_gives = { λ _ e. e ≡ refusals.NoMemory };

    fn from(_refused: AllocFailed<T>) -> GridRefused {
        GridRefused::NoMemory
    }
}

/// A letter, and for each state whether it is true there.
#[derive(Drop)]
pub struct Row {
    name: Name,
    cells: Vec<bool>,
}

impl Model for Row {
    ghost use Rattle.trace_view.specs.Grid.{RowValue, coded_row};

    ghost Value = { RowValue };

    ghost coded = { coded_row };

    ghost view = { λ r. record { name = r.name; cells = r.cells.items } };
}

impl Row {
    pub fn name(&self) -> &str
        ensures { result.now ≡ self.now.name }
    {
        self.name.text()
    }

    /// Whether the cell of the state is filled. There is none behind the last state.
    pub fn is_filled(&self, state: usize) -> bool
        ensures { result ≡ slice_index_or self.now.cells state false }
    {
        match self.cells.get(state) {
            Some(filled) => *filled,
            None => false,
        }
    }
}

/// Rows over the states of a trace, of which a loop is shown once.
#[derive(Drop)]
pub struct Grid {
    rows: Vec<Row>,
    states: usize,
    loop_at: Option<usize>,
}

impl Model for Grid {
    ghost use Rattle.trace_view.specs.Grid.{GridValue};

    ghost Value = { GridValue };

    ghost view = { λ g. record { rows = g.rows.items; states = g.states; loop_at = g.loop_at } };
}

impl Grid {
    /// The grid with these letters, each of which may come again. It is refused exactly where it would have
    /// too many cells.
    pub fn of(alloc: Global, trace: &Trace, letters: &[Name]) -> Result<Grid, GridRefused>
        ensures grid { IfOk result (IsGridOf trace.now letters.now) }
        ensures fits { OnOk result (cells_for trace.now letters.now ≤ CELL_LIMIT) }
        ensures too_large { result ≡ Err refusals.TooLarge → CELL_LIMIT < cells_for trace.now letters.now }
    {
        let Some(states) = states_of(trace) else {
            return Err(GridRefused::TooLarge);
        };
        if !is_within_limit(letters.len(), states) {
            return Err(GridRefused::TooLarge);
        }
        let rows = rows_of(alloc, trace, letters)?;
        Ok(Grid {
            rows,
            states,
            loop_at: match trace {
                Trace::Infinite { stem, .. } => Some(stem.len()),
                Trace::Finite { .. } => None,
            },
        })
    }

    pub fn rows(&self) -> &[Row]
        ensures { result.now ≡ self.now.rows }
    {
        &self.rows
    }

    /// How many states are shown.
    pub fn states(&self) -> usize
        ensures { result ≡ self.now.states }
    {
        self.states
    }

    /// The first state of the loop. A finite trace has none.
    pub fn loop_at(&self) -> Option<usize>
        ensures { result ≡ self.now.loop_at }
    {
        self.loop_at
    }
}

// How many states are shown, where the number is one of the machine.
fn states_of(trace: &Trace) -> Option<usize>
    ensures { SomeIff result (states_in trace.now < 2 ^ 64) (states_in trace.now) }
{
    match trace {
        Trace::Infinite { stem, loop_part } => stem.len().checked_add(loop_part.len()),
        Trace::Finite { states } => Some(states.len()),
    }
}

fn is_within_limit(letters: usize, states: usize) -> bool
    ensures { IsTrue result ↔ ((letters + 1) * states ≤ CELL_LIMIT) }
{
    let Some(rows) = letters.checked_add(1) else {
        return states == 0;
    };
    match rows.checked_mul(states) {
        Some(cells) => cells <= CELL_LIMIT,
        None => false,
    }
}

fn rows_of(alloc: Global, trace: &Trace, letters: &[Name]) -> Result<Vec<Row>, AllocError>
    ensures { IfOk result (λ rows. (map (λ (r : RowValue). r.name) rows.items ≡ letters.now)
        × All (IsRowOf trace.now) rows.items) }
{
    let mut rows = Vec::with_capacity(alloc, letters.len())?;
    for letter in letters {
        rows.push(row_of(alloc, trace, letter.text())?)?;
    }
    Ok(rows)
}

fn row_of(alloc: Global, trace: &Trace, name: &str) -> Result<Row, AllocError>
    ensures { IfOk result (λ row. (row.name ≡ name.now) × IsRowOf trace.now row) }
{
    let cells = match trace {
        Trace::Infinite { stem, loop_part } => {
            let mut cells = cells_of(alloc, stem.as_slice(), name)?;
            let again = cells_of(alloc, loop_part.as_slice(), name)?;
            cells.extend_from_slice(&again)?;
            cells
        }
        Trace::Finite { states } => cells_of(alloc, states.as_slice(), name)?,
    };
    Ok(Row {
        name: Name::new(alloc, name)?,
        cells,
    })
}

fn cells_of(alloc: Global, states: &[StateSet], name: &str) -> Result<Vec<bool>, AllocError>
    ensures { IfOk result (λ cells. AreCells states.now name.now cells.items) }
{
    let mut cells = Vec::with_capacity(alloc, states.len())?;
    for state in states {
        cells.push(state.has(name))?;
    }
    Ok(cells)
}
