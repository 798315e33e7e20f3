// The grid as text.
ghost use Rattle.std.specs.Prelude.{◌≡◌, ◌<◌, ◌≤◌, ◌++◌, replicate, IfOk, OnOk};
ghost use Rattle.std.specs.List.{flat_map};
ghost use Rattle.trace_view.specs.Text.{below, spaces, measured, column, number, mark, under};
ghost use Rattle.trace_view.specs.Text.{line, label, row_line, loop_line, block, block_at, text};

use crate::Grid;
use crate::grid::Row;
use crate::names::{columns_of, shown, widest};
use itoa::Buffer;
use std::alloc::{AllocError, Global};

/// The widths of a picture.
#[derive(Clone, Copy)]
pub struct Measures {
    /// The columns of the names.
    names: usize,
    /// The columns of the numbers of states.
    numbers: usize,
    /// How many states a block has.
    block: usize,
}

/// The grid as lines of at most this number of columns, where one state fits: the numbers of the states, a
/// line for each letter, and a line that shows the loop. What does not fit stands in further blocks below.
#[tactic(auto, using(crate::proofs::Pieces::piece_behind))]
pub fn text(alloc: Global, grid: &Grid, width: usize) -> Result<Vec<u8>, AllocError>
    ensures { IfOk result (λ lines. lines.items ≡ text grid.now width) }
{
    let measures = measured(alloc, grid, width)?;
    let mut lines = Vec::new(alloc);
    'states: for state in 0..grid.states() {
        add_block_at(alloc, grid, measures, state, &mut lines)?;
    }
    Ok(lines)
}

fn measured(alloc: Global, grid: &Grid, width: usize) -> Result<Measures, AllocError>
    ensures { IfOk result (λ m. m ≡ measured grid.now width) }
{
    let names = widest(alloc, grid.rows())?;
    let mut buffer = Buffer::new();
    let numbers = buffer.format(grid.states().saturating_sub(1)).len();
    Ok(Measures {
        names,
        numbers,
        block: (width.saturating_sub(names) / (numbers + 1)).max(1),
    })
}

// A block begins at each multiple of the number of states that one has.
fn add_block_at(
    alloc: Global,
    grid: &Grid,
    measures: Measures,
    state: usize,
    lines: &mut Vec<u8>,
) -> Result<(), AllocError>
    requires block { 0 < measures.block }
    requires state { state < grid.now.states }
    ensures { OnOk result (lines.new.items ≡ lines.old.items ++ block_at grid.now measures state) }
{
    if state % measures.block != 0 {
        return Ok(());
    }
    let states = grid.states();
    let to = state + measures.block.min(states - state);
    add_block(alloc, grid, measures, state, to, lines)
}

fn add_block(
    alloc: Global,
    grid: &Grid,
    measures: Measures,
    from: usize,
    to: usize,
    lines: &mut Vec<u8>,
) -> Result<(), AllocError>
    requires { (from ≤ to) × (to ≤ grid.now.states) }
    ensures { OnOk result (lines.new.items ≡ lines.old.items ++ block grid.now measures from to) }
{
    if from > 0 {
        lines.push(b'\n')?;
    }
    add_numbers(grid, measures, from, to, lines)?;
    add_rows(alloc, grid, measures, from, to, lines)?;
    add_loop(grid, measures, from, to, lines)
}

#[tactic(auto, using(crate::proofs::Pieces::piece_from))]
fn add_numbers(
    grid: &Grid,
    measures: Measures,
    from: usize,
    to: usize,
    lines: &mut Vec<u8>,
) -> Result<(), AllocError>
    requires { from ≤ to }
    ensures { OnOk result (lines.new.items
        ≡ lines.old.items ++ line (spaces measures.names) (number grid.now measures) from to) }
{
    let mut buffer = Buffer::new();
    add_repeated(b' ', measures.names, lines)?;
    'states: for state in from..to {
        add_column(
            grid,
            measures,
            state,
            buffer.format(state).as_bytes(),
            lines,
        )?;
    }
    lines.push(b'\n')?;
    Ok(())
}

fn add_rows(
    alloc: Global,
    grid: &Grid,
    measures: Measures,
    from: usize,
    to: usize,
    lines: &mut Vec<u8>,
) -> Result<(), AllocError>
    requires { from ≤ to }
    ensures { OnOk result (lines.new.items
        ≡ lines.old.items ++ flat_map (row_line grid.now measures from to) grid.now.rows) }
{
    for row in grid.rows() {
        add_row(alloc, grid, measures, row, from, to, lines)?;
    }
    Ok(())
}

#[tactic(auto, using(crate::proofs::Pieces::piece_from))]
fn add_row(
    alloc: Global,
    grid: &Grid,
    measures: Measures,
    row: &Row,
    from: usize,
    to: usize,
    lines: &mut Vec<u8>,
) -> Result<(), AllocError>
    requires { from ≤ to }
    ensures { OnOk result (lines.new.items
        ≡ lines.old.items ++ row_line grid.now measures from to row.now) }
{
    add_label(alloc, measures, row, lines)?;
    'states: for state in from..to {
        add_column(grid, measures, state, mark(row.is_filled(state)), lines)?;
    }
    lines.push(b'\n')?;
    Ok(())
}

fn add_label(
    alloc: Global,
    measures: Measures,
    row: &Row,
    lines: &mut Vec<u8>,
) -> Result<(), AllocError>
    ensures { OnOk result (lines.new.items ≡ lines.old.items ++ label measures row.now) }
{
    let name = shown(alloc, row.name())?;
    lines.extend_from_slice(name.as_bytes())?;
    let columns = columns_of(alloc, row.name())?;
    add_repeated(b' ', measures.names.saturating_sub(columns), lines)
}

fn mark(filled: bool) -> &'static [u8]
    ensures { result.now ≡ mark filled }
{
    if filled { b"#" } else { b"." }
}

// A state's column of a line, with its text at the right.
fn add_column(
    grid: &Grid,
    measures: Measures,
    state: usize,
    text: &[u8],
    lines: &mut Vec<u8>,
) -> Result<(), AllocError>
    ensures { OnOk result (lines.new.items
        ≡ lines.old.items ++ column grid.now measures state text.now) }
{
    lines.push(if grid.loop_at() == Some(state) {
        b'|'
    } else {
        b' '
    })?;
    add_repeated(b' ', measures.numbers.saturating_sub(text.len()), lines)?;
    lines.extend_from_slice(text)
}

fn add_loop(
    grid: &Grid,
    measures: Measures,
    from: usize,
    to: usize,
    lines: &mut Vec<u8>,
) -> Result<(), AllocError>
    requires { (from ≤ to) × (to ≤ grid.now.states) }
    ensures { OnOk result (lines.new.items
        ≡ lines.old.items ++ loop_line grid.now measures grid.now.loop_at from to) }
{
    match grid.loop_at() {
        Some(start) if start < to => { add_loop_from(grid, measures, start, from, to, lines) }
        _ => Ok(()),
    }
}

#[tactic(auto, using(crate::proofs::Pieces::piece_from))]
fn add_loop_from(
    grid: &Grid,
    measures: Measures,
    start: usize,
    from: usize,
    to: usize,
    lines: &mut Vec<u8>,
) -> Result<(), AllocError>
    requires { (from ≤ to) × (to ≤ grid.now.states) }
    ensures { OnOk result (lines.new.items
        ≡ lines.old.items ++ line (spaces measures.names) (under grid.now measures start) from to) }
{
    add_repeated(b' ', measures.names, lines)?;
    'states: for state in from..to {
        add_under(grid, measures, start, state, lines)?;
    }
    lines.push(b'\n')?;
    Ok(())
}

// What stands under a state.
fn add_under(
    grid: &Grid,
    measures: Measures,
    start: usize,
    state: usize,
    lines: &mut Vec<u8>,
) -> Result<(), AllocError>
    requires { state < grid.now.states }
    ensures { OnOk result (lines.new.items ≡ lines.old.items ++ under grid.now measures start state) }
{
    if state < start {
        lines.push(b' ')?;
        return add_repeated(b' ', measures.numbers, lines);
    }
    lines.push(if state == start { b'^' } else { b'-' })?;
    add_repeated(b'-', measures.numbers.saturating_sub(1), lines)?;
    let states = grid.states();
    lines.push(if state + 1 == states { b'<' } else { b'-' })?;
    Ok(())
}

fn add_repeated(byte: u8, count: usize, lines: &mut Vec<u8>) -> Result<(), AllocError>
    ensures { OnOk result (lines.new.items ≡ lines.old.items ++ replicate count byte) }
{
    'bytes: for _byte in 0..count {
        lines.push(byte)?;
    }
    Ok(())
}
