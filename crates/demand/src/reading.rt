// The rows of a run, read from the values of its letters.
ghost use Rattle.std.specs.Prelude.{◌≡◌, ◌+◌, ◌<◌, ◌≤◌, length, All, IfOk};
ghost use Rattle.ltl_closure.specs.Entries.{IsNumber};
ghost use Rattle.enc_layout.specs.Letters.{Fits, letters_through};
ghost use Rattle.enc_layout.specs.Clauses.{layout_of};
ghost use Rattle.demand.specs.Rows.{values_of, rows_in};
ghost use Rattle.demand.specs.Entries.{AreRowEntries};
ghost use Rattle.demand.specs.Reading.{HasRoom, values_at, read_row, AreRead};

use crate::entries::{RowEntries, row_entries};
use crate::row::Row;
use crate::values::Values;
use enc_layout::Layout;
use ltl_closure::Closure;
use std::alloc::{AllocError, Global};

/// The values of the entries of these numbers at a step.
fn entry_values<V: Values>(
    alloc: Global,
    layout: &Layout,
    values: &V,
    step: u32,
    numbers: &[u32],
) -> Result<Vec<bool>, AllocError>
    requires few { step ≤ 1000 }
    requires fits { Fits layout.now step }
    requires room { HasRoom layout.now step (V.room values.now) }
    requires known { All (IsNumber layout.now.counts.entries) numbers.now }
    ensures { IfOk result (λ found. found.items
        ≡ values_at layout.now (V.values values.now) step numbers.now) }
{
    let mut found = Vec::new(alloc);
    for number in numbers {
        let entry = layout.entry(step, *number);
        found.push(values.value(entry.letter))?;
    }
    Ok(found)
}

/// The row of a step.
fn read_row<V: Values>(
    alloc: Global,
    closure: &Closure<'_>,
    values: &V,
    entries: &RowEntries,
    step: u32,
) -> Result<Row, AllocError>
    requires few { step ≤ 1000 }
    requires fits { Fits (layout_of closure.now) step }
    requires room { HasRoom (layout_of closure.now) step (V.room values.now) }
    requires entries { AreRowEntries closure.now.formula closure.now.kind entries.now }
    ensures { IfOk result (λ row. values_of row
        ≡ read_row closure.now.formula closure.now.kind (V.values values.now) step) }
{
    let layout = Layout::of(closure);
    Ok(Row {
        carry: entry_values(alloc, &layout, values, step, &entries.carry)?,
        pending: entry_values(alloc, &layout, values, step, &entries.pending)?,
        fulfilled: entry_values(alloc, &layout, values, step, &entries.fulfilled)?,
        refused: entry_values(alloc, &layout, values, step, &entries.refused)?,
    })
}

/// The rows of the states 0 to depth of the run that the values of the letters give.
pub fn read_rows<V: Values>(
    alloc: Global,
    closure: &Closure<'_>,
    values: &V,
    depth: u32,
) -> Result<Vec<Row>, AllocError>
    requires few { depth ≤ 1000 }
    requires fits { Fits (layout_of closure.now) depth }
    requires room { HasRoom (layout_of closure.now) depth (V.room values.now) }
    ensures count { IfOk result (λ rows. length rows.items ≡ depth + 1) }
    ensures rows { IfOk result (λ rows. AreRead closure.now.formula closure.now.kind
        (V.values values.now) depth (rows_in rows.items)) }
{
    let entries = row_entries(alloc, closure)?;
    let mut rows = Vec::new(alloc);
    for step in 0..depth + 1 {
        rows.push(read_row(alloc, closure, values, &entries, step)?)?;
    }
    Ok(rows)
}
