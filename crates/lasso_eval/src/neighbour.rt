// Rows of the operators that look at a neighbour.
ghost use Rattle.std.specs.Prelude.{◌≡◌, ◌<◌, ◌≤◌, ℕ, length, IfOk};
ghost use Rattle.lasso_eval.specs.Rows.{cell};
ghost use Rattle.lasso_eval.specs.Neighbours.{earlier, later};

use crate::row::Row;
use std::alloc::{AllocError, Global};

/// The row of a next operator, which has the value `beyond` at the end of a finite trace. The
/// columns come back to `loop_start`; where that is their number, the trace is finite.
pub fn next_row(
    alloc: Global,
    a: &[bool],
    loop_start: usize,
    beyond: bool,
) -> Result<Row, AllocError>
    requires within { loop_start ≤ length a.now }
    ensures count { IfOk result (λ row. length row ≡ length a.now) }
    ensures each { IfOk result (λ row. (i : ℕ) → i < length a.now
        → cell row i ≡ later a.now loop_start beyond i) }
{
    let mut cells = Vec::with_capacity(alloc, a.len())?;
    for i in 0..a.len() {
        cells.push(after(a, loop_start, beyond, i))?;
    }
    Ok(Row::new(cells))
}

/// The row of a yesterday operator, which has the value `before` at position 0.
pub fn yesterday_row(alloc: Global, a: &[bool], before: bool) -> Result<Row, AllocError>
    ensures count { IfOk result (λ row. length row ≡ length a.now) }
    ensures each { IfOk result (λ row. (i : ℕ) → i < length a.now → cell row i ≡ earlier a.now before i) }
{
    let mut cells = Vec::with_capacity(alloc, a.len())?;
    for i in 0..a.len() {
        cells.push(ahead(a, before, i))?;
    }
    Ok(Row::new(cells))
}

// The value in the column after one.
fn after(a: &[bool], loop_start: usize, beyond: bool, i: usize) -> bool
    requires { i < length a.now }
    ensures { result ≡ later a.now loop_start beyond i }
{
    if i + 1 < a.len() {
        a[i + 1]
    } else if loop_start < a.len() {
        a[loop_start]
    } else {
        beyond
    }
}

// The value in the column before one.
fn ahead(a: &[bool], before: bool, i: usize) -> bool
    requires { i < length a.now }
    ensures { result ≡ earlier a.now before i }
{
    if i == 0 { before } else { a[i - 1] }
}
