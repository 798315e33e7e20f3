// Rows that follow position by position: constants, letters and the propositional operators.
ghost use Rattle.std.specs.Prelude.{◌≡◌, ◌<◌, ◌↔◌, ℕ, length, not, IfOk, IsTrue, Contains};
ghost use Rattle.ltl_word.specs.Trace.{IsTrace, state_at};
ghost use Rattle.lasso_eval.specs.Rows.{cell};
ghost use Rattle.lasso_eval.specs.Truth.{connected};

use crate::row::Row;
use ltl_word::{StateSet, Trace};
use std::alloc::{AllocError, Global};

/// The operators that join the values of two formulas at one position.
#[derive(Clone, Copy, Debug, PartialEq, Eq)]
pub enum Connective {
    And,
    Or,
    Implies,
    Iff,
}

impl Connective {
    fn value(self, a: bool, b: bool) -> bool
        ensures { result ≡ connected self a b }
    {
        match self {
            Connective::And => a && b,
            Connective::Or => a || b,
            Connective::Implies => !a || b,
            Connective::Iff => a == b,
        }
    }
}

/// The row of two formulas joined.
pub fn connective_row(
    alloc: Global,
    connective: Connective,
    a: &[bool],
    b: &[bool],
) -> Result<Row, AllocError>
    requires same { length a.now ≡ length b.now }
    ensures count { IfOk result (λ row. length row ≡ length a.now) }
    ensures each { IfOk result (λ row. (i : ℕ) → i < length a.now
        → cell row i ≡ connected connective (cell a.now i) (cell b.now i)) }
{
    let mut cells = Vec::with_capacity(alloc, a.len())?;
    for i in 0..a.len() {
        cells.push(connective.value(a[i], b[i]))?;
    }
    Ok(Row::new(cells))
}

/// The row of a negation.
pub fn not_row(alloc: Global, a: &[bool]) -> Result<Row, AllocError>
    ensures count { IfOk result (λ row. length row ≡ length a.now) }
    ensures each { IfOk result (λ row. (i : ℕ) → i < length a.now → cell row i ≡ not (cell a.now i)) }
{
    let mut cells = Vec::with_capacity(alloc, a.len())?;
    for i in 0..a.len() {
        cells.push(!a[i])?;
    }
    Ok(Row::new(cells))
}

/// The row of a constant.
pub fn constant_row(alloc: Global, value: bool, columns: usize) -> Result<Row, AllocError>
    ensures count { IfOk result (λ row. length row ≡ columns) }
    ensures each { IfOk result (λ row. (i : ℕ) → i < columns → cell row i ≡ value) }
{
    let cells = vec![in alloc; value; columns]?;
    Ok(Row::new(cells))
}

/// The row of the letter with this name.
pub fn letter_row(
    alloc: Global,
    name: &str,
    trace: &Trace,
    columns: usize,
) -> Result<Row, AllocError>
    requires { IsTrace trace.now }
    ensures count { IfOk result (λ row. length row ≡ columns) }
    ensures each { IfOk result (λ row. (i : ℕ) → i < columns
        → IsTrue (cell row i) ↔ Contains (state_at trace.now i) name.now) }
{
    let mut cells = Vec::with_capacity(alloc, columns)?;
    for i in 0..columns {
        cells.push(has_at(trace, i, name))?;
    }
    Ok(Row::new(cells))
}

// Whether the state at a position has the name.
fn has_at(trace: &Trace, position: usize, name: &str) -> bool
    requires { IsTrace trace.now }
    ensures { IsTrue result ↔ Contains (state_at trace.now position) name.now }
{
    match trace {
        Trace::Infinite { stem, loop_part } => {
            let stem = stem.as_slice();
            let loop_part = loop_part.as_slice();
            if position < stem.len() {
                stem[position].has(name)
            } else {
                loop_part[(position - stem.len()) % loop_part.len()].has(name)
            }
        }
        Trace::Finite { states } => {
            let states = states.as_slice();
            position < states.len() && states[position].has(name)
        }
    }
}
