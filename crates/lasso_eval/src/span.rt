// Operators over a span of positions, such as until and since, by sweeping over a row.
//
// Each follows at a position from its operands there and from its own value at the neighbour, so
// one pass from the far end fills the row. On a loop the far end is the loop's first position
// again: a pass round the loop, begun with the value beyond an end, finds the value there, since
// what is not fulfilled within one round is never fulfilled.
ghost use Rattle.std.specs.Prelude.{◌≡◌, ◌-◌, ◌<◌, ◌≤◌, ℕ, suc, length, IfOk};
ghost use Rattle.lasso_eval.specs.Rows.{cell};
ghost use Rattle.lasso_eval.specs.Spans.{beyond, step, swept_back, swept_before};

use crate::row::Row;
use std::alloc::{AllocError, Global};

/// The rule of an operator. The past operators have the rules of their mirror images: since that
/// of until, trigger that of release, and so on.
#[derive(Clone, Copy, Debug, PartialEq, Eq)]
pub enum Span {
    Until,
    Release,
    WeakUntil,
    StrongRelease,
    Eventually,
    Always,
}

impl Span {
    // The value beyond the end of a finite trace, and before position 0.
    fn beyond(self) -> bool
        ensures { result ≡ beyond self }
    {
        match self {
            Span::Until | Span::StrongRelease | Span::Eventually => false,
            Span::Release | Span::WeakUntil | Span::Always => true,
        }
    }

    // The value at a position, from the operands there and the value at the neighbour. The
    // operators of one operand have it on the right.
    fn step(self, a: bool, b: bool, neighbour: bool) -> bool
        ensures { result ≡ step self a b neighbour }
    {
        match self {
            Span::Until => b || (a && neighbour),
            Span::Release => b && (a || neighbour),
            Span::WeakUntil => (a || b) && (b || neighbour),
            Span::StrongRelease => (a && b) || (b && neighbour),
            Span::Eventually => b || neighbour,
            Span::Always => b && neighbour,
        }
    }
}

// The value at the first position of the loop, by one round from its end. Without a loop it is
// the value beyond the end.
fn once_around(span: Span, a: &[bool], b: &[bool], loop_start: usize) -> bool
    requires same { length a.now ≡ length b.now }
    requires within { loop_start ≤ length a.now }
    ensures { result ≡ swept_back span a.now b.now (length a.now - loop_start) loop_start (beyond span) }
{
    let mut value = span.beyond();
    let mut i = a.len();
    while i > loop_start {
        i -= 1;
        value = span.step(a[i], b[i], value);
    }
    value
}

/// The row of an operator on the positions from one on. The columns come back to `loop_start`;
/// where that is their number, the trace is finite.
pub fn future_row(
    alloc: Global,
    span: Span,
    a: &[bool],
    b: &[bool],
    loop_start: usize,
) -> Result<Row, AllocError>
    requires same { length a.now ≡ length b.now }
    requires within { loop_start ≤ length a.now }
    ensures count { IfOk result (λ row. length row ≡ length a.now) }
    ensures each { IfOk result (λ row. (i : ℕ) → i < length a.now → cell row i
        ≡ swept_back span a.now b.now (length a.now - i) i
        (swept_back span a.now b.now (length a.now - loop_start) loop_start (beyond span))) }
{
    let mut value = once_around(span, a, b, loop_start);
    let mut cells = vec![in alloc; false; a.len()]?;
    let mut i = a.len();
    while i > 0 {
        i -= 1;
        value = span.step(a[i], b[i], value);
        cells[i] = value;
    }
    Ok(Row::new(cells))
}

/// The row of an operator on the positions up to one.
pub fn past_row(alloc: Global, span: Span, a: &[bool], b: &[bool]) -> Result<Row, AllocError>
    requires same { length a.now ≡ length b.now }
    ensures count { IfOk result (λ row. length row ≡ length a.now) }
    ensures each { IfOk result (λ row. (i : ℕ) → i < length a.now
        → cell row i ≡ swept_before span a.now b.now (suc i)) }
{
    let mut value = span.beyond();
    let mut cells = Vec::with_capacity(alloc, a.len())?;
    for i in 0..a.len() {
        value = span.step(a[i], b[i], value);
        cells.push(value)?;
    }
    Ok(Row::new(cells))
}
