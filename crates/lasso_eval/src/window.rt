// Operators over a window of positions: those that are `first` to `last` later, or earlier.
//
// Each window is searched for a value: for true where one such position is enough, and for false
// where all have to be true. It is found exactly where the nearest one from the window's near
// end on is not beyond its far end. That place is kept while one pass goes along the row, so the
// numbers of the operator cost nothing. On a loop the pass begins one round before, since what is
// not found within one round is never found. What is n positions on is the window from n to n.
ghost use Rattle.std.specs.Prelude.{◌≡◌, ◌+◌, ◌-◌, ◌<◌, ◌≤◌, ◌↔◌, ℕ, length, if◌then◌else◌, Some, IfOk};
ghost use Rattle.std.specs.Prelude.{IsTrue};
ghost use Rattle.ltl_syntax.specs.Shape.{Future, Past, Between};
ghost use Rattle.ltl_word.specs.Claims.{Always', IsSomewhere};
ghost use Rattle.lasso_eval.specs.Cells.{max_cells};
ghost use Rattle.lasso_eval.specs.Rows.{cell};
ghost use Rattle.lasso_eval.specs.Windows.{same, shows, IsNearest, IsAtMost, IsAtLeast};

use crate::row::Row;
use std::alloc::{AllocError, Global};

// Whether two truth values are one.
fn agree(a: bool, b: bool) -> bool
    ensures { result ≡ same a b }
{
    a == b
}

// Whether there is such a position and its value is the one that is sought. Behind the last
// column it is that of the column where the loop comes to.
fn shows_at(a: &[bool], loop_start: usize, sought: bool, position: usize) -> bool
    requires within { loop_start ≤ length a.now }
    ensures { result ≡ shows sought a.now loop_start position }
{
    let count = a.len();
    if position < count {
        agree(sought, a[position])
    } else if loop_start < count {
        agree(
            sought,
            a[loop_start + (position - loop_start) % (count - loop_start)],
        )
    } else {
        false
    }
}

// The place nearest to this one, where that from the next one on is known.
fn nearer(shown: bool, place: usize, nearest: Option<usize>) -> Option<usize>
    ensures { result ≡ (if shown then Some place else nearest) }
{
    if shown { Some(place) } else { nearest }
}

fn is_at_most(place: Option<usize>, last: usize) -> bool
    ensures { IsTrue result ↔ IsAtMost place last }
{
    match place {
        Some(place) => place <= last,
        None => false,
    }
}

fn is_at_least(place: Option<usize>, last: usize) -> bool
    ensures { IsTrue result ↔ IsAtLeast place last }
{
    match place {
        Some(place) => last <= place,
        None => false,
    }
}

// The nearest place from this number of positions behind the last column on, by one round.
fn nearest_behind(sought: bool, first: u8, a: &[bool], loop_start: usize) -> Option<usize>
    requires within { loop_start ≤ length a.now }
    requires few { length a.now ≤ max_cells }
    ensures { IsNearest (λ j. IsTrue (shows sought a.now loop_start j)) (length a.now + first) result }
{
    let mut nearest = None;
    let mut i = a.len() + (a.len() - loop_start);
    while i > a.len() {
        i -= 1;
        let place = i + first as usize;
        nearest = nearer(shows_at(a, loop_start, sought, place), place, nearest);
    }
    nearest
}

/// The row that has the value `sought` where some position that is `first` to `last` later has
/// it. The columns come back to `loop_start`; where that is their number, the trace is finite.
pub fn later_row(
    alloc: Global,
    sought: bool,
    first: u8,
    last: u8,
    a: &[bool],
    loop_start: usize,
) -> Result<Row, AllocError>
    requires within { loop_start ≤ length a.now }
    requires few { length a.now ≤ max_cells }
    ensures count { IfOk result (λ row. length row ≡ length a.now) }
    ensures each { IfOk result (λ row. (i : ℕ) → i < length a.now → IsTrue (same sought (cell row i))
        ↔ IsSomewhere Always' Future (Between first last) (λ j. IsTrue (shows sought a.now loop_start j)) i) }
{
    let mut nearest = nearest_behind(sought, first, a, loop_start);
    let mut cells = vec![in alloc; false; a.len()]?;
    let mut i = a.len();
    while i > 0 {
        i -= 1;
        let place = i + first as usize;
        nearest = nearer(shows_at(a, loop_start, sought, place), place, nearest);
        cells[i] = agree(sought, is_at_most(nearest, i + last as usize));
    }
    Ok(Row::new(cells))
}

// Whether the position that is `first` earlier is there and has the value that is sought.
fn shows_before(a: &[bool], first: u8, sought: bool, i: usize) -> bool
    requires { i < length a.now }
    ensures { IsTrue result ↔ ((first ≤ i) × IsTrue (same sought (cell a.now (i - first)))) }
{
    first as usize <= i && agree(sought, a[i - first as usize])
}

/// The row that has the value `sought` where some position that is `first` to `last` earlier has
/// it.
pub fn earlier_row(
    alloc: Global,
    sought: bool,
    first: u8,
    last: u8,
    a: &[bool],
) -> Result<Row, AllocError>
    ensures count { IfOk result (λ row. length row ≡ length a.now) }
    ensures each { IfOk result (λ row. (i : ℕ) → i < length a.now → IsTrue (same sought (cell row i))
        ↔ IsSomewhere Always' Past (Between first last) (λ j. IsTrue (same sought (cell a.now j))) i) }
{
    let mut latest = None;
    let mut cells = Vec::with_capacity(alloc, a.len())?;
    for i in 0..a.len() {
        let shown = shows_before(a, first, sought, i);
        latest = nearer(shown, i.saturating_sub(first as usize), latest);
        let found = is_at_least(latest, i.saturating_sub(last as usize));
        cells.push(agree(sought, found))?;
    }
    Ok(Row::new(cells))
}
