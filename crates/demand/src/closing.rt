// By which rule a run closes. A state is closed to where it has the carry of the last one, and each
// eventuality that is pending at the last one was fulfilled since: so only states before some number come
// into question, and of these the nearest with the carry is taken.
ghost use Rattle.std.specs.Prelude.{◌≡◌, ◌&&◌, ◌-◌, ◌<◌, ◌≤◌, ℕ, length, nat_lt};
ghost use Rattle.demand.specs.Rows.{rows_in};
ghost use Rattle.demand.specs.Nearest.{nearest};
ghost use Rattle.demand.specs.Closing.{all_met, loop_to, close_of};

use crate::fulfilment::last_fulfilled;
use crate::row::{Row, eventualities, is_pending, may_end, nearest_equal};
use ltl_run::Close;
use ltl_syntax::Kind;

/// The states before this number, and before the last state, are those after which all that is pending at
/// the last one is fulfilled.
fn done_before(rows: &[Row]) -> usize
    requires { 0 < length rows.now }
    ensures before { result < length rows.now }
    ensures done { (l : ℕ) → nat_lt l result
        ≡ (nat_lt l (length rows.now - 1) && all_met (rows_in rows.now) l (length rows.now - 1)) }
{
    let last = rows.len() - 1;
    let mut before = last;
    for eventuality in 0..eventualities(rows, last) {
        if is_pending(rows, last, eventuality) {
            before = before.min(last_fulfilled(rows, last, eventuality));
        }
    }
    before
}

/// The nearest state that the last one closes to.
fn loop_of(rows: &[Row]) -> Option<Close>
    requires some { 0 < length rows.now }
    requires few { length rows.now ≤ 1001 }
    ensures { result ≡ nearest (length rows.now - 1)
        (loop_to (rows_in rows.now) (length rows.now - 1)) }
{
    let state = nearest_equal(rows, rows.len() - 1, done_before(rows))?;
    Some(Close::Loop(state))
}

/// The rule by which the run of these rows closes: by its end, or to the nearest state that it can.
pub fn close_of(kind: Kind, rows: &[Row]) -> Option<Close>
    requires some { 0 < length rows.now }
    requires few { length rows.now ≤ 1001 }
    ensures { result ≡ close_of kind (rows_in rows.now) (length rows.now - 1) }
{
    let ends = may_end(rows, rows.len() - 1);
    match kind {
        Kind::Infinite => {
            if ends {
                return Some(Close::Empty);
            }
            loop_of(rows)
        }
        Kind::Finite => {
            if ends {
                return Some(Close::End);
            }
            None
        }
    }
}
