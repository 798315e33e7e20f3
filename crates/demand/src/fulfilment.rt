// When an eventuality was fulfilled last. It is fulfilled after a state exactly where it was fulfilled last
// at a later one, so one number tells it of all earlier states at once.
ghost use Rattle.std.specs.Prelude.{◌≡◌, ◌<◌, ◌≤◌, length};
ghost use Rattle.demand.specs.Rows.{rows_in};
ghost use Rattle.demand.specs.Fulfilment.{last_done};

use crate::row::{Row, is_fulfilled};

/// The last state up to this one, but for state 0, that fulfils the eventuality of this index; 0 where none
/// does.
pub fn last_fulfilled(rows: &[Row], state: usize, eventuality: usize) -> usize
    requires { state < length rows.now }
    ensures last { result ≡ last_done (rows_in rows.now) state eventuality }
    ensures up_to { result ≤ state }
{
    let mut last = state;
    'walk: while last > 0 && !is_fulfilled(rows, last, eventuality) {
        last -= 1;
    }
    last
}
