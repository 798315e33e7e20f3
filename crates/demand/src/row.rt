// What is looked at of a state of a run, and what single values of it say.
ghost use Rattle.std.specs.Prelude.{◌≡◌, ◌<◌, ◌≤◌, length};
ghost use Rattle.demand.specs.Values.{value_at, are_false};
ghost use Rattle.demand.specs.Rows.{rows_in};
ghost use Rattle.demand.specs.Nearest.{nearest, where_true};
ghost use Rattle.demand.specs.Closing.{is_one_carry};

use crate::difference::first_difference;

/// The truth values of a state that say whether a run closes and whether it is pruned, each in the closure's
/// order.
#[derive(Drop)]
pub struct Row {
    /// Those of the next requests, and then those of the arguments of the yesterday requests.
    pub carry: Vec<bool>,
    /// Of each eventuality, whether its request is true.
    pub pending: Vec<bool>,
    /// Of each eventuality, whether its right operand is true.
    pub fulfilled: Vec<bool>,
    /// Those of the requests that may not be true in the last state: of all next requests on infinite
    /// traces, of the strong ones on finite traces.
    pub refused: Vec<bool>,
}

/// The value at a place, false behind the last one.
fn value_at(values: &[bool], place: usize) -> bool
    ensures { result ≡ value_at values.now place }
{
    place < values.len() && values[place]
}

fn are_false(values: &[bool]) -> bool
    ensures { result ≡ are_false values.now }
{
    for value in values {
        if *value {
            return false;
        }
    }
    true
}

/// How many eventualities the row of the state has.
pub fn eventualities(rows: &[Row], state: usize) -> usize
    requires { state < length rows.now }
    ensures { result ≡ length (rows_in rows.now state).pending }
{
    rows[state].pending.len()
}

/// Whether the eventuality of this index, from 0, is pending at the state.
pub fn is_pending(rows: &[Row], state: usize, eventuality: usize) -> bool
    requires { state < length rows.now }
    ensures { result ≡ value_at (rows_in rows.now state).pending eventuality }
{
    value_at(&rows[state].pending, eventuality)
}

/// Whether the eventuality of this index, from 0, is fulfilled at the state.
pub fn is_fulfilled(rows: &[Row], state: usize, eventuality: usize) -> bool
    requires { state < length rows.now }
    ensures { result ≡ value_at (rows_in rows.now state).fulfilled eventuality }
{
    value_at(&rows[state].fulfilled, eventuality)
}

/// How many places the carry of the state has.
pub fn places(rows: &[Row], state: usize) -> usize
    requires { state < length rows.now }
    ensures { result ≡ length (rows_in rows.now state).carry }
{
    rows[state].carry.len()
}

/// The value of the carry of the state at a place, from 0.
pub fn is_carried(rows: &[Row], state: usize, place: usize) -> bool
    requires { state < length rows.now }
    ensures { result ≡ value_at (rows_in rows.now state).carry place }
{
    value_at(&rows[state].carry, place)
}

/// Whether a run may end at the state.
pub fn may_end(rows: &[Row], state: usize) -> bool
    requires { state < length rows.now }
    ensures { result ≡ are_false (rows_in rows.now state).refused }
{
    are_false(&rows[state].refused)
}

/// Whether the carries of two states are one.
pub fn is_one_carry(rows: &[Row], earlier: usize, later: usize) -> bool
    requires earlier { earlier < length rows.now }
    requires later { later < length rows.now }
    ensures { result ≡ is_one_carry (rows_in rows.now) earlier later }
{
    first_difference(&rows[earlier].carry, &rows[later].carry).is_none()
}

/// The nearest state below a number whose carry is that of the state.
pub fn nearest_equal(rows: &[Row], state: usize, below: usize) -> Option<u32>
    requires state { state < length rows.now }
    requires below { below ≤ length rows.now }
    requires few { length rows.now ≤ 1001 }
    ensures { result ≡ nearest below (λ l. where_true (is_one_carry (rows_in rows.now) l state) (Some l)) }
{
    let mut left = below;
    'walk: while left > 0 {
        left -= 1;
        if is_one_carry(rows, left, state) {
            return Some(left as u32);
        }
    }
    None
}
