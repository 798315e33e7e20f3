// Which states of a run are pruned, and by which earlier ones. On infinite traces a state is pruned whose
// carry comes a third time with nothing new since the second, on finite traces one whose carry comes a
// second time.
ghost use Rattle.std.specs.Prelude.{◌≡◌, ◌&&◌, ◌<◌, ◌≤◌, ℕ, length, nat_lt, IfOk};
ghost use Rattle.ltl_syntax.specs.declared.node.Kind.TheVariants as Kinds;
ghost use Rattle.demand.specs.Values.{value_at};
ghost use Rattle.demand.specs.Rows.{rows_in};
ghost use Rattle.demand.specs.Closing.{is_done};
ghost use Rattle.demand.specs.Pruning.{is_nothing_new, pruning_at, prunings_below};

use crate::fulfilment::last_fulfilled;
use crate::row::{Row, eventualities, is_one_carry, is_pending, nearest_equal};
use ltl_syntax::Kind;
use std::alloc::{AllocError, Global};

/// The earlier states by which a state is pruned.
#[derive(Clone, Copy, PartialEq, Eq, Debug, Drop)]
pub enum Pruning {
    /// Two states of its carry, the earlier one first: what is pending and was fulfilled since the second
    /// was fulfilled between the two. Infinite traces only.
    Triple(u32, u32),
    /// A state of its carry. Finite traces only.
    Pair(u32),
}

/// A state that is pruned, and the earlier ones by which it is.
#[derive(Clone, Copy, PartialEq, Eq, Debug, Drop)]
pub struct Pruned {
    pub state: u32,
    pub by: Pruning,
}

/// Whether the eventuality of this index, from 0, is pending at the state and was fulfilled since `second`.
fn is_asked(rows: &[Row], second: usize, state: usize, eventuality: usize) -> bool
    requires { state < length rows.now }
    ensures { result ≡ (value_at (rows_in rows.now state).pending eventuality
        && is_done (rows_in rows.now) second state eventuality) }
{
    is_pending(rows, state, eventuality) && last_fulfilled(rows, state, eventuality) > second
}

/// The states before this number are those before `second` between which and `second` all was fulfilled that
/// is pending at the state and was fulfilled since `second`.
fn old_before(rows: &[Row], second: usize, state: usize) -> usize
    requires second { second < state }
    requires state { state < length rows.now }
    ensures before { result ≤ second }
    ensures old { (l : ℕ) → nat_lt l result
        ≡ (nat_lt l second && is_nothing_new (rows_in rows.now) l second state) }
{
    let mut before = second;
    for eventuality in 0..eventualities(rows, state) {
        if is_asked(rows, second, state, eventuality) {
            before = before.min(last_fulfilled(rows, second, eventuality));
        }
    }
    before
}

/// The nearest two earlier states that prune the state on infinite traces.
fn triple_of(rows: &[Row], state: usize) -> Option<Pruning>
    requires state { state < length rows.now }
    requires few { length rows.now ≤ 1001 }
    ensures { result ≡ pruning_at Kinds.Infinite (rows_in rows.now) state }
{
    let mut second = state;
    'walk: while second > 0 {
        second -= 1;
        if is_one_carry(rows, second, state) {
            let first = nearest_equal(rows, second, old_before(rows, second, state));
            if let Some(first) = first {
                return Some(Pruning::Triple(first, second as u32));
            }
        }
    }
    None
}

/// How the state is pruned, if it is.
fn pruning_of(kind: Kind, rows: &[Row], state: usize) -> Option<Pruning>
    requires state { state < length rows.now }
    requires few { length rows.now ≤ 1001 }
    ensures { result ≡ pruning_at kind (rows_in rows.now) state }
{
    match kind {
        Kind::Infinite => triple_of(rows, state),
        Kind::Finite => {
            let first = nearest_equal(rows, state, state)?;
            Some(Pruning::Pair(first))
        }
    }
}

/// The states of the run that are pruned, in their order, each with the nearest earlier ones by which it is.
/// There are none exactly where the run is pruned nowhere.
pub fn prunings(alloc: Global, kind: Kind, rows: &[Row]) -> Result<Vec<Pruned>, AllocError>
    requires { length rows.now ≤ 1001 }
    ensures { IfOk result (λ found. found.items
        ≡ prunings_below kind (rows_in rows.now) (length rows.now)) }
{
    let mut found = Vec::new(alloc);
    for state in 0..rows.len() {
        if let Some(by) = pruning_of(kind, rows, state) {
            found.push(Pruned {
                state: state as u32,
                by,
            })?;
        }
    }
    Ok(found)
}
