// What refuses a run that closes to none of its states: for each earlier state an eventuality that is pending
// at the last one and not fulfilled in between, or else a place at which the two carries differ. So the run
// does not come again by any of them. Turn by turn more of them are taken, since a question that was asked
// often will ask for most of them.
ghost use Rattle.std.specs.Prelude.{◌≡◌, ◌+◌, ◌<◌, ◌≤◌, length, All, OnOk, IfOk};
ghost use Rattle.demand.specs.Constraints.{AreWaiting, IsOf};

use crate::constraint::Constraint;
use crate::fulfilment::last_fulfilled;
use crate::row::{Row, eventualities, is_carried, is_pending, places};
use std::alloc::{AllocError, Global};

/// The number of turns of a question that double what is taken for each state.
const TURNS: u32 = 4;

/// An eventuality that is pending at the last state, by its index from 0, and the state at which it was
/// fulfilled last.
#[derive(Clone, Copy, PartialEq, Eq, PartialOrd, Ord, Debug, Drop)]
struct Waiting {
    since: usize,
    eventuality: usize,
}

/// How many eventualities, and how many places, are taken for each state at a turn of a question.
fn taken_at(turn: u32) -> usize
    ensures { 0 < result }
{
    1 << (turn / TURNS).min(16)
}

/// The eventualities that are pending at the last state, those first that wait longest.
fn waiting_last(alloc: Global, rows: &[Row]) -> Result<Vec<Waiting>, AllocError>
    requires { 0 < length rows.now }
    ensures { IfOk result (λ waiting. AreWaiting rows.now waiting.items) }
{
    let last = rows.len() - 1;
    let mut waiting = Vec::new(alloc);
    for eventuality in 0..eventualities(rows, last) {
        if is_pending(rows, last, eventuality) {
            waiting.push(Waiting {
                since: last_fulfilled(rows, last, eventuality),
                eventuality,
            })?;
        }
    }
    waiting.sort()?;
    Ok(waiting)
}

/// Takes those of the eventualities that are not fulfilled after the earlier state.
fn push_fulfilments(
    rows: &[Row],
    earlier: u32,
    later: u32,
    waiting: &[Waiting],
    found: &mut Vec<Constraint>,
) -> Result<(), AllocError>
    requires earlier { earlier < later }
    requires later { length rows.now ≡ later + 1 }
    requires waiting { AreWaiting rows.now waiting.now }
    requires before { All (IsOf rows.now) found.old.items }
    ensures { OnOk result (All (IsOf rows.now) found.new.items) }
{
    for wait in waiting {
        if wait.since <= earlier as usize {
            found.push(Constraint::Fulfilment {
                earlier,
                later,
                eventuality: wait.eventuality,
            })?;
        }
    }
    Ok(())
}

/// Takes this number of the places at which the carries differ.
fn push_places(
    rows: &[Row],
    earlier: u32,
    later: u32,
    taken: usize,
    found: &mut Vec<Constraint>,
) -> Result<(), AllocError>
    requires earlier { earlier < later }
    requires later { length rows.now ≡ later + 1 }
    requires before { All (IsOf rows.now) found.old.items }
    ensures { OnOk result (All (IsOf rows.now) found.new.items) }
{
    found.push(Constraint::Loop { earlier, later })?;
    let mut left = taken;
    for place in 0..places(rows, later as usize) {
        if left == 0 {
            break;
        }
        let value = is_carried(rows, earlier as usize, place);
        if value != is_carried(rows, later as usize, place) {
            left -= 1;
            found.push(Constraint::Place {
                earlier,
                later,
                place,
                value,
            })?;
        }
    }
    Ok(())
}

/// What refuses the run of these rows, which is not accepted, at a turn of its question. Turns count from 0.
pub fn refuse_loops(alloc: Global, rows: &[Row], turn: u32) -> Result<Vec<Constraint>, AllocError>
    requires some { 0 < length rows.now }
    requires few { length rows.now ≤ 1001 }
    ensures { IfOk result (λ found. All (IsOf rows.now) found.items) }
{
    let later = rows.len() as u32 - 1;
    let taken = taken_at(turn);
    let mut waiting = waiting_last(alloc, rows)?;
    waiting.truncate(taken);
    let mut found = Vec::new(alloc);
    for earlier in 0..later {
        let before = found.len();
        push_fulfilments(rows, earlier, later, &waiting, &mut found)?;
        if taken > 1 || found.len() == before {
            push_places(rows, earlier, later, taken, &mut found)?;
        }
    }
    Ok(found)
}
