// Room for more letters: a value, two lists of watchers, a mark and a place among the choices for each. What
// is there keeps its place, and none of them waits for a decision yet.
ghost use Rattle.std.specs.Prelude.{◌≡◌, ℕ, ◌<◌, ◌≤◌, ◌⊎◌, ◌↔◌, ◌*◌, ◌^◌, ◌+◌, length, OnOk};
ghost use Rattle.cdcl_activity.specs.Order.{IsWaiting};

use cdcl_activity::Choices;
use cdcl_analyze::Marks;
use cdcl_trail::Assigned;
use cdcl_watches::Watches;
use std::alloc::AllocError;

/// Makes room for one letter more.
fn widen_one(
    assigned: &mut Assigned,
    watches: &mut Watches,
    marks: &mut Marks,
    choices: &mut Choices,
) -> Result<(), AllocError>
    requires sized { length watches.old.lists ≡ 2 * length assigned.old.values }
    requires marks { length assigned.old.values ≤ length marks.old.stamps }
    ensures trail { assigned.new.trail ≡ assigned.old.trail }
    ensures clauses { watches.new.clauses ≡ watches.old.clauses }
    ensures names { watches.new.names ≡ watches.old.names }
    ensures sized { length watches.new.lists ≡ 2 * length assigned.new.values }
    ensures more { length assigned.old.values ≤ length assigned.new.values }
    ensures few { length assigned.new.values ≤ length assigned.old.values + 1 }
    ensures marks { length assigned.new.values ≤ length marks.new.stamps }
    ensures held { choices.new.held ≡ choices.old.held }
    ensures waiting { OnOk result ((x : ℕ) → IsWaiting choices.new.order x ↔ IsWaiting choices.old.order x) }
    ensures ok { OnOk result (length assigned.new.values ≡ length assigned.old.values + 1) }
{
    marks.letter()?;
    choices.letter()?;
    watches.invariant();
    watches.letter()?;
    match assigned.letter() {
        Ok(()) => {
            return Ok(());
        }
        Err(_) => {
            watches.forget_letter();
            return Err(AllocError);
        }
    }
}

/// Makes room for the letters up to the count.
pub fn widen(
    assigned: &mut Assigned,
    watches: &mut Watches,
    marks: &mut Marks,
    choices: &mut Choices,
    count: u32,
) -> Result<(), AllocError>
    requires sized { length watches.old.lists ≡ 2 * length assigned.old.values }
    requires few { length assigned.old.values ≤ 2 ^ 32 }
    requires marks { length assigned.old.values ≤ length marks.old.stamps }
    ensures trail { assigned.new.trail ≡ assigned.old.trail }
    ensures clauses { watches.new.clauses ≡ watches.old.clauses }
    ensures names { watches.new.names ≡ watches.old.names }
    ensures sized { length watches.new.lists ≡ 2 * length assigned.new.values }
    ensures more { length assigned.old.values ≤ length assigned.new.values }
    ensures few { length assigned.new.values ≤ 2 ^ 32 }
    ensures marks { length assigned.new.values ≤ length marks.new.stamps }
    ensures held { choices.new.held ≡ choices.old.held }
    ensures ok { OnOk result (count < length assigned.new.values) }
{
    'more: while assigned.letters() <= count as usize {
        widen_one(assigned, watches, marks, choices)?;
    }
    Ok(())
}
