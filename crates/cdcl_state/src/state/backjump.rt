// Going back: the entries above a level come off the trail, and their letters may be decided again. Of the
// lists that were visited for the entries that stay, those below `lasting` need no new visit. After
// Marques-Silva and Sakallah, GRASP (1999).
ghost use Rattle.std.specs.Prelude.{◌≡◌, ◌≢◌, ◌↔◌, ℕ, ◌<◌, ◌≤◌, ◌⊎◌, All, Contains, IsTrue, None, length};
ghost use Rattle.std.specs.Prelude.{slice_index_or};
ghost use Rattle.cdcl_state.specs.StateValue.{IsBack};
ghost use Rattle.cdcl_trail.specs.Trail.{blank_entry, literal_at, IsDecision};
ghost use Rattle.cdcl_state.specs.Turns.{IsFront, IsReleased};
ghost use Rattle.cdcl_activity.specs.Order.{IsWaiting};

use crate::state::State;
use crate::store::has;
use cdcl_activity::Choices;
use cdcl_trail::{Assigned, TrailEntry};
use cnf_base::Literal;

impl State {
    /// Takes back the entries above the level.
    pub fn backjump(&mut self, level: usize)
        ensures { IsBack self.old self.new level }
    {
        let count = self.assigned.front(level);
        release(&self.assigned, &mut self.choices, count);
        self.assigned.cut(count);
        let lasting = self.lasting.min(count);
        self.lasting = lasting;
        self.propagated = lasting;
        loosen(count, &mut self.units_done, &mut self.units_trail);
    }

    /// Takes back the first decision that is none of these literals, and all that came after it.
    fn leave(&mut self, kept: &[Literal])
        ensures front { IsFront self.old self.new }
        ensures decided { All (λ e. e.reason ≡ None → Contains kept.now e.literal) self.new.trail }
    {
        let place = first_other(&self.assigned, kept);
        if place < self.assigned.len() {
            self.backjump(place);
        }
    }

    /// Goes back to the level of the first entry whose list is not visited yet: what is visited on a level
    /// above its own would be visited again at each conflict.
    fn catch_up(&mut self)
        ensures { IsFront self.old self.new }
    {
        if self.propagated < self.assigned.len() {
            let level = self.assigned.level_at(self.propagated);
            self.backjump(level);
        }
    }

    /// Takes back the first decision that is none of these literals, and all that came after it. If the list of
    /// an entry that is left is still to be visited, the levels above that entry's level are taken back too.
    pub fn retreat(&mut self, kept: &[Literal])
        ensures front { IsFront self.old self.new }
        ensures decided { All (λ e. e.reason ≡ None → Contains kept.now e.literal) self.new.trail }
    {
        self.leave(kept);
        self.catch_up();
    }

    /// Takes back all decisions and what they forced.
    pub fn reset(&mut self)
        ensures back { IsBack self.old self.new 0 }
        ensures forced { All (λ e. e.reason ≢ None) self.new.trail }
    {
        self.backjump(0);
        let _ = &self.assigned;
    }
}

/// Whether the entry is a decision, and none of these literals.
fn is_other(entry: TrailEntry, kept: &[Literal]) -> bool
    ensures yes { IsTrue result → entry.reason ≡ None }
    ensures no { ¬ IsTrue result → entry.reason ≡ None → Contains kept.now entry.literal }
{
    match entry.reason {
        Some(_) => false,
        None => !has(kept, entry.literal),
    }
}

/// The place of the first decision that is none of these literals; the trail's length where there is none.
fn first_other(assigned: &Assigned, kept: &[Literal]) -> usize
    ensures within { result ≤ length assigned.now.trail }
    ensures other { result < length assigned.now.trail → IsDecision assigned.now.trail result }
    ensures before { (k : ℕ) → k < result → (slice_index_or assigned.now.trail k blank_entry).reason ≡ None
        → Contains kept.now (literal_at assigned.now.trail k) }
{
    for place in 0..assigned.len() {
        if is_other(assigned.entry(place), kept) {
            return place;
        }
    }
    assigned.len()
}

/// The short clauses are visited again where an entry that made one true was taken back.
pub fn loosen(count: usize, units_done: &mut usize, units_trail: &mut usize)
    ensures all { ((units_trail.old ≤ count) × (units_done.new ≡ units_done.old)
        × (units_trail.new ≡ units_trail.old)) ⊎ ((units_done.new ≡ 0) × (units_trail.new ≡ 0)) }
    ensures kept { units_trail.old ≤ count → (units_done.new ≡ units_done.old)
        × (units_trail.new ≡ units_trail.old) }
{
    if count < *units_trail {
        *units_done = 0;
        *units_trail = 0;
        return;
    }
}

/// All short clauses are true by the entries of the trail: until now, or only now.
pub fn settle(count: usize, len: usize, units_done: &mut usize, units_trail: &mut usize)
    ensures all { ((count ≤ units_done.old) × (units_done.new ≡ units_done.old)
        × (units_trail.new ≡ units_trail.old)) ⊎ ((units_done.new ≡ count) × (units_trail.new ≡ len)) }
    ensures kept { count ≤ units_done.old → (units_done.new ≡ units_done.old)
        × (units_trail.new ≡ units_trail.old) }
{
    if *units_done < count {
        *units_done = count;
        *units_trail = len;
        return;
    }
}

/// The letters of the entries from `count` on may be decided again.
pub fn release(assigned: &Assigned, choices: &mut Choices, count: usize)
    ensures size { length choices.new.order.places ≡ length choices.old.order.places }
    ensures held { choices.new.held ≡ choices.old.held }
    ensures waiting { (x : ℕ) → IsWaiting choices.new.order x
        ↔ (IsReleased assigned.now.trail count (length assigned.now.trail) choices.old x
        ⊎ IsWaiting choices.old.order x) }
{
    for place in count..assigned.len() {
        choices.release(assigned.entry(place).literal);
    }
}
