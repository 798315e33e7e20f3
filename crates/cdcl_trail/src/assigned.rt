// The trail: the literals that are true, in the order in which they became so, each with its level and its
// reason, and the letters' values that it tells. After Marques-Silva and Sakallah, GRASP (1999).
ghost use Rattle.std.specs.Prelude.{◌≡◌, ℕ, ◌+◌, ◌-◌, ◌<◌, ◌≤◌, [], ◌∷◌, ◌++◌, length, take, Option, Some};
ghost use Rattle.std.specs.Prelude.{None, OnOk, not, if◌then◌else◌, is_ok, slice_index_or, Contains, ◌↔◌};
ghost use Rattle.std.specs.Prelude.{IsTrue};
ghost use Rattle.cdcl_trail.specs.Trail.{IsUnset, literals_of, AreValues, blank_entry, literal_at};
ghost use Rattle.cdcl_trail.specs.Trail.{place_level};
ghost use Rattle.cdcl_trail.specs.Entries.{Fits};

use crate::entries::Entries;
use crate::values::Values;
use cnf_base::{Hint, Literal};
use std::alloc::{AllocError, Global};
use std::marker::Model;

/// As many letters as have numbers of 32 bits: no trail is longer, so that a place is such a number too.
const MAX_LETTERS: usize = 4294967296;

/// A literal that is true, and why.
#[derive(Clone, Copy, Drop)]
pub struct TrailEntry {
    pub literal: Literal,
    /// One more than the place of the last decision up to here; 0 before the first.
    pub level: usize,
    /// The clause that forced it; a decision has none.
    pub reason: Option<Hint>,
}

/// The trail, and the values that it tells.
#[derive(Drop)]
pub struct Assigned {
    values: Values,
    trail: Entries,
    /// The place of the trail at which a letter was assigned last.
    places: Vec<u32>,
}

impl Model for Assigned {
    ghost use Rattle.cdcl_trail.specs.Trail.{AreValues};
    ghost use Rattle.cdcl_trail.specs.Assigned.{AssignedValue, ArePlaces};

    ghost Value = { AssignedValue };

    ghost view = { λ a. record { values = a.values; trail = a.trail } };

    ghost invariant = { λ a. AreValues a.values a.trail × ArePlaces a.places.items a.values a.trail };
}

impl Assigned {
    /// The values are those of the trail.
    pub fn invariant(&self)
        ensures { AreValues self.now.values self.now.trail }
    {
        let _ = &self.trail;
    }

    /// The number of entries.
    pub fn len(&self) -> usize
        ensures { result ≡ length self.now.trail }
    {
        self.trail.len()
    }

    /// The number of letters.
    pub fn letters(&self) -> usize
        ensures { result ≡ length self.now.values }
    {
        self.values.len()
    }

    /// The entry at a place.
    pub fn entry(&self, place: usize) -> TrailEntry
        requires { place < length self.now.trail }
        ensures { result ≡ slice_index_or self.now.trail place result }
    {
        self.trail.get(place)
    }

    /// Whether the literal is true.
    #[inline(always)]
    pub fn holds(&self, literal: Literal) -> bool
        requires { literal.letter.0 < length self.now.values }
        ensures { IsTrue result ↔ Contains (literals_of self.now.trail) literal }
    {
        self.values.holds(literal)
    }

    /// The place at which the literal stands.
    pub fn place(&self, literal: Literal) -> usize
        requires { Contains (literals_of self.now.trail) literal }
        ensures within { result < length self.now.trail }
        ensures there { literal_at self.now.trail result ≡ literal }
    {
        self.places[literal.letter.0 as usize] as usize
    }

    /// Makes room for one letter more. Behind the last number of 32 bits there is none.
    pub fn letter(&mut self) -> Result<(), AllocError>
        ensures values { self.new.values ≡ (if is_ok result then self.old.values ++ None
            ∷ [] else self.old.values) }
        ensures trail { self.new.trail ≡ self.old.trail }
    {
        if self.values.len() >= MAX_LETTERS {
            return Err(AllocError);
        }
        self.places.push(0)?;
        self.values.push()?;
        Ok(())
    }

    /// The level of the last entry.
    pub fn level(&self) -> usize
        requires { 0 < length self.now.trail }
        ensures { result ≡ (slice_index_or self.now.trail (length self.now.trail - 1) blank_entry).level }
    {
        self.trail.get(self.trail.len() - 1).level
    }

    /// Puts the entry on the trail. One that does not fit is refused, as is any for want of memory.
    #[inline(always)]
    pub fn assign(&mut self, entry: TrailEntry) -> Result<(), AllocError>
        requires unset { IsUnset (literals_of self.old.trail) entry.literal }
        requires known { entry.literal.letter.0 < length self.old.values }
        ensures trail { self.new.trail ≡ (if is_ok result then self.old.trail ++ entry
            ∷ [] else self.old.trail) }
        ensures letters { length self.new.values ≡ length self.old.values }
        ensures fits { OnOk result (Fits entry) }
    {
        let place = self.trail.len();
        self.trail.push(entry)?;
        self.places[entry.literal.letter.0 as usize] = place as u32;
        self.values.set(entry.literal);
        Ok(())
    }

    /// The place of the trail at which the letter stands, if it stands there.
    pub fn place_of(&self, letter: usize) -> usize
        requires { letter < length self.now.values }
        ensures { (k : ℕ) → k < length self.now.trail → (literal_at self.now.trail k).letter.0 ≡ letter
            → result ≡ k }
    {
        self.places[letter] as usize
    }

    /// The level of the entry at a place; 0 where there is none.
    pub fn level_at(&self, place: usize) -> usize
        ensures { result ≡ place_level self.now.trail place }
    {
        self.trail.level(place)
    }

    /// Takes the last entry off the trail.
    pub fn undo(&mut self)
        requires { 0 < length self.old.trail }
        ensures trail { self.new.trail ≡ take (length self.old.trail - 1) self.old.trail }
        ensures letters { length self.new.values ≡ length self.old.values }
    {
        let count = self.trail.len() - 1;
        let literal = self.trail.get(count).literal;
        self.trail.truncate(count);
        self.values.clear(literal);
    }

    /// A smaller number of first entries, where the last of `count` is above the level. If the level that it is on
    /// was opened above the level too, all of that level's entries are passed over at once; else this one alone.
    fn passed(&self, count: usize, last: usize, level: usize) -> usize
        requires some { 0 < count }
        requires within { count ≤ length self.now.trail }
        requires last { last ≡ place_level self.now.trail (count - 1) }
        requires above { level < last }
        ensures fewer { result < count }
        ensures high { level < place_level self.now.trail result }
    {
        let decision = last - 1;
        if decision < count && level < self.trail.level(decision) {
            return decision;
        }
        count - 1
    }

    /// How many entries stand before the first of those at the end that are above the level. It goes down
    /// from decision to decision.
    pub fn front(&self, level: usize) -> usize
        ensures within { result ≤ length self.now.trail }
        ensures low { 0 < result → (slice_index_or self.now.trail (result - 1) blank_entry).level ≤ level }
        ensures high { result < length self.now.trail → level
            < (slice_index_or self.now.trail result blank_entry).level }
    {
        let mut count = self.trail.len();
        'down: while count > 0 {
            let last = self.trail.level(count - 1);
            if last <= level {
                return count;
            }
            count = self.passed(count, last, level);
        }
        0
    }

    /// Keeps the first `count` entries.
    pub fn cut(&mut self, count: usize)
        requires { count ≤ length self.old.trail }
        ensures trail { self.new.trail ≡ take count self.old.trail }
        ensures letters { length self.new.values ≡ length self.old.values }
    {
        'off: while self.len() > count {
            self.undo();
        }
    }

    /// No letters, and no trail.
    pub fn new(alloc: Global) -> Self
        ensures { result ≡ record { values = []; trail = [] } }
    {
        Assigned {
            values: Values::new(alloc),
            trail: Entries::new(alloc),
            places: Vec::new(alloc),
        }
    }
}
