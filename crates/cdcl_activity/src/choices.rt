// Which literal is decided next: of the letters without a value one that stood in many recent conflicts, with
// the value that it had last. Activities are whole numbers of four bytes; those that wait are kept as a
// binary heap. After Een and Sorensson, MiniSat (2003). Which one comes first is not promised: who asks for a
// letter tests whether it has a value.
ghost use Rattle.std.specs.Prelude.{◌≡◌, ◌≢◌, ◌↔◌, ◌⊎◌, ℕ, ◌^◌, ◌+◌, ◌/◌, ◌<◌, ◌≤◌, [], length, MatchOption};
ghost use Rattle.std.specs.Prelude.{OnOk, OnErr};
ghost use Rattle.cdcl_activity.specs.Order.{IsWaiting};
ghost use Rattle.cdcl_activity.specs.Choices.{IsOffered};

use crate::order::Order;
use cnf_base::{Letter, Literal};
use std::alloc::{AllocError, Global};
use std::marker::Model;

/// Where what a letter gains is above this, or an activity above twice as much, all of them are made smaller.
const LARGE: u32 = 1 << 30;

/// The number of bits by which they are made smaller.
const SMALLER: u32 = 20;

/// Letters by their activity, the most active first, and the values that they had last.
#[derive(Drop)]
pub struct Choices {
    order: Order,
    activities: Vec<u32>,
    /// So much a letter gains that is met in an analysis.
    bump: u32,
    /// Whether the letter was false last.
    phases: Vec<bool>,
    /// The letter that was taken out last to be decided; 0 for none.
    held: u32,
}

impl Model for Choices {
    ghost use Rattle.cdcl_activity.specs.Choices.{ChoicesValue};

    ghost Value = { ChoicesValue };

    ghost view = { λ a. record { order = a.order; held = a.held } };
}

impl Choices {
    /// No letters.
    pub fn new(alloc: Global) -> Self
        ensures { result ≡ record { order = record { letters = []; places = []; count = 0 }; held = 0 } }
    {
        Choices {
            order: Order::new(alloc),
            activities: Vec::new(alloc),
            bump: 1,
            phases: Vec::new(alloc),
            held: 0,
        }
    }

    /// Makes the next letter known. It doesn't wait. There is none behind the greatest number.
    pub fn letter(&mut self) -> Result<(), AllocError>
        ensures size { OnOk result (length self.old.order.places < 2 ^ 32
            → length self.new.order.places ≡ length self.old.order.places + 1) }
        ensures held { self.new.held ≡ self.old.held }
        ensures waiting { OnOk result ((x : ℕ) → IsWaiting self.new.order x ↔ IsWaiting self.old.order x) }
        ensures full { 2 ^ 32 ≤ length self.old.order.places → self.new ≡ self.old }
        ensures refused { OnErr result (self.new ≡ self.old) }
    {
        if self.order.letters() > 4294967295 {
            return Ok(());
        }
        self.activities.push(0)?;
        self.phases.push(true)?;
        self.order.letter()?;
        Ok(())
    }

    fn activity(&self, letter: u32) -> u32 {
        match self.activities.get(letter as usize) {
            None => 0,
            Some(activity) => *activity,
        }
    }

    /// Whether the letter at the first place is more active than that at the second.
    fn is_above(&self, one: usize, two: usize) -> bool
        requires one { one < self.now.order.count }
        requires two { two < self.now.order.count }
    {
        self.activity(self.order.at(one)) > self.activity(self.order.at(two))
    }

    /// Lets the letter at a place change with those above it while it is more active.
    fn rise(&mut self, place: usize)
        requires { place < self.old.order.count }
        ensures size { length self.new.order.places ≡ length self.old.order.places }
        ensures held { self.new.held ≡ self.old.held }
        ensures waiting { (x : ℕ) → IsWaiting self.new.order x ↔ IsWaiting self.old.order x }
    {
        let mut at = place;
        'up: for _ in 0..64 {
            if at == 0 {
                return;
            }
            let above = (at - 1) / 2;
            if !self.is_above(at, above) {
                return;
            }
            self.order.swap(at, above);
            at = above;
        }
    }

    /// The more active of the letters below a place.
    fn below(&self, at: usize) -> usize
        requires { at < self.now.order.count / 2 }
        ensures { result < self.now.order.count }
    {
        let count = self.order.waiting();
        let left = 2 * at + 1;
        if left + 1 < count && self.is_above(left + 1, left) {
            return left + 1;
        }
        left
    }

    /// Lets the letter at a place change with those below it while they are more active.
    fn sink(&mut self, place: usize)
        ensures size { length self.new.order.places ≡ length self.old.order.places }
        ensures held { self.new.held ≡ self.old.held }
        ensures waiting { (x : ℕ) → IsWaiting self.new.order x ↔ IsWaiting self.old.order x }
    {
        let mut at = place;
        'down: for _ in 0..64 {
            if at >= self.order.waiting() / 2 {
                return;
            }
            let below = self.below(at);
            if !self.is_above(below, at) {
                return;
            }
            self.order.swap(at, below);
            at = below;
        }
    }

    /// Lets a letter wait, if it doesn't.
    pub fn insert(&mut self, letter: u32)
        ensures size { length self.new.order.places ≡ length self.old.order.places }
        ensures held { self.new.held ≡ self.old.held }
        ensures waiting { (x : ℕ) → IsWaiting self.new.order x
            ↔ (IsOffered self.old x letter ⊎ IsWaiting self.old.order x) }
    {
        if letter as usize >= self.order.letters() {
            return;
        }
        match self.order.place(letter) {
            Some(_) => return,
            None => {}
        }
        let place = self.order.insert(letter);
        self.rise(place);
    }

    /// The literal's letter lost its value: it may be decided again, as it was.
    pub fn release(&mut self, literal: Literal)
        ensures size { length self.new.order.places ≡ length self.old.order.places }
        ensures held { self.new.held ≡ self.old.held }
        ensures waiting { (x : ℕ) → IsWaiting self.new.order x
            ↔ (IsOffered self.old x literal.letter.0 ⊎ IsWaiting self.old.order x) }
    {
        let letter = literal.letter.0 as usize;
        if letter < self.phases.len() {
            self.phases[letter] = literal.negated;
        }
        self.insert(literal.letter.0);
    }

    /// The letter's literal that was true last.
    pub fn literal(&self, letter: u32) -> Literal
        ensures { result.letter.0 ≡ letter }
    {
        Literal {
            letter: Letter(letter),
            negated: match self.phases.get(letter as usize) {
                Some(phase) => *phase,
                None => true,
            },
        }
    }

    /// Lets the letter that was held ready wait again.
    pub fn put_back(&mut self)
        ensures size { length self.new.order.places ≡ length self.old.order.places }
        ensures held { self.new.held ≡ 0 }
        ensures waiting { 0 < self.old.held → (x : ℕ) → IsWaiting self.new.order x
            ↔ (IsOffered self.old x self.old.held ⊎ IsWaiting self.old.order x) }
        ensures none { self.old.held ≡ 0 → self.new ≡ self.old }
    {
        if self.held != 0 {
            let letter = self.held;
            self.held = 0;
            self.insert(letter);
        }
    }

    /// Holds the letter ready.
    pub fn hold(&mut self, letter: u32)
        ensures order { self.new.order ≡ self.old.order }
        ensures held { self.new.held ≡ letter }
    {
        self.held = letter;
    }

    /// How many letters may be decided.
    pub fn waiting(&self) -> usize
        ensures { result ≡ self.now.order.count }
    {
        self.order.waiting()
    }

    /// The letter that is held ready; 0 for none.
    pub fn held(&self) -> u32
        ensures { result ≡ self.now.held }
    {
        self.held
    }

    /// Takes out a letter that waits, one of those that are most active.
    pub fn pop(&mut self) -> Option<u32>
        ensures size { length self.new.order.places ≡ length self.old.order.places }
        ensures held { self.new.held ≡ self.old.held }
        ensures none { MatchOption result (self.old.order.count ≡ 0) (IsWaiting self.old.order) }
        ensures less { MatchOption result (self.new ≡ self.old)
            (λ l. (x : ℕ) → IsWaiting self.new.order x ↔ (IsWaiting self.old.order x × (x ≢ l))) }
    {
        if self.order.waiting() == 0 {
            return None;
        }
        let first = self.order.take();
        self.sink(0);
        Some(first)
    }

    /// Makes the letter more active; all are made smaller before a sum would be too large.
    pub fn bump(&mut self, letter: u32)
        ensures size { length self.new.order.places ≡ length self.old.order.places }
        ensures held { self.new.held ≡ self.old.held }
        ensures waiting { (x : ℕ) → IsWaiting self.new.order x ↔ IsWaiting self.old.order x }
    {
        let at = letter as usize;
        if at < self.activities.len() {
            self.activities[at] = self.activities[at].saturating_add(self.bump);
            if self.activities[at] > 2 * LARGE {
                self.rescale();
            }
        }
        match self.order.place(letter) {
            None => {}
            Some(place) => self.rise(place),
        }
    }

    fn rescale(&mut self)
        ensures { self.new ≡ self.old }
    {
        for i in 0..self.activities.len() {
            self.activities[i] >>= SMALLER;
        }
        self.bump = self.bump >> SMALLER | 1;
    }

    /// Lets later bumps count more, by a nineteenth.
    pub fn decay(&mut self)
        ensures { self.new ≡ self.old }
    {
        self.bump = self.bump.saturating_add(self.bump / 19 + 1);
        if self.bump > LARGE {
            self.rescale();
        }
    }
}
