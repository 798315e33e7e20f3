// All letters in an order: those that wait come first, as many as the count says, and the others behind them.
// Each letter stands at one place, so that none waits twice, and there is room for all of them: a letter that
// comes back changes places with another. Letters and places have four bytes each: there are many of both.
ghost use Rattle.std.specs.Prelude.{◌≡◌, ◌≢◌, ◌↔◌, ◌⊎◌, ℕ, ◌^◌, ◌+◌, ◌<◌, [], length, MatchOption, OnOk};
ghost use Rattle.std.specs.Prelude.{OnErr};
ghost use Rattle.cdcl_activity.specs.Order.{OrderValue, IsWaiting, letter_at, place_of};

use std::alloc::{AllocError, Global};
use std::marker::Model;

/// Each letter once.
#[derive(Drop)]
pub struct Order {
    letters: Vec<u32>,
    /// Where each letter stands.
    places: Vec<u32>,
    /// How many of the first letters wait.
    count: usize,
}

impl Model for Order {
    ghost use Rattle.cdcl_activity.specs.Order.{OrderValue, IsOrder};

    ghost Value = { OrderValue };

    ghost view = { λ a. record { letters = a.letters.items; places = a.places.items; count = a.count } };

    ghost invariant = { λ a. IsOrder a.letters.items a.places.items a.count };
}

impl Order {
    /// No letters.
    pub fn new(alloc: Global) -> Self
        ensures { result ≡ record { letters = []; places = []; count = 0 } }
    {
        Order {
            letters: Vec::new(alloc),
            places: Vec::new(alloc),
            count: 0,
        }
    }

    /// How many letters wait.
    pub fn waiting(&self) -> usize
        ensures { result ≡ self.now.count }
    {
        self.count
    }

    /// How many letters there are.
    pub fn letters(&self) -> usize
        ensures { result ≡ length self.now.places }
    {
        self.places.len()
    }

    /// The letter that waits at a place.
    pub fn at(&self, place: usize) -> u32
        requires { place < self.now.count }
        ensures { result ≡ letter_at self.now.letters place }
    {
        self.letters[place]
    }

    /// The place at which the letter waits, if it does.
    pub fn place(&self, letter: u32) -> Option<usize>
        ensures { MatchOption result (¬ IsWaiting self.now letter)
            (λ p. (p < self.now.count) × IsWaiting self.now letter) }
    {
        if letter as usize >= self.places.len() {
            return None;
        }
        let place = self.places[letter as usize] as usize;
        if place < self.count {
            return Some(place);
        }
        None
    }

    /// Makes the next letter known. It doesn't wait.
    pub fn letter(&mut self) -> Result<(), AllocError>
        requires { length self.old.places < 2 ^ 32 }
        ensures size { OnOk result (length self.new.places ≡ length self.old.places + 1) }
        ensures waiting { OnOk result ((x : ℕ) → IsWaiting self.new x ↔ IsWaiting self.old x) }
        ensures refused { OnErr result (self.new ≡ self.old) }
    {
        let letter = self.places.len();
        self.letters.push(letter as u32)?;
        match self.places.push(letter as u32) {
            Ok(()) => {
                return Ok(());
            }
            Err(_) => {
                self.letters.pop();
                return Err(AllocError);
            }
        }
    }

    /// Lets the letters at two places change them.
    pub fn exchange(&mut self, one: usize, two: usize)
        requires one { one < length self.old.letters }
        requires two { two < length self.old.letters }
        ensures size { length self.new.places ≡ length self.old.places }
        ensures count { self.new.count ≡ self.old.count }
        ensures first { place_of self.new.places (letter_at self.old.letters one) ≡ two }
        ensures second { place_of self.new.places (letter_at self.old.letters two) ≡ one }
        ensures others { (x : ℕ) → x ≢ letter_at self.old.letters one → x ≢ letter_at self.old.letters two
            → place_of self.new.places x ≡ place_of self.old.places x }
    {
        let a = self.letters[one];
        let b = self.letters[two];
        self.letters[one] = b;
        self.letters[two] = a;
        self.places[b as usize] = one as u32;
        self.places[a as usize] = two as u32;
    }

    /// Lets two letters that wait change their places.
    pub fn swap(&mut self, one: usize, two: usize)
        requires one { one < self.old.count }
        requires two { two < self.old.count }
        ensures size { length self.new.places ≡ length self.old.places }
        ensures count { self.new.count ≡ self.old.count }
        ensures first { place_of self.new.places (letter_at self.old.letters one) ≡ two }
        ensures second { place_of self.new.places (letter_at self.old.letters two) ≡ one }
        ensures others { (x : ℕ) → x ≢ letter_at self.old.letters one → x ≢ letter_at self.old.letters two
            → place_of self.new.places x ≡ place_of self.old.places x }
        ensures waiting { (x : ℕ) → IsWaiting self.new x ↔ IsWaiting self.old x }
    {
        let _ = &self.letters;
        self.exchange(one, two);
    }

    /// Lets a letter wait behind the others, and answers its place.
    pub fn insert(&mut self, letter: u32) -> usize
        requires known { letter < length self.old.places }
        requires fresh { ¬ IsWaiting self.old letter }
        ensures size { length self.new.places ≡ length self.old.places }
        ensures count { self.new.count ≡ self.old.count + 1 }
        ensures place { result ≡ self.old.count }
        ensures waiting { (x : ℕ) → IsWaiting self.new x ↔ ((x ≡ letter) ⊎ IsWaiting self.old x) }
    {
        let place = self.places[letter as usize] as usize;
        let count = self.count;
        self.exchange(place, count);
        self.count = count + 1;
        count
    }

    /// Takes the first letter out. The last one that waits comes to its place.
    pub fn take(&mut self) -> u32
        requires { 0 < self.old.count }
        ensures size { length self.new.places ≡ length self.old.places }
        ensures count { self.old.count ≡ self.new.count + 1 }
        ensures there { IsWaiting self.old result }
        ensures waiting { (x : ℕ) → IsWaiting self.new x ↔ (IsWaiting self.old x × (x ≢ result)) }
    {
        let count = self.count - 1;
        let first = self.letters[0];
        self.exchange(0, count);
        self.count = count;
        first
    }
}
