// The places of the trail that an analysis has still to go over, the last one first: a bit of a word for
// each, so that the walk down the trail passes sixty-four places at once where none waits, and a place needs
// no order among the others to wait. Words are there as far as the last place that waits, and go as the walk
// comes down.
ghost use Rattle.std.specs.Prelude.{◌≡◌, ◌≢◌, ℕ, ◌+◌, ◌-◌, ◌^◌, ◌<◌, ◌≤◌, [], ◌⊎◌, length, MatchOption, OnOk};
ghost use Rattle.std.specs.Int.{bit_at};
ghost use Rattle.cdcl_analyze.specs.Waiting.{IsWaiting, IsNext};

use std::alloc::{AllocError, Global};
use std::marker::Model;

/// The word with this bit set.
pub fn with_bit(word: u64, bit: u32) -> u64
    requires { bit < 64 }
    ensures set { bit_at result bit ≡ 1 }
    ensures others { (i : ℕ) → i ≢ bit → bit_at result i ≡ bit_at word i }
{
    word | (1 << bit)
}

/// The highest bit that is set.
fn highest_bit(word: u64) -> u32
    requires { 0 < word }
    ensures within { result < 64 }
    ensures low { 2 ^ result ≤ word }
    ensures high { word < 2 ^ (result + 1) }
{
    63 - word.leading_zeros()
}

/// The word without its highest bit.
fn without_bit(word: u64, bit: u32) -> u64
    requires within { bit < 64 }
    requires low { 2 ^ bit ≤ word }
    ensures { result ≡ word - 2 ^ bit }
{
    word - (1 << bit)
}

/// The places that wait.
#[derive(Drop)]
pub struct Waiting {
    /// Bit `place % 64` of the word `place / 64` is set where the place waits.
    words: Vec<u64>,
}

impl Model for Waiting {
    ghost use Rattle.std.specs.Prelude.{◌≤◌, ◌^◌, List, ℕ, length};

    ghost Value = { List ℕ };

    ghost view = { λ a. a.words.items };

    ghost invariant = { λ a. length a.words.items ≤ 2 ^ 58 };
}

impl Waiting {
    /// No places.
    pub fn new(alloc: Global) -> Self
        ensures { result ≡ [] }
    {
        Waiting {
            words: Vec::new(alloc),
        }
    }

    /// No place waits any longer.
    pub fn clear(&mut self)
        ensures { self.new ≡ [] }
    {
        self.words.clear();
    }

    /// Makes words up to this one.
    fn reach(&mut self, word: usize) -> Result<(), AllocError>
        requires { word < 2 ^ 58 }
        ensures long { OnOk result (word < length self.new) }
        ensures kept { OnOk result ((p : ℕ) → IsWaiting self.old p → IsWaiting self.new p) }
    {
        'up: while self.words.len() <= word {
            self.words.push(0)?;
        }
        Ok(())
    }

    /// Lets the place wait.
    pub fn push(&mut self, place: usize) -> Result<(), AllocError>
        ensures { OnOk result ((p : ℕ) → (p ≡ place) ⊎ IsWaiting self.old p → IsWaiting self.new p) }
    {
        let word = place / 64;
        self.reach(word)?;
        self.words[word] = with_bit(self.words[word], (place % 64) as u32);
        Ok(())
    }

    /// The last place below `end` that waits. It waits no longer, and those from `end` on neither.
    pub fn pop(&mut self, end: usize) -> Option<usize>
        ensures { MatchOption result ((p : ℕ) → p < end → ¬ IsWaiting self.old p)
            (IsNext self.old self.new end) }
    {
        'down: while self.words.len() > 0 {
            let last = self.words.len() - 1;
            let word = self.words[last];
            if word == 0 {
                self.words.truncate(last);
                continue 'down;
            }
            let bit = highest_bit(word);
            self.words[last] = without_bit(word, bit);
            let place = last * 64 + bit as usize;
            if place < end {
                return Some(place);
            }
        }
        None
    }
}
