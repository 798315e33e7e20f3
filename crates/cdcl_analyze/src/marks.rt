// The letters that an analysis has come to, and the places of the trail that it has still to go over, the
// last one first. A letter is marked by the number of the analysis, so that the next one begins with no
// marks, whatever became of this one. What the analysis found out of other letters is remembered in the same
// way, and of those whose values follow there is a list, each behind those that it follows from.
ghost use Rattle.std.specs.Prelude.{◌≡◌, ◌≢◌, ℕ, ◌+◌, ◌%◌, ◌<◌, ◌≤◌, [], ◌∷◌, ◌++◌, ◌⊎◌, ◌↔◌, true, All};
ghost use Rattle.std.specs.Prelude.{length, take, IsTrue, Some, None, MatchOption, OnOk, slice_set};
ghost use Rattle.std.specs.Int.{bit_at};
ghost use Rattle.cdcl_analyze.specs.Marks.{IsMarked, outcome_of, outcome_number, with_outcomes};
ghost use Rattle.cdcl_analyze.specs.Marks.{with_consequences, with_levels, FoundSame, IsFrom, MayHave};
ghost use Rattle.cdcl_analyze.specs.Consequences.{IsKept};
ghost use Rattle.cdcl_analyze.specs.Waiting.{IsWaiting, IsNext};

use crate::waiting::{Waiting, with_bit};
use cnf_base::Hint;
use std::alloc::{AllocError, Global};
use std::marker::Model;

/// A letter whose value follows, and the reason by which it does.
#[derive(Clone, Copy, Drop)]
pub struct Consequence {
    pub letter: u32,
    pub reason: Hint,
}

/// What is marked, what waits, and what follows.
#[derive(Drop)]
pub struct Marks {
    /// The number of the analysis that marked a letter last.
    stamps: Vec<u32>,
    /// The number of this analysis. It is even.
    stamp: u32,
    /// Places of the trail that wait.
    waiting: Waiting,
    /// The number of the analysis that asked last whether a letter's value follows, and one more where it
    /// does.
    outcomes: Vec<u32>,
    /// The letters whose values follow, each behind those that it follows from.
    consequences: Vec<Consequence>,
    /// The levels on which a marked letter stands, modulo 64, one bit each.
    levels: u64,
}

impl Model for Marks {
    ghost use Rattle.std.specs.Prelude.{◌≡◌, ◌≤◌, ◌+◌, ◌%◌, All, length};
    ghost use Rattle.cdcl_analyze.specs.Marks.{MarksValue};

    ghost Value = { MarksValue };

    ghost view = { λ a. record {
      stamps = a.stamps.items;
      stamp = a.stamp;
      waiting = a.waiting;
      outcomes = a.outcomes.items;
      consequences = a.consequences.items;
      levels = a.levels;
    } };

    ghost invariant = { λ a. All (λ s. s ≤ a.stamp) a.stamps.items
        × All (λ o. o ≤ a.stamp + 1) a.outcomes.items × (a.stamp % 2 ≡ 0)
        × (length a.stamps.items ≤ length a.outcomes.items) };
}

impl Marks {
    /// No letters.
    pub fn new(alloc: Global) -> Self
        ensures { length result.stamps ≡ 0 }
    {
        Marks {
            stamps: Vec::new(alloc),
            stamp: 0,
            waiting: Waiting::new(alloc),
            outcomes: Vec::new(alloc),
            consequences: Vec::new(alloc),
            levels: 0,
        }
    }

    /// Makes room for one letter more.
    pub fn letter(&mut self) -> Result<(), AllocError>
        ensures kept { length self.old.stamps ≤ length self.new.stamps }
        ensures room { OnOk result (length self.new.stamps ≡ length self.old.stamps + 1) }
    {
        self.outcomes.push(0)?;
        self.stamps.push(0)?;
        Ok(())
    }

    /// Each letter that can be marked can be asked.
    #[inline(always)]
    pub(crate) fn invariant(&self)
        ensures { length self.now.stamps ≤ length self.now.outcomes }
    {
        let _ = &self.stamps;
    }

    /// Begins an analysis: no letter is marked, no place waits, and nothing is known.
    pub fn begin(&mut self)
        ensures room { length self.new.stamps ≡ length self.old.stamps }
        ensures none { (x : ℕ) → ¬ IsMarked self.new x }
        ensures empty { self.new.waiting ≡ [] }
        ensures unasked { (x : ℕ) → outcome_of self.new x ≡ None }
        ensures none_follows { self.new.consequences ≡ [] }
        ensures no_level { (l : ℕ) → ¬ MayHave self.new l }
    {
        self.waiting.clear();
        self.consequences.clear();
        self.levels = 0;
        match self.stamp.checked_add(2) {
            Some(stamp) => {
                self.stamp = stamp;
            }
            None => {
                clear(&mut self.stamps);
                clear(&mut self.outcomes);
                self.stamp = 2;
            }
        }
    }

    /// Whether the letter is marked.
    pub fn has(&self, letter: usize) -> bool
        ensures { letter < length self.now.stamps → (IsTrue result ↔ IsMarked self.now letter) }
    {
        match self.stamps.get(letter) {
            Some(stamp) => *stamp == self.stamp,
            None => false,
        }
    }

    /// Marks the letter, and lets its place wait.
    pub(crate) fn mark(&mut self, letter: usize, place: usize) -> Result<(), AllocError>
        requires { letter < length self.old.stamps }
        ensures room { length self.new.stamps ≡ length self.old.stamps }
        ensures marked { OnOk result (IsMarked self.new letter) }
        ensures kept { OnOk result ((x : ℕ) → IsMarked self.old x → IsMarked self.new x) }
        ensures only { OnOk result ((x : ℕ) → IsMarked self.new x → (x ≡ letter) ⊎ IsMarked self.old x) }
        ensures waits { OnOk result ((p : ℕ) → (p ≡ place) ⊎ IsWaiting self.old.waiting p
            → IsWaiting self.new.waiting p) }
        ensures found { FoundSame self.old self.new }
    {
        self.waiting.push(place)?;
        self.stamps[letter] = self.stamp;
        Ok(())
    }

    /// Marks the letter; nothing waits for it.
    pub fn note(&mut self, letter: usize)
        requires { letter < length self.old.stamps }
        ensures room { length self.new.stamps ≡ length self.old.stamps }
        ensures marked { IsMarked self.new letter }
        ensures kept { (x : ℕ) → IsMarked self.old x → IsMarked self.new x }
        ensures only { (x : ℕ) → IsMarked self.new x → (x ≡ letter) ⊎ IsMarked self.old x }
    {
        self.stamps[letter] = self.stamp;
    }

    /// Notes that a marked letter stands on the level.
    pub(crate) fn join(&mut self, level: usize)
        ensures rest { self.new ≡ with_levels self.old self.new.levels }
        ensures there { MayHave self.new level }
        ensures others { (i : ℕ) → i ≢ level % 64 → bit_at self.new.levels i ≡ bit_at self.old.levels i }
    {
        self.levels = with_bit(self.levels, (level % 64) as u32);
    }

    /// Whether a marked letter may stand on the level.
    pub(crate) fn may_have(&self, level: usize) -> bool
        ensures { IsTrue result ↔ MayHave self.now level }
    {
        (self.levels >> (level % 64) as u32) % 2 == 1
    }

    /// Whether the letter's value follows, if this analysis has asked.
    pub(crate) fn outcome(&self, letter: usize) -> Option<bool>
        ensures { result ≡ outcome_of self.now letter }
    {
        match self.outcomes.get(letter) {
            None => None,
            Some(outcome) => {
                if *outcome < self.stamp {
                    return None;
                }
                Some(*outcome != self.stamp)
            }
        }
    }

    /// Whether the letter is marked or its value follows, if this analysis has asked.
    #[inline(always)]
    pub(crate) fn given(&self, letter: usize) -> Option<bool>
        requires { letter < length self.now.stamps }
        ensures { MatchOption result (outcome_of self.now letter ≡ None) (λ is_given. IsTrue is_given
            ↔ (IsKept self.now letter ⊎ (outcome_of self.now letter ≡ Some true))) }
    {
        match self.outcome(letter) {
            Some(true) => Some(true),
            Some(false) => Some(self.has(letter)),
            None => None,
        }
    }

    /// Remembers whether the letter's value follows.
    fn remember(&mut self, letter: usize, follows: bool)
        ensures { self.new ≡ with_outcomes self.old
            (slice_set self.old.outcomes letter (outcome_number self.old.stamp follows)) }
    {
        if letter < self.outcomes.len() {
            self.outcomes[letter] = self.stamp.saturating_add(follows as u32);
        }
    }

    /// Remembers that the letter's value does not follow.
    pub(crate) fn deny(&mut self, letter: usize)
        ensures { self.new ≡ with_outcomes self.old
            (slice_set self.old.outcomes letter self.old.stamp) }
    {
        self.remember(letter, false);
    }

    /// Puts the letter, whose value follows by this reason, behind the consequences, and remembers that it
    /// follows.
    pub(crate) fn conclude(&mut self, letter: u32, reason: Hint) -> Result<(), AllocError>
        ensures size { length self.new.stamps ≡ length self.old.stamps }
        ensures concluded { OnOk result (self.new ≡ with_consequences (with_outcomes self.old
            (slice_set self.old.outcomes letter (self.old.stamp + 1)))
            (self.old.consequences ++ record { letter = letter; reason = reason } ∷ [])) }
    {
        self.consequences.push(Consequence { letter, reason })?;
        self.remember(letter as usize, true);
        Ok(())
    }

    /// Keeps the first `count` consequences. Whether the values of the others' letters follow is not known
    /// any longer.
    pub(crate) fn take_back(&mut self, count: usize)
        ensures rest { self.new ≡ with_consequences (with_outcomes self.old self.new.outcomes)
            (take count self.old.consequences) }
        ensures size { length self.new.outcomes ≡ length self.old.outcomes }
        ensures others { (x : ℕ) → (outcome_of self.new x ≡ outcome_of self.old x)
            ⊎ IsFrom self.old count x }
        ensures unknown { (x : ℕ) → IsFrom self.old count x → outcome_of self.new x ≢ Some true }
    {
        'back: while self.consequences.len() > count {
            let last = self.consequences.len() - 1;
            let letter = self.consequences[last].letter as usize;
            self.consequences.truncate(last);
            if letter < self.outcomes.len() {
                self.outcomes[letter] = 0;
            }
        }
    }

    /// The letters whose values follow, each behind those that it follows from.
    pub(crate) fn consequences(&self) -> &[Consequence]
        ensures { result.now ≡ self.now.consequences }
    {
        self.consequences.as_slice()
    }

    /// The last place below `end` that waits. Those from `end` on wait no longer.
    pub(crate) fn pop(&mut self, end: usize) -> Option<usize>
        ensures room { length self.new.stamps ≡ length self.old.stamps }
        ensures marks { (x : ℕ) → IsMarked self.new x ↔ IsMarked self.old x }
        ensures next { MatchOption result ((p : ℕ) → p < end → ¬ IsWaiting self.old.waiting p)
            (IsNext self.old.waiting self.new.waiting end) }
        ensures found { FoundSame self.old self.new }
    {
        self.waiting.pop(end)
    }
}

/// Sets all numbers to 0, so that analyses can be counted from the beginning.
fn clear(stamps: &mut [u32])
    ensures size { length stamps.new ≡ length stamps.old }
    ensures zero { All (λ s. s ≡ 0) stamps.new }
{
    for i in 0..stamps.len() {
        stamps[i] = 0;
    }
}
