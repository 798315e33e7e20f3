// The entries of the trail in twelve bytes each: an analysis reads levels and reasons here and there, so
// what matters is that many of them fit into a cache.
ghost use Rattle.std.specs.Prelude.{◌≡◌, ◌<◌, ◌≤◌, [], ◌∷◌, ◌++◌, length, take, if◌then◌else◌, is_ok};
ghost use Rattle.std.specs.Prelude.{MatchOption, OnOk, slice_index_or};
ghost use Rattle.cdcl_trail.specs.Entries.{literal_of, reason_of, HasNumber, Fits};
ghost use Rattle.cdcl_trail.specs.Trail.{blank_entry, place_level};

use crate::assigned::TrailEntry;
use crate::hints::{decode_hint, encode_hint};
use cnf_base::{Hint, Letter, Literal};
use std::alloc::{AllocError, Global};
use std::marker::Model;

/// The greatest level that fits.
const MAX_LEVEL: usize = 4294967295;
/// The greatest letter whose literals have numbers of 32 bits.
const MAX_LETTER: u32 = 2147483647;

/// An entry, its literal and its reason by their numbers.
#[derive(Clone, Copy, Drop)]
struct Packed {
    literal: u32,
    level: u32,
    reason: u32,
}

/// Twice the letter, and one more where the literal is negated, if it fits into 32 bits.
#[inline(always)]
fn shorten_literal(literal: Literal) -> Option<u32>
    ensures { MatchOption result (2147483647 < literal.letter.0)
        (λ number. (literal_of number ≡ literal) × (literal.letter.0 ≤ 2147483647)) }
{
    if literal.letter.0 > MAX_LETTER {
        return None;
    }
    Some(2 * literal.letter.0 + literal.negated as u32)
}

/// The literal of a number.
fn lengthen_literal(number: u32) -> Literal
    ensures { result ≡ literal_of number }
{
    Literal {
        letter: Letter(number / 2),
        negated: number % 2 == 1,
    }
}

/// The number of a reason, if it fits into 32 bits.
#[inline(always)]
fn shorten_reason(reason: Option<Hint>) -> Option<u32>
    ensures { MatchOption result (¬ HasNumber reason)
        (λ number. (reason_of number ≡ reason) × HasNumber reason) }
{
    match reason {
        None => Some(0),
        Some(hint) => match encode_hint(hint) {
            None => None,
            Some(number) => Some(number + 1),
        },
    }
}

/// The reason of a number.
fn lengthen_reason(number: u32) -> Option<Hint>
    ensures { result ≡ reason_of number }
{
    if number == 0 {
        return None;
    }
    Some(decode_hint(number - 1))
}

/// A list of entries, whose literals, levels and hints have numbers of 32 bits: what does not fit is refused.
#[derive(Drop)]
pub struct Entries {
    items: Vec<Packed>,
}

impl Model for Entries {
    ghost use Rattle.std.specs.Prelude.{List, map};
    ghost use Rattle.cdcl_trail.specs.declared.assigned.TrailEntry.{TrailEntry};
    ghost use Rattle.cdcl_trail.specs.Entries.{literal_of, reason_of};

    ghost Value = { List TrailEntry };

    ghost view = { λ a. map (λ p. record {
      literal = literal_of p.literal;
      level = p.level;
      reason = reason_of p.reason;
    }) a.items.items };
}

impl Entries {
    /// No entries.
    pub fn new(alloc: Global) -> Self
        ensures { result ≡ [] }
    {
        Entries {
            items: Vec::new(alloc),
        }
    }

    /// The number of entries.
    pub fn len(&self) -> usize
        ensures { result ≡ length self.now }
    {
        self.items.len()
    }

    /// The entry at a place.
    pub fn get(&self, place: usize) -> TrailEntry
        requires { place < length self.now }
        ensures { result ≡ slice_index_or self.now place blank_entry }
    {
        let packed = self.items[place];
        TrailEntry {
            literal: lengthen_literal(packed.literal),
            level: packed.level as usize,
            reason: lengthen_reason(packed.reason),
        }
    }

    /// The level of the entry at a place; 0 where there is none.
    pub fn level(&self, place: usize) -> usize
        ensures { result ≡ place_level self.now place }
    {
        match self.items.get(place) {
            Some(packed) => packed.level as usize,
            None => 0,
        }
    }

    /// Puts the entry behind the others. One that does not fit is refused, as is any for want of memory.
    #[inline(always)]
    pub fn push(&mut self, entry: TrailEntry) -> Result<(), AllocError>
        ensures items { self.new ≡ (if is_ok result then self.old ++ entry ∷ [] else self.old) }
        ensures fits { OnOk result (Fits entry) }
    {
        if entry.level > MAX_LEVEL {
            return Err(AllocError);
        }
        let literal = shorten_literal(entry.literal).ok_or(AllocError)?;
        let reason = shorten_reason(entry.reason).ok_or(AllocError)?;
        self.items.push(Packed {
            literal,
            level: entry.level as u32,
            reason,
        })?;
        Ok(())
    }

    /// Keeps the first `count` entries, or all where there are no more.
    pub fn truncate(&mut self, count: usize)
        ensures { self.new ≡ take count self.old }
    {
        self.items.truncate(count);
    }
}
