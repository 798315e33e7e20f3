// How the letters of the clauses are numbered. Letter 1 turns pruning on; after it come the letters of step
// 0, of step 1 and so on. A step has letters of its own, and then some for the pair that it makes with each
// earlier step, so that the letters through a depth keep their numbers when the next depth is asked.
ghost use Rattle.std.specs.Prelude.{◌≡◌, ◌↔◌, IsTrue, ℕ, ◌+◌, ◌-◌, ◌*◌, ◌/◌, ◌^◌, ◌<◌, ◌≤◌};
ghost use Rattle.ltl_closure.specs.Entries.{IsNumber};
ghost use Rattle.enc_layout.specs.Letters.{own_count, pair_count, count_before, count_before_pair};
ghost use Rattle.enc_layout.specs.Letters.{letters_through, number_of, IsLetter, Fits};
ghost use Rattle.enc_layout.specs.Letters.{Unpruned, EntryAt};
ghost use Rattle.enc_layout.specs.Clauses.{Plus, Minus, literal_in, layout_of};
ghost use Rattle.enc_layout.specs.Parts.{meaning_of};

use cnf_base::{Letter, Literal};
use ltl_closure::Closure;
use ltl_syntax::Kind;
use std::marker::Model;

#[cfg(test)]
mod tests;

/// The most letters that a clause list may have.
const MAX_LETTERS: u64 = 16_777_216;

/// What a letter of a step stands for. A step counts from 0; numbers of entries, eventualities and places of
/// a carry count from 1. Of two numbers the first is an earlier step.
#[derive(Clone, Copy, PartialEq, Eq, Debug, Drop)]
pub enum Part {
    /// The state is there.
    Here,
    /// The run up to the state is accepted.
    Accepted,
    /// No next request is true. Infinite traces only.
    Empty,
    /// An earlier state has the same carry. Infinite traces only.
    Repeated,
    /// The entry is true.
    Entry(u32),
    /// Some earlier state has the same carry, and the eventuality is fulfilled after it. Infinite traces
    /// only.
    Seen(u32),
    /// The earlier state has the same carry.
    Equal(u32),
    /// The run closes to the earlier state. Infinite traces only.
    Loop(u32),
    /// The carries differ at the place.
    Differs(u32, u32),
    /// The eventuality is fulfilled after the earlier state. Infinite traces only.
    Fulfilled(u32, u32),
    /// The eventuality is pending, fulfilled after the earlier state and not seen there. Infinite traces
    /// only.
    New(u32, u32),
}

/// The kind of trace and the counts of a closure, from which each letter's number follows.
#[derive(Drop)]
pub struct Layout {
    kind: Kind,
    entries: u32,
    places: u32,
    eventualities: u32,
}

impl Model for Layout {
    ghost use Rattle.enc_layout.specs.Letters.{Counts, LayoutValue, AreFew};

    ghost Value = { LayoutValue };

    ghost view = { λ a. record {
      kind = a.kind;
      counts = record {
        entries = a.entries;
        places = a.places;
        eventualities = a.eventualities;
      };
    } };

    ghost invariant = { λ a. AreFew (record {
      entries = a.entries;
      places = a.places;
      eventualities = a.eventualities;
    }) };
}

impl Layout {
    /// The layout of a closure. Takes no memory.
    pub fn of(closure: &Closure<'_>) -> Layout
        ensures layout { result ≡ layout_of closure.now }
        ensures first { Fits result 0 }
    {
        Layout {
            kind: closure.kind(),
            entries: closure.entries().len() as u32,
            places: (closure.nexts().len() + closure.yesterdays().len()) as u32,
            eventualities: closure.eventualities().len() as u32,
        }
    }

    /// How many letters there are through the depth.
    pub fn letters_through(&self, depth: u32) -> u64
        requires { depth ≤ 1000 }
        ensures { result ≡ letters_through self.now.kind self.now.counts depth }
    {
        self.letters_before(depth + 1)
    }

    /// Whether the letters through the depth are at most 16,777,216, which whatever numbers them asks for.
    pub fn fits(&self, depth: u32) -> bool
        requires { depth ≤ 1000 }
        ensures { IsTrue result ↔ Fits self.now depth }
    {
        self.letters_through(depth) <= MAX_LETTERS
    }

    /// The greatest depth up to `at_most` whose letters are at most 16,777,216. Depth 0 is always one.
    pub fn greatest_depth(&self, at_most: u32) -> u32
        requires { at_most ≤ 1000 }
        ensures below { result ≤ at_most }
        ensures fits { Fits self.now result }
        ensures greatest { (d : ℕ) → d ≤ at_most → Fits self.now d → d ≤ result }
    {
        self.invariant();
        let mut depth = at_most;
        while depth > 0 && !self.fits(depth) {
            depth -= 1;
        }
        depth
    }

    /// The letter of a part of a step.
    pub fn letter(&self, step: u32, part: Part) -> Letter
        requires few { step ≤ 1000 }
        requires fits { Fits self.now step }
        requires known { IsLetter self.now.kind self.now.counts step (meaning_of step part) }
        ensures { result.0 ≡ number_of self.now.kind self.now.counts (meaning_of step part) }
    {
        Letter(self.number(step, part) as u32)
    }

    /// The literal that is true where the letter is.
    pub fn positive(&self, step: u32, part: Part) -> Literal
        requires few { step ≤ 1000 }
        requires fits { Fits self.now step }
        requires known { IsLetter self.now.kind self.now.counts step (meaning_of step part) }
        ensures { result ≡ literal_in self.now.kind self.now.counts (Plus (meaning_of step part)) }
    {
        Literal {
            letter: self.letter(step, part),
            negated: false,
        }
    }

    /// The literal that is true where the letter is not.
    pub fn negative(&self, step: u32, part: Part) -> Literal
        requires few { step ≤ 1000 }
        requires fits { Fits self.now step }
        requires known { IsLetter self.now.kind self.now.counts step (meaning_of step part) }
        ensures { result ≡ literal_in self.now.kind self.now.counts (Minus (meaning_of step part)) }
    {
        Literal {
            letter: self.letter(step, part),
            negated: true,
        }
    }

    /// The literal that is true where the entry is true at the step. The entry's number counts from 1.
    pub fn entry(&self, step: u32, entry: u32) -> Literal
        requires few { step ≤ 1000 }
        requires fits { Fits self.now step }
        requires known { IsNumber self.now.counts.entries entry }
        ensures { result ≡ literal_in self.now.kind self.now.counts (Plus (EntryAt step entry)) }
    {
        self.positive(step, Part::Entry(entry))
    }

    /// The literal that is true where states may be pruned: the negation of letter 1.
    pub fn may_prune(&self) -> Literal
        ensures { result ≡ literal_in self.now.kind self.now.counts (Minus Unpruned) }
    {
        Literal {
            letter: Letter(1),
            negated: true,
        }
    }

    fn invariant(&self)
        ensures { Fits self.now 0 }
    {
        let _ = &self.kind;
    }

    /// The letters that a step has beside those of its pairs.
    fn own_count(&self) -> u64
        ensures count { result ≡ own_count self.now.kind self.now.counts }
        ensures small { result ≤ 196616 }
    {
        match self.kind {
            Kind::Infinite => 4 + self.entries as u64 + self.eventualities as u64,
            Kind::Finite => 2 + self.entries as u64,
        }
    }

    /// The letters that a pair of steps has.
    fn pair_count(&self) -> u64
        ensures count { result ≡ pair_count self.now.kind self.now.counts }
        ensures small { result ≤ 393226 }
    {
        match self.kind {
            Kind::Infinite => 2 + self.places as u64 + 2 * self.eventualities as u64,
            Kind::Finite => 1 + self.places as u64,
        }
    }

    fn letters_before(&self, step: u32) -> u64
        requires { step ≤ 1001 }
        ensures count { result ≡ count_before self.now.kind self.now.counts step }
        ensures small { result < 2 ^ 51 }
    {
        let step = step as u64;
        let own = step * self.own_count();
        let pairs = step * step.saturating_sub(1) / 2;
        1 + own + pairs * self.pair_count()
    }

    fn letters_before_pair(&self, step: u32, earlier: u32) -> u64
        requires few { step ≤ 1000 }
        requires earlier { earlier < step }
        ensures count { result ≡ count_before_pair self.now.kind self.now.counts earlier step }
        ensures small { result < 2 ^ 52 }
    {
        self.letters_before(step) + self.own_count() + earlier as u64 * self.pair_count()
    }

    #[tactic(auto, using(crate::proofs::ByKind::seen_number, crate::proofs::ByKind::empty_number, crate::proofs::ByKind::repeated_number, crate::proofs::ByKind::loop_number, crate::proofs::ByKind::fulfilled_number, crate::proofs::ByKind::new_number))]
    fn number(&self, step: u32, part: Part) -> u64
        requires few { step ≤ 1000 }
        requires known { IsLetter self.now.kind self.now.counts step (meaning_of step part) }
        ensures { result ≡ number_of self.now.kind self.now.counts (meaning_of step part) }
    {
        match part {
            Part::Here => self.letters_before(step) + 1,
            Part::Accepted => self.letters_before(step) + 2,
            Part::Empty => self.letters_before(step) + 3,
            Part::Repeated => self.letters_before(step) + 4,
            Part::Entry(entry) => match self.kind {
                Kind::Infinite => self.letters_before(step) + 4 + entry as u64,
                Kind::Finite => self.letters_before(step) + 2 + entry as u64,
            },
            Part::Seen(eventuality) => {
                self.letters_before(step) + 4 + self.entries as u64 + eventuality as u64
            }
            Part::Equal(earlier) => self.letters_before_pair(step, earlier) + 1,
            Part::Loop(earlier) => self.letters_before_pair(step, earlier) + 2,
            Part::Differs(earlier, place) => match self.kind {
                Kind::Infinite => self.letters_before_pair(step, earlier) + 2 + place as u64,
                Kind::Finite => self.letters_before_pair(step, earlier) + 1 + place as u64,
            },
            Part::Fulfilled(earlier, eventuality) => {
                self.letters_before_pair(step, earlier)
                    + 2
                    + self.places as u64
                    + eventuality as u64
            }
            Part::New(earlier, eventuality) => {
                self.letters_before_pair(step, earlier)
                    + 2
                    + self.places as u64
                    + self.eventualities as u64
                    + eventuality as u64
            }
        }
    }
}

// A layout may be read by several workers at once: the check of this call is the proof.
fn shares<T: Send + Sync>(_: &T) {}

fn layout_is_shared(layout: &Layout) {
    shares(layout);
}
