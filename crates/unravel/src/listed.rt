// The clause list through a depth, and the parts of its pairs, which may be asked for without a condition:
// what the list does not have has no numbers.
ghost use Rattle.std.specs.Prelude.{◌≡◌, ◌≤◌, ◌+◌, ◌<◌, ◌^◌, IsTrue, length};
ghost use Rattle.ltl_syntax.specs.declared.node.Kind.TheVariants as Kinds;
ghost use Rattle.cnf_base.specs.Step.{clause_at};
ghost use Rattle.enc_layout.specs.Letters.{Fits};
ghost use Rattle.enc_layout.specs.Clauses.{layout_of, carried};
ghost use Rattle.clause_index.specs.Literals.{literals};
ghost use Rattle.clause_index.specs.Sections.{section_clauses};
ghost use Rattle.clause_index.specs.PairParts.{IsPart};
ghost use Rattle.clause_index.specs.Numbers.{AreNumbersOf};
ghost use Rattle.unravel.specs.Putting.{listed_of, list_of, IsNumberIn, AreNumbersIn};

use clause_index::{Found, Indexed, Numbers, PairPart, StepSection};
use cnf_base::Clauses;
use ltl_closure::Closure;
use ltl_syntax::Kind;
use std::marker::Model;

/// More places or eventualities than a formula has.
const MANY: usize = 1 << 20;

/// Two steps.
#[derive(Clone, Copy, Drop)]
pub struct Pair {
    pub earlier: u32,
    pub later: u32,
}

/// The clauses of a closure's formula through a depth.
#[derive(Drop)]
pub struct Listed<'c> {
    closure: &'c Closure<'c>,
    depth: u32,
    indexed: Indexed<'c>,
}

impl<'c> Model for Listed<'c> {
    ghost use Rattle.clause_index.specs.Indexed.{IndexedValue, coded_indexed};
    ghost use Rattle.unravel.specs.Listing.{IsListed};

    ghost Value = { IndexedValue };

    ghost coded = { coded_indexed };

    ghost view = { λ x. x.indexed };

    ghost invariant = { λ x. IsListed x.closure.now x.depth x.indexed };
}

/// Whether lists of pairs on infinite traces have the part.
fn is_infinite_part(closure: &Closure<'_>, part: PairPart) -> bool
    ensures { IsTrue result → IsPart closure.now.formula Kinds.Infinite part }
{
    match part {
        PairPart::Place(place) => is_place(closure, place),
        PairPart::Fulfilment(number) => (number as usize) < closure.eventualities().len(),
        PairPart::Equal | PairPart::Loop | PairPart::Seen | PairPart::Prune => true,
    }
}

/// Whether lists of pairs on finite traces have the part.
fn is_finite_part(closure: &Closure<'_>, part: PairPart) -> bool
    ensures { IsTrue result → IsPart closure.now.formula Kinds.Finite part }
{
    match part {
        PairPart::Place(place) => is_place(closure, place),
        PairPart::Equal | PairPart::Prune => true,
        PairPart::Fulfilment(_) | PairPart::Loop | PairPart::Seen => false,
    }
}

/// Whether a carry has such a place.
fn is_place(closure: &Closure<'_>, place: u32) -> bool
    ensures { IsTrue result → place < length (carried closure.now.formula) }
{
    let place = place as usize;
    let nexts = closure.nexts().len();
    if place < nexts {
        return true;
    }
    place - nexts < closure.yesterdays().len()
}

/// Of these numbers those from a place on, `count` at most.
fn some_of(numbers: Numbers, from: u64, count: u64) -> Numbers
    requires { numbers.first + numbers.count < 2 ^ 60 }
    ensures first { numbers.first ≤ result.first }
    ensures last { result.first + result.count ≤ numbers.first + numbers.count }
{
    let from = from.min(numbers.count);
    Numbers {
        first: numbers.first + from,
        count: count.min(numbers.count - from),
    }
}

impl<'c> Listed<'c> {
    /// The clauses through the depth.
    pub fn of(closure: &'c Closure<'c>, depth: u32) -> Listed<'c>
        requires few { depth ≤ 1000 }
        requires fits { Fits (layout_of closure.now) depth }
        ensures { result ≡ listed_of closure.now depth }
    {
        Listed {
            closure,
            depth,
            indexed: Indexed::of(closure, depth),
        }
    }

    /// How many clauses there are.
    pub fn count(&self) -> u64
        ensures { result ≡ length (list_of self.now) }
    {
        self.indexed.count()
    }

    /// The clause of a number.
    pub fn clause(&self, number: u64) -> Found
        requires { IsNumberIn self.now number }
        ensures { literals result ≡ clause_at (list_of self.now) number }
    {
        self.indexed.clause(number)
    }

    /// The numbers of the clauses of a section of the step.
    pub fn section(&self, step: u32, section: StepSection) -> Numbers
        requires { step ≤ self.now.depth }
        ensures clauses { AreNumbersOf self.now result
            (section_clauses self.now.formula self.now.kind step section) }
        ensures within { AreNumbersIn self.now result }
    {
        self.indexed.numbers(step, section)
    }

    /// Whether the list has such a part of the pair.
    fn has(&self, pair: Pair, part: PairPart) -> bool
        ensures { IsTrue result → (pair.earlier < pair.later) × (pair.later ≤ self.now.depth)
            × IsPart self.now.formula self.now.kind part }
    {
        if pair.earlier >= pair.later {
            return false;
        }
        if pair.later > self.depth {
            return false;
        }
        match self.closure.kind() {
            Kind::Infinite => is_infinite_part(self.closure, part),
            Kind::Finite => is_finite_part(self.closure, part),
        }
    }

    /// The numbers of clauses of a part of the pair: those from a place of the part on, `count` at most. None
    /// where there is no such part.
    pub fn part(&self, pair: Pair, part: PairPart, from: u64, count: u64) -> Numbers
        ensures { AreNumbersIn self.now result }
    {
        if !self.has(pair, part) {
            return Numbers { first: 1, count: 0 };
        }
        let numbers = self.indexed.pair_numbers(pair.later, pair.earlier, part);
        some_of(numbers, from, count)
    }

    /// How many places a carry has.
    pub fn places(&self) -> u32 {
        number(self.closure.nexts().len()) + number(self.closure.yesterdays().len())
    }

    /// How many eventualities there are.
    pub fn eventualities(&self) -> u32 {
        number(self.closure.eventualities().len())
    }
}

/// A number of places or eventualities.
pub fn number(count: usize) -> u32
    ensures { result ≤ 1048576 }
{
    count.min(MANY) as u32
}
