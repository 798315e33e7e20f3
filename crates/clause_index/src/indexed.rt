// Clauses by their numbers. A number is taken apart into a step, a section of the step and an index in the
// section, and the clause is made from these: nothing is stored but counts, and no memory is taken.
ghost use Rattle.std.specs.Prelude.{◌≡◌, ◌+◌, ◌<◌, ◌≤◌, ◌^◌, length};
ghost use Rattle.cnf_base.specs.Step.{clause_at};
ghost use Rattle.ltl_closure.specs.Closure.{nexts, eventualities};
ghost use Rattle.enc_layout.specs.Letters.{Fits};
ghost use Rattle.enc_layout.specs.Clauses.{layout_of, clause_list};
ghost use Rattle.clause_index.specs.Literals.{literals};
ghost use Rattle.clause_index.specs.Rows.{row_at};
ghost use Rattle.clause_index.specs.Counts.{sizes_of};
ghost use Rattle.clause_index.specs.Samples.{AreSamples};
ghost use Rattle.clause_index.specs.Sections.{section_clauses};
ghost use Rattle.clause_index.specs.PairParts.{IsPart, part_clauses};
ghost use Rattle.clause_index.specs.Numbers.{AreNumbersOf};

use crate::acceptance::acceptance;
use crate::found::Found;
use crate::numbers::{Numbers, PairPart, part_numbers, section_numbers};
use crate::pair::pairs;
use crate::place::{Place, StepSection, place_of};
use crate::pruning::pruning;
use crate::samples::Samples;
use crate::sizes::Sizes;
use crate::state::states;
use cnf_base::{Clauses, Literal};
use enc_layout::Layout;
use ltl_closure::Closure;
use std::marker::Model;

/// The clauses of the steps up to a depth, for the formula and the kind of trace of a closure.
#[derive(Drop)]
pub struct Indexed<'c> {
    closure: &'c Closure<'c>,
    layout: Layout,
    sizes: Sizes,
    samples: Samples,
    depth: u32,
}

impl<'c> Model for Indexed<'c> {
    ghost use Rattle.clause_index.specs.Indexed.{IndexedValue, coded_indexed, IsIndexed};

    ghost Value = { IndexedValue };

    ghost coded = { coded_indexed };

    ghost view = { λ x. record {
      formula = x.closure.now.formula;
      kind = x.closure.now.kind;
      depth = x.depth;
    } };

    ghost invariant = { λ x. IsIndexed x.closure.now x.layout x.sizes x.samples x.depth };
}

fn find(
    closure: &Closure<'_>,
    layout: &Layout,
    sizes: Sizes,
    samples: &Samples,
    place: Place,
) -> Found
    requires own { layout.now ≡ layout_of closure.now }
    requires samples { AreSamples closure.now.entries samples.now }
    requires sizes { sizes ≡ sizes_of closure.now.formula closure.now.kind }
    requires few { place.step ≤ 1000 }
    requires fits { Fits layout.now place.step }
    requires few_nexts { length (nexts closure.now.formula) ≤ 98306 }
    requires few_eventualities { length (eventualities closure.now.formula) ≤ 98306 }
    requires within { place.index < length (section_clauses closure.now.formula closure.now.kind place.step
        place.section) }
    ensures { literals result ≡ row_at layout.now (section_clauses closure.now.formula closure.now.kind
        place.step place.section) place.index }
{
    let (step, index) = (place.step, place.index);
    match place.section {
        StepSection::States => states(closure, layout, sizes, samples, step, index),
        StepSection::Pairs => pairs(closure, layout, sizes, step, index),
        StepSection::Acceptance => acceptance(closure, layout, step, index),
        StepSection::Pruning => pruning(closure, layout, step, index),
    }
}

impl<'c> Indexed<'c> {
    /// The clauses of steps 0 to `depth`. `Layout::fits` tells whether their letters are few enough.
    pub fn of(closure: &'c Closure<'c>, depth: u32) -> Indexed<'c>
        requires few { depth ≤ 1000 }
        requires fits { Fits (layout_of closure.now) depth }
        ensures formula { result.formula ≡ closure.now.formula }
        ensures kind { result.kind ≡ closure.now.kind }
        ensures depth { result.depth ≡ depth }
    {
        Indexed {
            closure,
            layout: Layout::of(closure),
            sizes: Sizes::of(closure),
            samples: Samples::of(closure.entries()),
            depth,
        }
    }

    /// The clause of a number from 1 to the count. Whoever wants several of its literals finds it once.
    pub fn clause(&self, number: u64) -> Found
        requires from_one { 1 ≤ number }
        requires in_list { number ≤ length (clause_list self.now.formula self.now.kind self.now.depth) }
        ensures { literals result ≡ clause_at (clause_list self.now.formula self.now.kind self.now.depth)
            number }
    {
        let place = place_of(self.sizes, self.depth, number - 1);
        find(self.closure, &self.layout, self.sizes, &self.samples, place)
    }

    /// The numbers of the clauses of a section of the step.
    pub fn numbers(&self, step: u32, section: StepSection) -> Numbers
        requires { step ≤ self.now.depth }
        ensures clauses { AreNumbersOf self.now result
            (section_clauses self.now.formula self.now.kind step section) }
        ensures small { result.first + result.count < 2 ^ 60 }
    {
        section_numbers(self.sizes, step, section)
    }

    /// The numbers of the clauses of a part of the step's pair with an earlier one.
    pub fn pair_numbers(&self, step: u32, earlier: u32, part: PairPart) -> Numbers
        requires step { step ≤ self.now.depth }
        requires earlier { earlier < step }
        requires known { IsPart self.now.formula self.now.kind part }
        ensures clauses { AreNumbersOf self.now result
            (part_clauses self.now.formula self.now.kind step earlier part) }
        ensures small { result.first + result.count < 2 ^ 60 }
    {
        part_numbers(self.sizes, step, earlier, part)
    }
}

impl<'c> Clauses for Indexed<'c> {
    ghost use Rattle.enc_layout.specs.Clauses.{clause_list};

    ghost clauses = { λ x. clause_list x.formula x.kind x.depth };

    fn count(&self) -> u64 {
        self.sizes.before(self.depth + 1)
    }

    fn len(&self, number: u64) -> u32 {
        self.clause(number).len()
    }

    fn literal(&self, number: u64, place: u32) -> Literal {
        self.clause(number).literal(place)
    }
}

// Workers read clauses at the same time: the check of this call is the proof.
fn shares<T: Send + Sync>(_: &T) {}

fn indexed_is_shared(indexed: &Indexed<'_>) {
    shares(indexed);
}
