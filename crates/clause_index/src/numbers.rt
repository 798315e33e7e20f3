// Which numbers the clauses of a section of a step have, and those of a part of a pair: sums of sizes.
ghost use Rattle.std.specs.Prelude.{◌≡◌, ◌+◌, ◌<◌, ◌≤◌, ◌^◌};
ghost use Rattle.clause_index.specs.declared.numbers.PairPart.TheVariants as parts;
ghost use Rattle.clause_index.specs.Counts.{before_step};
ghost use Rattle.clause_index.specs.Sections.{section_size, before_section};
ghost use Rattle.clause_index.specs.PairParts.{part_size, before_pair, before_part};

use crate::pair::fulfilled_size;
use crate::place::StepSection;
use crate::sizes::Sizes;
use ltl_syntax::Kind;

/// Numbers of clauses that stand one behind the other: the first, and how many they are.
#[derive(Clone, Copy, PartialEq, Eq, Debug, Drop)]
pub struct Numbers {
    pub first: u64,
    pub count: u64,
}

/// The parts of what the list says of a pair of steps.
#[derive(Clone, Copy, PartialEq, Eq, Debug, Drop)]
pub enum PairPart {
    /// A place of the carries, from 0. Of its four clauses two say what it is that they differ there, and two
    /// what equal carries say there.
    Place(u32),
    /// The carries are equal, or they differ at some place: one clause.
    Equal,
    /// Whether an eventuality, from 0, is fulfilled after the earlier step. Infinite traces only.
    Fulfilment(u32),
    /// A run may loop where the carries are equal, the first clause, and each eventuality that is asked for
    /// is fulfilled, one clause each. Infinite traces only.
    Loop,
    /// Equal carries make the later step one that repeats, the first clause, and what is fulfilled between
    /// the two is seen there, one clause each. Infinite traces only.
    Seen,
    /// What is new of each eventuality, three clauses each, and behind them that the pair prunes, which on
    /// finite traces is the only one.
    Prune,
}

/// How many clauses the section has.
fn section_size(sizes: Sizes, step: u32, section: StepSection) -> u64
    requires { step ≤ 1000 }
    ensures size { result ≡ section_size sizes.kind sizes step section }
    ensures small { result < 2 ^ 47 }
{
    match section {
        StepSection::States => sizes.states(step),
        StepSection::Pairs => sizes.pairs(step),
        StepSection::Acceptance => sizes.acceptance(),
        StepSection::Pruning => step as u64 * sizes.pruning(),
    }
}

/// How many clauses of the step stand before those of the section.
fn before_section(sizes: Sizes, step: u32, section: StepSection) -> u64
    requires { step ≤ 1000 }
    ensures size { result ≡ before_section sizes.kind sizes step section }
    ensures small { result < 2 ^ 49 }
{
    match section {
        StepSection::States => 0,
        StepSection::Pairs => sizes.states(step),
        StepSection::Acceptance => sizes.states(step) + sizes.pairs(step),
        StepSection::Pruning => sizes.states(step) + sizes.pairs(step) + sizes.acceptance(),
    }
}

/// The numbers of the clauses of a section of the step.
pub fn section_numbers(sizes: Sizes, step: u32, section: StepSection) -> Numbers
    requires { step ≤ 1000 }
    ensures first { result.first ≡ 1 + (before_step sizes.kind sizes step
        + before_section sizes.kind sizes step section) }
    ensures count { result.count ≡ section_size sizes.kind sizes step section }
    ensures small { result.first + result.count < 2 ^ 60 }
{
    Numbers {
        first: 1 + (sizes.before(step) + before_section(sizes, step, section)),
        count: section_size(sizes, step, section),
    }
}

/// How many clauses of the step stand before those of its pair with the earlier one.
fn before_pair(sizes: Sizes, step: u32, earlier: u32) -> u64
    requires few { step ≤ 1000 }
    requires earlier { earlier < step }
    ensures size { result ≡ before_pair sizes.kind sizes step earlier }
    ensures small { result < 2 ^ 47 }
{
    sizes.states(step) + earlier as u64 * sizes.pair()
}

/// How many clauses of the step stand before those of the part.
fn before_part(sizes: Sizes, step: u32, earlier: u32, part: PairPart) -> u64
    requires few { step ≤ 1000 }
    requires earlier { earlier < step }
    ensures size { result ≡ before_part sizes.kind sizes step earlier part }
    ensures small { result < 2 ^ 50 }
{
    let places = sizes.places() * 4;
    let eventualities = sizes.eventualities as u64;
    match part {
        PairPart::Place(place) => before_pair(sizes, step, earlier) + place as u64 * 4,
        PairPart::Equal => before_pair(sizes, step, earlier) + places,
        PairPart::Fulfilment(number) => {
            let before = number as u64 * fulfilled_size(step, earlier);
            before_pair(sizes, step, earlier) + places + 1 + before
        }
        PairPart::Loop => {
            let fulfilments = eventualities * fulfilled_size(step, earlier);
            before_pair(sizes, step, earlier) + places + 1 + fulfilments
        }
        PairPart::Seen => {
            let before = earlier as u64 * (1 + eventualities);
            before_section(sizes, step, StepSection::Pruning) + before
        }
        PairPart::Prune => before_prune(sizes, step, earlier),
    }
}

fn before_prune(sizes: Sizes, step: u32, earlier: u32) -> u64
    requires few { step ≤ 1000 }
    requires earlier { earlier < step }
    ensures size { result ≡ before_part sizes.kind sizes step earlier parts.Prune }
    ensures small { result < 2 ^ 50 }
{
    let before = before_section(sizes, step, StepSection::Pruning);
    match sizes.kind {
        Kind::Infinite => {
            let seen = step as u64 * (1 + sizes.eventualities as u64);
            before + seen + earlier as u64 * (1 + 3 * sizes.eventualities as u64)
        }
        Kind::Finite => before + earlier as u64,
    }
}

/// How many clauses the part has.
fn part_size(sizes: Sizes, step: u32, earlier: u32, part: PairPart) -> u64
    requires few { step ≤ 1000 }
    requires earlier { earlier < step }
    ensures size { result ≡ part_size sizes.kind sizes step earlier part }
    ensures small { result < 2 ^ 35 }
{
    let eventualities = sizes.eventualities as u64;
    match (part, sizes.kind) {
        (PairPart::Place(_), _) => 4,
        (PairPart::Equal, _) => 1,
        (PairPart::Fulfilment(_), _) => fulfilled_size(step, earlier),
        (PairPart::Loop | PairPart::Seen, _) => 1 + eventualities,
        (PairPart::Prune, Kind::Infinite) => 1 + 3 * eventualities,
        (PairPart::Prune, Kind::Finite) => 1,
    }
}

/// The numbers of the clauses of a part of the step's pair with the earlier one.
pub fn part_numbers(sizes: Sizes, step: u32, earlier: u32, part: PairPart) -> Numbers
    requires few { step ≤ 1000 }
    requires earlier { earlier < step }
    ensures first { result.first ≡ 1 + (before_step sizes.kind sizes step
        + before_part sizes.kind sizes step earlier part) }
    ensures count { result.count ≡ part_size sizes.kind sizes step earlier part }
    ensures small { result.first + result.count < 2 ^ 60 }
{
    Numbers {
        first: 1 + (sizes.before(step) + before_part(sizes, step, earlier, part)),
        count: part_size(sizes, step, earlier, part),
    }
}
