// How many clauses each part of a step has. They depend on the step alone, so that a clause's number tells
// where it stands.
ghost use Rattle.std.specs.Prelude.{◌≡◌, length, ◌-◌, ◌*◌, ◌/◌, ◌<◌, ◌≤◌, ◌^◌};
ghost use Rattle.ltl_closure.specs.Closure.{nexts, eventualities};
ghost use Rattle.clause_index.specs.Counts.{sizes_of, chain_size, link_size, state_size, place_count};
ghost use Rattle.clause_index.specs.Counts.{pair_size, near_size, pairs_size, accept_size, prune_size};
ghost use Rattle.clause_index.specs.Counts.{before_step};

use crate::acceptance::strong_count;
use crate::gate::gates_count;
use ltl_closure::Closure;
use ltl_syntax::Kind;

/// What the counts of a formula's clauses follow from.
#[derive(Clone, Copy, Drop)]
pub struct Sizes {
    pub kind: Kind,
    /// The clauses of the gates of all entries, at one step.
    pub gates: u32,
    pub nexts: u32,
    pub yesterdays: u32,
    pub eventualities: u32,
    /// How many next requests are strong.
    pub strong: u32,
}

impl Sizes {
    pub fn of(closure: &Closure<'_>) -> Sizes
        ensures sizes { result ≡ sizes_of closure.now.formula closure.now.kind }
        ensures few_nexts { length (nexts closure.now.formula) ≤ 98306 }
        ensures few_eventualities { length (eventualities closure.now.formula) ≤ 98306 }
    {
        let gates = gates_count(closure.entries());
        Sizes {
            kind: closure.kind(),
            gates,
            nexts: closure.nexts().len() as u32,
            yesterdays: closure.yesterdays().len() as u32,
            eventualities: closure.eventualities().len() as u32,
            strong: strong_count(closure),
        }
    }

    pub fn chain(self, step: u32) -> u64
        ensures { result ≡ chain_size step }
    {
        if step == 0 { 0 } else { 1 }
    }

    pub fn links(self, step: u32) -> u64
        ensures size { result ≡ link_size self step }
        ensures small { result < 2 ^ 35 }
    {
        if step == 0 {
            1 + self.yesterdays as u64
        } else {
            2 * self.nexts as u64 + 2 * self.yesterdays as u64
        }
    }

    /// The clauses of a step's own state.
    pub fn states(self, step: u32) -> u64
        ensures size { result ≡ state_size self step }
        ensures small { result < 2 ^ 36 }
    {
        self.chain(step) + (self.gates as u64 + self.links(step))
    }

    /// The places of a carry.
    pub fn places(self) -> u64
        ensures size { result ≡ place_count self }
        ensures small { result < 2 ^ 33 }
    {
        self.nexts as u64 + self.yesterdays as u64
    }

    /// The clauses of the pair that a step makes with an earlier one, if this is not the last before it.
    pub fn pair(self) -> u64
        ensures size { result ≡ pair_size self.kind self }
        ensures small { result < 2 ^ 36 }
        ensures some { 0 < result }
    {
        match self.kind {
            Kind::Infinite => 4 * self.places() + 2 + 4 * self.eventualities as u64,
            Kind::Finite => 4 * self.places() + 1,
        }
    }

    /// The clauses of the pair that a step makes with the last one before it.
    pub fn near(self) -> u64
        ensures size { result ≡ near_size self.kind self }
        ensures small { result < 2 ^ 36 }
    {
        match self.kind {
            Kind::Infinite => 4 * self.places() + 2 + 3 * self.eventualities as u64,
            Kind::Finite => 4 * self.places() + 1,
        }
    }

    /// The clauses of all pairs of a step.
    pub fn pairs(self, step: u32) -> u64
        requires { step ≤ 1000 }
        ensures size { result ≡ pairs_size self.kind self step }
        ensures small { result < 2 ^ 47 }
    {
        if step == 0 {
            0
        } else {
            (step as u64 - 1) * self.pair() + self.near()
        }
    }

    pub fn acceptance(self) -> u64
        ensures size { result ≡ accept_size self.kind self }
        ensures small { result < 2 ^ 33 }
    {
        match self.kind {
            Kind::Infinite => 1 + self.nexts as u64,
            Kind::Finite => self.strong as u64,
        }
    }

    /// What a step's pair with an earlier one says of pruning.
    pub fn pruning(self) -> u64
        ensures size { result ≡ prune_size self.kind self }
        ensures small { result < 2 ^ 35 }
    {
        match self.kind {
            Kind::Infinite => 2 + 4 * self.eventualities as u64,
            Kind::Finite => 1,
        }
    }

    /// The clauses of all steps before this one.
    pub fn before(self, step: u32) -> u64
        requires { step ≤ 1001 }
        ensures size { result ≡ before_step self.kind self step }
        ensures small { result < 2 ^ 58 }
    {
        if step == 0 {
            return 0;
        }
        let first = self.gates as u64 + (1 + self.yesterdays as u64) + self.acceptance();
        let later = 1 + self.gates as u64 + self.links(1) + self.near() + self.acceptance();
        let count = step - 1;
        first
            + count as u64 * later
            + pairs_below(count) * self.pair()
            + pairs_below(step) * self.pruning()
    }
}

/// How many pairs this number of steps makes.
fn pairs_below(count: u32) -> u64
    requires { count ≤ 1001 }
    ensures pairs { result ≡ count * (count - 1) / 2 }
    ensures small { result < 2 ^ 20 }
{
    count as u64 * (count as u64).saturating_sub(1) / 2
}
