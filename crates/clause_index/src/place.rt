// Where a clause stands, from its index in the whole list: the step, the section of the step, and the index
// in the section.
ghost use Rattle.std.specs.Prelude.{◌≡◌, ◌+◌, ◌<◌, ◌≤◌};
ghost use Rattle.clause_index.specs.Counts.{step_size, before_step};
ghost use Rattle.clause_index.specs.Sections.{section_size, before_section};

use crate::sizes::Sizes;

/// The sections of a step's clauses, in their order.
#[derive(Clone, Copy, PartialEq, Eq, Debug, Drop)]
pub enum StepSection {
    /// The state is there only where the one before it is, the gates of its entries, and its requests.
    States,
    /// The pairs that the step makes with the earlier ones.
    Pairs,
    /// By what rule a run is accepted.
    Acceptance,
    /// Which pairs prune.
    Pruning,
}

/// A section, and the index of a clause in it.
#[derive(Clone, Copy, Drop)]
pub struct Spot {
    pub section: StepSection,
    pub index: u64,
}

/// A step, a section of it, and the index of a clause in the section.
#[derive(Clone, Copy, Drop)]
pub struct Place {
    pub step: u32,
    pub section: StepSection,
    pub index: u64,
}

fn spot_of(sizes: Sizes, step: u32, index: u64) -> Spot
    requires few { step ≤ 1000 }
    requires within { index < step_size sizes.kind sizes step }
    ensures place { before_section sizes.kind sizes step result.section + result.index ≡ index }
    ensures within { result.index < section_size sizes.kind sizes step result.section }
{
    let states = sizes.states(step);
    if index < states {
        return Spot {
            section: StepSection::States,
            index,
        };
    }
    let pairs = states + sizes.pairs(step);
    if index < pairs {
        return Spot {
            section: StepSection::Pairs,
            index: index - states,
        };
    }
    let acceptance = pairs + sizes.acceptance();
    if index < acceptance {
        return Spot {
            section: StepSection::Acceptance,
            index: index - pairs,
        };
    }
    Spot {
        section: StepSection::Pruning,
        index: index - acceptance,
    }
}

/// The step whose clauses the index is among, of those up to the depth: by halves.
fn step_of(sizes: Sizes, depth: u32, index: u64) -> u32
    requires few { depth ≤ 1000 }
    requires within { index < before_step sizes.kind sizes (depth + 1) }
    ensures known { result ≤ depth }
    ensures from { before_step sizes.kind sizes result ≤ index }
    ensures to { index < before_step sizes.kind sizes (result + 1) }
{
    let mut low = 0;
    let mut high = depth + 1;
    'halve: while low + 1 < high {
        let middle = (low + high) / 2;
        if sizes.before(middle) <= index {
            low = middle;
        } else {
            high = middle;
        }
    }
    low
}

/// Where the clause of this index, from 0, stands among the steps up to the depth.
#[tactic(auto, using(crate::proofs::Sizing::before_next))]
pub fn place_of(sizes: Sizes, depth: u32, index: u64) -> Place
    requires few { depth ≤ 1000 }
    requires within { index < before_step sizes.kind sizes (depth + 1) }
    ensures known { result.step ≤ depth }
    ensures place { before_step sizes.kind sizes result.step
        + (before_section sizes.kind sizes result.step result.section + result.index) ≡ index }
    ensures within { result.index < section_size sizes.kind sizes result.step result.section }
{
    let step = step_of(sizes, depth, index);
    let spot = spot_of(sizes, step, index - sizes.before(step));
    Place {
        step,
        section: spot.section,
        index: spot.index,
    }
}
