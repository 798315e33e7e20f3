// The states of a run, and the rules by which a run is accepted.

/// The values of the letters, of the next requests and of the yesterday requests of a closure, each in the
/// closure's order. Weak requests stand among the others.
#[derive(Drop)]
pub struct RunState {
    pub letters: Vec<bool>,
    pub nexts: Vec<bool>,
    pub yesterdays: Vec<bool>,
}

/// The rule by which a run is accepted: no next request is true in its last state (infinite kind), the last
/// state closes to an earlier one, whose number from 0 is named (infinite kind), or no strong next request is
/// true in the last state (finite kind).
#[derive(Clone, Copy, Debug, PartialEq, Eq)]
pub enum Close {
    Empty,
    Loop(u32),
    End,
}
