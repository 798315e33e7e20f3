// What is put in for a run that was found, in terms of states, places and eventualities: whoever has the
// clause list knows which of its clauses these are.
use crate::pruning::Pruned;

/// Clauses of the list, by what they say. Numbers of states, of places of a carry and of eventualities count
/// from 0.
#[derive(Clone, Copy, PartialEq, Eq, Debug, Drop)]
pub enum Constraint {
    /// Where the carries of the two states are one, they are so at this place. The value is that of the
    /// earlier state, which the later one has not.
    Place {
        earlier: u32,
        later: u32,
        place: usize,
        value: bool,
    },
    /// Where the run closes from the later state to the earlier one, their carries are one.
    Loop {
        earlier: u32,
        later: u32,
    },
    /// Where the run closes from the later state to the earlier one and the eventuality is pending there, it
    /// is fulfilled at some state in between.
    Fulfilment {
        earlier: u32,
        later: u32,
        eventuality: usize,
    },
    /// Where no state may be pruned, this one is not pruned by these.
    Pruning(Pruned),
}
