// What is found of a document.
ghost use Rattle.std.specs.Prelude.{◌≡◌};
ghost use Rattle.requirement_answers.specs.declared.findings.ReportRefused.TheVariants.{NoMemory};

use crate::asking::Reply;
use requirement_questions::{Because, Core, QuestionAnswer};
use std::alloc::{AllocError, AllocFailed};

/// An item that a behaviour does not keep, and where it fails first.
#[derive(Clone, Copy, Debug, PartialEq, Eq)]
pub struct Break {
    pub item: u32,
    pub position: u32,
}

/// A behaviour, and the items that it does not keep.
#[derive(Drop)]
pub struct Check {
    pub behaviour: u32,
    pub breaks: Vec<Break>,
}

/// What a report is about: the whole document, or one item, or one behaviour. That what is given can be met
/// together is asked for each of them, since the other questions are asked of what is left.
#[derive(Clone, Copy, Debug, PartialEq, Eq)]
pub enum Scope {
    All,
    Item(u32),
    Behaviour(u32),
}

/// All that is answered. Members are numbered as the items of the document are.
#[derive(Drop)]
pub struct Report {
    /// In the order in which they were found, each among what was left then.
    pub conflicts: Vec<Box<Because>>,
    /// What of the members of each conflict matters for it, in the same order, where that could be told.
    pub cores: Vec<Option<Box<Core>>>,
    /// The assumed and required items that are in no conflict, ascending.
    pub left: Vec<u32>,
    /// Whether these can be met together. It is never `Cannot`.
    pub together: QuestionAnswer,
    /// The further questions, in the document's order.
    pub replies: Vec<Reply>,
    /// Each behaviour against each assumed and required item, those set aside too.
    pub checks: Vec<Check>,
}

/// Why there is no report.
#[derive(Drop, Clone, Copy, Debug, PartialEq, Eq)]
pub enum ReportRefused {
    /// The table of values of this item on this behaviour would have more than 67,108,864 cells.
    Cells { behaviour: u32, item: u32 },
    NoMemory,
}

impl From<AllocError> for ReportRefused {
    ghost from_gives = { λ _ e. e ≡ NoMemory };

    fn from(_: AllocError) -> Self {
        ReportRefused::NoMemory
    }
}

impl<T: Drop> From<AllocFailed<T>> for ReportRefused {
    ghost from_gives = { λ _ e. e ≡ NoMemory };

    fn from(_: AllocFailed<T>) -> Self {
        ReportRefused::NoMemory
    }
}
