// What is asked: formulas that are given, and perhaps one more that is to hold or to fail with them.
use ltl_syntax::{FormulaTable, Kind};

/// How many questions both searches ask of their solvers where nothing else is said.
pub const DEFAULT_STEPS: u32 = 10_000_000;

/// A formula: a table, and the number of its root there.
#[derive(Clone, Copy)]
pub struct Given<'d> {
    pub table: &'d FormulaTable,
    pub root: u32,
}

/// What is asked beside the given formulas: nothing, that a formula holds, or that it fails.
#[derive(Clone, Copy)]
pub enum Wanted<'d> {
    Nothing,
    Holds(Given<'d>),
    Fails(Given<'d>),
}

/// Whether some trace of the kind satisfies each given formula, and what is asked.
#[derive(Clone, Copy)]
pub struct Question<'d> {
    pub kind: Kind,
    pub given: &'d [Given<'d>],
    pub asked: Wanted<'d>,
}

/// How long a question is looked at: how many questions both searches ask of their solvers.
#[derive(Clone, Copy)]
pub struct Limits {
    pub steps: u32,
}
