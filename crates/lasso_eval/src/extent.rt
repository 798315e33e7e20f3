// How far the columns of a table reach.

/// The columns of a table, for formulas with past operators nested at most `depth` deep.
#[derive(Clone, Copy, Debug, PartialEq, Eq)]
pub struct Extent {
    pub depth: u32,
    pub columns: usize,
    /// The column to which they come back: the first of the last loop, or, on a finite trace,
    /// their number.
    pub loop_start: usize,
}
