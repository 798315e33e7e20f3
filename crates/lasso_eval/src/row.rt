// The table: a row of truth values for each formula.
ghost use Rattle.std.specs.Prelude.{◌≡◌, ◌<◌, [], length};
ghost use Rattle.lasso_eval.specs.Rows.{cell, row_at};

use std::alloc::Global;
use std::marker::Model;

/// The truth value of a formula at each position, from 0.
#[derive(Drop)]
pub struct Row {
    cells: Vec<bool>,
}

impl Model for Row {
    ghost use Rattle.std.specs.Prelude.{Bool, List};

    ghost Value = { List Bool };

    ghost view = { λ r. r.cells.items };
}

impl Row {
    pub fn new(cells: Vec<bool>) -> Row
        ensures { result ≡ cells.items }
    {
        Row { cells }
    }

    /// The row of a node that is not under the root. It takes no memory.
    pub fn empty(alloc: Global) -> Row
        ensures { result ≡ [] }
    {
        Row {
            cells: Vec::new(alloc),
        }
    }

    pub fn cells(&self) -> &[bool]
        ensures { result.now ≡ self.now }
    {
        &self.cells
    }
}

/// Where each formula under a root holds. Contracts see a list of rows, one for each node number
/// up to the root, and a row as its truth values; a node that is not under the root has no cells.
#[derive(Drop)]
pub struct TruthRows {
    rows: Vec<Row>,
}

impl Model for TruthRows {
    ghost use Rattle.std.specs.Prelude.{Bool, List};

    ghost Value = { List (List Bool) };

    ghost view = { λ v. v.rows.items };
}

impl TruthRows {
    pub(crate) fn new(rows: Vec<Row>) -> TruthRows
        ensures { result ≡ rows.items }
    {
        TruthRows { rows }
    }

    /// At how many positions, from 0, the formula under the node has a value: at none where it is
    /// not under the root.
    pub fn positions(&self, node: u32) -> usize
        requires { node < length self.now }
        ensures { result ≡ length (row_at self.now node) }
    {
        self.rows[node as usize].cells().len()
    }

    /// Whether the formula under the node holds at the position, both from 0. It takes no memory.
    pub fn at(&self, node: u32, position: u32) -> bool
        requires { position < length (row_at self.now node) }
        ensures { result ≡ cell (row_at self.now node) position }
    {
        self.rows[node as usize].cells()[position as usize]
    }
}
