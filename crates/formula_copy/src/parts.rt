// A formula of a table, which may hold more than this formula.
ghost use Rattle.std.specs.Prelude.{◌<◌, ◌≤◌, length, IfOk};
ghost use Rattle.formula_copy.specs.Part.{IsPart};

use ltl_syntax::{FormulaTable, mark_under};
use std::alloc::{AllocError, Global};

/// A formula under a root, with a mark for each node up to the root that stands under it or is it, and its
/// size.
#[derive(Drop)]
pub struct TablePart<'t> {
    pub table: &'t FormulaTable,
    pub root: u32,
    pub marks: Vec<bool>,
    pub size: u32,
}

impl<'t> TablePart<'t> {
    /// The formula under a node.
    pub fn of(
        alloc: Global,
        table: &'t FormulaTable,
        root: u32,
    ) -> Result<TablePart<'t>, AllocError>
        requires { root < length table.now.nodes }
        ensures part { IfOk result (IsPart table.now root) }
        ensures few { IfOk result (λ part. part.size ≤ 4177920) }
    {
        let under = mark_under(alloc, table, root)?;
        Ok(TablePart {
            table,
            root,
            marks: under.marks,
            size: under.size,
        })
    }
}
