// Nodes of a table as marks, one for each number, for the walks that go over a table in the order of its
// numbers: children before parents.
ghost use Rattle.std.specs.Prelude.{◌≡◌, ◌+◌, ◌*◌, ◌<◌, ◌≤◌, All, length, IfOk};
ghost use Rattle.std.specs.List.{sum_by};
ghost use Rattle.ltl_syntax.specs.Formula.{nodes_in};
ghost use Rattle.ltl_syntax.specs.Table.{tree_at};
ghost use Rattle.ltl_syntax.specs.Size.{formula_size};
ghost use Rattle.ltl_syntax.specs.Cutting.{AreMarked};
ghost use Rattle.ltl_syntax.specs.Under.{AreMarksUnder, size_at};

use crate::FormulaTable;
use crate::preorder::nodes_under;
use std::alloc::{AllocError, Global};

/// The nodes under a root: a mark for each node up to the root, how many are marked, and the sum of their
/// sizes.
#[derive(Drop)]
pub struct MarkedNodes {
    pub marks: Vec<bool>,
    pub count: u32,
    pub size: u32,
}

/// Marks the nodes under a root. Takes time linear in their number, and in that of the nodes up to the root.
pub fn mark_under(alloc: Global, table: &FormulaTable, root: u32) -> Result<MarkedNodes, AllocError>
    requires { root < length table.now.nodes }
    ensures length { IfOk result (λ under. length under.marks.items ≡ root + 1) }
    ensures marks { IfOk result (λ under. AreMarksUnder table.now root under.marks.items) }
    ensures count { IfOk result (λ under. under.count ≡ nodes_in (tree_at table.now root)) }
    ensures few { IfOk result (λ under. under.count ≤ root + 1) }
    ensures size { IfOk result (λ under. under.size ≡ formula_size (tree_at table.now root)) }
    ensures small { IfOk result (λ under. under.size ≤ 255 * 16384) }
{
    table.invariant();
    let order = nodes_under(alloc, table, root)?;
    let marks = marked(alloc, root + 1, &order)?;
    let size = sum_of_sizes(table, &order);
    let count = order.len() as u32;
    Ok(MarkedNodes { marks, count, size })
}

/// A mark for each of these numbers, all of them below a count.
pub fn marked(alloc: Global, count: u32, numbers: &[u32]) -> Result<Vec<bool>, AllocError>
    requires { All (λ number. number < count) numbers.now }
    ensures long { IfOk result (λ marks. length marks.items ≡ count) }
    ensures marked { IfOk result (λ marks. AreMarked numbers.now marks.items) }
{
    let mut marks = vec![in alloc; false; count as usize]?;
    'numbers: for index in 0..numbers.len() {
        marks[numbers[index] as usize] = true;
    }
    Ok(marks)
}

/// The sizes of the nodes with these numbers, added up.
fn sum_of_sizes(table: &FormulaTable, numbers: &[u32]) -> u32
    requires there { All (λ number. number < length table.now.nodes) numbers.now }
    requires few { length numbers.now ≤ 16384 }
    ensures sum { result ≡ sum_by (size_at table.now) numbers.now }
    ensures small { result ≤ 255 * length numbers.now }
{
    let mut sum = 0;
    'sizes: for index in 0..numbers.len() {
        sum += table.node(numbers[index]).size();
    }
    sum
}
