// Whether a formula has fresh letters. A replacement numbers its own from 0, so it is asked of formulas that
// have none: else a letter that was there would be taken for one of these.
ghost use Rattle.std.specs.Prelude.{◌≡◌, ◌↔◌, ◌<◌, false, IsTrue, length, IfOk};
ghost use Rattle.ltl_syntax.specs.Formula.{HasNoFresh};
ghost use Rattle.ltl_syntax.specs.Table.{tree_at};
ghost use Rattle.ltl_syntax.specs.Flat.{is_fresh};

use crate::preorder::nodes_under;
use crate::{FormulaTable, Node};
use std::alloc::{AllocError, Global};

/// Whether no letter under a root is fresh, as in each formula that was read from a text. Takes time linear
/// in the nodes of the tree.
pub fn has_no_fresh(alloc: Global, table: &FormulaTable, root: u32) -> Result<bool, AllocError>
    requires { root < length table.now.nodes }
    ensures { IfOk result (λ none. IsTrue none ↔ HasNoFresh (tree_at table.now root)) }
{
    table.invariant();
    let order = nodes_under(alloc, table, root)?;
    'places: for place in 0..order.len() {
        if is_fresh(table.node(order[place])) {
            return Ok(false);
        }
    }
    Ok(true)
}

/// Whether the node is a fresh letter.
fn is_fresh(node: Node) -> bool
    ensures { result ≡ is_fresh node }
{
    matches!(node, Node::Fresh(_))
}
