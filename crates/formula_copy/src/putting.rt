// A tree or a node put into a table, where the limit on a formula's size lets it.
ghost use Rattle.std.specs.Prelude.{◌≡◌, ◌<◌, ◌≤◌, length, IfOk};
ghost use Rattle.ltl_syntax.specs.Table.{tree_at, MayFollow};
ghost use Rattle.ltl_syntax.specs.Size.{formula_size};
ghost use Rattle.formula_copy.specs.Copy.{IsPut, IsPutOn};

use crate::copying::copy;
use crate::parts::TablePart;
use ltl_syntax::{FormulaTable, MAX_SIZE, Node, PushRefused, mark_under};
use std::alloc::{AllocError, Global};

/// The size of the formula under a node.
pub fn tree_size(alloc: Global, table: &FormulaTable, root: u32) -> Result<u32, AllocError>
    requires { root < length table.now.nodes }
    ensures size { IfOk result (λ size. size ≡ formula_size (tree_at table.now root)) }
    ensures few { IfOk result (λ size. size ≤ 4177920) }
{
    Ok(mark_under(alloc, table, root)?.size)
}

/// Puts the tree under a node of one table behind the nodes of another, and answers the number of its root
/// there, or none where the sizes would add up to more than 16,384.
pub fn put_tree(
    alloc: Global,
    table: &FormulaTable,
    root: u32,
    target: &mut FormulaTable,
) -> Result<Option<u32>, AllocError>
    requires there { root < length table.now.nodes }
    requires names { length target.old.names ≤ length target.old.nodes }
    ensures { IfOk result (IsPut table.now root target.old target.new) }
{
    let part = TablePart::of(alloc, table, root)?;
    if target.size() + part.size > MAX_SIZE {
        return Ok(None);
    }
    let number = copy(alloc, &part, target)?;
    Ok(Some(number))
}

/// Puts a node on top of roots behind the nodes of a table, and answers its number, or none where the sizes
/// would add up to more than 16,384.
pub fn put_node(table: &mut FormulaTable, node: Node) -> Result<Option<u32>, AllocError>
    requires { MayFollow table.old node }
    ensures { IfOk result (IsPutOn node table.old table.new) }
{
    match table.push(node) {
        Ok(number) => Ok(Some(number)),
        Err(PushRefused::Nodes) => Ok(None),
        Err(PushRefused::NoMemory) => Err(AllocError),
    }
}
