// The text of a formula, read as the program `black` reads it, and the definitions put in.
ghost use Rattle.std.specs.Prelude.{◌≡◌, ◌<◌, length};
ghost use Rattle.ltl_syntax.specs.Table.{tree_at};
ghost use Rattle.ltl_syntax.specs.Size.{formula_size};

use ltl_syntax::FormulaTable;

/// A formula: the tree under the root.
#[derive(Drop)]
pub struct Tree {
    pub table: FormulaTable,
    pub root: u32,
    pub size: u64,
    pub ghost rooted: { root < length table.nodes },
    pub ghost sized: { size ≡ formula_size (tree_at table root) },
}
