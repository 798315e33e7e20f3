// What a document says: its items, and the behaviours that it records.
ghost use Rattle.std.specs.Prelude.{◌<◌, length};

use ltl_syntax::{FormulaTable, Kind};
use ltl_word::Trace;

/// What an item is: what may be taken for granted, what is to hold, what has to stay possible, and what has
/// to follow.
#[derive(Clone, Copy, Debug, PartialEq, Eq)]
pub enum Role {
    Assume,
    Require,
    Allow,
    Ensure,
}

/// A formula with a name. Its tree is the one under the root, with what is defined put in.
#[derive(Drop)]
pub struct Item {
    pub role: Role,
    pub name: String,
    /// What the item says in the words of its author.
    pub sentence: Option<String>,
    /// The formula as it is written.
    pub formula: String,
    pub table: FormulaTable,
    pub root: u32,
    pub ghost rooted: { root < length table.nodes },
}

/// A trace with a name, of either kind. Its states list letters: a name that is defined has no part in a
/// formula.
#[derive(Drop)]
pub struct Behaviour {
    pub name: String,
    pub sentence: Option<String>,
    pub trace: Trace,
}

/// The items in the order assumed, required, allowed, ensured, and in each as they are written.
#[derive(Drop)]
pub struct Document {
    /// The kind of the traces that the items speak of.
    pub kind: Kind,
    pub items: Vec<Item>,
    pub behaviours: Vec<Behaviour>,
}
