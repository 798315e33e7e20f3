// The table of a formula: its nodes, children before parents, and the names of its letters.
//
// A node is added only on top of roots, so each node belongs to one tree at most, and a number stands for the
// tree under it. Names are kept in the order of first appearance in a hash table, and a flag beside each node
// tells whether it is still a root, so that a text is read in time near to linear whatever it contains.
ghost use Rattle.std.specs.Prelude.{◌≡◌, ◌≢◌, ℕ, ◌+◌, ◌<◌, ◌≤◌, ◌↔◌, ◌&&◌, not, false, [], Some, length, map};
ghost use Rattle.std.specs.Prelude.{slice_get, slice_index_or, string_bytes, IfOk, OnOk, OnErr, IsTrue};
ghost use Rattle.std.specs.List.{count_by};
ghost use Rattle.ltl_syntax.specs.declared.table.PushRefused.TheVariants.{NoMemory};
ghost use Rattle.ltl_syntax.specs.Table.{Table, IsTable, IsRoot, MayFollow, IsFine, IsPlain, Pushes, Names};
ghost use Rattle.ltl_syntax.specs.Table.{tree_at, trees_of, made, has_child};
ghost use Rattle.ltl_syntax.specs.Size.{sizes, node_size, HasOrder};
ghost use Rattle.ltl_syntax.specs.Roots.{HasChildrenBelow};

use crate::Node;
use indexmap::IndexSet;
use std::alloc::{AllocError, AllocFailed, Global};
use std::marker::Model;

/// The most that the sizes of a table's nodes add up to, and the largest size of a formula.
pub const MAX_SIZE: u32 = 16_384;

/// Why a node was not added: the sizes of the nodes would add up to more than 16,384, or memory ran out.
#[derive(Clone, Copy, Debug, PartialEq, Eq)]
pub enum PushRefused {
    Nodes,
    NoMemory,
}

impl<T: Drop> From<AllocFailed<T>> for PushRefused {
    ghost from_gives = { λ _ e. e ≡ NoMemory };

    fn from(_: AllocFailed<T>) -> Self {
        PushRefused::NoMemory
    }
}

/// Nodes, numbered from 0, and the distinct names of letters, numbered from 0 in order of first appearance.
///
/// Contracts see it as its two lists, and each node number as the formula under it.
#[derive(Drop)]
pub struct FormulaTable {
    alloc: Global,
    nodes: Vec<Node>,
    root_flags: Vec<bool>,
    size: u32,
    names: IndexSet<String>,
}

impl Model for FormulaTable {
    ghost use Rattle.std.specs.Prelude.{◌≡◌, map, string_bytes};
    ghost use Rattle.ltl_syntax.specs.Table.{Table, IsTable};
    ghost use Rattle.ltl_syntax.specs.Size.{sizes};
    ghost use Rattle.ltl_syntax.specs.Roots.{AreRootFlags};

    ghost Value = { Table };

    ghost view = { λ t. record { nodes = t.nodes.items; names = map string_bytes t.names.keys } };

    ghost invariant = { λ t. IsTable t.nodes.items (map string_bytes t.names.keys)
        × AreRootFlags t.nodes.items t.root_flags.items × (t.size ≡ sizes t.nodes.items) };
}

impl FormulaTable {
    /// A table without nodes and names, which takes no memory.
    pub fn new(alloc: Global) -> FormulaTable
        ensures { result ≡ record { nodes = []; names = [] } }
    {
        FormulaTable {
            alloc,
            nodes: Vec::new(alloc),
            root_flags: Vec::new(alloc),
            size: 0,
            names: IndexSet::new(alloc),
        }
    }

    /// The number of a name, which joins the table where it was not there.
    pub fn name(&mut self, text: &str) -> Result<u32, AllocError>
        requires room { length self.old.names < 4294967295 }
        requires plain { IsPlain text.now }
        ensures ok { IfOk result (λ number. Names self.old text.now number self.new) }
        ensures few { OnOk result (length self.new.names ≤ length self.old.names + 1) }
        ensures err { OnErr result (self.new ≡ self.old) }
    {
        if let Some(number) = self.names.get_index_of(text) {
            return Ok(number as u32);
        }
        let number = self.names.len() as u32;
        let name = String::from_str(self.alloc, text)?;
        self.names.insert(name)?;
        Ok(number)
    }

    /// Whether the node is there and is no other node's child. Takes constant time.
    pub fn is_root(&self, number: u32) -> bool
        ensures { IsTrue result ↔ IsRoot self.now number }
    {
        (number as usize) < self.root_flags.len() && self.root_flags[number as usize]
    }

    /// Whether `push` may be asked for the node: its children are two distinct roots, its letter has a name,
    /// and its numbers are in order. Takes constant time.
    pub fn may_push(&self, node: Node) -> bool
        ensures { IsTrue result ↔ MayFollow self.now node }
    {
        match node {
            Node::Const(_) | Node::Fresh(_) => true,
            Node::Letter(letter) => letter < self.letters(),
            Node::Unary(op, a) => self.is_root(a) && op.is_in_order(),
            Node::Binary(_, a, b) => self.is_root(a) && self.is_root(b) && a != b,
        }
    }

    /// Puts a node behind the others, on top of roots, and answers its number.
    pub fn push(&mut self, node: Node) -> Result<u32, PushRefused>
        requires { MayFollow self.old node }
        ensures number { IfOk result (λ number. number ≡ length self.old.nodes) }
        ensures ok { OnOk result (Pushes self.old node self.new) }
        ensures root { IfOk result (λ number. IsRoot self.new number) }
        ensures nodes { result ≡ Err PushRefused.Nodes ↔ (16384 < sizes self.old.nodes + node_size node) }
        ensures err { OnErr result (self.new ≡ self.old) }
    {
        let size = self.size + node.size();
        if size > MAX_SIZE {
            return Err(PushRefused::Nodes);
        }
        let number = self.nodes.len() as u32;
        self.root_flags.push(true)?;
        match self.nodes.push(node) {
            Ok(()) => {
                clear_children(&mut self.root_flags, node);
                self.size = size;
                Ok(number)
            }
            Err(_) => {
                self.root_flags.pop();
                Err(PushRefused::NoMemory)
            }
        }
    }

    /// The sum of the sizes of the nodes.
    pub fn size(&self) -> u32
        ensures size { result ≡ sizes self.now.nodes }
        ensures few { result ≤ 16384 }
    {
        self.size
    }

    /// The number of nodes. No node is the child of two.
    pub fn len(&self) -> u32
        ensures count { result ≡ length self.now.nodes }
        ensures few { length self.now.nodes ≤ 16384 }
        ensures single { (number : ℕ) → count_by (has_child number) self.now.nodes ≤ 1 }
    {
        self.nodes.len() as u32
    }

    /// The node, which stands for the tree that it makes of the trees of its children.
    pub fn node(&self, number: u32) -> Node
        requires { number < length self.now.nodes }
        ensures node { slice_get self.now.nodes number ≡ Some result }
        ensures tree { tree_at self.now number ≡ made self.now.names (trees_of self.now) result }
        ensures below { IsFine (length self.now.names) number result }
        ensures ordered { HasOrder result }
    {
        self.nodes[number as usize]
    }

    /// Does nothing: its contract says what holds of every table.
    pub fn invariant(&self)
        ensures { IsTable self.now.nodes self.now.names }
    {
        let _nodes = &self.nodes;
    }

    /// The number of names.
    pub fn letters(&self) -> u32
        ensures count { result ≡ length self.now.names }
        ensures distinct { (i j : ℕ) → i < j → j < length self.now.names
            → slice_index_or self.now.names i [] ≢ slice_index_or self.now.names j [] }
        ensures plain { (i : ℕ) → i < length self.now.names → IsPlain (slice_index_or self.now.names i []) }
    {
        self.names.len() as u32
    }

    /// The name with this number.
    pub fn name_of(&self, letter: u32) -> &str
        requires { letter < length self.now.names }
        ensures name { slice_get self.now.names letter ≡ Some result.now }
        ensures plain { IsPlain result.now }
    {
        self.names.as_slice()[letter as usize].as_str()
    }
}

/// The node's children are roots no more.
fn clear_children(flags: &mut Vec<bool>, node: Node)
    requires { HasChildrenBelow (length flags.old.items) node }
    ensures count { length flags.new.items ≡ length flags.old.items }
    ensures each { (i : ℕ) → slice_index_or flags.new.items i false
        ≡ (slice_index_or flags.old.items i false && not (has_child i node)) }
{
    match node {
        Node::Const(_) | Node::Letter(_) | Node::Fresh(_) => {}
        Node::Unary(_, a) => flags[a as usize] = false,
        Node::Binary(_, a, b) => {
            flags[a as usize] = false;
            flags[b as usize] = false;
        }
    }
}
