// The closure of a formula, as entries with numbers from 1.
ghost use Rattle.std.specs.Prelude.{◌≡◌, ℕ, ◌<◌, ◌≤◌, ◌↔◌, length, All, IfOk, IsTrue};
ghost use Rattle.ltl_syntax.specs.Table.{tree_at};
ghost use Rattle.ltl_closure.specs.Norm.{pos_of};
ghost use Rattle.ltl_closure.specs.Closure.{closure, nexts, yesterdays, eventualities};
ghost use Rattle.ltl_closure.specs.Entries.{place_in, numbers_of, entry_at, AreEntries, IsNumber};
ghost use Rattle.ltl_closure.specs.Run.{bound};

use crate::Entry;
use crate::group::Group;
use crate::walk::walk_from;
use ltl_syntax::{FormulaTable, Kind};
use std::alloc::{AllocError, Global};
use std::marker::Model;

/// The closure of the formula under a node of a table, for one kind of trace.
#[derive(Drop)]
pub struct Closure<'t> {
    table: &'t FormulaTable,
    kind: Kind,
    node: u32,
    entries: Vec<Entry>,
    root: u32,
    nexts: Vec<u32>,
    yesterdays: Vec<u32>,
    eventualities: Vec<u32>,
}

impl<'t> Model for Closure<'t> {
    ghost use Rattle.ltl_closure.specs.Entries.{ClosureValue, coded_closure, IsClosure};
    ghost use Rattle.ltl_syntax.specs.Table.{tree_at};

    ghost Value = { ClosureValue };

    ghost coded = { coded_closure };

    ghost view = { λ c. record {
      table = c.table.now;
      node = c.node;
      formula = tree_at c.table.now c.node;
      kind = c.kind;
      names = c.table.now.names;
      entries = c.entries.items;
    } };

    ghost invariant = { λ c. IsClosure c.table.now c.node c.entries.items c.root c.nexts.items
        c.yesterdays.items c.eventualities.items };
}

impl<'t> Closure<'t> {
    /// The closure of the tree under the node `root`, which is walked once for each of its nodes and signs.
    pub fn of(
        alloc: Global,
        table: &'t FormulaTable,
        root: u32,
        kind: Kind,
    ) -> Result<Closure<'t>, AllocError>
        requires { root < length table.now.nodes }
        ensures table { IfOk result (λ c. c.table ≡ table.now) }
        ensures node { IfOk result (λ c. c.node ≡ root) }
        ensures formula { IfOk result (λ c. c.formula ≡ tree_at table.now root) }
        ensures kind { IfOk result (λ c. c.kind ≡ kind) }
        ensures names { IfOk result (λ c. c.names ≡ table.now.names) }
        ensures entries { IfOk result (λ c. AreEntries c.names c.formula c.entries) }
    {
        let walked = walk_from(alloc, table, root)?;
        let nexts = Group::Nexts.numbers(alloc, &walked.entries)?;
        let yesterdays = Group::Yesterdays.numbers(alloc, &walked.entries)?;
        let eventualities = Group::Eventualities.numbers(alloc, &walked.entries)?;
        Ok(Closure {
            table,
            kind,
            node: root,
            entries: walked.entries,
            root: walked.root,
            nexts,
            yesterdays,
            eventualities,
        })
    }

    /// The table that was lent.
    pub fn table(&self) -> &'t FormulaTable
        ensures table { result.now ≡ self.now.table }
        ensures names { result.now.names ≡ self.now.names }
        ensures formula { (node : ℕ) × (node < length result.now.nodes)
            × (tree_at result.now node ≡ self.now.formula) }
    {
        self.table
    }

    /// The node whose formula's closure it is.
    pub fn node(&self) -> u32
        ensures node { result ≡ self.now.node }
        ensures there { result < length self.now.table.nodes }
        ensures formula { tree_at self.now.table result ≡ self.now.formula }
        ensures names { self.now.table.names ≡ self.now.names }
    {
        self.node
    }

    pub fn kind(&self) -> Kind
        ensures { result ≡ self.now.kind }
    {
        self.kind
    }

    /// The number of the formula's normal form.
    pub fn root(&self) -> u32
        ensures number { result ≡ place_in (closure self.now.formula) (pos_of self.now.formula) }
        ensures known { IsNumber (length (closure self.now.formula)) result }
    {
        self.root
    }

    /// The entries in the closure's order. The first has number 1.
    pub fn entries(&self) -> &[Entry]
        ensures entries { result.now ≡ self.now.entries }
        ensures closure { AreEntries self.now.names self.now.formula result.now }
        ensures few { length result.now ≤ 98306 }
    {
        &self.entries
    }

    /// The entry of a number, from 1 on.
    pub fn entry(&self, number: u32) -> Entry
        requires { IsNumber (length (closure self.now.formula)) number }
        ensures entry { result ≡ entry_at self.now.entries number }
        ensures closure { AreEntries self.now.names self.now.formula self.now.entries }
    {
        self.entries[number as usize - 1]
    }

    /// The numbers of the next requests, weak ones too, in the closure's order.
    pub fn nexts(&self) -> &[u32]
        ensures numbers { result.now ≡ numbers_of self.now.formula (nexts self.now.formula) }
        ensures known { All (IsNumber (length (closure self.now.formula))) result.now }
    {
        &self.nexts
    }

    /// The numbers of the yesterday requests, weak ones too, in the closure's order.
    pub fn yesterdays(&self) -> &[u32]
        ensures numbers { result.now ≡ numbers_of self.now.formula (yesterdays self.now.formula) }
        ensures known { All (IsNumber (length (closure self.now.formula))) result.now }
    {
        &self.yesterdays
    }

    /// The numbers of the entries `a U b`, in the closure's order.
    pub fn eventualities(&self) -> &[u32]
        ensures numbers { result.now ≡ numbers_of self.now.formula (eventualities self.now.formula) }
        ensures known { All (IsNumber (length (closure self.now.formula))) result.now }
    {
        &self.eventualities
    }

    /// Whether the bound on the least length of a run that settles the formula is at most the limit.
    pub fn bound_at_most(&self, limit: u32) -> bool
        requires { limit ≤ 1000 }
        ensures { IsTrue result ↔ (bound self.now.formula self.now.kind ≤ limit) }
    {
        let requests = self.nexts.len() + self.yesterdays.len();
        if requests >= 10 {
            return false;
        }
        let carries = 1u64 << requests;
        let bound = match self.kind {
            Kind::Infinite => (self.eventualities.len() as u64 + 1).saturating_mul(carries),
            Kind::Finite => carries,
        };
        bound <= limit as u64
    }
}

// A closure may be read by several workers at once: the check of this call is the proof.
fn shares<T: Send + Sync>(_: &T) {}

fn closure_is_shared(closure: &Closure<'_>) {
    shares(closure);
}
