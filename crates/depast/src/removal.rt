// Taking past operators out: the size is counted first, then the row of the formula is written, and
// the table is built from it.
ghost use Rattle.std.specs.Prelude.{◌≡◌, ℕ, ◌<◌, ◌≤◌, [], length, slice_get, slice_index_or, Some, Err, IfOk};
ghost use Rattle.ltl_syntax.specs.Table.{tree_at};
ghost use Rattle.depast.specs.declared.removal.RemoveRefused.TheVariants.{NoMemory};
ghost use Rattle.depast.specs.Names.{new_name};
ghost use Rattle.depast.specs.Removal.{IsRemoved, IsTooLarge};

use crate::build::build;
use crate::counts::counts_under;
use crate::names::NewNames;
use crate::writer::written;
use ltl_syntax::{FormulaTable, MAX_SIZE};
use ltl_word::Name;
use std::alloc::{AllocError, AllocFailed, Global};
use std::marker::Model;

/// Why past operators were not taken out.
#[derive(Clone, Copy, Debug, PartialEq, Eq)]
pub enum RemoveRefused {
    /// The formula without them would have this size, which is above 16,384.
    Nodes(u32),
    /// No memory was left.
    NoMemory,
}

impl From<AllocError> for RemoveRefused {
    ghost from_gives = { λ _ e. e ≡ NoMemory };

    fn from(_: AllocError) -> Self {
        RemoveRefused::NoMemory
    }
}

impl<T: Drop> From<AllocFailed<T>> for RemoveRefused {
    ghost from_gives = { λ _ e. e ≡ NoMemory };

    fn from(_: AllocFailed<T>) -> Self {
        RemoveRefused::NoMemory
    }
}

/// A formula without past operators, and the new names that stand in it for past formulas.
#[derive(Drop)]
pub struct Removed {
    table: FormulaTable,
    root: u32,
    names: Vec<Name>,
}

impl Model for Removed {
    ghost use Rattle.std.specs.Prelude.{length, ◌≤◌};
    ghost use Rattle.depast.specs.Removal.{Kept};

    ghost Value = { Kept };

    ghost view = { λ r. record { table = r.table; root = r.root; names = r.names.items } };

    ghost invariant = { λ r. length r.names.items ≤ 16384 };
}

impl Removed {
    /// The table of the formula without past operators.
    pub fn table(&self) -> &FormulaTable
        ensures { result.now ≡ self.now.table }
    {
        &self.table
    }

    /// Its root in this table.
    pub fn root(&self) -> u32
        ensures { result ≡ self.now.root }
    {
        self.root
    }

    /// How many new names there are.
    pub fn count(&self) -> u32
        ensures { result ≡ length self.now.names }
    {
        self.names.len() as u32
    }

    /// The new name with this number, from 0.
    pub fn name(&self, number: u32) -> &str
        requires { number < length self.now.names }
        ensures { slice_get self.now.names number ≡ Some result.now }
    {
        self.names[number as usize].text()
    }

    pub(crate) fn names(&self) -> &[Name]
        ensures { result.now ≡ self.now.names }
    {
        &self.names
    }
}

/// The formula under the root without past operators: new names stand for past formulas, and an
/// axiom says of each new name what it means. The formula has a trace of a kind exactly where the
/// result has one.
pub fn remove(alloc: Global, table: &FormulaTable, root: u32) -> Result<Removed, RemoveRefused>
    requires { root < length table.now.nodes }
    ensures ok { IfOk result (IsRemoved (tree_at table.now root)) }
    ensures nodes { (a : ℕ) → result ≡ Err (RemoveRefused.Nodes a) → IsTooLarge (tree_at table.now root) a }
{
    let counts = counts_under(alloc, table, root)?;
    let size = counts.residue + counts.axioms;
    if size > MAX_SIZE {
        return Err(RemoveRefused::Nodes(size));
    }
    let mut writer = written(alloc, table, root)?;
    writer.row.extend_from_slice(&writer.axioms)?;
    let names = NewNames::new(alloc, counts.underscores)?;
    let (table, root) = build(alloc, table, &names, &writer.row)?;
    let names = all_names(alloc, &names, writer.next)?;
    Ok(Removed { table, root, names })
}

/// The new names with numbers below the count.
fn all_names(alloc: Global, names: &NewNames, count: u32) -> Result<Vec<Name>, AllocError>
    ensures count { IfOk result (λ all. length all.items ≡ count) }
    ensures each { IfOk result (λ all. (k : ℕ) → k < count
        → slice_index_or all.items k [] ≡ new_name names.now.most k) }
{
    let mut all = Vec::with_capacity(alloc, count as usize)?;
    for number in 0..count {
        let text = names.name(alloc, number)?;
        all.push(Name::new(alloc, &text)?)?;
    }
    Ok(all)
}
